ghost use Rattle.std.specs.Prelude.{◌≡◌, ◌≢◌};
ghost use Rattle.std.specs.Bool.{OnTrue, OnFalse};

/// A row of what is published: a value that is copied and compared.
pub trait Row: Copy {
    /// Whether both are the same row.
    fn is_same(&self, other: &Self) -> bool
        ensures same { OnTrue result (self.now ≡ other.now) }
        ensures other { OnFalse result (self.now ≢ other.now) };
}

/// Whether both lists have the same rows.
pub(crate) fn same_rows<R: Row>(xs: &[R], ys: &[R]) -> bool
    ensures same { OnTrue result (xs.now ≡ ys.now) }
    ensures other { OnFalse result (xs.now ≢ ys.now) }
{
    if xs.len() != ys.len() {
        return false;
    }
    for i in 0..xs.len() {
        if !xs[i].is_same(&ys[i]) {
            return false;
        }
    }
    true
}
