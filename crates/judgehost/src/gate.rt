ghost use Rattle.std.specs.Prelude.{◌≡◌, ℕ, Bool, true};
ghost use Rattle.judgehost.specs.declared.gate.Point.{Point};
ghost use Rattle.judgehost.specs.declared.gate.Go.{Go};

/// Where in a turn a gate is asked.
#[derive(Clone, Copy, Debug, PartialEq, Eq)]
pub enum Point {
    /// A task was handed out, and is not run yet.
    AfterClaim,
    /// The task was run, and its result is not posted yet.
    BeforePost,
    /// The result was posted. A bench may keep all others from the farm until this host's next claim, so a gate must not
    /// wait here for another host.
    AfterPost,
}

/// Whether a host goes on.
#[derive(Clone, Copy, Debug, PartialEq, Eq)]
pub enum Go {
    /// It goes on.
    On,
    /// It dies here, and calls nothing any more.
    Die,
}

/// Decides at which points hosts die.
pub trait Gate {
    /// Whether this may be the answer to a host at a point of a turn.
    ghost may_answer: { Self → ℕ → Point → ℕ → Go → Bool };

    /// Whether the host goes on at this point of its turn. Turns are numbered from 1.
    fn pass(&self, host: u32, point: Point, turn: u64) -> Go
        ensures { may_answer self.now host point turn result ≡ true };
}

/// Lets every host go on.
#[derive(Clone, Copy, Debug)]
pub struct AlwaysOn;

impl Gate for AlwaysOn {
    ghost use Rattle.judgehost.specs.Gates.{is_on};

    ghost may_answer = { λ gate host point turn go. is_on go };

    fn pass(&self, _host: u32, _point: Point, _turn: u64) -> Go {
        Go::On
    }
}
