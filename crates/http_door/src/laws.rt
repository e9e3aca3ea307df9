//! Laws of the cut into requests. These functions do nothing: what each ensures is the law.
ghost use Rattle.std.specs.Prelude.{◌≡◌, ℕ, List, [], ◌++◌};
ghost use Rattle.http_door.specs.declared.ending.Ending.{Ending as Cause};
ghost use Rattle.http_door.specs.Requests.{Request, IsRequest, AreRequests, EndsAs, Cuts, IsRefusal, IsOfBytes};

/// A request at the front of bytes stands there whatever follows.
pub fn request_stays()
    ensures { (bytes : List ℕ) (r : Request) (rest more : List ℕ)
        → IsRequest bytes r rest → IsRequest (bytes ++ more) r (rest ++ more) }
{}

/// At most one request stands at the front of bytes.
pub fn request_is_one()
    ensures { (bytes : List ℕ) (r q : Request) (rest left : List ℕ)
        → IsRequest bytes r rest → IsRequest bytes q left → (r ≡ q) × (rest ≡ left) }
{}

/// Bytes that are refused are refused whatever follows.
pub fn refusal_stays()
    ensures { (bytes more : List ℕ) (e : Cause) → IsRefusal e → EndsAs e bytes → EndsAs e (bytes ++ more) }
{}

/// No request stands at the front of bytes that end so.
pub fn ends_are_apart()
    ensures { (bytes : List ℕ) (r : Request) (rest : List ℕ) (e : Cause)
        → IsRequest bytes r rest → IsOfBytes e → ¬ EndsAs e bytes }
{}

/// Where no bytes are left, nothing is refused.
pub fn nothing_is_no_refusal()
    ensures { (e : Cause) → EndsAs e [] → ¬ IsRefusal e }
{}

/// Bytes are cut into the same requests, however they end.
pub fn cut_is_one()
    ensures { (bytes : List ℕ) (rs qs : List Request) (e f : Cause)
        → IsOfBytes e → IsOfBytes f → Cuts bytes rs e → Cuts bytes qs f → rs ≡ qs }
{}
