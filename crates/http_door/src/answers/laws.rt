//! Laws of the cut into responses. These functions do nothing: what each ensures is the law.
ghost use Rattle.std.specs.Prelude.{◌≡◌, ℕ, List, ◌++◌};
ghost use Rattle.http_door.specs.declared.answers.ending.AnswerEnding.{AnswerEnding as Cause};
ghost use Rattle.http_door.specs.Answers.{Answer, IsAnswer, EndsAs, Cuts, IsFault, IsOfBytes};

/// A response at the front of bytes stands there whatever follows.
pub fn answer_stays()
    ensures { (bytes : List ℕ) (a : Answer) (rest more : List ℕ)
        → IsAnswer bytes a rest → IsAnswer (bytes ++ more) a (rest ++ more) }
{}

/// At most one response stands at the front of bytes.
pub fn answer_is_one()
    ensures { (bytes : List ℕ) (a b : Answer) (rest left : List ℕ)
        → IsAnswer bytes a rest → IsAnswer bytes b left → (a ≡ b) × (rest ≡ left) }
{}

/// A fault of the bytes is one whatever follows.
pub fn fault_stays()
    ensures { (bytes more : List ℕ) (e : Cause) → IsFault e → EndsAs e bytes → EndsAs e (bytes ++ more) }
{}

/// No response stands at the front of bytes that end so.
pub fn answers_end_apart()
    ensures { (bytes : List ℕ) (a : Answer) (rest : List ℕ) (e : Cause)
        → IsAnswer bytes a rest → IsOfBytes e → ¬ EndsAs e bytes }
{}

/// Bytes are cut into the same responses, however they end.
pub fn answers_are_one()
    ensures { (bytes : List ℕ) (us bs : List Answer) (e f : Cause)
        → IsOfBytes e → IsOfBytes f → Cuts bytes us e → Cuts bytes bs f → us ≡ bs }
{}
