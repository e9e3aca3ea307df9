//! Computed examples, for the proof alone: each function has an empty body, and the check computes its contract.
ghost use Rattle.std.specs.Prelude.{◌≡◌, [], ◌∷◌, Some, codes, true};
ghost use Rattle.farm_kinds.specs.declared.kinds.Kind.TheVariants.{Correct, WrongAnswer};
ghost use Rattle.farm_kinds.specs.declared.outcomes.Verdict.TheVariants.{Tests, CompilerError};
ghost use Rattle.farm_kinds.specs.declared.outcomes.Answer.TheVariants.{Final, Pending};
ghost use Rattle.farm_model.specs.Matrix.{matrix_of};
ghost use Rattle.farm_model.specs.Rejudgings.{first_twice};
ghost use Rattle.farm_model.specs.State.{standard_settings, start};
ghost use Rattle.farm_model.specs.Replay.{state_after};
ghost use Rattle.farm_model.specs.Script.{script_output, events_of};

/// A rejudging is applied as one change, once all of it is final.
pub fn apply_is_one_change()
    ensures { script_output standard_settings (codes "problem A 1\nsubmit A\nsubmit A\nrecord 1 1 correct\nrecord 2 1 wrong-answer\nrejudge 1,2\nrecord 3 1 wrong-answer\napply 1\nboard\nrecord 4 1 correct\nmatrix 1\napply 1\nboard\napply 1\n")
        ≡ codes "problem A version 1\nsubmission 1 judging 1\nsubmission 2 judging 2\ncounted\ncounted\nrejudging 1 judgings 3 to 4\ncounted\nunfinished 4\n1 correct\n2 wrong-answer\nboard 2\ncounted\ncorrect wrong-answer 1\nwrong-answer correct 1\nmatrix 2\napplied 2\n1 wrong-answer\n2 correct\nboard 2\nclosed applied\n" }
{}

/// A rejudging is cancelled without a trace: its judgings are dropped, and no verdict changes.
pub fn cancel_changes_nothing()
    ensures { script_output standard_settings (codes "problem A 1\nhost h1\nsubmit A\nrecord 1 1 correct\nrejudge 1\nrejudge 1\nclaim h1\ncancel 1\nresult h1 2 1 timelimit\nshow 2\nboard\ncancel 1\n")
        ≡ codes "problem A version 1\nhost h1\nsubmission 1 judging 1\ncounted\nrejudging 1 judgings 2 to 2\nbusy 1 1\ntask 2 1 until 60\ncancelled 1\ndropped\npending\n1 correct\nboard 1\nclosed cancelled\n" }
{}

/// What is refused of rejudgings, and why.
pub fn refusals_of_rejudgings()
    ensures { script_output standard_settings (codes "problem A 3\nsubmit A\nrejudge\nrejudge 1\nrejudge 2\nmatrix 1\napply 1\ncancel 1\nverify 1\nverify 2\n")
        ≡ codes "problem A version 1\nsubmission 1 judging 1\nempty-set\nnot-final 1\nno-submission 2\nno-rejudging 1\nno-rejudging 1\nno-rejudging 1\nnot-final 1\nno-judging 2\n" }
{}

/// The submission that stood earlier in the list first is named, and a busy one after it.
pub fn twice_and_busy()
    ensures first { first_twice (1 ∷ 2 ∷ 2 ∷ 1 ∷ []) ≡ Some 2 }
    ensures order { script_output standard_settings (codes "problem A 1\nsubmit A broken\nsubmit A broken\nrejudge 2\nrejudge 1,2\nrejudge 1,2,2\nrejudge 3,3\ncancel 1\nverify 3\nrejudge 1,2\n")
        ≡ codes "problem A version 1\nsubmission 1 judging 1\nsubmission 2 judging 2\nrejudging 1 judgings 3 to 3\nbusy 2 1\ntwice 2\nno-submission 3\ncancelled 1\ndropped\nrejudging 2 judgings 4 to 5\n" }
{}

/// A rejudging of a submission that is broken is final at once.
pub fn rejudging_of_a_broken_image()
    ensures { script_output standard_settings (codes "problem A 3\nhost h1\nhost h2\nsubmit A\nsubmit A broken\nshow 2\nrecord 2 1 correct\nrejudge 2\napply 1\nrejudge 2,2\n")
        ≡ codes "problem A version 1\nhost h1\nhost h2\nsubmission 1 judging 1\nsubmission 2 judging 2\nfinal compiler-error\nno-test 1\nrejudging 1 judgings 3 to 3\napplied 1\ntwice 2\n" }
{}

/// Where verification is required, the public sees a verdict once it is verified.
pub fn verification()
    ensures { script_output (record standard_settings { verification = true }) (codes "problem A 1\nsubmit A\nrecord 1 1 correct\nboard\nshow 1\n@ann verify 1\nboard\nverify 1\n")
        ≡ codes "problem A version 1\nsubmission 1 judging 1\ncounted\n1 pending\nboard 1\nfinal correct\nverified 1\n1 correct\nboard 1\nalready 1\n" }
{}

/// A new current judging has its own mark: it waits to be verified.
pub fn verification_of_a_rejudging()
    ensures { script_output (record standard_settings { verification = true }) (codes "problem A 1\nsubmit A\nrecord 1 1 correct\nverify 1\nrejudge 1\nrecord 2 1 timelimit\nboard\napply 1\nboard\nverify 2\nboard\n")
        ≡ codes "problem A version 1\nsubmission 1 judging 1\ncounted\nverified 1\nrejudging 1 judgings 2 to 2\ncounted\n1 correct\nboard 1\napplied 1\n1 pending\nboard 1\nverified 2\n1 timelimit\nboard 1\n" }
{}

/// A rejudging has as many tests as its problem has now.
pub fn rejudging_of_a_new_version()
    ensures { script_output standard_settings (codes "problem A 1\nsubmit A\nrecord 1 1 correct\nreplace A 2\nrejudge 1\nrecord 2 2 correct\nmatrix 1\n")
        ≡ codes "problem A version 1\nsubmission 1 judging 1\ncounted\nproblem A version 2\nrejudging 1 judgings 2 to 2\ncounted\ncorrect pending 1\nmatrix 1\n" }
{}

/// The rows of a matrix stand in the order of the old and then of the new answer.
pub fn rows_of_a_matrix()
    ensures { matrix_of ((Pending, Final CompilerError) ∷ (Final (Tests WrongAnswer), Pending) ∷ (Final (Tests WrongAnswer), Final (Tests Correct)) ∷ (Pending, Final CompilerError) ∷ [])
        ≡ (record { old = Final (Tests WrongAnswer); new = Final (Tests Correct); count = 1 })
        ∷ (record { old = Final (Tests WrongAnswer); new = Pending; count = 1 })
        ∷ (record { old = Pending; new = Final CompilerError; count = 2 }) ∷ [] }
{}

/// Which lines of the jury are events: `@NAME` says who acts, on no other line.
pub fn lines_of_the_jury()
    ensures { script_output standard_settings (codes "@ann # x\n@ann problem B 1\n@ann show 1\n@ann submit B\n@ problem C 1\n@a.b problem C 1\n@ann @bob problem C 1\n@ann\nrejudge 1,\nrejudge ,1\nrejudge 01\nrejudge 1 2\nboard now\naudit 1\nmatrix\napply\ncancel 1 1\n@ann replace B 2\n@jury replace B 1\n")
        ≡ codes "bad-line\nproblem B version 1\nbad-line\nbad-line\nbad-line\nbad-line\nbad-line\nbad-line\nbad-line\nbad-line\nbad-line\nbad-line\nbad-line\nbad-line\nbad-line\nbad-line\nbad-line\nproblem B version 2\nproblem B version 3\n" }
{}

/// An audit log of no entries has the digest of no bytes.
pub fn empty_audit()
    ensures { script_output standard_settings (codes "audit") ≡ codes "audit 0 e3b0c44298fc1c149afbf4c8996fb92427ae41e4649b934ca495991b7852b855\n" }
{}

/// Each digest is over the one before it and the text.
pub fn audit_chain()
    ensures { script_output standard_settings (codes "problem A 1\nsubmit A\nrecord 1 1 correct\n@ann verify 1\naudit\n")
        ≡ codes "problem A version 1\nsubmission 1 judging 1\ncounted\nverified 1\naudit 2 47aa9ae7d892b24ea54a73319637fe8ca5786a7313b6ca92757be9d2a8012b3a\n" }
{}

/// The audit log holds who acted and the words of what was accepted, and nothing else.
pub fn audit_texts()
    ensures { (state_after (start standard_settings) (events_of (codes "problem  A  1\nproblem A 1\nsubmit A\nrecord 1 1 correct\n@ann verify 1\n@ann verify 1\n@bob rejudge 1\nmatrix 1\nboard\naudit\ncancel 1\n@jury replace A 2\n"))).texts
        ≡ codes "jury problem A 1" ∷ codes "ann verify 1" ∷ codes "bob rejudge 1" ∷ codes "jury cancel 1" ∷ codes "jury replace A 2" ∷ [] }
{}
