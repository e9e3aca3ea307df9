//! Computed examples, for the proof alone: each function has an empty body, and the check computes its contract.
ghost use Rattle.std.specs.Prelude.{◌≡◌, [], ◌∷◌, Some, None, codes, replicate, true, false};
ghost use Rattle.farm_kinds.specs.declared.kinds.Kind.TheVariants.{Correct, WrongAnswer, RunError};
ghost use Rattle.farm_kinds.specs.declared.outcomes.Verdict.TheVariants.{Tests, CompilerError};
ghost use Rattle.farm_kinds.specs.declared.outcomes.Answer.TheVariants.{Final, Pending};
ghost use Rattle.farm_kinds.specs.declared.outcomes.Mode.TheVariants.{Lazy, Full};
ghost use Rattle.farm_kinds.specs.declared.outcomes.ProblemMode.TheVariants as problem;
ghost use Rattle.farm_kinds.specs.declared.outcomes.ProblemMode.TheVariants.{OnDemand};
ghost use Rattle.farm_kinds.specs.declared.outcomes.Class.TheVariants.{Normal, Low};
ghost use Rattle.farm_kinds.specs.declared.events.Event.TheVariants as event;
ghost use Rattle.farm_kinds.specs.Names.{jury};
ghost use Rattle.farm_kinds.specs.Rules.{standard};
ghost use Rattle.farm_model.specs.Numbers.{number_of, list_of};
ghost use Rattle.farm_model.specs.Rows.{answer_of, matters};
ghost use Rattle.farm_model.specs.Texts.{event_text};
ghost use Rattle.farm_model.specs.Words.{words};
ghost use Rattle.farm_model.specs.State.{standard_settings, start};
ghost use Rattle.farm_model.specs.Replay.{state_after};
ghost use Rattle.farm_model.specs.Script.{script_output, events_of};

/// The words and the numbers of lines.
pub fn words_and_numbers()
    ensures words { words (codes "  record 1  2 correct ") ≡ codes "record" ∷ codes "1" ∷ codes "2" ∷ codes "correct" ∷ [] }
    ensures zero { number_of (codes "0") ≡ Some 0 }
    ensures widest { number_of (codes "4294967295") ≡ Some 4294967295 }
    ensures too_wide { number_of (codes "4294967296") ≡ None }
    ensures leading_zero { number_of (codes "01") ≡ None }
    ensures sign { number_of (codes "+1") ≡ None }
    ensures list { list_of (codes "3,1,3") ≡ Some (3 ∷ 1 ∷ 3 ∷ []) }
    ensures open_list { list_of (codes "3,") ≡ None }
    ensures spaced_list { list_of (codes "3,,1") ≡ None }
{}

/// What is reported of rows, with and without lazy evaluation.
pub fn answers_to_rows()
    ensures empty { answer_of standard Lazy (None ∷ None ∷ None ∷ []) ≡ Pending }
    ensures middle { answer_of standard Lazy (Some Correct ∷ Some WrongAnswer ∷ None ∷ []) ≡ Pending }
    ensures decided { answer_of standard Lazy (Some Correct ∷ Some RunError ∷ None ∷ []) ≡ Final (Tests RunError) }
    ensures waits { answer_of standard Full (Some Correct ∷ Some RunError ∷ None ∷ []) ≡ Pending }
    ensures full { answer_of standard Full (Some Correct ∷ Some RunError ∷ Some Correct ∷ []) ≡ Final (Tests RunError) }
    ensures broken { answer_of standard Full [] ≡ Final CompilerError }
{}

/// A problem of two tests, whose results are entered in order.
pub fn smallest_path()
    ensures { script_output standard_settings (codes "problem A 2\nsubmit A\nrecord 1 1 correct\nshow 1\nrecord 1 2 correct\nshow 1\n")
        ≡ codes "problem A version 1\nsubmission 1 judging 1\ncounted\npending\ncounted\nfinal correct\n" }
{}

/// Nothing is read, and nothing is written.
pub fn empty_input()
    ensures { script_output standard_settings [] ≡ [] }
{}

/// A middle priority does not stop the judging, and the greatest priority decides.
pub fn greatest_priority_decides()
    ensures { script_output standard_settings (codes "problem A 3\nsubmit A\nrecord 1 1 correct\nrecord 1 2 wrong-answer\nshow 1\nrecord 1 3 correct\nshow 1\n")
        ≡ codes "problem A version 1\nsubmission 1 judging 1\ncounted\ncounted\npending\ncounted\nfinal wrong-answer\n" }
{}

/// A result of the greatest priority decides once the earlier tests are judged, which could tie with it.
pub fn tie_with_an_earlier_rank()
    ensures { script_output standard_settings (codes "problem A 3\nhost h1\nhost h2\nsubmit A\nrecord 1 2 run-error\nshow 1\nrecord 1 1 correct\nshow 1\nclaim h1\n")
        ≡ codes "problem A version 1\nhost h1\nhost h2\nsubmission 1 judging 1\ncounted\npending\ncounted\nfinal run-error\nnothing\n" }
{}

/// A kind that alone has the greatest priority decides at once.
pub fn unique_greatest_priority()
    ensures { script_output (record standard_settings { rule = record standard { prios = 1 ∷ 30 ∷ 99 ∷ 100 ∷ 10 ∷ 99 ∷ 99 ∷ 99 ∷ [] } }) (codes "problem A 3\nhost h1\nhost h2\nsubmit A\nrecord 1 2 timelimit\nshow 1\nclaim h1\n")
        ≡ codes "problem A version 1\nhost h1\nhost h2\nsubmission 1 judging 1\ncounted\nfinal timelimit\nnothing\n" }
{}

/// Where every kind counts as one, no test has to be judged.
pub fn one_possible_kind()
    ensures { script_output (record standard_settings { rule = record standard { remaps = replicate 8 Correct } }) (codes "problem A 3\nhost h1\nhost h2\nsubmit A\nshow 1\nclaim h1\nrecord 1 1 run-error\nrecord 1 1 timelimit\n")
        ≡ codes "problem A version 1\nhost h1\nhost h2\nsubmission 1 judging 1\nfinal correct\nnothing\ncounted\nrepeat correct\n" }
{}

/// With equal priorities the first test decides.
pub fn equal_priorities()
    ensures { script_output (record standard_settings { rule = record standard { prios = replicate 8 5 } }) (codes "problem A 3\nhost h1\nhost h2\nsubmit A\nrecord 1 1 no-output\nshow 1\n")
        ≡ codes "problem A version 1\nhost h1\nhost h2\nsubmission 1 judging 1\ncounted\nfinal no-output\n" }
{}

/// With equal priorities a later test decides nothing, and only the first one is handed out.
pub fn equal_priorities_later()
    ensures { script_output (record standard_settings { rule = record standard { prios = replicate 8 5 } }) (codes "problem A 3\nhost h1\nhost h2\nsubmit A\nrecord 1 2 no-output\nshow 1\nclaim h1\nclaim h1\n")
        ≡ codes "problem A version 1\nhost h1\nhost h2\nsubmission 1 judging 1\ncounted\npending\ntask 1 1 until 60\nnothing\n" }
{}

/// Without lazy evaluation every test is judged.
pub fn full_judging()
    ensures { script_output (record standard_settings { mode = Full }) (codes "problem A 2\nsubmit A\nrecord 1 1 run-error\nshow 1\nrecord 1 2 correct\nshow 1\n")
        ≡ codes "problem A version 1\nsubmission 1 judging 1\ncounted\npending\ncounted\nfinal run-error\n" }
{}

/// Judgings of a problem on demand wait to be asked for, and in a problem that is judged in full every test is judged.
pub fn problems_with_modes()
    ensures { script_output (record standard_settings { modes = (record { name = codes "A"; mode = OnDemand }) ∷ (record { name = codes "B"; mode = problem.Full }) ∷ [] }) (codes "problem A 1\nhost h1\nsubmit A\nclaim h1\nask 1\nask 1\nclaim h1\nresult h1 1 1 correct\nrejudge 1\nask 2\nclaim h1\nask 9\nproblem B 2\nsubmit B\nrecord 3 1 run-error\nshow 3\n")
        ≡ codes "problem A version 1\nhost h1\nsubmission 1 judging 1\nnothing\npending\nalready 1\ntask 1 1 until 60\ncounted\nrejudging 1 judgings 2 to 2\nalready 2\ntask 2 1 until 60\nno-judging 9\nproblem B version 1\nsubmission 2 judging 3\ncounted\npending\n" }
{}

/// A judging that was dropped is not asked for, and `ask` of the jury is entered in the audit log.
pub fn asked_judgings()
    ensures dropped { script_output (record standard_settings { modes = (record { name = codes "A"; mode = OnDemand }) ∷ [] }) (codes "problem A 1\nsubmit A\nrecord 1 1 correct\nrejudge 1\ncancel 1\nask 2\n@ann ask 1\nask 1 1\nask\n")
        ≡ codes "problem A version 1\nsubmission 1 judging 1\ncounted\nrejudging 1 judgings 2 to 2\ncancelled 1\ndropped\nfinal correct\nbad-line\nbad-line\n" }
    ensures logged { (state_after (start (record standard_settings { modes = (record { name = codes "A"; mode = OnDemand }) ∷ [] })) (events_of (codes "problem A 1\nsubmit A\n@ann ask 1\nask 1\n"))).texts
        ≡ codes "jury problem A 1" ∷ codes "ann ask 1" ∷ [] }
{}

/// Hosts fetch tests of one judging, hold them for longer together, and lose those that do not matter any more.
pub fn batches()
    ensures { script_output standard_settings (codes "problem A 3\nhost h1\nhost h2\nsubmit A\nfetch h1 2\nfetch h2 16\nfetch h2 1\ntick 10\nrenew h1 1 2\ntick 60\nclaim h2\nresult h1 1 1 run-error\nshow 1\nrenew h1 1 2\ndown h2\nresult h1 1 2 correct\nowner 1\nowner 7\nfetch h1 17\nfetch h9 1\n")
        ≡ codes "problem A version 1\nhost h1\nhost h2\nsubmission 1 judging 1\nbatch 1 1,2 until 60\nbatch 1 3 until 60\nnothing\nended 0\nuntil 70\nended 1\ntask 1 3 until 120\ncounted\nfinal run-error\nno-lease\nended 0\ncounted\nowner 1\nno-judging 7\nbad-line\nno-host h9\n" }
{}

/// A fetch takes the tests of one judging that are open, and leaves those of the next.
pub fn batch_of_one_judging()
    ensures { script_output standard_settings (codes "problem A 2\nhost h1\nhost h2\nsubmit A low\nsubmit A\nclaim h1\nfetch h2 2\nfetch h1 3\nfetch h1 0\n")
        ≡ codes "problem A version 1\nhost h1\nhost h2\nsubmission 1 judging 1\nsubmission 2 judging 2\ntask 2 1 until 60\nbatch 2 2 until 60\nbatch 1 1,2 until 60\nbad-line\n" }
{}

/// A result that comes again or comes otherwise does not count.
pub fn repeated_different()
    ensures { script_output standard_settings (codes "problem A 1\nsubmit A\nrecord 1 1 correct\nrecord 1 1 correct\nrecord 1 1 timelimit\nshow 1\n")
        ≡ codes "problem A version 1\nsubmission 1 judging 1\ncounted\nrepeat correct\ndiffers correct timelimit\nfinal correct\n" }
{}

/// A result that is late counts; one that comes again or comes otherwise does not.
pub fn late_repeated_different()
    ensures { script_output standard_settings (codes "problem A 3\nhost h1\nhost h2\nsubmit A\nclaim h1\ntick 60\nclaim h2\nresult h1 1 1 correct\nrenew h2 1 1\nresult h2 1 1 correct\nresult h2 1 1 timelimit\nresult h2 1 2 correct\n")
        ≡ codes "problem A version 1\nhost h1\nhost h2\nsubmission 1 judging 1\ntask 1 1 until 60\nended 1\ntask 1 1 until 120\ncounted\nno-lease\nrepeat correct\ndiffers correct timelimit\nnot-handed\n" }
{}

/// A lease is held until its end, and time never goes back.
pub fn one_before_the_end()
    ensures { script_output standard_settings (codes "problem A 3\nhost h1\nhost h2\nsubmit A\nclaim h1\ntick 59\nclaim h2\nrenew h1 1 1\ntick 10\n")
        ≡ codes "problem A version 1\nhost h1\nhost h2\nsubmission 1 judging 1\ntask 1 1 until 60\nended 0\ntask 1 2 until 119\nuntil 119\nended 0\n" }
{}

/// A host that goes down loses its leases, and may come up again.
pub fn death_and_return()
    ensures { script_output standard_settings (codes "problem A 3\nhost h1\nhost h2\nsubmit A\nclaim h1\nclaim h1\ndown h1\nclaim h1\nclaim h2\nhost h1\nclaim h1\nhost h1\n")
        ≡ codes "problem A version 1\nhost h1\nhost h2\nsubmission 1 judging 1\ntask 1 1 until 60\ntask 1 2 until 60\nended 2\nno-host h1\ntask 1 1 until 60\nhost h1\ntask 1 2 until 60\nknown h1\n" }
{}

/// A submission that is broken is final from the start, and has no tests.
pub fn broken_image()
    ensures { script_output standard_settings (codes "problem A 3\nsubmit A\nsubmit A broken\nshow 2\nrecord 2 1 correct\n")
        ≡ codes "problem A version 1\nsubmission 1 judging 1\nsubmission 2 judging 2\nfinal compiler-error\nno-test 1\n" }
{}

/// Classes are judged in their order, and each in the order of its judgings.
pub fn classes()
    ensures { script_output standard_settings (codes "problem A 1\nhost h1\nsubmit A low\nsubmit A\nsubmit A high\nclaim h1\nclaim h1\nclaim h1\nclaim h1\n")
        ≡ codes "problem A version 1\nhost h1\nsubmission 1 judging 1\nsubmission 2 judging 2\nsubmission 3 judging 3\ntask 3 1 until 60\ntask 2 1 until 60\ntask 1 1 until 60\nnothing\n" }
{}

/// A new version of a problem gives later judgings its tests, and leaves the others alone.
pub fn replaced_problem()
    ensures { script_output standard_settings (codes "problem A 2\nsubmit A\nreplace A 1\nsubmit A\nrecord 1 2 correct\nrecord 2 2 correct\n")
        ≡ codes "problem A version 1\nsubmission 1 judging 1\nproblem A version 2\nsubmission 2 judging 2\ncounted\nno-test 2\n" }
{}

/// What is refused, and why.
pub fn refusals()
    ensures { script_output standard_settings (codes "problem A 0\nproblem A 3\nproblem A 2\nproblem B 1001\nsubmit B\nsubmit\nshow 01\nshow 9\nsubmit A\nrecord 1 4 correct\nrecord 1 1 fine\nclaim h1\n")
        ≡ codes "bad-tests 0\nproblem A version 1\nknown A\nbad-tests 1001\nno-problem B\nbad-line\nbad-line\nno-judging 9\nsubmission 1 judging 1\nno-test 4\nbad-line\nno-host h1\n" }
{}

/// What hosts are refused, and in which order.
pub fn refusals_of_hosts()
    ensures { script_output standard_settings (codes "replace A 0\nreplace A 1\nresult h 1 1 correct\nrenew h 1 1\ndown h\nhost h\nresult h 1 1 correct\nrenew h 1 1\nproblem A 1\nsubmit A\nresult h 1 2 correct\nrenew h 1 2\nresult h 1 1 correct\nrenew h 1 1\n")
        ≡ codes "bad-tests 0\nno-problem A\nno-host h\nno-host h\nno-host h\nhost h\nno-judging 1\nno-judging 1\nproblem A version 1\nsubmission 1 judging 1\nno-test 2\nno-test 2\nnot-handed\nno-lease\n" }
{}

/// Which lines are events: comments and empty lines are none, and spaces do not count.
pub fn lines_and_comments()
    ensures { script_output standard_settings (codes "# problem A 1\n   \n  #x\n\r\n  problem   A  1 \r\nshow 1 1\nshow\n show 1 #\nSHOW 1\nsubmit A.B\nproblem C 4294967296\nrecord 1 1")
        ≡ codes "problem A version 1\nbad-line\nbad-line\nbad-line\nbad-line\nbad-line\nbad-line\nbad-line\n" }
{}

/// Which lines of hosts and submissions are events.
pub fn lines_of_hosts()
    ensures { script_output standard_settings (codes "tick 999999999999999999\ntick 1000000000000000000\ntick 01\ntick\nhost\nhost h h\nclaim h h\nresult h 1 1\nrenew h 1\ndown\nsubmit A low broken\nsubmit A broken low\nsubmit A normal\nsubmit A high high\n")
        ≡ codes "ended 0\nbad-line\nbad-line\nbad-line\nbad-line\nbad-line\nbad-line\nbad-line\nbad-line\nbad-line\nno-problem A\nbad-line\nno-problem A\nbad-line\n" }
{}

/// Events as lines: `normal` is not written, and who acts is where it is not the jury.
pub fn event_lines()
    ensures named { event_text (event.Problem (codes "ann") (codes "A") 2) ≡ codes "@ann problem A 2" }
    ensures unnamed { event_text (event.Replace jury (codes "A") 2) ≡ codes "replace A 2" }
    ensures class { event_text (event.Submit (codes "A") Low true) ≡ codes "submit A low broken" }
    ensures normal { event_text (event.Submit (codes "A") Normal false) ≡ codes "submit A" }
    ensures result { event_text (event.Result (codes "h1") 1 2 RunError) ≡ codes "result h1 1 2 run-error" }
    ensures moment { event_text (event.Tick 60) ≡ codes "tick 60" }
    ensures list { event_text (event.Rejudge jury (3 ∷ 1 ∷ [])) ≡ codes "rejudge 3,1" }
    ensures empty { event_text (event.Rejudge (codes "ann") []) ≡ codes "@ann rejudge" }
{}

/// Cells that matter: one that can still decide the verdict.
pub fn cells_that_matter()
    ensures decided { matters standard (Some RunError ∷ None ∷ []) 2 ≡ false }
    ensures earlier { matters standard (None ∷ Some RunError ∷ []) 1 ≡ true }
    ensures middle { matters standard (Some WrongAnswer ∷ None ∷ []) 2 ≡ true }
    ensures filled { matters standard (Some Correct ∷ None ∷ []) 1 ≡ false }
    ensures absent { matters standard (None ∷ []) 2 ≡ false }
{}

/// A line of 4,097 letters is skipped, and its length is answered.
pub fn too_long()
    ensures { script_output standard_settings (replicate 4097 97) ≡ codes "too-long 4097\n" }
{}
