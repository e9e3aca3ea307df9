ghost use Rattle.std.specs.Prelude.{◌≡◌, ℕ, List, [], ◌∷◌, codes, Ok, Err};
ghost use Rattle.contest_folder.specs.declared.lines.Entry.{Entry};
ghost use Rattle.contest_folder.specs.Contest.{contest_of};
ghost use Rattle.contest_folder.specs.SubmissionLines.{entries_of};
ghost use Rattle.contest_folder.specs.Images.{added_all};

use crate::faults::ContestFault;

/// Lines of `submissions.txt`: blank lines and comments are skipped, and numbers follow one another.
pub fn worked_lines()
    ensures lines { let one : Entry = record { line = 2; team = codes "a-1"; problem = codes "echo"; file = codes "x.rv32" } in
        let two : Entry = record { line = 5; team = codes "b"; problem = codes "p"; file = codes "_" } in
        entries_of (codes "# teams\n1 a-1 echo x.rv32\n\n   \n2 b p _") ≡ Ok (one ∷ two ∷ []) }
    ensures spaces { entries_of (codes "1 a  p x") ≡ Err (ContestFault.BadLine 1) }
    ensures numbers { entries_of (codes "1 a p x\n1 a p x\n") ≡ Err (ContestFault.BadLine 2) }
    ensures hidden { entries_of (codes "1 a p .x\n") ≡ Err (ContestFault.BadLine 1) }
    ensures carriage_return { entries_of (codes "1 a p x\r\n") ≡ Err (ContestFault.BadLine 1) }
    ensures none { entries_of (codes "") ≡ Ok [] }
{}

/// The bytes of a contest are counted up to the file that passes the limit.
pub fn worked_totals()
    ensures passed { added_all 0 (1073741824 ∷ 1 ∷ 5 ∷ []) ≡ 1073741825 }
    ensures within { added_all 0 (1073741823 ∷ 1 ∷ 0 ∷ []) ≡ 1073741824 }
{}

/// A folder that holds nothing has no list of submissions.
#[tactic(auto, unfolding(crate::specs::Contest::contest_of))]
pub fn worked_folder()
    ensures { contest_of [] (codes "c") ≡ Err ContestFault.NoList }
{}
