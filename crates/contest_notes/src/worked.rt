ghost use Rattle.std.specs.Prelude.{◌≡◌, [], ◌∷◌, None, Some, codes};
ghost use Rattle.farm_kinds.specs.declared.outcomes.ProblemMode.TheVariants as mode;
ghost use Rattle.contest_notes.specs.Mistakes.{mistake_in};
ghost use Rattle.contest_notes.specs.Notes.{note_of_line, notes_of_modes};
ghost use Rattle.contest_notes.specs.declared.notes.ContestNote.TheVariants as note;
ghost use Rattle.program_notes.specs.declared.faults.ProgramFault.TheVariants.{Empty};
ghost use Rattle.contest_notes.specs.declared.mistakes.Mistake.TheVariants.{File, Mark, Number, Problem, Return, SpaceAtEnd, SpaceInFront, Tab, Team, TwoSpaces, Words};

/// Lines in the place of submission 4, and what is wrong with each.
pub fn worked_mistakes()
    ensures carriage_return { mistake_in 4 (codes "4 otters sum late.elf\r") ≡ Return }
    ensures mark { mistake_in 4 (239 ∷ 187 ∷ 191 ∷ codes "4 otters sum late.elf") ≡ Mark }
    ensures tab { mistake_in 4 (codes "4\totters sum late.elf") ≡ Tab }
    ensures in_front { mistake_in 4 (codes " 4 otters sum late.elf") ≡ SpaceInFront }
    ensures at_end { mistake_in 4 (codes "4 otters sum late.elf ") ≡ SpaceAtEnd }
    ensures two { mistake_in 4 (codes "4 otters  sum late.elf") ≡ TwoSpaces }
    ensures three_words { mistake_in 4 (codes "4 otters sum") ≡ Words }
    ensures skips_one { mistake_in 4 (codes "5 otters sum late.elf") ≡ Number }
    ensures with_zero { mistake_in 4 (codes "04 otters sum late.elf") ≡ Number }
    ensures team { mistake_in 4 (codes "4 ot.ters sum late.elf") ≡ Team }
    ensures problem { mistake_in 4 (codes "4 otters s/m late.elf") ≡ Problem }
    ensures file { mistake_in 4 (codes "4 otters sum .elf") ≡ File }
{}

/// Notes on what the problems `ad` and `echo` are not, and on a line whose file is empty, and beside them what is no
/// note.
pub fn worked_notes()
    ensures lost { notes_of_modes (codes "ad" ∷ codes "echo" ∷ []) (record { name = codes "echoo"; mode = mode.Full } ∷ record { name = codes "echo"; mode = mode.Full } ∷ []) ≡ note.LostMode (codes "echoo") ∷ [] }
    ensures program { note_of_line (record { path = codes "s/a.py"; bytes = [] } ∷ []) (codes "s") (codes "3 otters ad a.py") ≡ Some (note.NoProgram (codes "3") (codes "a.py") Empty []) }
    ensures comment { note_of_line (record { path = codes "s/a.py"; bytes = [] } ∷ []) (codes "s") (codes "# otters ad a.py") ≡ None }
    ensures absent { note_of_line [] (codes "s") (codes "3 otters ad a.py") ≡ None }
    ensures five_words { note_of_line (record { path = codes "s/a.py"; bytes = [] } ∷ []) (codes "s") (codes "3 otters ad a.py late") ≡ None }
{}
