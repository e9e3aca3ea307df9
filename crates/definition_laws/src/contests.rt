//! Laws, for the proof alone: each function has an empty body, and its contract is the law.
ghost use Rattle.std.specs.Prelude.{◌≡◌, ◌≤◌, ◌<◌, ◌+◌, ℕ, List, Ok, Some, take, codes};
ghost use Rattle.std.specs.List.{sum};
ghost use Rattle.farm_tree.specs.declared.reads.TreeFile.{TreeFile};
ghost use Rattle.farm_tree.specs.Reading.{file_at};
ghost use Rattle.farm_tree.specs.Listing.{in_folder};
ghost use Rattle.contest_folder.specs.RosterValue.{RosterValue};
ghost use Rattle.contest_folder.specs.Contest.{contest_of};
ghost use Rattle.contest_folder.specs.Images.{added_all, total_limit};
ghost use Rattle.definition_laws.specs.SaidLines.{said_lines, AreSaid};

/// The submissions of a contest are the lines of `submissions.txt` that are neither blank nor comments, one for each,
/// in order and numbered from 1, with the bytes of the files that they name, or none where these are too many.
pub fn each_line_is_one_submission()
    ensures { (files : List TreeFile) (path : List ℕ) (roster : RosterValue) → contest_of files path ≡ Ok roster
        → (text : List ℕ) × (file_at files (in_folder path (codes "submissions.txt")) ≡ Some text)
        × AreSaid files path 1 (said_lines text) roster.submissions }
{}

/// The bytes of files that are added up to the one that passes the limit are all of them where these are within it, and
/// else those of the first files that are not.
pub fn a_contest_is_too_large_at_its_first_file_past_the_limit()
    ensures within { (sizes : List ℕ) → sum sizes ≤ total_limit → added_all 0 sizes ≡ sum sizes }
    ensures first_past { (sizes : List ℕ) (k : ℕ) → sum (take k sizes) ≤ total_limit → total_limit < sum (take (k + 1) sizes)
        → added_all 0 sizes ≡ sum (take (k + 1) sizes) }
{}
