ghost use Rattle.std.specs.Prelude.{◌≡◌};

use farm_kinds::{NoMemory, Text};
use farm_settings::SettingsFault;
use package_folder::PackageFault;

/// Why a folder is no contest: the first fault in this order. `TooLarge`, `Tree` and `NoMemory` end the reading where
/// they are met.
#[derive(Debug, Drop)]
pub enum ContestFault {
    /// The text of `farm.json` has this fault.
    Settings(SettingsFault),
    /// The first folder below `problems` whose name is no name of a problem.
    BadName { name: Text },
    /// There are so many problems, which are more than 1,000.
    TooManyProblems { count: u64 },
    /// The first problem whose folder is no package.
    Package { short: Text, fault: PackageFault },
    /// There is no `submissions.txt`.
    NoList,
    /// The first line of `submissions.txt` that is not `NUMBER TEAM PROBLEM FILE`, or whose number is not the next one.
    BadLine { line: u32 },
    /// The first line whose problem is not there.
    NoProblem { line: u32 },
    /// The first line whose file is not there.
    NoImage { line: u32 },
    /// There are so many submissions, which are more than 100,000.
    TooManySubmissions { count: u64 },
    /// The test files and the images that are held have more than 1 GiB: so many bytes up to the file that passed this.
    TooMuch { total: u64 },
    /// A file has so many bytes, which are more than 16 MiB; its path below the contest's folder. A package's file that
    /// is too large is a fault of the package, and an image that is too large is held as an empty one.
    TooLarge { name: Text, len: u64 },
    /// The tree failed.
    Tree,
    /// No memory was left.
    NoMemory,
}

impl From<NoMemory> for ContestFault {
    ghost use Rattle.contest_folder.specs.declared.faults.ContestFault.TheVariants as fault;

    ghost from_gives = { λ _ given. given ≡ fault.NoMemory };

    fn from(_: NoMemory) -> ContestFault {
        ContestFault::NoMemory
    }
}
