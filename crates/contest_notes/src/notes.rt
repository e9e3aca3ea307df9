use farm_kinds::{Name, Text};
use package_notes::Note;
use program_notes::ProgramFault;

/// Something in the folder of a contest that is skipped, or otherwise than one may think who wrote it.
#[derive(Debug, Drop)]
pub enum ContestNote {
    /// A note on the package of the problem of this name.
    Package {
        short: Text,
        note: Note,
    },
    /// `problem_modes` of `farm.json` names a problem that is not there.
    LostMode {
        name: Name,
    },
    /// The file of a submission is no program: the submission's number and the file's name as its line says them, the fault,
    /// and the first 20 bytes of the file, or none where it is too large to be read.
    NoProgram {
        number: Text,
        file: Text,
        fault: ProgramFault,
        head: Text,
    },
}
