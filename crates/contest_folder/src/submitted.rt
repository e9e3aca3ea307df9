ghost use Rattle.std.specs.Prelude.{◌≡◌};
ghost use Rattle.case_run.specs.Images.{is_image};

use case_run::image_ok;
use farm_kinds::Text;
use std::marker::Model;

/// The file of a submission, and whether it is an image of a program, which is found out once. Contracts see its bytes.
#[derive(Debug, Drop)]
pub(crate) struct SubmittedFile {
    bytes: Text,
    is_program: bool,
}

impl Model for SubmittedFile {
    ghost use Rattle.std.specs.Prelude.{◌≡◌, ℕ, List};
    ghost use Rattle.case_run.specs.Images.{is_image};

    ghost Value = { List ℕ };

    ghost view = { λ f. f.bytes };

    ghost invariant = { λ f. f.is_program ≡ is_image f.bytes };
}

impl SubmittedFile {
    /// The file of these bytes.
    pub(crate) fn new(bytes: Text) -> SubmittedFile
        ensures { result ≡ bytes }
    {
        let is_program = image_ok(bytes.as_slice());
        SubmittedFile { bytes, is_program }
    }

    /// Its bytes.
    pub(crate) fn as_slice(&self) -> &[u8]
        ensures { result.now ≡ self.now }
    {
        self.bytes.as_slice()
    }

    /// Whether they are an image of a program.
    pub(crate) fn is_image(&self) -> bool
        ensures { result ≡ is_image self.now }
    {
        self.is_program
    }
}
