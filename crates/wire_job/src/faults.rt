ghost use Rattle.std.specs.Prelude.{◌≡◌};
ghost use Rattle.wire_job.specs.JobFields.{field_name};

/// A field of a job.
#[derive(Clone, Copy, Debug, PartialEq, Eq)]
pub enum JobField {
    /// `answer`: the judge's answer, in Base64.
    Answer,
    /// `image`: the submission's program, in Base64.
    Image,
    /// `input`: what the program reads, in Base64.
    Input,
    /// `instructions`: how many the run may use.
    Instructions,
    /// `pages`: how many pages of memory the run may use.
    Pages,
    /// `output`: how many bytes the run may write.
    Output,
    /// `judging`: the number of the judging.
    Judging,
    /// `test`: the rank of the test, from 1 to 65,535.
    Test,
    /// `reply`: the word `job`.
    Reply,
    /// `check`: `default` or `custom`.
    Check,
    /// `flags`: of the default output validator, an object; of a problem's own, in Base64.
    Flags,
    /// `validator`: the program of a problem's own output validator, in Base64.
    Validator,
}

impl JobField {
    /// The field's key in a job.
    pub fn name(self) -> &'static str
        ensures { result.now ≡ field_name self }
    {
        match self {
            JobField::Answer => "answer",
            JobField::Image => "image",
            JobField::Input => "input",
            JobField::Instructions => "instructions",
            JobField::Pages => "pages",
            JobField::Output => "output",
            JobField::Judging => "judging",
            JobField::Test => "test",
            JobField::Reply => "reply",
            JobField::Check => "check",
            JobField::Flags => "flags",
            JobField::Validator => "validator",
        }
    }
}

/// Why a body is no job.
#[derive(Clone, Copy, Debug, PartialEq, Eq)]
pub enum JobFault {
    /// The body is no JSON text (RFC 8259) in UTF-8, is nested deeper than 127, or is no object.
    NotJson,
    /// The body lacks this field.
    MissingField { name: JobField },
    /// The value of this field is none that it takes, or lets no run be made.
    BadField { name: JobField },
    /// No memory was left.
    NoMemory,
}
