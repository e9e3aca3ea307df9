/// How much of a job is asked for.
#[derive(Clone, Copy, Debug, PartialEq, Eq)]
pub enum JobPart {
    /// All of it.
    Whole,
    /// All but the image of the submission, for whoever has it.
    Rest,
}
