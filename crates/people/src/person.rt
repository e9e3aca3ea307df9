use farm_kinds::Task;

/// Who is told things for a person, and is asked nothing: nothing that the program does, reads or writes depends on it. A
/// text that no memory is left to make is left out.
pub trait Person {
    /// This task is run next.
    fn runs(&mut self, task: Task);

    /// No further task is run.
    fn ends(&mut self);

    /// Something is skipped, or is otherwise than one may think who wrote it: what, without a line end.
    fn notes(&mut self, note: &str);

    /// Something is refused: why, and what comes of it, without a line end.
    fn refuses(&mut self, reason: &str);
}

/// Lets everything pass.
#[derive(Clone, Copy, Debug)]
pub struct Nobody;

impl Person for Nobody {
    fn runs(&mut self, _task: Task) {}

    fn ends(&mut self) {}

    fn notes(&mut self, _note: &str) {}

    fn refuses(&mut self, _reason: &str) {}
}
