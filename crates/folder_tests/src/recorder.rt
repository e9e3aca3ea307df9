//! A person in memory, as tests of what people are told need one.
use farm_kinds::Task;
use people::Person;
use std::alloc::{AllocError, Global};

/// Writes down what it is told: a line for each note and for each refusal, and how many tasks and ends. A line for which no
/// memory is left is left out.
#[derive(Debug, Drop)]
pub struct Recorder {
    pub told: String,
    /// How many tasks were to be run next.
    pub tasks: u64,
    /// How often no further task was run.
    pub ends: u64,
}

impl Recorder {
    /// One that was told nothing yet.
    pub fn new(alloc: Global) -> Recorder {
        Recorder {
            told: String::new(alloc),
            tasks: 0,
            ends: 0,
        }
    }

    /// Adds a line.
    fn push(&mut self, prefix: &str, text: &str) -> Result<(), AllocError> {
        self.told.push_str(prefix)?;
        self.told.push_str(text)?;
        self.told.push('\n')
    }
}

impl Person for Recorder {
    fn runs(&mut self, _task: Task) {
        self.tasks = self.tasks.wrapping_add(1);
    }

    fn ends(&mut self) {
        self.ends = self.ends.wrapping_add(1);
    }

    fn notes(&mut self, note: &str) {
        let _ = self.push("note: ", note);
    }

    fn refuses(&mut self, reason: &str) {
        let _ = self.push("refused: ", reason);
    }
}
