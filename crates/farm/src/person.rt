//! What a person is told while a command is carried out, and of its end, on standard error.
//!
//! Where standard error cannot be written, nobody can be told.
use crate::progress::Meter;
use farm_kinds::Task;
use people::{Person, Plain};

/// Tells a person by standard error: a line for each note and each refusal, and how many tests were run.
#[derive(Drop)]
pub(crate) struct Told<'a> {
    rt: &'a HostRuntime,
    meter: &'a Meter<'a>,
}

impl<'a> Told<'a> {
    pub(crate) fn new(rt: &'a HostRuntime, meter: &'a Meter<'a>) -> Told<'a> {
        Told { rt, meter }
    }
}

impl Person for Told<'_> {
    fn runs(&mut self, _task: Task) {
        self.meter.count();
    }

    fn ends(&mut self) {
        self.meter.clear();
    }

    fn notes(&mut self, note: &str) {
        let note = Plain(note);
        let _ = eprintln!(self.rt; "note: {note}");
    }

    fn refuses(&mut self, reason: &str) {
        let reason = Plain(reason);
        let _ = eprintln!(self.rt; "farm: {reason}");
    }
}
