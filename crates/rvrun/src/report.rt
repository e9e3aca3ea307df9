ghost use Rattle.std.specs.Prelude.{◌≡◌, IfOk};
ghost use Rattle.rv_machine.specs.Running.{finish_of};
ghost use Rattle.rvrun.specs.Reports.{report_of};

use farm_kinds::NoMemory;
use rv_machine::{Ending, Machine};

/// How a run ended, what it cost, and how many pages it touched.
#[derive(Clone, Copy)]
pub struct Report {
    pub ending: Ending,
    pub cost: u64,
    pub pages: u32,
}

/// Runs a machine to the end of its run. Its output is then that of the whole run.
pub fn run_to_end(machine: &mut Machine<'_>) -> Result<Report, NoMemory>
    ensures report { IfOk result (λ report. report ≡ report_of (finish_of machine.old)) }
    ensures output { IfOk result (λ _. machine.new.state.output ≡ (finish_of machine.old).state.output) }
{
    let ending = machine.run()?;
    Ok(Report {
        ending,
        cost: machine.cost(),
        pages: machine.pages(),
    })
}
