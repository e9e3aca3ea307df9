ghost use Rattle.std.specs.Prelude.{◌≡◌, ◌≤◌};
ghost use Rattle.problem_settings.specs.MachineLimits.{limits_of};

use crate::yaml::Yaml;
use farm_kinds::Limits;

/// The limits of a run of the problem, whose time limit is `ms` milliseconds, where a second stands for `ips`
/// instructions: instructions are rounded down, and a MiB is 256 pages.
pub fn limits(yaml: &Yaml, ms: u32, ips: u32) -> Limits
    requires memory { yaml.now.memory ≤ 256 }
    requires output { yaml.now.output ≤ 64 }
    ensures { result ≡ limits_of yaml.now ms ips }
{
    Limits {
        instructions: u64::from(ms) * u64::from(ips) / 1000,
        pages: yaml.memory * 256,
        output: yaml.output * 1_048_576,
    }
}
