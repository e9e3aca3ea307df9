ghost use Rattle.std.specs.Prelude.{◌≡◌, ◌+◌, ◌<◌, ◌≤◌, Some, None, IfNone, IfOk, IfSome, OnOk, OnErr, IfErr, length, position};
ghost use Rattle.std.specs.Str.{bytes_eq};
ghost use Rattle.farm_model.specs.Limits.{max_tests, max_problems, max_versions};
ghost use Rattle.farm_model.specs.State.{problem_number};
ghost use Rattle.farm_model.specs.Refusals.{problem_refusal, replace_refusal, version_of};
ghost use Rattle.farm_model.specs.Numbered.{number_or_0};
ghost use Rattle.farm_model.specs.Changes.{with_problem, with_version};
ghost use Rattle.farm_core.specs.FarmShape.{HadMemory};

use super::ContestState;
use crate::modes::{is_asked_at_once, judged_mode, mode_named};
use farm_kinds::{MAX_PROBLEMS, MAX_TESTS, MAX_VERSIONS, Name, NoMemory, Reply};
use farm_model::Problem;

impl ContestState {
    /// Where the problem of this name stands.
    pub fn problem_place(&self, name: &Name) -> Option<usize>
        ensures place { result ≡ position (λ problem. bytes_eq problem.name name.now) self.now.problems }
        ensures within { IfSome result (λ place. place < length self.now.problems) }
    {
        self.problem_names.find(name)
    }

    /// Why no problem of this name and this many tests is added.
    pub fn problem_refusal(&self, name: Name, tests: u32) -> Option<Reply>
        ensures refusal { result ≡ problem_refusal self.now.problems name tests }
        ensures answers { IfSome result HadMemory }
    {
        if tests == 0 || tests > MAX_TESTS {
            return Some(Reply::BadTests { tests });
        }
        if self.problem_place(&name).is_some() {
            return Some(Reply::Known { name });
        }
        if self.problems.len() >= MAX_PROBLEMS as usize {
            return Some(Reply::Full {
                limit: MAX_PROBLEMS,
            });
        }
        None
    }

    /// Adds a problem, of version 1, which is not refused.
    pub fn add_problem(&mut self, name: Name, tests: u32) -> Result<Reply, NoMemory>
        requires few_tests { tests ≤ max_tests }
        requires few { length self.old.problems < max_problems }
        requires unknown { problem_number self.old.problems name ≡ None }
        ensures reply { IfOk result (λ reply. reply ≡ Reply.Problem name 1) }
        ensures added { OnOk result (self.new ≡ with_problem self.old name tests) }
        ensures unchanged { OnErr result (self.new ≡ self.old) }
    {
        self.problems.reserve(1)?;
        self.problem_names.reserve()?;
        let named = mode_named(self.modes.as_slice(), &name);
        self.problems.push_reserved(Problem {
            name,
            version: 1,
            tests: tests as u16,
            mode: judged_mode(named, self.mode),
            asked: is_asked_at_once(named),
        });
        self.problem_names.push_reserved(name);
        Ok(Reply::Problem { name, version: 1 })
    }

    /// Why the problem of this name gets no version of this many tests.
    pub fn replace_refusal(&self, name: Name, tests: u32) -> Option<Reply>
        ensures refusal { result ≡ replace_refusal self.now.problems name tests }
        ensures answers { IfSome result HadMemory }
    {
        if tests == 0 || tests > MAX_TESTS {
            return Some(Reply::BadTests { tests });
        }
        let Some(place) = self.problem_place(&name) else {
            return Some(Reply::NoProblem { name });
        };
        if self.problems[place].version >= MAX_VERSIONS {
            return Some(Reply::Full {
                limit: MAX_VERSIONS,
            });
        }
        None
    }

    /// Gives the problem of this name its next version, with this many tests, which is not refused.
    pub fn replace(&mut self, name: Name, tests: u32) -> Reply
        requires accepted { replace_refusal self.old.problems name tests ≡ None }
        requires few_tests { tests ≤ max_tests }
        ensures version { result ≡ Reply.Problem name (version_of self.old.problems (number_or_0 (problem_number self.old.problems name)) + 1) }
        ensures done { self.new ≡ with_version self.old (number_or_0 (problem_number self.old.problems name)) tests }
    {
        let Some(place) = self.problem_place(&name) else {
            return Reply::NoProblem { name };
        };
        let kept = self.problems[place];
        let version = kept.version + 1;
        self.problems[place] = Problem {
            name: kept.name,
            version,
            tests: tests as u16,
            mode: kept.mode,
            asked: kept.asked,
        };
        Reply::Problem { name, version }
    }
}
