ghost use Rattle.std.specs.Prelude.{◌≡◌, ◌≤◌};
ghost use Rattle.std.specs.Option.{option_map};
ghost use Rattle.command_line.specs.Ranges.{from_1_to, size_with};

/// How many problems and submissions a made contest has: from 1 to 50, and from 1 to 2,000.
#[derive(Clone, Copy, Debug, PartialEq, Eq)]
pub struct MadeSize {
    problems: u16,
    submissions: u16,
    ghost some_problems: { 1 ≤ problems },
    ghost few_problems: { problems ≤ 50 },
    ghost some_submissions: { 1 ≤ submissions },
    ghost few_submissions: { submissions ≤ 2000 },
}

impl MadeSize {
    /// As many as `problems` and `submissions` say. None where these are not from 1 to 50, and from 1 to 2,000.
    pub fn new(problems: u32, submissions: u32) -> Option<MadeSize>
        ensures { option_map (λ size. record { problems = size.problems; submissions = size.submissions }) result
            ≡ size_with (from_1_to 50 problems) (from_1_to 2000 submissions) }
    {
        if problems < 1 || problems > 50 {
            return None;
        }
        if submissions < 1 || submissions > 2000 {
            return None;
        }
        Some(MadeSize {
            problems: problems as u16,
            submissions: submissions as u16,
        })
    }

    /// How many problems.
    pub fn problems(self) -> u16
        ensures value { result ≡ self.problems }
        ensures some { 1 ≤ result }
        ensures few { result ≤ 50 }
    {
        self.problems
    }

    /// How many submissions.
    pub fn submissions(self) -> u16
        ensures value { result ≡ self.submissions }
        ensures some { 1 ≤ result }
        ensures few { result ≤ 2000 }
    {
        self.submissions
    }
}
