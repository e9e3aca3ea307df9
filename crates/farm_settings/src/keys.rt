ghost use Rattle.std.specs.Prelude.{◌≡◌};
ghost use Rattle.farm_settings.specs.Keys.{key_of, setting_named};

/// What `farm.json` may set.
#[derive(Clone, Copy, Debug, PartialEq, Eq)]
pub enum Setting {
    /// How many instructions a second of a time limit stands for.
    InstructionsPerSecond,
    /// Whether judging stops once the verdict is known (DOMjudge manual, `lazy_eval_results`).
    LazyEvalResults,
    /// How long a lease lasts, in seconds.
    Lease,
    /// How the submissions of single problems are judged.
    ProblemModes,
    /// The priorities of kinds (DOMjudge manual, `results_prio`).
    ResultsPrio,
    /// The kinds that kinds count as (DOMjudge manual, `results_remap`).
    ResultsRemap,
    /// Whether the public sees a judging only once it is verified (DOMjudge manual,
    /// `verification_required`).
    VerificationRequired,
}

impl Setting {
    /// The settings in the order of their keys' bytes.
    pub const ALL: [Setting; 7] = [
        Setting::InstructionsPerSecond,
        Setting::LazyEvalResults,
        Setting::Lease,
        Setting::ProblemModes,
        Setting::ResultsPrio,
        Setting::ResultsRemap,
        Setting::VerificationRequired,
    ];

    /// The setting's key.
    pub fn key(self) -> &'static str
        ensures { result.now ≡ key_of self }
    {
        match self {
            Setting::InstructionsPerSecond => "instructions_per_second",
            Setting::LazyEvalResults => "lazy_eval_results",
            Setting::Lease => "lease",
            Setting::ProblemModes => "problem_modes",
            Setting::ResultsPrio => "results_prio",
            Setting::ResultsRemap => "results_remap",
            Setting::VerificationRequired => "verification_required",
        }
    }

    /// The setting of this key. None where no setting has it.
    pub fn read(key: &[u8]) -> Option<Setting>
        ensures { result ≡ setting_named key.now }
    {
        Setting::ALL
            .iter()
            .copied()
            .find(|setting| key == setting.key().as_bytes())
    }
}
