//! Computed examples, for the proof alone: each function has an empty body, and the check computes its contract.
ghost use Rattle.std.specs.Prelude.{◌≡◌, [], ◌∷◌, Some, None, Ok, Err, codes, true, false};
ghost use Rattle.serde_json.specs.Data.{null, boolean, number, string, object, unsigned, negative, member, no_members};
ghost use Rattle.farm_kinds.specs.declared.outcomes.Mode.TheVariants.{Lazy, Full};
ghost use Rattle.farm_kinds.specs.declared.outcomes.ProblemMode.TheVariants as problem;
ghost use Rattle.farm_model.specs.State.{standard_settings};
ghost use Rattle.farm_kinds.specs.declared.kinds.Kind.TheVariants.{Correct, WrongAnswer, RunError, TimeLimit, OutputLimit, MemoryLimit, JudgingError};
ghost use Rattle.farm_kinds.specs.Rules.{standard};
ghost use Rattle.farm_settings.specs.declared.faults.SettingsFault.TheVariants.{NotJson, UnknownKey, BadValue};
ghost use Rattle.farm_settings.specs.FarmJson.{settings_of_value, settings_of_text};

/// The definition of settings at values without a fault.
pub fn worked_values()
    ensures none { settings_of_value (Some (object no_members)) ≡ Ok record { rule = standard; mode = Lazy; lease = 60; verification = false; ips = 10000000; modes = [] } }
    ensures some { settings_of_value (Some (object (member (codes "instructions_per_second") (number (unsigned 1000))
        (member (codes "lazy_eval_results") (boolean false) (member (codes "lease") (number (unsigned 1000000))
        (member (codes "verification_required") (boolean true) no_members))))))
        ≡ Ok record { rule = standard; mode = Full; lease = 1000000; verification = true; ips = 1000; modes = [] } }
    ensures prio { settings_of_value (Some (object (member (codes "results_prio") (object (member (codes "timelimit") (number (unsigned 0)) no_members)) no_members)))
        ≡ Ok record { rule = record { prios = 1 ∷ 30 ∷ 99 ∷ 0 ∷ 10 ∷ 99 ∷ 99 ∷ 99 ∷ []; remaps = standard.remaps }; mode = Lazy; lease = 60; verification = false; ips = 10000000; modes = [] } }
    ensures remap { settings_of_value (Some (object (member (codes "results_remap") (object (member (codes "no-output") (string (codes "wrong-answer")) no_members)) no_members)))
        ≡ Ok record {
          rule = record { prios = standard.prios; remaps = Correct ∷ WrongAnswer ∷ RunError ∷ TimeLimit ∷ WrongAnswer ∷ OutputLimit ∷ MemoryLimit ∷ JudgingError ∷ [] };
          mode = Lazy;
          lease = 60;
          verification = false;
          ips = 10000000;
          modes = [];
        } }
    ensures modes { settings_of_value (Some (object (member (codes "problem_modes") (object (member (codes "A") (string (codes "on-demand")) (member (codes "b-2") (string (codes "full")) (member (codes "c") (string (codes "lazy")) no_members)))) no_members)))
        ≡ Ok record standard_settings { modes = (record { name = codes "A"; mode = problem.OnDemand }) ∷ (record { name = codes "b-2"; mode = problem.Full }) ∷ (record { name = codes "c"; mode = problem.Lazy }) ∷ [] } }
{}

/// The definition of settings at values with a fault.
pub fn worked_faults()
    ensures no_object { settings_of_value (Some null) ≡ Err NotJson }
    ensures zero { settings_of_value (Some (object (member (codes "lease") (number (unsigned 0)) no_members))) ≡ Err (BadValue (codes "lease")) }
    ensures missing { settings_of_value (Some (object (member (codes "lease") null no_members))) ≡ Err (BadValue (codes "lease")) }
    ensures unknown { settings_of_value (Some (object (member (codes "Lease") (number (unsigned 1)) no_members))) ≡ Err (UnknownKey (codes "Lease")) }
    ensures no_kinds { settings_of_value (Some (object (member (codes "results_prio") (number (unsigned 1)) no_members))) ≡ Err (BadValue (codes "results_prio")) }
    ensures no_kind { settings_of_value (Some (object (member (codes "results_prio") (object (member (codes "fine") (number (unsigned 1)) no_members)) no_members))) ≡ Err (UnknownKey (codes "fine")) }
    ensures high { settings_of_value (Some (object (member (codes "results_prio") (object (member (codes "correct") (number (unsigned 1000)) no_members)) no_members))) ≡ Err (BadValue (codes "correct")) }
    ensures no_target { settings_of_value (Some (object (member (codes "results_remap") (object (member (codes "correct") (string (codes "fine")) no_members)) no_members))) ≡ Err (BadValue (codes "correct")) }
    ensures no_modes { settings_of_value (Some (object (member (codes "problem_modes") null no_members))) ≡ Err (BadValue (codes "problem_modes")) }
    ensures no_mode { settings_of_value (Some (object (member (codes "problem_modes") (object (member (codes "A") (string (codes "Lazy")) no_members)) no_members))) ≡ Err (BadValue (codes "A")) }
    ensures no_name { settings_of_value (Some (object (member (codes "problem_modes") (object (member (codes "A.B") (string (codes "lazy")) no_members)) no_members))) ≡ Err (UnknownKey (codes "A.B")) }
    ensures first { settings_of_value (Some (object (member (codes "lease") null (member (codes "leases") null no_members)))) ≡ Err (BadValue (codes "lease")) }
{}

/// The definition of settings at texts.
pub fn worked_texts()
    ensures last_counts { settings_of_text (codes "{\"lease\":0,\"lease\":60}") ≡ settings_of_text (codes "{}") }
    ensures point { settings_of_text (codes "{\"lease\":60.0}") ≡ Err (BadValue (codes "lease")) }
    ensures exponent { settings_of_text (codes "{\"lease\":6e1}") ≡ Err (BadValue (codes "lease")) }
    ensures minus { settings_of_text (codes "{\"lease\":-0}") ≡ Err (BadValue (codes "lease")) }
    ensures empty { settings_of_text [] ≡ Err NotJson }
    ensures mark { settings_of_text (239 ∷ 187 ∷ 191 ∷ codes "{}") ≡ Err NotJson }
    ensures no_utf8 { settings_of_text (34 ∷ 255 ∷ 34 ∷ []) ≡ Err NotJson }
    ensures second { settings_of_text (codes "{}{}") ≡ Err NotJson }
    ensures byte_order { settings_of_text (codes "{\"z\":1,\"a\":1}") ≡ Err (UnknownKey (codes "a")) }
{}
