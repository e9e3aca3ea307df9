//! Computed examples, for the proof alone: each function has an empty body, and the check computes its contract.
ghost use Rattle.std.specs.Prelude.{◌≡◌, [], Ok, Err, codes};
ghost use Rattle.problem_settings.specs.declared.ini.IniFault.TheVariants.{BadLimit};
ghost use Rattle.problem_settings.specs.declared.yaml.Validation.TheVariants.{Default, Custom};
ghost use Rattle.problem_settings.specs.declared.yaml.YamlWhy.TheVariants.{Tab, Indent, NoColon, Repeated, Open, BadEscape, Form, BadValue, Interactive, Score};
ghost use Rattle.problem_settings.specs.DomjudgeIni.{ini_of};
ghost use Rattle.problem_settings.specs.ProblemYaml.{yaml_of};

/// The definition of what `problem.yaml` says, at texts without a fault.
#[tactic(auto, unfolding(crate::specs::ProblemYaml::yaml_of))]
pub fn worked_settings()
    ensures example { yaml_of (codes "# made\nname: 'It''s here'\nlicense: cc by-sa\nkeywords:\n- easy\nvalidator_flags: float_tolerance 1e-6 # both\nlimits:\n  memory: 512\n  time_multiplier: 5\n")
        ≡ Ok record { name = codes "It's here"; validation = Default; flags = codes "float_tolerance 1e-6"; memory = 256; output = 8 } }
    ensures nothing { yaml_of [] ≡ Ok record { name = []; validation = Default; flags = []; memory = 64; output = 8 } }
    ensures braces { yaml_of (codes "---\r\nvalidation: custom\r\nlimits: {memory: 7, time: 5, output: 65}\r\n")
        ≡ Ok record { name = []; validation = Custom; flags = []; memory = 7; output = 64 } }
{}

/// The definition of what `problem.yaml` says, at texts with a fault.
#[tactic(auto, unfolding(crate::specs::ProblemYaml::yaml_of))]
pub fn worked_yaml_faults()
    ensures tab { yaml_of (codes "limits:\n \tmemory: 5") ≡ Err record { line = 2; why = Tab } }
    ensures indent { yaml_of (codes "name: a\n b: c") ≡ Err record { line = 2; why = Indent } }
    ensures no_colon { yaml_of (codes "\nname:a") ≡ Err record { line = 2; why = NoColon } }
    ensures repeated { yaml_of (codes "name: a\nlimits:\n  output: 1\nname: b") ≡ Err record { line = 4; why = Repeated } }
    ensures unclosed { yaml_of (codes "name: 'a''") ≡ Err record { line = 1; why = Open } }
    ensures escape { yaml_of (codes "name: \"\\q\"") ≡ Err record { line = 1; why = BadEscape } }
    ensures form { yaml_of (codes "validator_flags: |\n  a") ≡ Err record { line = 1; why = Form } }
    ensures value { yaml_of (codes "limits: {memory: 0}") ≡ Err record { line = 1; why = BadValue } }
    ensures interactive { yaml_of (codes "validation: custom interactive") ≡ Err record { line = 1; why = Interactive } }
    ensures score { yaml_of (codes "validation: custom score") ≡ Err record { line = 1; why = Score } }
{}

/// The definition of the time limit that `domjudge-problem.ini` says.
#[tactic(auto, unfolding(crate::specs::DomjudgeIni::ini_of))]
pub fn worked_ini()
    ensures nothing { ini_of [] ≡ Ok 1000 }
    ensures last { ini_of (codes "timelimit=1\ntimelimit = '2.05'\nname=a") ≡ Ok 2050 }
    ensures least { ini_of (codes "timelimit=0.001") ≡ Ok 1 }
    ensures over { ini_of (codes "\ntimelimit=1000.001") ≡ Err (BadLimit 2) }
    ensures digits { ini_of (codes "timelimit=0.0001") ≡ Err (BadLimit 1) }
{}
