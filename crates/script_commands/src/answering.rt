ghost use Rattle.std.specs.Prelude.{◌≡◌, ◌≢◌, ◌⊎◌, None, option_map};
ghost use Rattle.farm_io.specs.Streams.{Rose};
ghost use Rattle.farm_model.specs.State.{SettingsValue, start};
ghost use Rattle.script_session.specs.Session.{IsShort};
ghost use Rattle.script_commands.specs.Scripted.{RunEnds, ScriptEnds, ScriptIsDone};

use crate::config::{ConfigEnd, read_config, refuse};
use exit_status::Exit;
use farm_core::Farm;
use farm_io::{Sink, Source};
use farm_settings::Settings;
use farm_tree::Tree;
use people::Person;
use script_session::{ScriptEnd, run_script};
use std::alloc::Global;
use std::mem;

/// `farm script`, with the settings of the file at the path, or with the standard ones. Why the file gives none, the person is
/// told.
#[tactic(auto, unfolding(crate::specs::Scripted::ScriptIsDone))]
pub fn script<T: Tree, S: Source, K: Sink, P: Person>(
    alloc: Global,
    config: Option<&str>,
    tree: &mut T,
    input: &mut S,
    out: &mut K,
    person: &mut P,
) -> Exit
    ensures command { result ≢ Exit.Usage }
    ensures door_fault { result ≢ Exit.DoorFault }
    ensures ends { ScriptEnds (T.files tree.old) (option_map (λ path. path.now) config.entry)
        (record { left = S.left input.old; held = K.held out.old }) (record { left = S.left input.new; held = K.held out.new })
        (input.new ≡ input.old) (out.new ≡ out.old) result }
    ensures tree { option_map (λ path. path.now) config.entry ≡ None → tree.new ≡ tree.old }
    ensures files { T.files tree.new ≡ T.files tree.old }
    ensures read_fault { result ≡ Exit.ReadFault → Rose (S.faults input.old) (S.faults input.new) }
    ensures write_fault { result ≡ Exit.WriteFault → Rose (K.faults out.old) (K.faults out.new) }
    ensures tree_fault { result ≡ Exit.TreeFault → Rose (T.faults tree.old) (T.faults tree.new) }
    ensures first { result ≢ Exit.TreeFault → T.faults tree.new ≡ T.faults tree.old }
    ensures complete { ScriptIsDone (T.files tree.old) (option_map (λ path. path.now) config.entry) (S.left input.old)
        (¬ Rose (T.faults tree.old) (T.faults tree.new) × ¬ Rose (S.faults input.old) (S.faults input.new) × ¬ Rose (K.faults out.old) (K.faults out.new))
        result }
{
    let Some(path) = config else {
        return run(alloc, Settings::standard(alloc), input, out);
    };
    match read_config(alloc, tree, path) {
        Ok(read) => run(alloc, read.settings, input, out),
        Err(ConfigEnd::Bad(bad)) => refuse(alloc, path, &bad, out, person),
        Err(ConfigEnd::TreeFault) => Exit::TreeFault,
        Err(ConfigEnd::NoMemory) => Exit::Memory,
    }
}

/// Answers the lines of the input by an empty farm with these settings.
fn run<S: Source, K: Sink>(alloc: Global, settings: Settings, input: &mut S, out: &mut K) -> Exit
    ensures command { result ≢ Exit.Usage }
    ensures door_fault { result ≢ Exit.DoorFault }
    ensures tree_fault { result ≢ Exit.TreeFault }
    ensures ends { RunEnds (λ in_use. in_use ≡ settings)
        (record { left = S.left input.old; held = K.held out.old }) (record { left = S.left input.new; held = K.held out.new }) result }
    ensures read_fault { result ≡ Exit.ReadFault → Rose (S.faults input.old) (S.faults input.new) }
    ensures write_fault { result ≡ Exit.WriteFault → Rose (K.faults out.old) (K.faults out.new) }
    ensures complete { IsShort (S.left input.old)
        → ¬ Rose (S.faults input.old) (S.faults input.new) → ¬ Rose (K.faults out.old) (K.faults out.new)
        → (result ≡ Exit.Done) ⊎ (result ≡ Exit.Memory) }
{
    let mut farm = Farm::new(alloc, settings);
    let exit = answer(alloc, &mut farm, input, out);
    // The process ends behind this, and gives everything back at once.
    mem::forget(farm);
    exit
}

/// Answers the lines of the input by this farm.
fn answer<S: Source, K: Sink>(alloc: Global, farm: &mut Farm, input: &mut S, out: &mut K) -> Exit
    ensures command { result ≢ Exit.Usage }
    ensures door_fault { result ≢ Exit.DoorFault }
    ensures tree_fault { result ≢ Exit.TreeFault }
    ensures ends { (settings : SettingsValue) → farm.old ≡ start settings → RunEnds (λ in_use. in_use ≡ settings)
        (record { left = S.left input.old; held = K.held out.old }) (record { left = S.left input.new; held = K.held out.new }) result }
    ensures read_fault { result ≡ Exit.ReadFault → Rose (S.faults input.old) (S.faults input.new) }
    ensures write_fault { result ≡ Exit.WriteFault → Rose (K.faults out.old) (K.faults out.new) }
    ensures complete { IsShort (S.left input.old)
        → ¬ Rose (S.faults input.old) (S.faults input.new) → ¬ Rose (K.faults out.old) (K.faults out.new)
        → (result ≡ Exit.Done) ⊎ (result ≡ Exit.Memory) }
{
    match run_script(alloc, farm, input, out) {
        ScriptEnd::Done => Exit::Done,
        ScriptEnd::ReadFault => Exit::ReadFault,
        ScriptEnd::WriteFault => Exit::WriteFault,
        ScriptEnd::InputLimit => Exit::InputLimit,
        ScriptEnd::NoMemory => Exit::Memory,
    }
}
