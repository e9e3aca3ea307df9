ghost use Rattle.std.specs.Prelude.{◌≡◌, ◌++◌, ◌∷◌, [], ◌<◌, ◌≤◌, None, length, position, IfSome, OnOk};
ghost use Rattle.std.specs.Str.{bytes_eq};
ghost use Rattle.std.specs.List.{IsDistinct};

use farm_kinds::{Name, NoMemory};
use indexmap::IndexSet;
use std::alloc::Global;
use std::marker::Model;

/// Names, each of them once, in the order in which they were entered. One is found without a look at the
/// others.
///
/// The hasher's seed is fixed, so names whose hashes agree can be chosen. Those are looked at one after
/// the other, which the limits on problems and hosts bound.
#[derive(Drop)]
pub struct Names {
    names: IndexSet<Name>,
}

impl Model for Names {
    ghost use Rattle.farm_core.specs.NamesValue.{NamesValue};
    ghost use Rattle.farm_core.specs.NamesLayout.{names_value, AreApart};

    ghost Value = { NamesValue };

    ghost view = { names_value };

    ghost invariant = { AreApart };
}

impl Names {
    /// No names.
    pub fn new(alloc: Global) -> Names
        ensures { result.names ≡ [] }
    {
        Names {
            names: IndexSet::new(alloc),
        }
    }

    /// Where the name stands.
    pub fn find(&self, name: &Name) -> Option<usize>
        ensures place { result ≡ position (λ other. bytes_eq name.now other) self.now.names }
        ensures within { IfSome result (λ place. place < length self.now.names) }
        ensures once { IsDistinct bytes_eq self.now.names }
    {
        self.names.get_index_of(name)
    }

    /// Makes room for one name more. At `NoMemory` nothing changes.
    pub fn reserve(&mut self) -> Result<(), NoMemory>
        ensures names { self.new.names ≡ self.old.names }
        ensures room { OnOk result (1 ≤ self.new.room) }
    {
        self.names.reserve(1)?;
        Ok(())
    }

    /// Adds a name that is not there yet, for which there is room.
    pub fn push_reserved(&mut self, name: Name)
        requires room { 1 ≤ self.old.room }
        requires unknown { position (λ other. bytes_eq name other) self.old.names ≡ None }
        ensures { self.new.names ≡ self.old.names ++ name ∷ [] }
    {
        let _added = self.names.insert(name);
    }
}
