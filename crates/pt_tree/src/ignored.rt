//! The names of entries that a source is to be without.
#![tactic(auto, using(crate::proofs::ToldWithout::ignoring))]

ghost use Rattle.std.specs.Prelude.{◌≡◌, ◌++◌, [], ◌∷◌, OnErr, OnOk};

use crate::{MemoryFault, Name};
use std::alloc::Global;
use std::marker::Model;

/// The names of entries that are left out, seen as their list.
#[derive(Debug, Drop)]
pub struct Ignored {
    names: Vec<Name>,
}

impl Model for Ignored {
    ghost use Rattle.std.specs.Prelude.{List, ℕ};

    ghost Value = { List (List ℕ) };

    ghost view = { λ i. i.names.items };
}

impl Ignored {
    /// No names. It takes no memory.
    pub fn new(alloc: Global) -> Ignored
        ensures { result ≡ [] }
    {
        Ignored {
            names: Vec::new(alloc),
        }
    }

    /// Adds a name. After `Memory`, where a growth was refused, they are as before.
    pub fn add(&mut self, name: Name) -> Result<(), MemoryFault>
        ensures ok { OnOk result (self.new ≡ self.old ++ name ∷ []) }
        ensures err { OnErr result (self.new ≡ self.old) }
    {
        match self.names.push(name) {
            Ok(()) => Ok(()),
            Err(_) => Err(MemoryFault::Memory),
        }
    }

    /// The names, in the order in which they were added.
    pub fn names(&self) -> &[Name]
        ensures { result.now ≡ self.now }
    {
        &self.names
    }
}
