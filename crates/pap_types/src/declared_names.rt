//! Declared names of one sort, by number.
ghost use Rattle.std.specs.Prelude.{◌≡◌, []};
ghost use Rattle.pap_types.specs.Scopes.{number_of};
ghost use Rattle.pap_types.specs.Checks.{has_name};
ghost use Rattle.pap_types.specs.private.NameViews.{IsInserted};

use crate::name_hashes::NameHashes;
use indexmap::IndexSet;
use pap_tree::Name;
use std::alloc::{AllocError, Global};
use std::marker::Model;

/// Names, each once, numbered from 0 in the order in which they were inserted. Contracts see the list of the names by number.
#[derive(Drop)]
pub(crate) struct DeclaredNames {
    names: IndexSet<Name, NameHashes>,
}

impl Model for DeclaredNames {
    ghost use Rattle.std.specs.Prelude.{ℕ, List};

    ghost Value = { List (List ℕ) };

    ghost view = { λ d. d.names.keys };
}

impl DeclaredNames {
    /// No names.
    pub fn new(alloc: Global, hashes: NameHashes) -> DeclaredNames
        ensures { result ≡ [] }
    {
        DeclaredNames {
            names: IndexSet::with_hasher(alloc, hashes),
        }
    }

    /// The number of a name. `None` where it isn't there.
    pub fn number_of(&self, name: &Name) -> Option<usize>
        ensures { result ≡ number_of self.now name.now }
    {
        self.names.get_index_of(name)
    }

    /// Whether a name is there.
    pub fn contains(&self, name: &Name) -> bool
        ensures { result ≡ has_name self.now name.now }
    {
        self.names.contains(name)
    }

    /// Gives a new name the next number; whether it is new. Where memory runs out, the names are as before.
    pub fn insert(&mut self, name: Name) -> Result<bool, AllocError>
        ensures { IsInserted self.old self.new name result }
    {
        Ok(self.names.insert(name)?)
    }
}
