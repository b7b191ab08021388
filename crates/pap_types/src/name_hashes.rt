//! The hashes by which the names of a flowchart are looked up.

use pap_tree::{Declared, Name, PlanText};
use std::hash::{BuildHasher, DefaultHasher, FoldHasher, Hasher};

/// A byte that no name has. It stands behind each name that is written.
const END_OF_NAME: u8 = 0;

/// What makes the hashers of a flowchart's names. They are quick, but whoever knows the state that one begins with can compute
/// names that collide. So each begins with a state into which a SipHash of all declared names and methods was written: with each
/// name that a file changes the hashes of all change. That is meant to keep a file from choosing names that collide; no clause
/// says so.
#[derive(Clone, Copy)]
pub(crate) struct NameHashes {
    first: FoldHasher,
}

impl NameHashes {
    /// For the names of a plan.
    pub fn of_plan(plan: &PlanText) -> NameHashes {
        let mut all = DefaultHasher::new();
        write_names(&mut all, &plan.inputs);
        write_names(&mut all, &plan.outputs);
        write_names(&mut all, &plan.internals);
        write_names(&mut all, &plan.constants);
        for method in &plan.methods {
            write_name(&mut all, &method.name);
        }
        let mut first = FoldHasher::default();
        first.write_u64(all.finish());
        NameHashes { first }
    }
}

impl BuildHasher for NameHashes {
    type Hasher = FoldHasher;

    ghost build_hasher = { λ hashes. hashes.first };

    fn build_hasher(&self) -> FoldHasher {
        self.first
    }
}

/// Writes the names of declarations into a hasher.
fn write_names(hasher: &mut DefaultHasher, declared: &[Declared]) {
    for one in declared {
        write_name(hasher, &one.name);
    }
}

/// Writes a name into a hasher, so that no two lists of names are written alike.
fn write_name(hasher: &mut DefaultHasher, name: &Name) {
    hasher.write(name.bytes());
    hasher.write_u8(END_OF_NAME);
}
