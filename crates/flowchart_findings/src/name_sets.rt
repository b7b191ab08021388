//! The names of a flowchart by what is done with them.
ghost use Rattle.std.specs.Prelude.{◌≡◌, IfOk, map};
ghost use Rattle.pap_tree.specs.Declarations.{declaration_of};
ghost use Rattle.pap_tree.specs.Flowchart.{flowchart_of};
ghost use Rattle.pap_types.specs.Scopes.{names_of};
ghost use Rattle.flowchart_findings.specs.private.SetViews.{has_in, HasNames, HaveNames, read_by, assigned_by, unused_by};

use crate::uses::uses_of;
use pap_tree::{Declared, Name, PlanText};
use std::alloc::{AllocError, Global};
use std::collections::BTreeSet;

/// The names that a flowchart reads, those that it assigns, and its internal names.
#[derive(Drop)]
pub(crate) struct NameSets {
    read: BTreeSet<Name>,
    assigned: BTreeSet<Name>,
    internals: BTreeSet<Name>,
}

impl NameSets {
    /// Those of a flowchart.
    pub fn of(alloc: Global, plan: &PlanText) -> Result<NameSets, AllocError>
        ensures { IfOk result (HaveNames (flowchart_of plan.now)) }
    {
        let uses = uses_of(alloc, plan)?;
        let names = declared_names(alloc, &plan.internals)?;
        let read = name_set(alloc, &uses.read)?;
        let assigned = name_set(alloc, &uses.assigned)?;
        let internals = name_set(alloc, &names)?;
        Ok(NameSets {
            read,
            assigned,
            internals,
        })
    }

    /// Whether some expression names it.
    pub fn is_read(&self, name: &Name) -> bool
        ensures { result ≡ read_by self.now name.now }
    {
        has_name(&self.read, name)
    }

    /// Whether some EVAL assigns it.
    pub fn is_assigned(&self, name: &Name) -> bool
        ensures { result ≡ assigned_by self.now name.now }
    {
        has_name(&self.assigned, name)
    }

    /// Whether it is an internal name that no expression names.
    pub fn is_unused(&self, name: &Name) -> bool
        ensures { result ≡ unused_by self.now name.now }
    {
        has_name(&self.internals, name) && !has_name(&self.read, name)
    }
}

/// The set of some names.
fn name_set(alloc: Global, names: &[Name]) -> Result<BTreeSet<Name>, AllocError>
    ensures { IfOk result (HasNames names.now) }
{
    let mut set = BTreeSet::new(alloc);
    for name in names {
        set.insert(*name)?;
    }
    Ok(set)
}

/// The names of declarations.
fn declared_names(alloc: Global, declared: &[Declared]) -> Result<Vec<Name>, AllocError>
    ensures { IfOk result (λ names. names.items ≡ names_of (map declaration_of declared.now)) }
{
    let mut names = Vec::with_capacity(alloc, declared.len())?;
    for declaration in declared {
        names.push(declaration.name)?;
    }
    Ok(names)
}

/// Whether a name is in a set.
fn has_name(set: &BTreeSet<Name>, name: &Name) -> bool
    ensures { result ≡ has_in set.now name.now }
{
    set.contains(name)
}
