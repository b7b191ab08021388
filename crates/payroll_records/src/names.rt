//! The names of a record's values.
ghost use Rattle.std.specs.Prelude.{◌≡◌, ◌<◌, ◌≤◌, IfOk, IfSome, OnErr, OnOk, length};
ghost use Rattle.std.specs.List.{insert};
ghost use Rattle.std.specs.Rc.{rc_slice_items};
ghost use Rattle.payroll_records.specs.Limits.{most_values};
ghost use Rattle.payroll_records.specs.KeptValues.{listed};

use pap_tree::Name;
use std::alloc::{AllocError, Global};
use std::rc::RcSlice;

/// The names of a record's values, in order.
#[derive(Debug, Drop)]
pub(crate) enum Names {
    /// A list of this record alone, which may grow.
    Own(Vec<Name>),
    /// A list that never changes, so that the records of a table can share it.
    Shared(RcSlice<Name>),
}

impl Names {
    /// The names.
    pub(crate) fn as_slice(&self) -> &[Name]
        ensures { result.now ≡ listed self.now }
    {
        match self {
            Names::Own(names) => names.as_slice(),
            Names::Shared(names) => names.as_slice(),
        }
    }

    /// The same names in a list that can be shared: that of `before` where it has just these, and else one of their own.
    pub(crate) fn sharing(self, before: Option<&Names>) -> Result<Names, AllocError>
        ensures { IfOk result (λ names. listed names ≡ listed self) }
    {
        if let Some(list) = list_of(before, self.as_slice()) {
            return Ok(Names::Shared(list.clone()?));
        }
        Ok(Names::Shared(self.into_list()?))
    }

    /// The same names as a list that can be shared.
    pub(crate) fn into_list(self) -> Result<RcSlice<Name>, AllocError>
        ensures { IfOk result (λ list. rc_slice_items list ≡ listed self) }
    {
        match self {
            Names::Own(names) => RcSlice::from_vec(names),
            Names::Shared(list) => Ok(list),
        }
    }

    /// Puts one more name at a place: into the list of the record alone, which is made where there is none. Without memory
    /// the names are as before.
    pub(crate) fn insert(&mut self, alloc: Global, at: usize, name: Name) -> Result<(), AllocError>
        requires within { at ≤ length (listed self.old) }
        requires few { length (listed self.old) < most_values }
        ensures ok { OnOk result (listed self.new ≡ insert (listed self.old) at name) }
        ensures err { OnErr result (listed self.new ≡ listed self.old) }
    {
        match self {
            Names::Own(names) => {
                names.insert(at, name)?;
                Ok(())
            }
            Names::Shared(names) => {
                let longer = with_name(alloc, names.as_slice(), at, name)?;
                *self = Names::Own(longer);
                Ok(())
            }
        }
    }
}

/// The list of `before`, if it can be shared and has just these names.
fn list_of<'a>(before: Option<&'a Names>, names: &[Name]) -> Option<&'a RcSlice<Name>>
    ensures { IfSome result (λ list. rc_slice_items list.now ≡ names.now) }
{
    if let Some(Names::Shared(list)) = before {
        if list.as_slice() == names {
            return Some(list);
        }
    }
    None
}

/// A new list of the names with one more, at a place.
fn with_name(alloc: Global, names: &[Name], at: usize, name: Name) -> Result<Vec<Name>, AllocError>
    requires within { at ≤ length names.now }
    requires few { length names.now < most_values }
    ensures { IfOk result (λ longer. longer.items ≡ insert names.now at name) }
{
    let mut longer = Vec::with_capacity(alloc, names.len() + 1)?;
    longer.extend_from_slice(names)?;
    longer.insert(at, name)?;
    Ok(longer)
}
