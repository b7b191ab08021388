//! The names of a record's values, and those of the inputs.
ghost use Rattle.std.specs.Prelude.{◌≡◌, ◌<◌, [], IfOk, IfSome, length};
ghost use Rattle.payroll_records.specs.NamedValues.{AreValues};
ghost use Rattle.carry_bindings.specs.Filling.{unknown};
ghost use Rattle.carry_bindings.specs.private.Views.{marked, taken};

use limits_file::Slot;
use pap_tree::Name;
use payroll_records::Values;
use std::alloc::{AllocError, Global};

/// The first value of a record that no input takes. The marks say of each whether some input takes it.
pub(crate) fn unknown(marks: &[bool], slots: &[Slot], values: &Values) -> Option<Name>
    requires { marks.now ≡ taken slots.now values.now }
    ensures { result ≡ unknown slots.now values.now }
{
    for (at, name) in values.names().iter().enumerate() {
        if !marks[at] {
            return Some(*name);
        }
    }
    None
}

/// No value is taken yet.
pub(crate) fn none_taken(alloc: Global, values: &Values) -> Result<Vec<bool>, AllocError>
    ensures none { IfOk result (λ marks. marks.items ≡ taken [] values.now) }
    ensures are { AreValues values.now }
{
    let marks = vec![in alloc; false; values.names().len()]?;
    Ok(marks)
}

/// Marks the value at a place as taken by this input, unless the input carries.
pub(crate) fn mark(marks: &mut Vec<bool>, place: Option<usize>, slot: &Slot)
    requires { IfSome place (λ at. at < length marks.old.items) }
    ensures { marks.new.items ≡ marked marks.old.items place slot.now.carry }
{
    let Some(at) = place else {
        return;
    };
    if slot.carry.is_none() {
        marks[at] = true;
    }
}
