//! The outputs of earlier runs, and what stands among them under a name.
ghost use Rattle.std.specs.Prelude.{◌≡◌, IfOk, List, Option, Some, map, option_map, position, slice_get, true, ℕ};
ghost use Rattle.std.specs.Bool.{OnTrue};
ghost use Rattle.std.specs.Str.{bytes_eq};
ghost use Rattle.payroll_records.specs.NamedValues.{name_of};
ghost use Rattle.carry_bindings.specs.Carrying.{amount_of};
ghost use Rattle.carry_bindings.specs.private.OutputViews.{AreAlike, lent_names, names_in, place_in};

use crate::carried::Earlier;
use limits_file::Items;
use pap_tree::Name;
use payroll_records::NamedValue;
use scaled_decimal::Dec;
use std::alloc::{AllocError, Global};

/// Of each earlier run, whether its outputs are known to have the names of those of the run before, in the same order:
/// then each stands where it stood there, and isn't searched for.
pub(crate) fn alike(alloc: Global, earlier: &[Earlier]) -> Result<Vec<bool>, AllocError>
    ensures { IfOk result (λ marks. AreAlike marks.items earlier.now) }
{
    let mut marks = Vec::with_capacity(alloc, earlier.len())?;
    let mut before = None;
    for e in earlier {
        let outputs = e.outputs.as_ref();
        marks.push(are_alike(before, outputs))?;
        before = outputs;
    }
    Ok(marks)
}

/// Whether two runs are ok, and their outputs have the same names in the same order.
fn are_alike(before: Option<&Items<NamedValue>>, outputs: Option<&Items<NamedValue>>) -> bool
    ensures { OnTrue result (lent_names before.entry ≡ lent_names outputs.entry) }
{
    let (Some(before), Some(outputs)) = (before, outputs) else {
        return false;
    };
    same_names(before.as_slice(), outputs.as_slice())
}

fn same_names(before: &[NamedValue], outputs: &[NamedValue]) -> bool
    ensures { OnTrue result (map name_of before.now ≡ map name_of outputs.now) }
{
    if before.len() != outputs.len() {
        return false;
    }
    for (at, output) in outputs.iter().enumerate() {
        if output.name != before[at].name {
            return false;
        }
    }
    true
}

/// Whether the run at a place is known to be like the one before.
pub(crate) fn is_marked(marks: &[bool], at: usize) -> bool
    ensures { OnTrue result (slice_get marks.now at ≡ Some true) }
{
    at < marks.len() && marks[at]
}

/// Where an output stands in an earlier run, where the run is ok and has it: where it stood in the run before, if both
/// are alike.
pub(crate) fn place_in(
    name: &Name,
    e: &Earlier,
    alike: bool,
    before: Option<usize>,
) -> Option<usize>
    ensures { (names : Option (List (List ℕ))) → before ≡ place_in name.now names
        → OnTrue alike (names ≡ names_in e.now)
        → result ≡ place_in name.now (names_in e.now) }
{
    if alike {
        return before;
    }
    let outputs = e.outputs.as_ref()?;
    place_of(name, outputs.as_slice())
}

fn place_of(name: &Name, outputs: &[NamedValue]) -> Option<usize>
    ensures { result ≡ position (λ v. bytes_eq v.name name.now) outputs.now }
{
    outputs.iter().position(|v| v.name == *name)
}

/// The output at a place of an earlier run.
pub(crate) fn amount_at(place: Option<usize>, e: &Earlier) -> Option<Dec>
    ensures { (name : List ℕ) → place ≡ place_in name (names_in e.now)
        → result ≡ amount_of name e.now }
{
    let outputs = e.outputs.as_ref()?;
    let output = outputs.as_slice().get(place?)?;
    Some(output.value)
}
