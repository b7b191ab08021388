//! All reasons why a run has no inputs.
ghost use Rattle.std.specs.Prelude.{◌≡◌, ◌∷◌, ◌++◌, [], IfOk, OnOk, if◌then◌else◌, not, is_none};
ghost use Rattle.std.specs.Option.{option_to_list};
ghost use Rattle.carry_bindings.specs.Filling.{takes, value_of};
ghost use Rattle.diagnostics.specs.RunReasons.{has_slot, missing_reasons, outside_reason, outside_reasons, reasons_by, run_reasons, unknown_reasons, untaken_reason, FirstReasonIsNamed};
ghost use Rattle.pay_run.specs.Accepted.{accepted};

use limits_file::Slot;
use pap_plan::Plan;
use pap_tree::Name;
use payroll_records::Values;
use plain_words::RunReason;
use scaled_decimal::Dec;
use std::alloc::{AllocError, Global};

/// All reasons why a run of a plan on these values, without earlier runs, has no inputs: each value that no input takes, then each input
/// without a value, then each whose value is outside its range, with both. None where it has inputs. It takes time in proportion to the
/// values times the inputs, of which there are at most 256 each. Fails only for lack of memory.
pub fn run_reasons(
    alloc: Global,
    plan: &Plan,
    values: &Values,
) -> Result<Vec<RunReason>, AllocError>
    ensures { IfOk result
        (λ reasons. reasons.items ≡ run_reasons (accepted plan.now) values.now) }
{
    slot_reasons(alloc, plan.spec().slots.as_slice(), values)
}

/// All reasons why a run of these inputs on these values, without earlier runs, has none, as [`run_reasons`] gives them of a plan's.
pub fn slot_reasons(
    alloc: Global,
    slots: &[Slot],
    values: &Values,
) -> Result<Vec<RunReason>, AllocError>
    ensures { IfOk result (λ reasons. reasons.items ≡ reasons_by slots.now values.now) }
{
    let mut reasons = Vec::new(alloc);
    put_unknown(&mut reasons, slots, values)?;
    put_missing(&mut reasons, slots, values)?;
    put_outside(&mut reasons, slots, values)?;
    Ok(reasons)
}

/// Appends a reason for each value that no input takes.
fn put_unknown(
    reasons: &mut Vec<RunReason>,
    slots: &[Slot],
    values: &Values,
) -> Result<(), AllocError>
    ensures { OnOk result (reasons.new.items
        ≡ reasons.old.items ++ unknown_reasons slots.now values.now) }
{
    for name in values.names() {
        put_if(reasons, !takes(slots, name), untaken_reason(slots, name))?;
    }
    Ok(())
}

/// Appends a reason for each input without a value.
fn put_missing(
    reasons: &mut Vec<RunReason>,
    slots: &[Slot],
    values: &Values,
) -> Result<(), AllocError>
    ensures { OnOk result (reasons.new.items
        ≡ reasons.old.items ++ missing_reasons slots.now values.now) }
{
    for slot in slots {
        let value = value_of(values, slot);
        put_if(reasons, value.is_none(), RunReason::Missing(slot.name))?;
    }
    Ok(())
}

/// Appends a reason for each input whose value is outside its range.
fn put_outside(
    reasons: &mut Vec<RunReason>,
    slots: &[Slot],
    values: &Values,
) -> Result<(), AllocError>
    ensures { OnOk result (reasons.new.items
        ≡ reasons.old.items ++ outside_reasons slots.now values.now) }
{
    for slot in slots {
        put_some(reasons, outside_reason(values, slot))?;
    }
    Ok(())
}

/// The reason for an input whose value is outside its range.
fn outside_reason(values: &Values, slot: &Slot) -> Option<RunReason>
    ensures { result ≡ outside_reason values.now slot.now }
{
    let value = value_of(values, slot)?;
    if slot.limit.fits(value) {
        return None;
    }
    Some(RunReason::Outside {
        name: slot.name,
        value,
        limit: slot.limit,
    })
}

/// Appends a reason where it is one.
fn put_if(reasons: &mut Vec<RunReason>, is_one: bool, reason: RunReason) -> Result<(), AllocError>
    ensures { OnOk result (reasons.new.items
        ≡ reasons.old.items ++ (if is_one then reason ∷ [] else [])) }
{
    if is_one {
        reasons.push(reason)?;
    }
    Ok(())
}

/// Appends a reason where there is one.
fn put_some(reasons: &mut Vec<RunReason>, reason: Option<RunReason>) -> Result<(), AllocError>
    ensures { OnOk result (reasons.new.items
        ≡ reasons.old.items ++ option_to_list reason) }
{
    if let Some(own) = reason {
        reasons.push(own)?;
    }
    Ok(())
}

/// Whether an input of this name takes a value: it doesn't carry.
fn takes(slots: &[Slot], name: &Name) -> bool
    ensures { result ≡ takes slots.now name.now }
{
    slots
        .iter()
        .any(|slot| slot.name == *name && slot.carry.is_none())
}

/// Why no input takes a value of this name: its input carries, or there is none.
fn untaken_reason(slots: &[Slot], name: &Name) -> RunReason
    ensures { result ≡ untaken_reason slots.now name.now }
{
    if has_slot(slots, name) {
        RunReason::Carried(*name)
    } else {
        RunReason::Unknown(*name)
    }
}

/// Whether there is an input of this name.
fn has_slot(slots: &[Slot], name: &Name) -> bool
    ensures { result ≡ has_slot slots.now name.now }
{
    slots.iter().any(|slot| slot.name == *name)
}

/// The value of an input without earlier runs: 0 where it carries, and else the record's or its default.
fn value_of(values: &Values, slot: &Slot) -> Option<Dec>
    ensures { result ≡ value_of values.now [] slot.now }
{
    if slot.carry.is_some() {
        return Some(Dec::new(0, 0));
    }
    values.find(&slot.name).or(slot.value)
}

/// A law, with nothing to run: the first of all reasons tells of the answer with which `once` is refused.
pub fn reason_laws()
    ensures { FirstReasonIsNamed }
{}
