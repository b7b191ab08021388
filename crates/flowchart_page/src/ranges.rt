//! The ranges of declared names as the table shows them.
ghost use Rattle.std.specs.Prelude.{◌≡◌, ◌++◌, ◌∷◌, [], IfOk, OnOk, find};
ghost use Rattle.std.specs.Prelude.{map, option_map, string_bytes};
ghost use Rattle.std.specs.Option.{option_map_or};
ghost use Rattle.std.specs.Str.{bytes_eq};
ghost use Rattle.limits_file.specs.Limits.{limit_named};
ghost use Rattle.flowchart_page.specs.Ranges.{places_text, limit_text, carry_text, carries_text, input_text, range_text, internal_text};

use interval_analysis::OutputRange;
use limits_file::{Binding, Carry, InputLimit, Limits};
use pap_tree::Name;
use scaled_decimal::Dec;
use std::alloc::{AllocError, Global};

/// The range of an input and what it carries over, as `0 to 12.5, 1 place`. Empty where the range file has none.
pub(crate) fn input_range(alloc: Global, limits: &Limits, name: &Name) -> Result<String, AllocError>
    ensures { IfOk result (λ text. string_bytes text ≡ input_text limits.now name.now) }
{
    let mut text = limit_of(alloc, limits, name)?;
    push_carries(alloc, &mut text, limits.bindings.as_slice(), name)?;
    Ok(text)
}

/// Appends what an input carries over by some bindings.
fn push_carries(
    alloc: Global,
    text: &mut String,
    bindings: &[Binding],
    name: &Name,
) -> Result<(), AllocError>
    ensures { OnOk result (string_bytes text.new
        ≡ string_bytes text.old ++ carries_text bindings.now name.now) }
{
    for binding in bindings {
        push_carry(alloc, text, binding, name)?;
    }
    Ok(())
}

/// Appends what an input carries over by a binding, where that is its own.
#[tactic(auto, using(crate::proofs::RangeLemmas::carry_pushed, crate::proofs::RangeLemmas::carry_none))]
fn push_carry(
    alloc: Global,
    text: &mut String,
    binding: &Binding,
    name: &Name,
) -> Result<(), AllocError>
    ensures { OnOk result (string_bytes text.new
        ≡ string_bytes text.old ++ carries_text (binding.now ∷ []) name.now) }
{
    if binding.input != *name {
        return Ok(());
    }
    text.push_str(&carry_text(alloc, binding.carry)?)?;
    Ok(())
}

/// The limit of an input. Empty where the range file has none.
fn limit_of(alloc: Global, limits: &Limits, name: &Name) -> Result<String, AllocError>
    ensures { IfOk result (λ text. string_bytes text
        ≡ option_map_or limit_text (limit_named limits.now name.now) []) }
{
    match limit_named(limits.inputs.as_slice(), name) {
        Some(limit) => limit_text(alloc, limit),
        None => Ok(String::new(alloc)),
    }
}

/// The limit of a name.
fn limit_named<'a>(limits: &'a [InputLimit], name: &Name) -> Option<&'a InputLimit>
    ensures { option_map (λ limit. limit.now) result
        ≡ find (λ limit. bytes_eq limit.name name.now) limits.now }
{
    limits.iter().find(|limit| limit.name == *name)
}

/// A limit, as `0 to 12.5, 1 place`.
fn limit_text(alloc: Global, limit: &InputLimit) -> Result<String, AllocError>
    ensures { IfOk result (λ text. string_bytes text ≡ limit_text limit.now) }
{
    let low = limit.low;
    let high = limit.high;
    let places = places_text(alloc, limit.places)?;
    format!(in alloc; "{low} to {high}{places}")
}

/// How many places values have, where they may have some, as `, 1 place`.
fn places_text(alloc: Global, places: u8) -> Result<String, AllocError>
    ensures { IfOk result (λ text. string_bytes text ≡ places_text places) }
{
    if places == 0 {
        Ok(String::new(alloc))
    } else if places == 1 {
        format!(in alloc; ", 1 place")
    } else {
        format!(in alloc; ", {places} places")
    }
}

/// What an input carries over, as `; last LSTLZZ`.
fn carry_text(alloc: Global, carry: Carry) -> Result<String, AllocError>
    ensures { IfOk result (λ text. string_bytes text ≡ carry_text carry) }
{
    match carry {
        Carry::Sum(output) => format!(in alloc; "; sum of {output} so far"),
        Carry::Last(output) => format!(in alloc; "; last {output}"),
        Carry::Count => format!(in alloc; "; number of runs so far"),
    }
}

/// The range of the internal of a number over the whole run. Empty where none is known.
#[tactic(auto, using(crate::proofs::RangeLemmas::text_of))]
pub(crate) fn internal_range(
    alloc: Global,
    internals: &[Vec<u8>],
    number: usize,
) -> Result<Vec<u8>, AllocError>
    ensures { IfOk result (λ text. text.items
        ≡ internal_text (map (λ t. t.items) internals.now) number) }
{
    let mut text = Vec::new(alloc);
    match internals.get(number) {
        Some(range) => {
            text.extend_from_slice(range)?;
            Ok(text)
        }
        None => Ok(text),
    }
}

/// The range of an output, as `0.00 to 140000.00`.
pub(crate) fn output_range(alloc: Global, output: &OutputRange) -> Result<String, AllocError>
    ensures { IfOk result (λ text. string_bytes text ≡ range_text output.now.range) }
{
    let range = output.range;
    let low = Dec::new(range.lo(), range.s_hi());
    let high = Dec::new(range.hi(), range.s_hi());
    format!(in alloc; "{low} to {high}")
}
