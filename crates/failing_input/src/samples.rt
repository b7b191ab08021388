//! Admitted inputs to try.
ghost use Rattle.std.specs.Prelude.{◌≡◌, IfOk, IfSome, All};
ghost use Rattle.scaled_decimal.specs.Limits.{IsWithinLimit, IsKept};
ghost use Rattle.pap_tree.specs.Declarations.{declaration_of};
ghost use Rattle.pap_tree.specs.Flowchart.{flowchart_of};
ghost use Rattle.limits_file.specs.Limits.{Fits, HasSoundBounds};
ghost use Rattle.interval_walk.specs.Admission.{IsAdmitted, SuitsLimit, HasLimit, HaveLimits, AreAdmitted};
ghost use Rattle.failing_input.specs.Searches.{FailsOn};
ghost use Rattle.failing_input.specs.private.SampleViews.{IsRangeOf, AreRangesOf, IsSoundRange, AreChosen, IsFailingSample};
ghost use Rattle.failing_input.specs.private.OutputViews.{HasEnds, IsOutputFailure};

use crate::failure::Failure;
use crate::outputs::output_beyond;
use checked_run::{RunEnd, RunFailure, checked_run};
use limits_file::{InputLimit, Limits};
use pap_tree::{Declared, Kind};
use pap_types::{Typed, at_factor_scale};
use scaled_decimal::Dec;
use std::alloc::{AllocError, Global};

/// How many ways a value of a range is chosen.
const CHOICES: u64 = 8;

/// An input by its type and its range.
#[derive(Clone, Copy)]
pub(crate) struct InputRange {
    pub kind: Kind,
    pub limit: InputLimit,
}

/// Inputs on which a run fails.
#[derive(Drop)]
pub(crate) struct FailingSample {
    pub inputs: Vec<Dec>,
    pub failure: Failure,
}

/// The types and ranges of a plan's inputs, in declared order.
pub(crate) fn ranges_of(
    alloc: Global,
    t: &Typed,
    limits: &Limits,
) -> Result<Vec<InputRange>, AllocError>
    requires { HaveLimits (flowchart_of t.now) limits.now }
    ensures { IfOk result
        (λ ranges. AreRangesOf limits.now t.now.inputs.items ranges.items) }
{
    let inputs = t.plan().inputs.as_slice();
    let mut ranges = Vec::new(alloc);
    for input in inputs {
        ranges.push(range_of(input, limits))?;
    }
    Ok(ranges)
}

/// The type and the range of a declared input.
fn range_of(input: &Declared, limits: &Limits) -> InputRange
    requires { HasLimit limits.now (declaration_of input.now) }
    ensures { IsRangeOf limits.now (declaration_of input.now) result }
{
    let Some(limit) = limits.limit_of(&input.name) else {
        unreachable!()
    };
    InputRange {
        kind: input.kind,
        limit: *limit,
    }
}

/// The first of these samples on which the run fails at a node.
pub(crate) fn failing_sample(
    alloc: Global,
    t: &Typed,
    limits: &Limits,
    ranges: &[InputRange],
    samples: u64,
) -> Result<Option<FailingSample>, AllocError>
    requires limits { HaveLimits (flowchart_of t.now) limits.now }
    requires ranges { AreRangesOf limits.now t.now.inputs.items ranges.now }
    ensures { IfOk result
        (λ found. IfSome found (IsFailingSample (flowchart_of t.now) limits.now)) }
{
    for seed in 0..samples {
        let inputs = sample(alloc, ranges, seed)?;
        if let Some(failure) = failure_on(alloc, t, limits, &inputs)? {
            return Ok(Some(FailingSample { inputs, failure }));
        }
    }
    Ok(None)
}

/// What goes wrong in the run on some admitted inputs.
fn failure_on(
    alloc: Global,
    t: &Typed,
    limits: &Limits,
    inputs: &[Dec],
) -> Result<Option<Failure>, AllocError>
    requires limits { HaveLimits (flowchart_of t.now) limits.now }
    requires admitted { AreAdmitted (flowchart_of t.now) limits.now inputs.now }
    ensures { IfOk result (λ failure. IfSome failure (FailsOn (flowchart_of t.now) inputs.now)) }
{
    match checked_run(alloc, t, inputs)? {
        RunEnd::Ends(values) => Ok(output_failure(t, &values)),
        RunEnd::Fails(RunFailure::At { place, cause }) => Ok(Some(Failure::Node { place, cause })),
        RunEnd::Fails(RunFailure::Chain { .. }) => Ok(None),
    }
}

/// The first output that is beyond its bound at the end of a run.
fn output_failure(t: &Typed, values: &[Dec]) -> Option<Failure>
    requires { HasEnds (flowchart_of t.now) values.now }
    ensures { IfSome result (IsOutputFailure (flowchart_of t.now) values.now) }
{
    let plan = t.plan();
    let inputs = plan.inputs.as_slice();
    let outputs = plan.outputs.as_slice();
    match output_beyond(outputs, inputs.len(), values) {
        Some(name) => Some(Failure::Output { name }),
        None => None,
    }
}

/// A value for each input.
fn sample(alloc: Global, ranges: &[InputRange], seed: u64) -> Result<Vec<Dec>, AllocError>
    requires { All IsSoundRange ranges.now }
    ensures { IfOk result (λ values. AreChosen ranges.now values.items) }
{
    let mut values = Vec::new(alloc);
    let mut number: u64 = 0;
    for range in ranges {
        let choice = choice_of(seed, number);
        values.push(value_of_choice(range.kind, &range.limit, choice))?;
        number = number.wrapping_add(1);
    }
    Ok(values)
}

/// How the value of the input of a number is chosen: the first samples choose alike for all inputs.
fn choice_of(seed: u64, number: u64) -> u64 {
    if seed < CHOICES {
        return seed;
    }
    let mixed = seed
        .wrapping_add(number.wrapping_mul(1_442_695_040_888_963_407))
        .wrapping_mul(6_364_136_223_846_793_005);
    (mixed >> 33) % CHOICES
}

/// A value of a range, as an input of the type has it.
fn value_of_choice(kind: Kind, limit: &InputLimit, choice: u64) -> Dec
    requires sound { HasSoundBounds limit.now }
    requires suits { SuitsLimit kind limit.now }
    ensures { IsAdmitted kind limit.now result }
{
    let value = kept(fitting(limit, choice));
    match kind {
        Kind::Factor => at_factor_scale(value),
        Kind::Int | Kind::Long | Kind::Big | Kind::Table => value,
    }
}

/// A decimal, which is within the limits of its type.
fn kept(value: Dec) -> Dec
    ensures value { result ≡ value }
    ensures kept { IsKept result }
{
    let _numerator = value.numerator();
    let _scale = value.scale();
    value
}

/// A value of a range: an end or its neighbour, zero or its neighbour, or the middle; the low end where that lies outside.
fn fitting(limit: &InputLimit, choice: u64) -> Dec
    requires { HasSoundBounds limit.now }
    ensures { Fits limit.now result }
{
    let low = limit.low.numerator_at(limit.places);
    let high = limit.high.numerator_at(limit.places);
    let value = Dec::new(chosen(low, high, choice), limit.places);
    if limit.fits(value) { value } else { limit.low }
}

/// A whole number from the low to the high end.
fn chosen(low: i128, high: i128, choice: u64) -> i128
    requires low { IsWithinLimit low }
    requires high { IsWithinLimit high }
    ensures { IsWithinLimit result }
{
    let number = match choice {
        0 => low,
        1 => high,
        2 => 0,
        3 => low.wrapping_add(1),
        4 => high.wrapping_sub(1),
        5 => 1,
        6 => -1,
        _ => low.wrapping_add(high) / 2,
    };
    if number < low || high < number {
        return low;
    }
    number
}
