//! Parts of the ranges of a plan's inputs.
ghost use Rattle.std.specs.Prelude.{◌≡◌, IfOk, IfSome, All};
ghost use Rattle.pap_tree.specs.Flowchart.{flowchart_of};
ghost use Rattle.limits_file.specs.Limits.{HasSoundBounds};
ghost use Rattle.range_parts.specs.Parts.{AreRangeParts};
ghost use Rattle.range_parts.specs.private.HalfViews.{replaced, replaced_in, AreHalves};

use crate::limits::have_limits;
use limits_file::{InputLimit, Items, Limits};
use pap_types::Typed;
use scaled_decimal::Dec;
use std::alloc::{AllocError, Global};

/// A range that is split in two.
#[derive(Clone, Copy)]
pub(crate) struct Halves {
    pub first: InputLimit,
    pub second: InputLimit,
}

/// Ranges that are split in two: the parts hold all inputs that they admit.
#[derive(Drop)]
pub struct Parts {
    pub first: Limits,
    pub second: Limits,
}

/// The ranges alone, without what inputs carry over.
pub fn copied(alloc: Global, limits: &Limits) -> Result<Limits, AllocError>
    ensures { IfOk result (λ part. part.inputs ≡ limits.now.inputs) }
{
    let mut inputs = Vec::new(alloc);
    inputs.extend_from_slice(limits.inputs.as_slice())?;
    Ok(only(alloc, inputs))
}

/// Ranges to which no input is bound.
fn only(alloc: Global, inputs: Vec<InputLimit>) -> Limits
    ensures { result.inputs ≡ inputs.items }
{
    Limits {
        inputs: Items::from_vec(inputs),
        bindings: Items::from_vec(Vec::new(alloc)),
    }
}

/// The ranges, split behind a numerator of the range of an input, where both parts have values.
pub fn split(
    alloc: Global,
    t: &Typed,
    limits: &Limits,
    range: &InputLimit,
    at: i128,
) -> Result<Option<Parts>, AllocError>
    requires { All HasSoundBounds limits.now.inputs }
    ensures { IfOk result
        (λ parts. IfSome parts (AreRangeParts (flowchart_of t.now) limits.now)) }
{
    // For the proof: the names of the plan's inputs differ.
    let _typed = t.plan();
    let Some(limit) = limits.limit_of(&range.name) else {
        return Ok(None);
    };
    let Some(halves) = split_range(limit, at) else {
        return Ok(None);
    };
    let first = with_range(alloc, limits, &halves.first)?;
    let second = with_range(alloc, limits, &halves.second)?;
    if have_limits(t, &first) && have_limits(t, &second) {
        Ok(Some(Parts { first, second }))
    } else {
        Ok(None)
    }
}

/// The range up to a numerator at its places, and that from the next one on, where both have values.
fn split_range(limit: &InputLimit, at: i128) -> Option<Halves>
    requires { HasSoundBounds limit.now }
    ensures { IfSome result (AreHalves limit.now) }
{
    let places = limit.places;
    let low = limit.low.numerator_at(places);
    let high = limit.high.numerator_at(places);
    if at < low || high <= at {
        return None;
    }
    Some(Halves {
        first: InputLimit {
            high: Dec::new(at, places),
            ..*limit
        },
        second: InputLimit {
            low: Dec::new(at + 1, places),
            ..*limit
        },
    })
}

/// The ranges, with another one of an input.
fn with_range(alloc: Global, limits: &Limits, range: &InputLimit) -> Result<Limits, AllocError>
    ensures { IfOk result (λ part. part.inputs ≡ replaced_in range.now limits.now.inputs) }
{
    let mut inputs = Vec::new(alloc);
    for limit in limits.inputs.as_slice() {
        inputs.push(replaced(range, limit))?;
    }
    Ok(only(alloc, inputs))
}

/// The range of an input, or another one of its name.
fn replaced(range: &InputLimit, limit: &InputLimit) -> InputLimit
    ensures { result ≡ replaced range.now limit.now }
{
    if limit.name == range.name {
        *range
    } else {
        *limit
    }
}
