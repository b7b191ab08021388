//! The ranges with which the walk of MAIN begins.
ghost use Rattle.std.specs.Prelude.{◌≡◌, ◌≤◌, ◌++◌, IfOk, OnOk};
ghost use Rattle.std.specs.List.{All};
ghost use Rattle.scaled_decimal.specs.Decimals.{numerator_at};
ghost use Rattle.pap_tree.specs.Declarations.{declaration_of};
ghost use Rattle.pap_tree.specs.Flowchart.{flowchart_of};
ghost use Rattle.limits_file.specs.Limits.{HasSoundBounds};
ghost use Rattle.interval_num.specs.Intervals.{interval};
ghost use Rattle.pap_types.specs.Typing.{HasItsType};
ghost use Rattle.interval_walk.specs.Admission.{HaveLimits, HasLimit, SuitsLimit};
ghost use Rattle.interval_walk.specs.Analysis.{limit_range, input_range};
ghost use Rattle.interval_analysis.specs.private.StartViews.{CanSpan, IsStart, declarations, limited, begun};

use crate::names::single;
use interval_num::Abs;
use limits_file::{InputLimit, Limits};
use pap_tree::{Declared, Kind};
use pap_types::{FACTOR_PLACES, Typed, first_value};
use std::alloc::{AllocError, Global};

/// Inputs at their limits, the other variables at what they begin with.
pub(crate) fn start_ranges(
    alloc: Global,
    plan: &Typed,
    limits: &Limits,
) -> Result<Vec<Abs>, AllocError>
    requires { HaveLimits (flowchart_of plan.now) limits.now }
    ensures { IfOk result (λ rs. IsStart plan.now limits.now rs.items) }
{
    let text = plan.plan();
    let mut ranges = Vec::new(alloc);
    push_limited(&mut ranges, text.inputs.as_slice(), limits)?;
    push_begun(&mut ranges, text.outputs.as_slice())?;
    push_begun(&mut ranges, text.internals.as_slice())?;
    Ok(ranges)
}

/// Appends the ranges of inputs at their limits.
fn push_limited(
    ranges: &mut Vec<Abs>,
    inputs: &[Declared],
    limits: &Limits,
) -> Result<(), AllocError>
    requires limits { All (HasLimit limits.now) (declarations inputs.now) }
    requires typed { All HasItsType (declarations inputs.now) }
    ensures { OnOk result
        (ranges.new.items ≡ ranges.old.items ++ limited limits.now (declarations inputs.now)) }
{
    for input in inputs {
        ranges.push(input_range(input, limits))?;
    }
    Ok(())
}

/// Appends the ranges of variables at what they begin with.
fn push_begun(ranges: &mut Vec<Abs>, variables: &[Declared]) -> Result<(), AllocError>
    requires { All HasItsType (declarations variables.now) }
    ensures { OnOk result
        (ranges.new.items ≡ ranges.old.items ++ begun (declarations variables.now)) }
{
    for variable in variables {
        ranges.push(single(first_value(variable)))?;
    }
    Ok(())
}

/// The range of an input at its limit. There is one for each input (`HasLimit`): without it the range would be that of
/// the first value.
fn input_range(input: &Declared, limits: &Limits) -> Abs
    requires limit { HasLimit limits.now (declaration_of input.now) }
    requires typed { HasItsType (declaration_of input.now) }
    ensures { result ≡ (input_range limits.now (declaration_of input.now)).range }
{
    match limits.limit_of(&input.name) {
        Some(limit) => limit_range(input.kind, limit),
        None => single(first_value(input)),
    }
}

/// From a limit's low to its high bound, with no to all of its places; a `double` has three places.
fn limit_range(kind: Kind, limit: &InputLimit) -> Abs
    requires sound { HasSoundBounds limit.now }
    requires suits { SuitsLimit kind limit.now }
    ensures { result ≡ limit_range kind limit.now }
{
    match kind {
        Kind::Factor => between(limit, FACTOR_PLACES, FACTOR_PLACES),
        Kind::Int | Kind::Long | Kind::Big | Kind::Table => between(limit, 0, limit.places),
    }
}

/// From a limit's low to its high bound, with some numbers of places.
fn between(limit: &InputLimit, s_lo: u8, s_hi: u8) -> Abs
    requires { CanSpan limit.now s_lo s_hi }
    ensures { result
        ≡ interval (numerator_at s_hi limit.now.low) (numerator_at s_hi limit.now.high) s_lo s_hi }
{
    Abs::new(
        limit.low.numerator_at(s_hi),
        limit.high.numerator_at(s_hi),
        s_lo,
        s_hi,
    )
}
