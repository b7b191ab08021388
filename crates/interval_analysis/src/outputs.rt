//! The ranges of the outputs.
ghost use Rattle.std.specs.Prelude.{◌≡◌, ◌*ℤ◌, length};
ghost use Rattle.interval_walk.specs.Analysis.{is_bounded, is_small};
ghost use Rattle.interval_analysis.specs.private.PlanViews.{IsSized};
ghost use Rattle.interval_analysis.specs.private.OutputViews.{OutputAnswer, bounded_outputs, outputs_in};

use crate::OutputRange;
use crate::stop::WalkStop;
use interval_num::Abs;
use pap_tree::Declared;
use pap_types::Typed;
use scaled_decimal::power_of_ten;
use std::alloc::Global;

/// The most digits of an output after its point.
const OUTPUT_PLACES: u8 = 12;

/// The greatest magnitude of an output's numerator at so many places.
const OUTPUT_LIMIT: u128 = 100_000_000_000_000_000_000_000_000_000_000;

/// The ranges of the outputs, which stand after the inputs, or the first output that may be beyond its bound.
pub(crate) fn output_ranges(
    alloc: Global,
    plan: &Typed,
    ranges: &[Abs],
) -> Result<Vec<OutputRange>, WalkStop>
    requires { IsSized plan.now ranges.now }
    ensures { OutputAnswer (outputs_in plan.now ranges.now) result }
{
    let text = plan.plan();
    let inputs = text.inputs.as_slice();
    let outputs = text.outputs.as_slice();
    let first = inputs.len();
    let end = first + outputs.len();
    bounded(alloc, outputs, &ranges[first..end])
}

/// Declared outputs with their ranges, or the first that may be beyond its bound.
fn bounded(
    alloc: Global,
    outputs: &[Declared],
    ranges: &[Abs],
) -> Result<Vec<OutputRange>, WalkStop>
    requires { length ranges.now ≡ length outputs.now }
    ensures { OutputAnswer (bounded_outputs outputs.now ranges.now) result }
{
    let mut bounded = Vec::new(alloc);
    for i in 0..outputs.len() {
        let name = outputs[i].name;
        let range = ranges[i];
        if !is_bounded(range) {
            return Err(WalkStop::of_output(alloc, name, range));
        }
        match bounded.push(OutputRange { name, range }) {
            Ok(()) => {}
            Err(_) => return Err(WalkStop::Memory),
        }
    }
    Ok(bounded)
}

/// Whether each value of a range has at most 12 digits after its point and a magnitude of at most 10^20.
fn is_bounded(range: Abs) -> bool
    ensures { result ≡ is_bounded range }
{
    if range.s_hi() > OUTPUT_PLACES {
        return false;
    }
    let power = power_of_ten(OUTPUT_PLACES - range.s_hi());
    is_small(range.lo(), power) && is_small(range.hi(), power)
}

/// Whether a product is within the limit of outputs.
fn is_small(n: i128, factor: i128) -> bool
    ensures { result ≡ is_small (n *ℤ factor) }
{
    match n.unsigned_abs().checked_mul(factor.unsigned_abs()) {
        Some(product) => product <= OUTPUT_LIMIT,
        None => false,
    }
}
