//! Whether the outputs of a run are within their bound.
ghost use Rattle.std.specs.Prelude.{◌+◌, ◌≤◌, IsTrue, IfSome, map, length};
ghost use Rattle.pap_tree.specs.Declarations.{declaration_of};
ghost use Rattle.limits_file.specs.Limits.{IsWithinBound};
ghost use Rattle.failing_input.specs.private.OutputViews.{IsBeyondAt};

use pap_tree::{Declared, Name};
use scaled_decimal::{Dec, power_of_ten};

/// The most digits of an output after its point.
const OUTPUT_PLACES: u8 = 12;

/// The greatest magnitude of an output's numerator at so many places.
const OUTPUT_LIMIT: u128 = 100_000_000_000_000_000_000_000_000_000_000;

/// The first output whose value is beyond its bound. The values of the outputs stand behind those of so many inputs.
pub(crate) fn output_beyond(outputs: &[Declared], inputs: usize, values: &[Dec]) -> Option<Name>
    requires { inputs + length outputs.now ≤ length values.now }
    ensures { IfSome result
        (IsBeyondAt inputs (map declaration_of outputs.now) values.now) }
{
    for (i, output) in outputs.iter().enumerate() {
        if is_beyond(values[inputs + i]) {
            return Some(output.name);
        }
    }
    None
}

/// Whether a value has more than 12 digits after its point or is beyond 10^20.
fn is_beyond(value: Dec) -> bool
    ensures { IsTrue result → ¬ (IsWithinBound value) }
{
    let scale = value.scale();
    if scale > OUTPUT_PLACES {
        return true;
    }
    let power = power_of_ten(OUTPUT_PLACES - scale).unsigned_abs();
    match value.numerator().unsigned_abs().checked_mul(power) {
        Some(numerator) => numerator > OUTPUT_LIMIT,
        None => true,
    }
}
