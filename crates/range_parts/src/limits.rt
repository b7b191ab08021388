//! Whether the inputs of a plan have ranges.
ghost use Rattle.std.specs.Prelude.{IsTrue, All};
ghost use Rattle.pap_tree.specs.Declarations.{declaration_of};
ghost use Rattle.pap_tree.specs.Flowchart.{flowchart_of};
ghost use Rattle.limits_file.specs.Limits.{HasSoundBounds};
ghost use Rattle.interval_walk.specs.Admission.{SuitsLimit, HasLimit, HaveLimits};

use limits_file::{InputLimit, Limits};
use pap_tree::{Declared, Kind, is_kept_at};
use pap_types::{FACTOR_PLACES, Typed};
use scaled_decimal::{is_int, is_long};

/// Whether each input of a plan has a range that suits it.
pub(crate) fn have_limits(t: &Typed, limits: &Limits) -> bool
    requires { All HasSoundBounds limits.now.inputs }
    ensures { IsTrue result → HaveLimits (flowchart_of t.now) limits.now }
{
    let inputs = t.plan().inputs.as_slice();
    for input in inputs {
        if !has_limit(input, limits) {
            return false;
        }
    }
    true
}

/// Whether a declared input has a range that suits it.
fn has_limit(input: &Declared, limits: &Limits) -> bool
    requires { All HasSoundBounds limits.now.inputs }
    ensures { IsTrue result → HasLimit limits.now (declaration_of input.now) }
{
    match limits.limit_of(&input.name) {
        Some(limit) => suits_limit(input.kind, limit),
        None => false,
    }
}

/// Whether a range suits an input of a type.
fn suits_limit(kind: Kind, limit: &InputLimit) -> bool
    ensures { IsTrue result → SuitsLimit kind limit.now }
{
    match kind {
        Kind::Int => {
            limit.places == 0 && is_int(limit.low.numerator()) && is_int(limit.high.numerator())
        }
        Kind::Long => {
            limit.places == 0 && is_long(limit.low.numerator()) && is_long(limit.high.numerator())
        }
        Kind::Factor => {
            limit.places <= FACTOR_PLACES
                && is_kept_at(limit.low, FACTOR_PLACES)
                && is_kept_at(limit.high, FACTOR_PLACES)
        }
        Kind::Big | Kind::Table => true,
    }
}
