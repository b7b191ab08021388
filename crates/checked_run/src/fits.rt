//! Whether the numbers that an operation works with are within their limits.
ghost use Rattle.std.specs.Prelude.{◌≡◌, ◌≢◌, ◌+◌, ◌≤◌, ◌↔◌, ◌*ℤ◌, IsTrue, pos};
ghost use Rattle.scaled_decimal.specs.declared.rounding.Mode.{Mode};
ghost use Rattle.scaled_decimal.specs.Decimals.{numerator_of, scale_of, numerator_at, ten_to};
ghost use Rattle.scaled_decimal.specs.ExactQuotients.{IsPlainDivisor};
ghost use Rattle.scaled_decimal.specs.Limits.{IsWithinLimit, most_places};
ghost use Rattle.scaled_decimal.specs.WholeNumbers.{IsOfBits};
ghost use Rattle.scaled_decimal.specs.WorkingNumbers.{ComparisonFits, SumFits, DifferenceFits, RescaleFits, QuotientFits, ExactQuotientFits, IsDivisorPlaces};
ghost use Rattle.pap_types.specs.Safety.{bits_of};
ghost use Rattle.checked_run.specs.private.FitViews.{IsHeld, IsProductOf};

use pap_types::NodeKind;
use scaled_decimal::{Dec, LIMIT, MOST_POWER, divisor_places, is_int, is_long, power_of_ten};

/// Whether a numerator is within the limit.
pub(crate) fn is_within_limit(n: i128) -> bool
    ensures { IsTrue result ↔ IsWithinLimit n }
{
    n.unsigned_abs() <= LIMIT
}

/// Whether a whole number of a kind has this value.
pub(crate) fn is_of_kind(kind: NodeKind, n: i128) -> bool
    ensures { IsTrue result ↔ IsOfBits (bits_of kind) n }
{
    match kind {
        NodeKind::Long => is_long(n),
        _ => is_int(n),
    }
}

/// The product, where it is within the limit.
pub(crate) fn product_of(m: i128, n: i128) -> Option<i128>
    ensures { IsProductOf m n result }
{
    let product = m.checked_mul(n)?;
    if is_within_limit(product) {
        Some(product)
    } else {
        None
    }
}

/// `n` * 10^`places`, where it is within the limit.
fn lengthened(n: i128, places: u8) -> Option<i128>
    requires { places ≤ 37 }
    ensures { IsHeld (n *ℤ ten_to places) result }
{
    product_of(n, power_of_ten(places))
}

/// The numerator at a scale that is no less, where it is within the limit.
fn numerator_at(d: Dec, scale: u8) -> Option<i128>
    requires longer { scale_of d ≤ scale }
    requires places { scale ≤ most_places }
    ensures { IsHeld (numerator_at scale d) result }
{
    lengthened(d.numerator(), scale - d.scale())
}

/// Whether the numerators are within the limit at the greater scale.
pub(crate) fn comparison_fits(a: Dec, b: Dec) -> bool
    ensures { IsTrue result ↔ ComparisonFits a b }
{
    let scale = a.scale().max(b.scale());
    numerator_at(a, scale).is_some() && numerator_at(b, scale).is_some()
}

/// Whether so is their sum.
pub(crate) fn sum_fits(a: Dec, b: Dec) -> bool
    ensures { IsTrue result ↔ SumFits a b }
{
    let scale = a.scale().max(b.scale());
    match (numerator_at(a, scale), numerator_at(b, scale)) {
        (Some(m), Some(n)) => is_within_limit(m + n),
        _ => false,
    }
}

/// Whether so is their difference.
pub(crate) fn difference_fits(a: Dec, b: Dec) -> bool
    ensures { IsTrue result ↔ DifferenceFits a b }
{
    let scale = a.scale().max(b.scale());
    match (numerator_at(a, scale), numerator_at(b, scale)) {
        (Some(m), Some(n)) => is_within_limit(m - n),
        _ => false,
    }
}

/// Whether the numerator times 10^`places` is within the limit.
fn lengthened_fits(d: Dec, places: u8) -> bool
    requires { places ≤ 37 }
    ensures { IsTrue result ↔ IsWithinLimit (numerator_of d *ℤ ten_to places) }
{
    lengthened(d.numerator(), places).is_some()
}

/// Whether the rounded numerator is within the limit, by every mode.
pub(crate) fn rescale_fits(a: Dec, scale: u8) -> bool
    requires { scale ≤ most_places }
    ensures { (mode : Mode) → IsTrue result ↔ RescaleFits mode a scale }
{
    // For the proof: the numerator is within the limit.
    let _kept = a.numerator();
    let places = a.scale();
    if scale < places {
        return true;
    }
    lengthened_fits(a, scale - places)
}

/// Whether the numbers of a division are within the limit, by every mode.
pub(crate) fn quotient_fits(a: Dec, b: Dec, scale: u8) -> bool
    requires not_zero { numerator_of b ≢ pos 0 }
    requires places { scale ≤ most_places }
    ensures { (mode : Mode) → IsTrue result ↔ QuotientFits mode a b scale }
{
    // For the proof: the numerator is within the limit.
    let _kept = a.numerator();
    let own = a.scale();
    let places = scale + b.scale();
    if places < own {
        return lengthened_fits(b, own - places);
    }
    let zeros = places - own;
    if zeros > MOST_POWER {
        return false;
    }
    lengthened_fits(a, zeros)
}

/// The least power of ten that the divisor divides.
pub(crate) fn places_of(divisor: Dec) -> u8
    requires { IsPlainDivisor (numerator_of divisor) }
    ensures places { IsDivisorPlaces (numerator_of divisor) result }
    ensures few { result ≤ most_places }
{
    divisor_places(divisor.numerator())
}

/// Whether the numbers of an exact quotient are within the limit, where its places are.
pub(crate) fn exact_quotient_fits(a: Dec, divisor: Dec, places: u8) -> bool
    requires plain { IsPlainDivisor (numerator_of divisor) }
    requires places { IsDivisorPlaces (numerator_of divisor) places }
    requires few { scale_of a + places ≤ most_places }
    ensures { IsTrue result ↔ ExactQuotientFits a (numerator_of divisor) }
{
    let d = divisor.numerator();
    product_of(a.numerator(), cofactor(d, places)).is_some()
}

/// 10^`places` / `divisor`.
fn cofactor(divisor: i128, places: u8) -> i128
    requires plain { IsPlainDivisor divisor }
    requires places { IsDivisorPlaces divisor places }
    requires few { places ≤ most_places }
    ensures { result *ℤ divisor ≡ ten_to places }
{
    power_of_ten(places) / divisor
}
