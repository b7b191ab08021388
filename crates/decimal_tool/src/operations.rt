//! Each operation on any two kept decimals, where the numbers that it works with are within the limits, and none otherwise.
ghost use Rattle.std.specs.Prelude.{◌≡◌, ◌≤◌, ◌↔◌, ◌*ℤ◌, IsTrue, IfSome};
ghost use Rattle.scaled_decimal.specs.Decimals.{numerator_at, scale_of, ten_to};
ghost use Rattle.scaled_decimal.specs.ExactQuotients.{IsPlainDivisor};
ghost use Rattle.scaled_decimal.specs.Limits.{IsWithinLimit, most_places};
ghost use Rattle.scaled_decimal.specs.WorkingNumbers.{ComparisonFits, IsDivisorPlaces};

use scaled_decimal::{
    Dec, LIMIT, MOST_PLACES, Mode, divisor_places, is_plain_divisor, power_of_ten,
};

/// The exponent of the greatest power of ten that is within the limit.
const MOST_ZEROS: u8 = 37;

/// The exact sum.
pub(crate) fn sum(a: Dec, b: Dec) -> Option<Dec> {
    let scale = a.scale().max(b.scale());
    let sum = numerator_at(a, scale)? + numerator_at(b, scale)?;
    if is_within_limit(sum) {
        Some(a.add(b))
    } else {
        None
    }
}

/// The exact difference.
pub(crate) fn difference(a: Dec, b: Dec) -> Option<Dec> {
    let scale = a.scale().max(b.scale());
    let difference = numerator_at(a, scale)? - numerator_at(b, scale)?;
    if is_within_limit(difference) {
        Some(a.sub(b))
    } else {
        None
    }
}

/// The exact product.
pub(crate) fn product(a: Dec, b: Dec) -> Option<Dec> {
    let product = a.numerator().checked_mul(b.numerator())?;
    if is_within_limit(product) && a.scale() + b.scale() <= MOST_PLACES {
        Some(a.mul(b))
    } else {
        None
    }
}

/// Whether the numerators fit at the greater scale, as `min`, `max` and `cmp_value` need it.
pub(crate) fn are_comparable(a: Dec, b: Dec) -> bool
    ensures { IsTrue result → ComparisonFits a b }
{
    let scale = a.scale().max(b.scale());
    numerator_at(a, scale).is_some() && numerator_at(b, scale).is_some()
}

/// The value at another scale.
pub(crate) fn rescaled(d: Dec, scale: u8, mode: Mode) -> Option<Dec> {
    if scale > MOST_PLACES {
        return None;
    }
    numerator_at(d, scale.max(d.scale()))?;
    Some(d.set_scale(scale, mode))
}

/// The quotient at a scale.
pub(crate) fn quotient(a: Dec, b: Dec, scale: u8, mode: Mode) -> Option<Dec> {
    let dividend = a.numerator();
    let divisor = b.numerator();
    if divisor == 0 || scale > MOST_PLACES {
        return None;
    }
    let places = scale + b.scale();
    if places < a.scale() {
        lengthened(divisor, a.scale() - places)?;
        return Some(a.div(b, scale, mode));
    }
    let zeros = places - a.scale();
    if zeros > MOST_ZEROS {
        return None;
    }
    lengthened(dividend, zeros)?;
    Some(a.div(b, scale, mode))
}

/// The exact quotient by a divisor of 10^30.
pub(crate) fn exact_quotient(a: Dec, divisor: i128) -> Option<Dec> {
    if !is_plain_divisor(divisor) {
        return None;
    }
    let places = divisor_places(divisor);
    let product = a.numerator().checked_mul(cofactor(divisor, places))?;
    if is_within_limit(product) && a.scale() + places <= MOST_PLACES {
        Some(a.div_exact(divisor))
    } else {
        None
    }
}

/// 10^`places` / `divisor`.
fn cofactor(divisor: i128, places: u8) -> i128
    requires plain { IsPlainDivisor divisor }
    requires places { IsDivisorPlaces divisor places }
    requires few { places ≤ most_places }
    ensures { result *ℤ divisor ≡ ten_to places }
{
    power_of_ten(places) / divisor
}

/// The numerator at a scale that is no less.
fn numerator_at(d: Dec, scale: u8) -> Option<i128>
    requires longer { scale_of d ≤ scale }
    requires places { scale ≤ most_places }
    ensures value { IfSome result (λ n. n ≡ numerator_at scale d) }
    ensures kept { IfSome result (λ _. IsWithinLimit (numerator_at scale d)) }
{
    lengthened(d.numerator(), scale - d.scale())
}

/// `n` * 10^`places`.
fn lengthened(n: i128, places: u8) -> Option<i128>
    requires { places ≤ 37 }
    ensures value { IfSome result (λ product. product ≡ n *ℤ ten_to places) }
    ensures kept { IfSome result (λ _. IsWithinLimit (n *ℤ ten_to places)) }
{
    let product = n.checked_mul(power_of_ten(places))?;
    if is_within_limit(product) {
        Some(product)
    } else {
        None
    }
}

/// Whether a numerator is within the limit.
fn is_within_limit(n: i128) -> bool
    ensures { IsTrue result ↔ IsWithinLimit n }
{
    n.unsigned_abs() <= LIMIT
}
