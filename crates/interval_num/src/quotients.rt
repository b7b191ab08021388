//! Quotients of decimals, and rescaling.
ghost use Rattle.std.specs.Prelude.{◌≡◌, ◌≤◌, ◌≢◌, pos, IfOk};
ghost use Rattle.scaled_decimal.specs.Decimals.{decimal, numerator_of};
ghost use Rattle.scaled_decimal.specs.RoundedDecimals.{quotient, rescaled};
ghost use Rattle.scaled_decimal.specs.WorkingNumbers.{QuotientFits, RescaleFits, IsDivisorPlaces};
ghost use Rattle.scaled_decimal.specs.ExactQuotients.{IsPlainDivisor};
ghost use Rattle.scaled_decimal.specs.Limits.{most_places, IsWithinLimit};
ghost use Rattle.interval_num.specs.PlainDivisors.{divisor_places, cofactor};
ghost use Rattle.interval_num.specs.Rows.{quotient_is_wide, quotient_row, exact_quotient_row, rescaled_row};
ghost use Rattle.interval_num.specs.Soundness.{QuotientIsSound, ExactQuotientIsSound, RescalingIsSound};

use crate::alignment::{ends_beyond_times, has_zero, lengthened_is_beyond, times};
use crate::cause::RangeCause;
use crate::hull::hull;
use crate::interval::Abs;
use scaled_decimal::{Dec, MOST_PLACES, MOST_POWER, Mode};

/// The interval of the quotients rounded to scale `s`, which is at most 30.
///
/// `Divisor` where `b` has zero in it, then `Wide` where a power of ten, a lengthened dividend or a lengthened divisor is
/// beyond 10^37.
pub fn abs_div(a: Abs, b: Abs, s: u8, mode: Mode) -> Result<Abs, RangeCause>
    requires { s ≤ most_places }
    ensures exact { result ≡ quotient_row mode s a b }
    ensures sound { IfOk result (QuotientIsSound mode s a b) }
{
    if has_zero(b) {
        return Err(RangeCause::Divisor);
    }
    if quotient_is_wide(a, b, s) {
        return Err(RangeCause::Wide);
    }
    let ends = [
        rounded_quotient(a.low(), b.low(), s, mode),
        rounded_quotient(a.low(), b.high(), s, mode),
        rounded_quotient(a.high(), b.low(), s, mode),
        rounded_quotient(a.high(), b.high(), s, mode),
    ];
    Ok(hull(&ends, s, s))
}

/// The interval of the exact quotients by `d`, a divisor of 10^30.
///
/// The places that a quotient may need more are the least k for which `d` divides 10^k.
///
/// `Scale` where a quotient may need more than 30 places, then `Wide` where an end is beyond 10^37.
pub fn abs_div_exact(a: Abs, d: i128) -> Result<Abs, RangeCause>
    requires { IsPlainDivisor d }
    ensures exact { result ≡ exact_quotient_row d a }
    ensures places { IsDivisorPlaces d (divisor_places d) }
    ensures sound { IfOk result (ExactQuotientIsSound d a) }
{
    let reciprocal = reciprocal(d);
    let s_hi = a.s_hi() + reciprocal.scale();
    if s_hi > MOST_PLACES {
        return Err(RangeCause::Scale);
    }
    let factor = reciprocal.numerator();
    if ends_beyond_times(a, factor) {
        return Err(RangeCause::Wide);
    }
    Ok(times(a, factor, s_hi))
}

/// The interval of the values rounded to scale `s`, which is at most 30; `Wide` where a lengthened end is beyond 10^37.
pub fn abs_set_scale(a: Abs, s: u8, mode: Mode) -> Result<Abs, RangeCause>
    requires { s ≤ most_places }
    ensures exact { result ≡ rescaled_row mode s a }
    ensures sound { IfOk result (RescalingIsSound mode s a) }
{
    if lengthened_is_beyond(a, s.saturating_sub(a.s_hi())) {
        return Err(RangeCause::Wide);
    }
    let lo = rounded_value(a.low(), s, mode);
    let hi = rounded_value(a.high(), s, mode);
    Ok(Abs::new(lo, hi, s, s))
}

/// Whether a power of ten, a lengthened dividend or a lengthened divisor may be beyond the limit of kept decimals.
fn quotient_is_wide(a: Abs, b: Abs, s: u8) -> bool
    requires { s ≤ most_places }
    ensures { result ≡ quotient_is_wide s a b }
{
    let places = s + b.s_hi();
    places.saturating_sub(a.s_lo()) > MOST_POWER
        || lengthened_is_beyond(a, places.saturating_sub(a.s_hi()))
        || lengthened_is_beyond(b, a.s_hi().saturating_sub(places))
}

/// 1 / `d`, without zeros at its end.
fn reciprocal(d: i128) -> Dec
    requires { IsPlainDivisor d }
    ensures { result ≡ decimal (cofactor d) (divisor_places d) }
{
    Dec::new(1, 0).div_exact(d)
}

/// The numerator of a quotient at scale `s`.
fn rounded_quotient(x: Dec, y: Dec, s: u8, mode: Mode) -> i128
    requires not_zero { numerator_of y ≢ pos 0 }
    requires fits { QuotientFits mode x y s }
    ensures value { result ≡ numerator_of (quotient mode s x y) }
    ensures kept { IsWithinLimit result }
{
    x.div(y, s, mode).numerator()
}

/// The numerator of a value at scale `s`.
pub(crate) fn rounded_value(x: Dec, s: u8, mode: Mode) -> i128
    requires { RescaleFits mode x s }
    ensures value { result ≡ numerator_of (rescaled mode s x) }
    ensures kept { IsWithinLimit result }
{
    x.set_scale(s, mode).numerator()
}
