//! Intervals brought to one scale, and the limits of their ends.
ghost use Rattle.std.specs.Prelude.{◌≡◌, ◌≤◌, ◌||◌, ℤ, pos, ◌≤ℤ◌, ◌*ℤ◌, IfOk, unsigned_abs};
ghost use Rattle.scaled_decimal.specs.Decimals.{ten_to};
ghost use Rattle.scaled_decimal.specs.Limits.{IsWithinLimit, most_places};
ghost use Rattle.interval_num.specs.Intervals.{Interval, interval, HasKeptEnds};
ghost use Rattle.interval_num.specs.Alignment.{is_beyond, ends_beyond, within_limit, at_scale, greater_scale, aligned, greatest_magnitude, has_zero};
ghost use Rattle.interval_num.specs.Rows.{RowAnswer, most_power};
ghost use Rattle.interval_num.specs.private.Views.{with_pair};

use crate::cause::RangeCause;
use crate::interval::Abs;
use scaled_decimal::{LIMIT, power_of_ten};

/// Whether a numerator is beyond the limit of kept decimals.
pub(crate) fn is_beyond(n: i128) -> bool
    ensures { result ≡ is_beyond n }
{
    n.unsigned_abs() > LIMIT
}

/// The same of a product, which may leave 128 bits.
pub(crate) fn product_is_beyond(m: i128, n: i128) -> bool
    ensures { result ≡ is_beyond (m *ℤ n) }
{
    match m.unsigned_abs().checked_mul(n.unsigned_abs()) {
        Some(product) => product > LIMIT,
        None => true,
    }
}

/// The interval of these ends and scales, where the ends are within the limit.
pub(crate) fn kept(lo: i128, hi: i128, s_lo: u8, s_hi: u8) -> Result<Abs, RangeCause>
    requires order { lo ≤ℤ hi }
    requires scales { s_lo ≤ s_hi }
    requires places { s_hi ≤ most_places }
    ensures { result ≡ within_limit (interval lo hi s_lo s_hi) }
{
    if is_beyond(lo) || is_beyond(hi) {
        return Err(RangeCause::Wide);
    }
    Ok(Abs::new(lo, hi, s_lo, s_hi))
}

/// Two intervals with their ends at the greater of their greatest scales.
pub(crate) fn aligned(a: Abs, b: Abs) -> Result<(Abs, Abs), RangeCause>
    ensures exact { (make : Interval → Interval → RowAnswer) →
        aligned make a b ≡ with_pair make result }
    ensures scale { IfOk result (λ p. p.0.s_hi ≡ p.1.s_hi) }
    ensures left { IfOk result (λ p. p.0.lo ≤ℤ p.0.hi) }
    ensures right { IfOk result (λ p. p.1.lo ≤ℤ p.1.hi) }
{
    if a.s_hi() == b.s_hi() {
        return Ok((a, b));
    }
    let q = greater_scale(a, b);
    if ends_beyond_at(a, q) || ends_beyond_at(b, q) {
        return Err(RangeCause::Wide);
    }
    Ok((at_scale(a, q), at_scale(b, q)))
}

/// The greater of the greatest scales.
pub(crate) fn greater_scale(a: Abs, b: Abs) -> u8
    ensures value { result ≡ greater_scale a b }
    ensures kept { result ≤ most_places }
{
    a.s_hi().max(b.s_hi())
}

fn ends_beyond_at(a: Abs, q: u8) -> bool
    requires scale { a.s_hi ≤ q }
    requires places { q ≤ most_places }
    ensures { result ≡ ends_beyond (at_scale q a) }
{
    ends_beyond_times(a, power_of_ten(q - a.s_hi()))
}

/// The interval with its ends at scale `q`, which is no less than its greatest.
pub(crate) fn at_scale(a: Abs, q: u8) -> Abs
    requires scale { a.s_hi ≤ q }
    requires places { q ≤ most_places }
    requires fits { HasKeptEnds (at_scale q a) }
    ensures value { result ≡ at_scale q a }
    ensures order { result.lo ≤ℤ result.hi }
{
    times(a, power_of_ten(q - a.s_hi()), q)
}

/// Whether an end times a factor is beyond the limit of kept decimals.
pub(crate) fn ends_beyond_times(a: Abs, factor: i128) -> bool
    ensures { result ≡ (is_beyond (a.lo *ℤ factor) || is_beyond (a.hi *ℤ factor)) }
{
    product_is_beyond(a.lo(), factor) || product_is_beyond(a.hi(), factor)
}

/// The interval whose ends are multiplied, at another greatest scale.
pub(crate) fn times(a: Abs, factor: i128, s_hi: u8) -> Abs
    requires above { pos 0 ≤ℤ factor }
    requires kept { IsWithinLimit factor }
    requires low { IsWithinLimit (a.lo *ℤ factor) }
    requires high { IsWithinLimit (a.hi *ℤ factor) }
    requires scale { a.s_hi ≤ s_hi }
    requires places { s_hi ≤ most_places }
    ensures value { result ≡ interval (a.lo *ℤ factor) (a.hi *ℤ factor) a.s_lo s_hi }
    ensures order { result.lo ≤ℤ result.hi }
{
    Abs::new(a.lo() * factor, a.hi() * factor, a.s_lo(), s_hi)
}

/// Whether the greatest numerator, lengthened by so many places, is beyond the limit of kept decimals.
pub(crate) fn lengthened_is_beyond(a: Abs, places: u8) -> bool
    requires { places ≤ most_power }
    ensures { result ≡ is_beyond (greatest_magnitude a *ℤ ten_to places) }
{
    product_is_beyond(most(a), power_of_ten(places))
}

/// The greatest magnitude of a numerator at the greatest scale.
pub(crate) fn most(a: Abs) -> i128
    ensures value { result ≡ greatest_magnitude a }
    ensures kept { IsWithinLimit result }
    ensures order { a.lo ≤ℤ a.hi }
{
    a.lo().abs().max(a.hi().abs())
}

pub(crate) fn has_zero(a: Abs) -> bool
    ensures { result ≡ has_zero a }
{
    a.lo() <= 0 && 0 <= a.hi()
}
