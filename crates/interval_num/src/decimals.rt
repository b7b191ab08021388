//! The operations of decimals whose results are exact.
ghost use Rattle.std.specs.Prelude.{◌≡◌, ◌≤ℤ◌, IfOk};
ghost use Rattle.scaled_decimal.specs.Limits.{IsWithinLimit};
ghost use Rattle.interval_num.specs.Alignment.{greatest_magnitude, least_magnitude};
ghost use Rattle.interval_num.specs.Rows.{sum_row, difference_row, product_row, min_row, max_row, comparison_row, join_row, negated_row, magnitude_row};
ghost use Rattle.interval_num.specs.Soundness.{SumIsSound, DifferenceIsSound, ProductIsSound, MinIsSound, MaxIsSound, ComparisonIsSound, JoinIsSound, NegationIsSound, MagnitudeIsSound};

use crate::alignment::{aligned, has_zero, kept, most, product_is_beyond};
use crate::cause::RangeCause;
use crate::hull::hull;
use crate::interval::Abs;
use crate::sign_set::signs_at;
use scaled_decimal::MOST_PLACES;

/// The interval of the sums of the decimals of `a` and `b`; `Wide` where an aligned end or one of the result is beyond
/// 10^37.
pub fn abs_add(a: Abs, b: Abs) -> Result<Abs, RangeCause>
    ensures exact { result ≡ sum_row a b }
    ensures sound { IfOk result (SumIsSound a b) }
{
    let (x, y) = aligned(a, b)?;
    let s_lo = x.s_lo().max(y.s_lo());
    kept(x.lo() + y.lo(), x.hi() + y.hi(), s_lo, x.s_hi())
}

/// The interval of the differences; `Wide` as for `abs_add`.
pub fn abs_sub(a: Abs, b: Abs) -> Result<Abs, RangeCause>
    ensures exact { result ≡ difference_row a b }
    ensures sound { IfOk result (DifferenceIsSound a b) }
{
    let (x, y) = aligned(a, b)?;
    let s_lo = x.s_lo().max(y.s_lo());
    kept(x.lo() - y.hi(), x.hi() - y.lo(), s_lo, x.s_hi())
}

/// The interval of the products; `Scale` where the scales' sum may be above 30, then `Wide` where the product of the
/// greatest numerators is beyond 10^37.
pub fn abs_mul(a: Abs, b: Abs) -> Result<Abs, RangeCause>
    ensures exact { result ≡ product_row a b }
    ensures sound { IfOk result (ProductIsSound a b) }
{
    let s_hi = a.s_hi() + b.s_hi();
    if s_hi > MOST_PLACES {
        return Err(RangeCause::Scale);
    }
    if product_is_beyond(most(a), most(b)) {
        return Err(RangeCause::Wide);
    }
    let ends = [
        a.lo() * b.lo(),
        a.lo() * b.hi(),
        a.hi() * b.lo(),
        a.hi() * b.hi(),
    ];
    Ok(hull(&ends, a.s_lo() + b.s_lo(), s_hi))
}

/// The interval of the lesser ones of two decimals; `Wide` where an aligned end is beyond 10^37.
pub fn abs_min(a: Abs, b: Abs) -> Result<Abs, RangeCause>
    ensures exact { result ≡ min_row a b }
    ensures sound { IfOk result (MinIsSound a b) }
{
    let (x, y) = aligned(a, b)?;
    let s_lo = x.s_lo().min(y.s_lo());
    Ok(Abs::new(x.lo().min(y.lo()), x.hi().min(y.hi()), s_lo, x.s_hi()))
}

/// The interval of the greater ones of two decimals; `Wide` as for `abs_min`.
pub fn abs_max(a: Abs, b: Abs) -> Result<Abs, RangeCause>
    ensures exact { result ≡ max_row a b }
    ensures sound { IfOk result (MaxIsSound a b) }
{
    let (x, y) = aligned(a, b)?;
    let s_lo = x.s_lo().min(y.s_lo());
    Ok(Abs::new(x.lo().max(y.lo()), x.hi().max(y.hi()), s_lo, x.s_hi()))
}

/// The interval of the results of a comparison, -1, 0 or 1; `Wide` as for `abs_min`.
pub fn abs_cmp(a: Abs, b: Abs) -> Result<Abs, RangeCause>
    ensures exact { result ≡ comparison_row a b }
    ensures sound { IfOk result (ComparisonIsSound a b) }
{
    let (x, y) = aligned(a, b)?;
    let signs = signs_at(x, y);
    Ok(Abs::new(signs.least(), signs.greatest(), 0, 0))
}

/// The least interval that contains all decimals of both; `Wide` as for `abs_min`.
pub fn join(a: Abs, b: Abs) -> Result<Abs, RangeCause>
    ensures exact { result ≡ join_row a b }
    ensures sound { IfOk result (JoinIsSound a b) }
{
    let (x, y) = aligned(a, b)?;
    let s_lo = x.s_lo().min(y.s_lo());
    Ok(Abs::new(x.lo().min(y.lo()), x.hi().max(y.hi()), s_lo, x.s_hi()))
}

/// The interval of the opposites.
pub fn abs_neg(a: Abs) -> Abs
    ensures exact { result ≡ negated_row a }
    ensures sound { NegationIsSound a result }
{
    Abs::new(-a.hi(), -a.lo(), a.s_lo(), a.s_hi())
}

/// The interval of the absolute values.
pub fn abs_abs(a: Abs) -> Abs
    ensures exact { result ≡ magnitude_row a }
    ensures sound { MagnitudeIsSound a result }
{
    Abs::new(least_magnitude(a), most(a), a.s_lo(), a.s_hi())
}

/// The least magnitude of a number between the ends.
fn least_magnitude(a: Abs) -> i128
    ensures value { result ≡ least_magnitude a }
    ensures order { result ≤ℤ greatest_magnitude a }
    ensures kept { IsWithinLimit result }
{
    if has_zero(a) {
        return 0;
    }
    a.lo().abs().min(a.hi().abs())
}
