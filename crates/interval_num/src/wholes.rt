//! The operations of whole numbers, Java's `int` of 32 bits and `long` of 64.
ghost use Rattle.std.specs.Prelude.{◌≡◌, length, ◌<◌, IfOk};
ghost use Rattle.std.specs.List.{list_all};
ghost use Rattle.scaled_decimal.specs.WholeNumbers.{int_bits, long_bits, is_of_bits, whole_sum, whole_difference, whole_product, whole_quotient, whole_remainder, whole_opposite};
ghost use Rattle.scaled_decimal.specs.Limits.{IsWithinLimit};
ghost use Rattle.interval_num.specs.Intervals.{IsWholeOfBits};
ghost use Rattle.interval_num.specs.Rows.{whole_hull, whole_row, whole_opposite_row, whole_quotient_row, whole_remainder_row, least_remainder, greatest_remainder};
ghost use Rattle.interval_num.specs.Soundness.{WholeIsSound, WholeQuotientIsSound, WholeOppositeIsSound};
ghost use Rattle.interval_num.specs.private.Widths.{bits_of};

use crate::alignment::{has_zero, most};
use crate::cause::RangeCause;
use crate::hull::hull;
use crate::interval::Abs;
use scaled_decimal::{is_int, is_long};

/// The width of a whole number.
#[derive(Clone, Copy)]
enum Width {
    /// 32 bits.
    Int,
    /// 64 bits.
    Long,
}

/// The interval of the sums of the whole numbers of `a` and `b`; `Wide` where one may leave 32 bits.
pub fn int_add(a: Abs, b: Abs) -> Result<Abs, RangeCause>
    requires left { IsWholeOfBits int_bits a }
    requires right { IsWholeOfBits int_bits b }
    ensures exact { result ≡ whole_row int_bits whole_sum a b }
    ensures sound { IfOk result (WholeIsSound int_bits whole_sum a b) }
{
    add(Width::Int, a, b)
}

/// The interval of the differences; `Wide` where one may leave 32 bits.
pub fn int_sub(a: Abs, b: Abs) -> Result<Abs, RangeCause>
    requires left { IsWholeOfBits int_bits a }
    requires right { IsWholeOfBits int_bits b }
    ensures exact { result ≡ whole_row int_bits whole_difference a b }
    ensures sound { IfOk result (WholeIsSound int_bits whole_difference a b) }
{
    sub(Width::Int, a, b)
}

/// The interval of the products; `Wide` where one may leave 32 bits.
pub fn int_mul(a: Abs, b: Abs) -> Result<Abs, RangeCause>
    requires left { IsWholeOfBits int_bits a }
    requires right { IsWholeOfBits int_bits b }
    ensures exact { result ≡ whole_row int_bits whole_product a b }
    ensures sound { IfOk result (WholeIsSound int_bits whole_product a b) }
{
    mul(Width::Int, a, b)
}

/// The interval of the quotients, cut towards zero; `Divisor` where `b` has zero in it, then `Wide` where a quotient may
/// leave 32 bits.
pub fn int_div(a: Abs, b: Abs) -> Result<Abs, RangeCause>
    requires left { IsWholeOfBits int_bits a }
    requires right { IsWholeOfBits int_bits b }
    ensures exact { result ≡ whole_quotient_row int_bits a b }
    ensures sound { IfOk result (WholeQuotientIsSound int_bits whole_quotient a b) }
{
    div(Width::Int, a, b)
}

/// The interval of the remainders, which have the dividend's sign; `Divisor` where `b` has zero in it.
pub fn int_rem(a: Abs, b: Abs) -> Result<Abs, RangeCause>
    requires left { IsWholeOfBits int_bits a }
    requires right { IsWholeOfBits int_bits b }
    ensures exact { result ≡ whole_remainder_row a b }
    ensures sound { IfOk result (WholeQuotientIsSound int_bits whole_remainder a b) }
{
    rem(Width::Int, a, b)
}

/// The interval of the opposites; `Wide` where one may leave 32 bits.
pub fn int_neg(a: Abs) -> Result<Abs, RangeCause>
    requires { IsWholeOfBits int_bits a }
    ensures exact { result ≡ whole_opposite_row int_bits a }
    ensures sound { IfOk result (WholeOppositeIsSound int_bits whole_opposite a) }
{
    neg(Width::Int, a)
}

/// The interval of the sums of the whole numbers of `a` and `b`; `Wide` where one may leave 64 bits.
pub fn long_add(a: Abs, b: Abs) -> Result<Abs, RangeCause>
    requires left { IsWholeOfBits long_bits a }
    requires right { IsWholeOfBits long_bits b }
    ensures exact { result ≡ whole_row long_bits whole_sum a b }
    ensures sound { IfOk result (WholeIsSound long_bits whole_sum a b) }
{
    add(Width::Long, a, b)
}

/// The interval of the differences; `Wide` where one may leave 64 bits.
pub fn long_sub(a: Abs, b: Abs) -> Result<Abs, RangeCause>
    requires left { IsWholeOfBits long_bits a }
    requires right { IsWholeOfBits long_bits b }
    ensures exact { result ≡ whole_row long_bits whole_difference a b }
    ensures sound { IfOk result (WholeIsSound long_bits whole_difference a b) }
{
    sub(Width::Long, a, b)
}

/// The interval of the products; `Wide` where one may leave 64 bits.
pub fn long_mul(a: Abs, b: Abs) -> Result<Abs, RangeCause>
    requires left { IsWholeOfBits long_bits a }
    requires right { IsWholeOfBits long_bits b }
    ensures exact { result ≡ whole_row long_bits whole_product a b }
    ensures sound { IfOk result (WholeIsSound long_bits whole_product a b) }
{
    mul(Width::Long, a, b)
}

/// The interval of the quotients, cut towards zero; `Divisor` where `b` has zero in it, then `Wide` where a quotient may
/// leave 64 bits.
pub fn long_div(a: Abs, b: Abs) -> Result<Abs, RangeCause>
    requires left { IsWholeOfBits long_bits a }
    requires right { IsWholeOfBits long_bits b }
    ensures exact { result ≡ whole_quotient_row long_bits a b }
    ensures sound { IfOk result (WholeQuotientIsSound long_bits whole_quotient a b) }
{
    div(Width::Long, a, b)
}

/// The interval of the remainders, which have the dividend's sign; `Divisor` where `b` has zero in it.
pub fn long_rem(a: Abs, b: Abs) -> Result<Abs, RangeCause>
    requires left { IsWholeOfBits long_bits a }
    requires right { IsWholeOfBits long_bits b }
    ensures exact { result ≡ whole_remainder_row a b }
    ensures sound { IfOk result (WholeQuotientIsSound long_bits whole_remainder a b) }
{
    rem(Width::Long, a, b)
}

/// The interval of the opposites; `Wide` where one may leave 64 bits.
pub fn long_neg(a: Abs) -> Result<Abs, RangeCause>
    requires { IsWholeOfBits long_bits a }
    ensures exact { result ≡ whole_opposite_row long_bits a }
    ensures sound { IfOk result (WholeOppositeIsSound long_bits whole_opposite a) }
{
    neg(Width::Long, a)
}

/// The sums of two intervals.
fn add(width: Width, a: Abs, b: Abs) -> Result<Abs, RangeCause>
    requires left { IsWholeOfBits (bits_of width) a }
    requires right { IsWholeOfBits (bits_of width) b }
    ensures exact { result ≡ whole_row (bits_of width) whole_sum a b }
    ensures sound { IfOk result (WholeIsSound (bits_of width) whole_sum a b) }
{
    let ends = [
        a.lo() + b.lo(),
        a.lo() + b.hi(),
        a.hi() + b.lo(),
        a.hi() + b.hi(),
    ];
    whole_hull(width, &ends)
}

fn sub(width: Width, a: Abs, b: Abs) -> Result<Abs, RangeCause>
    requires left { IsWholeOfBits (bits_of width) a }
    requires right { IsWholeOfBits (bits_of width) b }
    ensures exact { result ≡ whole_row (bits_of width) whole_difference a b }
    ensures sound { IfOk result (WholeIsSound (bits_of width) whole_difference a b) }
{
    let ends = [
        a.lo() - b.lo(),
        a.lo() - b.hi(),
        a.hi() - b.lo(),
        a.hi() - b.hi(),
    ];
    whole_hull(width, &ends)
}

fn mul(width: Width, a: Abs, b: Abs) -> Result<Abs, RangeCause>
    requires left { IsWholeOfBits (bits_of width) a }
    requires right { IsWholeOfBits (bits_of width) b }
    ensures exact { result ≡ whole_row (bits_of width) whole_product a b }
    ensures sound { IfOk result (WholeIsSound (bits_of width) whole_product a b) }
{
    let ends = [
        a.lo() * b.lo(),
        a.lo() * b.hi(),
        a.hi() * b.lo(),
        a.hi() * b.hi(),
    ];
    whole_hull(width, &ends)
}

fn div(width: Width, a: Abs, b: Abs) -> Result<Abs, RangeCause>
    requires left { IsWholeOfBits (bits_of width) a }
    requires right { IsWholeOfBits (bits_of width) b }
    ensures exact { result ≡ whole_quotient_row (bits_of width) a b }
    ensures sound { IfOk result (WholeQuotientIsSound (bits_of width) whole_quotient a b) }
{
    if has_zero(b) {
        return Err(RangeCause::Divisor);
    }
    let ends = [
        a.lo() / b.lo(),
        a.lo() / b.hi(),
        a.hi() / b.lo(),
        a.hi() / b.hi(),
    ];
    whole_hull(width, &ends)
}

fn rem(width: Width, a: Abs, b: Abs) -> Result<Abs, RangeCause>
    requires left { IsWholeOfBits (bits_of width) a }
    requires right { IsWholeOfBits (bits_of width) b }
    ensures exact { result ≡ whole_remainder_row a b }
    ensures sound { IfOk result (WholeQuotientIsSound (bits_of width) whole_remainder a b) }
{
    if has_zero(b) {
        return Err(RangeCause::Divisor);
    }
    let m = most(b) - 1;
    let lo = least_remainder(a.lo(), m);
    let hi = greatest_remainder(a.hi(), m);
    Ok(Abs::new(lo, hi, 0, 0))
}

/// The least remainder of a dividend from `lo` on, by a divisor of magnitude `m` + 1 or less.
fn least_remainder(lo: i128, m: i128) -> i128
    requires low { IsWithinLimit lo }
    requires divisor { IsWithinLimit m }
    ensures value { result ≡ least_remainder lo m }
    ensures kept { IsWithinLimit result }
{
    if lo >= 0 {
        return 0;
    }
    lo.max(-m)
}

/// The greatest remainder of a dividend up to `hi`, by a divisor of magnitude `m` + 1 or less.
fn greatest_remainder(hi: i128, m: i128) -> i128
    requires high { IsWithinLimit hi }
    requires divisor { IsWithinLimit m }
    ensures value { result ≡ greatest_remainder hi m }
    ensures kept { IsWithinLimit result }
{
    if hi <= 0 {
        return 0;
    }
    hi.min(m)
}

fn neg(width: Width, a: Abs) -> Result<Abs, RangeCause>
    requires { IsWholeOfBits (bits_of width) a }
    ensures exact { result ≡ whole_opposite_row (bits_of width) a }
    ensures sound { IfOk result (WholeOppositeIsSound (bits_of width) whole_opposite a) }
{
    whole_hull(width, &[-a.hi(), -a.lo()])
}

/// From the least to the greatest of some results, where all are of the width.
fn whole_hull(width: Width, ends: &[i128]) -> Result<Abs, RangeCause>
    requires { 0 < length ends.now }
    ensures { result ≡ whole_hull (bits_of width) ends.now }
{
    if !are_of_width(width, ends) {
        return Err(RangeCause::Wide);
    }
    Ok(hull(ends, 0, 0))
}

/// Whether the width holds all of some numbers.
fn are_of_width(width: Width, numbers: &[i128]) -> bool
    ensures { result ≡ list_all (is_of_bits (bits_of width)) numbers.now }
{
    numbers.iter().all(|n| is_of_width(width, *n))
}

/// Whether the width holds a number.
fn is_of_width(width: Width, n: i128) -> bool
    ensures { result ≡ is_of_bits (bits_of width) n }
{
    match width {
        Width::Int => is_int(n),
        Width::Long => is_long(n),
    }
}
