//! The part of an interval that a comparison leaves.
ghost use Rattle.std.specs.Prelude.{◌≡◌, ◌+◌, ◌≤◌, ℤ, ◌≤ℤ◌, unsigned_abs, IfSome, IfNone};
ghost use Rattle.std.specs.Bool.{OnTrue};
ghost use Rattle.scaled_decimal.specs.Limits.{limit};
ghost use Rattle.interval_num.specs.Intervals.{interval, IsWhole};
ghost use Rattle.interval_num.specs.Alignment.{Align};
ghost use Rattle.interval_num.specs.Refinement.{refined, gap, low_end, high_end, is_apart, past, short_of, unless_empty};
ghost use Rattle.interval_num.specs.Soundness.{RefinementIsSound, NoneIsAllowed};

use crate::interval::Abs;
use crate::quotients::rounded_value;
use crate::sign_set::SignSet;
use scaled_decimal::Mode;

/// The part of `v` whose decimals may have an allowed sign against some decimal of `e`; None where there are none.
///
/// Both aligned, the ends are at most 10^37 in magnitude; `whole` says that both contain whole numbers alone. The
/// scales of `v` are kept.
pub fn refine(v: Abs, e: Abs, allowed: SignSet, whole: bool) -> Option<Abs>
    requires aligned { Align v e }
    requires left_whole { OnTrue whole (IsWhole v) }
    requires right_whole { OnTrue whole (IsWhole e) }
    ensures exact { result ≡ refined v e allowed whole }
    ensures sound { IfSome result (RefinementIsSound v e allowed) }
    ensures none { IfNone result (NoneIsAllowed v e allowed) }
{
    let lo = low_end(v, e, allowed, whole);
    let hi = high_end(v, e, allowed, whole);
    if is_apart(e, allowed, whole) {
        return unless_empty(v, past(e.lo(), lo), short_of(e.lo(), hi));
    }
    unless_empty(v, lo, hi)
}

/// The low end of the part that isn't below `e`, where minus isn't allowed.
fn low_end(v: Abs, e: Abs, allowed: SignSet, whole: bool) -> i128
    requires { Align v e }
    ensures value { result ≡ low_end v e allowed whole }
    ensures inside { v.lo ≤ℤ result }
    ensures small { unsigned_abs result ≤ limit + 1 }
{
    if allowed.minus {
        return v.lo();
    }
    let end = rounded_value(e.low(), v.s_hi(), Mode::Ceiling);
    v.lo().max(end + gap(allowed, whole))
}

/// The high end of the part that isn't above `e`, where plus isn't allowed.
fn high_end(v: Abs, e: Abs, allowed: SignSet, whole: bool) -> i128
    requires { Align v e }
    ensures value { result ≡ high_end v e allowed whole }
    ensures inside { result ≤ℤ v.hi }
    ensures small { unsigned_abs result ≤ limit + 1 }
{
    if allowed.plus {
        return v.hi();
    }
    let end = rounded_value(e.high(), v.s_hi(), Mode::Floor);
    v.hi().min(end - gap(allowed, whole))
}

/// How far whole numbers that must differ are apart at least.
fn gap(allowed: SignSet, whole: bool) -> i128
    ensures value { result ≡ gap allowed whole }
    ensures small { unsigned_abs result ≤ 1 }
{
    if whole && !allowed.zero { 1 } else { 0 }
}

/// Whether whole numbers may be less or greater than a single value, but not equal to it.
fn is_apart(e: Abs, allowed: SignSet, whole: bool) -> bool
    ensures { result ≡ is_apart e allowed whole }
{
    whole && allowed.minus && allowed.plus && !allowed.zero && e.lo() == e.hi()
}

/// A low end that moves past a number that it is.
fn past(n: i128, low: i128) -> i128
    requires { unsigned_abs low ≤ limit + 1 }
    ensures value { result ≡ past n low }
    ensures inside { low ≤ℤ result }
{
    if low == n { low + 1 } else { low }
}

/// A high end that stops short of a number that it is.
fn short_of(n: i128, high: i128) -> i128
    requires { unsigned_abs high ≤ limit + 1 }
    ensures value { result ≡ short_of n high }
    ensures inside { result ≤ℤ high }
{
    if high == n { high - 1 } else { high }
}

/// The part of `v` between two ends that it holds, unless there is nothing between them.
fn unless_empty(v: Abs, lo: i128, hi: i128) -> Option<Abs>
    requires low { v.lo ≤ℤ lo }
    requires high { hi ≤ℤ v.hi }
    ensures { result ≡ unless_empty (interval lo hi v.s_lo v.s_hi) }
{
    if lo > hi {
        return None;
    }
    Some(Abs::new(lo, hi, v.s_lo(), v.s_hi()))
}
