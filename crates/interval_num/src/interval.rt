//! The interval type.
ghost use Rattle.std.specs.Prelude.{◌≡◌, ◌≤◌, ◌≤ℤ◌};
ghost use Rattle.scaled_decimal.specs.Decimals.{decimal};
ghost use Rattle.scaled_decimal.specs.Limits.{IsWithinLimit, most_places};
ghost use Rattle.interval_num.specs.Intervals.{interval, IsKeptInterval};

use scaled_decimal::Dec;
use std::marker::Model;

/// An interval of decimals. `Abs` is short for abstract value; it is no absolute value, though `abs_abs` is the interval
/// of those. It has its ends as numerators at its greatest scale, and its least and greatest scale.
///
/// The ends are at most 10^37 in magnitude and the scales are 0 to 30. It contains the decimals of these scales whose
/// values lie from the low to the high end.
#[derive(Clone, Copy, Debug, PartialEq, Eq)]
pub struct Abs {
    /// The low end, a numerator at scale `s_hi`.
    lo: i128,
    /// The high end, a numerator at scale `s_hi`, no less than the low one.
    hi: i128,
    /// The least scale, 0 to 30.
    s_lo: u8,
    /// The greatest scale, from the least one to 30.
    s_hi: u8,
}

impl Model for Abs {
    ghost use Rattle.interval_num.specs.Intervals.{Interval, interval, IsKeptInterval};

    ghost Value = { Interval };

    ghost view = { λ a. interval a.lo a.hi a.s_lo a.s_hi };

    ghost invariant = { λ a. IsKeptInterval (interval a.lo a.hi a.s_lo a.s_hi) };

    ghost inverse = { λ a. record { lo = a.lo; hi = a.hi; s_lo = a.s_lo; s_hi = a.s_hi } };
}

impl Abs {
    /// The interval from `lo` to `hi`, numerators at scale `s_hi`, of the scales from `s_lo` to `s_hi`.
    pub fn new(lo: i128, hi: i128, s_lo: u8, s_hi: u8) -> Abs
        requires low { IsWithinLimit lo }
        requires high { IsWithinLimit hi }
        requires order { lo ≤ℤ hi }
        requires scales { s_lo ≤ s_hi }
        requires places { s_hi ≤ most_places }
        ensures { result ≡ interval lo hi s_lo s_hi }
    {
        Abs { lo, hi, s_lo, s_hi }
    }

    /// The low end, a numerator at the greatest scale.
    pub fn lo(self) -> i128
        ensures value { result ≡ self.lo }
        ensures kept { IsKeptInterval self }
    {
        self.lo
    }

    /// The high end, a numerator at the greatest scale.
    pub fn hi(self) -> i128
        ensures value { result ≡ self.hi }
        ensures kept { IsKeptInterval self }
    {
        self.hi
    }

    /// The least scale.
    pub fn s_lo(self) -> u8
        ensures value { result ≡ self.s_lo }
        ensures kept { IsKeptInterval self }
    {
        self.s_lo
    }

    /// The greatest scale.
    pub fn s_hi(self) -> u8
        ensures value { result ≡ self.s_hi }
        ensures kept { IsKeptInterval self }
    {
        self.s_hi
    }

    /// The low end.
    pub(crate) fn low(self) -> Dec
        ensures value { result ≡ decimal self.lo self.s_hi }
        ensures kept { IsKeptInterval self }
    {
        Dec::new(self.lo, self.s_hi)
    }

    /// The high end.
    pub(crate) fn high(self) -> Dec
        ensures value { result ≡ decimal self.hi self.s_hi }
        ensures kept { IsKeptInterval self }
    {
        Dec::new(self.hi, self.s_hi)
    }
}
