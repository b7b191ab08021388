//! Lengths.
ghost use Rattle.std.specs.Prelude.{◌≡◌, ◌/◌, max};

use crate::measures::{LEAST_SYMBOL, SYMBOL_STEP};
use std::fmt;
use std::ops::{Add, Sub};

/// A length or a place of the drawing, in whole px. Sums stop at the greatest number, differences at 0.
#[derive(Clone, Copy, PartialEq, PartialOrd)]
pub struct Px(pub u32);

impl Add for Px {
    type Output = Px;

    fn add(self, length: Px) -> Px {
        Px(self.0.saturating_add(length.0))
    }
}

impl Sub for Px {
    type Output = Px;

    fn sub(self, length: Px) -> Px {
        Px(self.0.saturating_sub(length.0))
    }
}

impl fmt::Display for Px {
    fn fmt<W: fmt::Write>(&self, f: &mut fmt::Formatter<W>) -> fmt::Result {
        fmt::Display::fmt(&self.0, f)
    }
}

impl Px {
    /// The greater of two lengths.
    pub fn max(self, other: Px) -> Px
        ensures { result.0 ≡ max self.0 other.0 }
    {
        Px(self.0.max(other.0))
    }

    /// The half of a length, rounded down.
    pub fn half(self) -> Px
        ensures { result.0 ≡ self.0 / 2 }
    {
        Px(self.0 / 2)
    }

    /// A length so many times.
    pub(crate) fn times(self, count: usize) -> Px {
        Px(tenths(count, self.0))
    }

    /// Tenths of a px, rounded up.
    pub(crate) fn of_tenths(tenths: u32) -> Px {
        Px(tenths / 10 + u32::from(tenths % 10 != 0))
    }

    /// The tenths of a px of a length.
    pub(crate) fn tenths(self) -> u32 {
        self.0.saturating_mul(10)
    }

    /// The width of a symbol: the next multiple of its step, and no less than the least.
    pub(crate) fn symbol_width(self) -> Px {
        let steps = self.0 / SYMBOL_STEP + u32::from(self.0 % SYMBOL_STEP != 0);
        Px(steps.saturating_mul(SYMBOL_STEP)).max(LEAST_SYMBOL)
    }
}

/// How many tenths of a px some characters take, of so many each.
pub(crate) fn tenths(count: usize, each: u32) -> u32 {
    u32::try_from(count)
        .unwrap_or(u32::MAX)
        .saturating_mul(each)
}
