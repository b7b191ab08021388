//! Decimals and their operations.
ghost use Rattle.std.specs.Prelude.{◌≡◌, ◌≢◌, ◌-◌, ◌≤◌, pos, ◌*ℤ◌};
ghost use Rattle.scaled_decimal.specs.Decimals.{decimal, numerator_of, scale_of, numerator_at, greater_scale, ten_to, sum, difference, product, negated, magnitude, IsRescaled, IsQuotient};
ghost use Rattle.scaled_decimal.specs.Limits.{IsWithinLimit, most_places};
ghost use Rattle.scaled_decimal.specs.WorkingNumbers.{SumFits, DifferenceFits, ProductFits, RescaleFits, QuotientFits};

use crate::powers::power_of_ten;
use crate::rounding::{Mode, round_div};
use std::marker::Model;

/// A decimal: a numerator of at most 10^37 in magnitude and a scale of 0 to 30, with the value numerator / 10^scale.
///
/// `==` compares numerator and scale, as `equals` of `BigDecimal` does: 2.0 isn't 2.00. `compare` goes by value.
#[derive(Clone, Copy, Debug, PartialEq, Eq)]
pub struct Dec {
    /// At most 10^37 in magnitude.
    numerator: i128,
    /// How many digits stand after the point, 0 to 30.
    scale: u8,
}

impl Model for Dec {
    ghost use Rattle.std.specs.Prelude.{◌≤◌};
    ghost use Rattle.scaled_decimal.specs.Decimals.{Decimal, decimal, numerator_of, scale_of};
    ghost use Rattle.scaled_decimal.specs.Limits.{IsWithinLimit, most_places};

    ghost Value = { Decimal };

    ghost view = { λ d. decimal d.numerator d.scale };

    ghost invariant = { λ d. IsWithinLimit d.numerator × (d.scale ≤ most_places) };

    ghost inverse = { λ d. record { numerator = numerator_of d; scale = scale_of d } };
}

impl Dec {
    /// The decimal `n` / 10^`s`.
    pub fn new(n: i128, s: u8) -> Dec
        requires numerator { IsWithinLimit n }
        requires scale { s ≤ most_places }
        ensures { result ≡ decimal n s }
    {
        Dec {
            numerator: n,
            scale: s,
        }
    }

    /// The numerator, at most 10^37 in magnitude.
    pub fn numerator(self) -> i128
        ensures value { result ≡ numerator_of self }
        ensures kept { IsWithinLimit result }
    {
        self.numerator
    }

    /// How many digits stand after the point, 0 to 30.
    pub fn scale(self) -> u8
        ensures value { result ≡ scale_of self }
        ensures kept { result ≤ most_places }
    {
        self.scale
    }

    /// The exact sum, at the greater of the two scales.
    pub fn add(self, b: Dec) -> Dec
        requires { SumFits self b }
        ensures { result ≡ sum self b }
    {
        let scale = self.greater_scale(b);
        Dec::new(self.numerator_at(scale) + b.numerator_at(scale), scale)
    }

    /// The exact difference, at the greater of the two scales.
    pub fn sub(self, b: Dec) -> Dec
        requires { DifferenceFits self b }
        ensures { result ≡ difference self b }
    {
        let scale = self.greater_scale(b);
        Dec::new(self.numerator_at(scale) - b.numerator_at(scale), scale)
    }

    /// The exact product, at the sum of the two scales.
    pub fn mul(self, b: Dec) -> Dec
        requires { ProductFits self b }
        ensures { result ≡ product self b }
    {
        Dec::new(self.numerator * b.numerator, self.scale + b.scale)
    }

    /// The opposite, at the same scale.
    pub fn neg(self) -> Dec
        ensures { result ≡ negated self }
    {
        Dec::new(-self.numerator, self.scale)
    }

    /// The absolute value, at the same scale.
    pub fn abs(self) -> Dec
        ensures { result ≡ magnitude self }
    {
        Dec::new(self.numerator.abs(), self.scale)
    }

    /// The value, rounded to scale `s`.
    pub fn set_scale(self, s: u8, mode: Mode) -> Dec
        requires { RescaleFits mode self s }
        ensures { IsRescaled mode self s result }
    {
        if s >= self.scale {
            return Dec::new(self.numerator_at(s), s);
        }
        Dec::new(
            round_div(self.numerator, power_of_ten(self.scale - s), mode),
            s,
        )
    }

    /// The quotient by `b`, which isn't zero, rounded to scale `s`.
    #[inline(always)]
    pub fn div(self, b: Dec, s: u8, mode: Mode) -> Dec
        requires not_zero { numerator_of b ≢ pos 0 }
        requires fits { QuotientFits mode self b s }
        ensures { IsQuotient mode self b s result }
    {
        let places = s + b.scale;
        if places >= self.scale {
            return Dec::new(round_div(self.numerator_at(places), b.numerator, mode), s);
        }
        let divisor = scaled_up(b.numerator, self.scale - places);
        Dec::new(round_div(self.numerator, divisor, mode), s)
    }

    /// The greater of the two scales.
    fn greater_scale(self, b: Dec) -> u8
        ensures value { result ≡ greater_scale self b }
        ensures kept { result ≤ most_places }
    {
        self.scale.max(b.scale)
    }

    /// The numerator of the same value at scale `s`, which is no less than the decimal's own.
    pub fn numerator_at(self, s: u8) -> i128
        requires longer { scale_of self ≤ s }
        requires power { IsWithinLimit (ten_to (s - scale_of self)) }
        requires fits { IsWithinLimit (numerator_at s self) }
        ensures { result ≡ numerator_at s self }
    {
        if s == self.scale {
            return self.numerator;
        }
        scaled_up(self.numerator, s - self.scale)
    }
}

/// A whole number times a power of ten.
fn scaled_up(n: i128, places: u8) -> i128
    requires power { IsWithinLimit (ten_to places) }
    requires fits { IsWithinLimit (n *ℤ ten_to places) }
    ensures { result ≡ n *ℤ ten_to places }
{
    n * power_of_ten(places)
}
