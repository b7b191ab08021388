//! Comparing decimals by value.
//!
//! Decimals are brought to one scale only where the product is within the limit, which is told from a power of ten
//! without a division. A product beyond it is beyond the other numerator, and its sign decides.
ghost use Rattle.std.specs.Prelude.{◌≡◌, ◌≤◌, ◌↔◌, IsTrue, ◌*ℤ◌};
ghost use Rattle.std.specs.Ordering.{int_cmp};
ghost use Rattle.scaled_decimal.specs.Decimals.{ten_to, comparison, lesser, greater, value_order};
ghost use Rattle.scaled_decimal.specs.Limits.{IsWithinLimit, most_places};
ghost use Rattle.scaled_decimal.specs.WorkingNumbers.{ComparisonFits};

use crate::decimal::Dec;
use crate::limits::MOST_POWER;
use crate::powers::power_of_ten;
use std::cmp::Ordering;

impl Dec {
    /// The order of the values, for any two decimals.
    pub fn compare(self, b: Dec) -> Ordering
        ensures { result ≡ value_order self b }
    {
        if self.scale() == b.scale() {
            self.numerator().cmp(&b.numerator())
        } else if self.scale() < b.scale() {
            compare_scaled(b.numerator(), self.numerator(), b.scale() - self.scale()).reverse()
        } else {
            compare_scaled(self.numerator(), b.numerator(), self.scale() - b.scale())
        }
    }

    /// -1, 0 or 1 as the value is less than, equal to or greater than that of `b`.
    pub fn cmp_value(self, b: Dec) -> i32
        requires { ComparisonFits self b }
        ensures { result ≡ comparison self b }
    {
        match self.compare(b) {
            Ordering::Less => -1,
            Ordering::Equal => 0,
            Ordering::Greater => 1,
        }
    }

    /// The one with the lesser value, with its own scale; this one where the values are equal.
    pub fn min(self, b: Dec) -> Dec
        requires { ComparisonFits self b }
        ensures { result ≡ lesser self b }
    {
        match self.compare(b) {
            Ordering::Greater => b,
            Ordering::Less | Ordering::Equal => self,
        }
    }

    /// The one with the greater value, with its own scale; this one where the values are equal.
    pub fn max(self, b: Dec) -> Dec
        requires { ComparisonFits self b }
        ensures { result ≡ greater self b }
    {
        match self.compare(b) {
            Ordering::Less => b,
            Ordering::Equal | Ordering::Greater => self,
        }
    }
}

/// The order of `a` and `b` * 10^`places`. A product beyond the limit is beyond `a` too, on the side of `b`'s sign.
fn compare_scaled(a: i128, b: i128, places: u8) -> Ordering
    requires left { IsWithinLimit a }
    requires right { IsWithinLimit b }
    requires places { places ≤ most_places }
    ensures { result ≡ int_cmp a (b *ℤ ten_to places) }
{
    if fits_longer(b, places) {
        a.cmp(&(b * power_of_ten(places)))
    } else {
        0.cmp(&b)
    }
}

/// Whether `n` * 10^`places` is within the limit, without the product.
fn fits_longer(n: i128, places: u8) -> bool
    requires own { IsWithinLimit n }
    requires places { places ≤ most_places }
    ensures { IsTrue result ↔ IsWithinLimit (n *ℤ ten_to places) }
{
    n.unsigned_abs() <= power_of_ten(MOST_POWER - places).unsigned_abs()
}
