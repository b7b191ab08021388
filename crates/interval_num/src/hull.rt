//! The interval between the least and the greatest of some numbers.
ghost use Rattle.std.specs.Prelude.{◌≡◌, ◌≤◌, ◌<◌, length, All};
ghost use Rattle.scaled_decimal.specs.Limits.{IsWithinLimit, most_places};
ghost use Rattle.interval_num.specs.Alignment.{hull};

use crate::interval::Abs;

/// From the least to the greatest of some numbers.
pub(crate) fn hull(numbers: &[i128], s_lo: u8, s_hi: u8) -> Abs
    requires some { 0 < length numbers.now }
    requires kept { All IsWithinLimit numbers.now }
    requires scales { s_lo ≤ s_hi }
    requires places { s_hi ≤ most_places }
    ensures { result ≡ hull numbers.now s_lo s_hi }
{
    let mut lo = numbers[0];
    let mut hi = numbers[0];
    for n in numbers {
        lo = lo.min(*n);
        hi = hi.max(*n);
    }
    Abs::new(lo, hi, s_lo, s_hi)
}
