//! Ranges of the values that an EVAL puts, over several visits of a walk.
ghost use Rattle.std.specs.Prelude.{◌≡◌, ◌⊎◌};
ghost use Rattle.scaled_decimal.specs.Decimals.{lesser, greater};
ghost use Rattle.interval_analysis.specs.Surveys.{IsLeastRange, value_range};

use interval_num::Abs;
use scaled_decimal::Dec;
use std::cmp::Ordering;

/// A range of values: its ends, and how many digits its values have after their points.
#[derive(Clone, Copy)]
pub struct ValueRange {
    /// The least value.
    pub least: Dec,
    /// The greatest value.
    pub greatest: Dec,
    /// The fewest places, 0 to 30.
    pub fewest_places: u8,
    /// The most places, from the fewest to 30.
    pub most_places: u8,
}

impl ValueRange {
    /// An interval by its values.
    pub(crate) fn of(range: Abs) -> ValueRange
        ensures { result ≡ value_range range }
    {
        ValueRange {
            least: Dec::new(range.lo(), range.s_hi()),
            greatest: Dec::new(range.hi(), range.s_hi()),
            fewest_places: range.s_lo(),
            most_places: range.s_hi(),
        }
    }

    /// The least range in which both lie.
    pub fn joined(&self, other: &ValueRange) -> ValueRange
        ensures { IsLeastRange (λ r. (self.now ≡ r) ⊎ (other.now ≡ r)) result }
    {
        ValueRange {
            least: lesser(self.least, other.least),
            greatest: greater(self.greatest, other.greatest),
            fewest_places: self.fewest_places.min(other.fewest_places),
            most_places: self.most_places.max(other.most_places),
        }
    }
}

/// The one with the lesser value, and the first where the values are equal.
fn lesser(a: Dec, b: Dec) -> Dec
    ensures { result ≡ lesser a b }
{
    match a.compare(b) {
        Ordering::Greater => b,
        Ordering::Less | Ordering::Equal => a,
    }
}

/// The one with the greater value, and the first where the values are equal.
fn greater(a: Dec, b: Dec) -> Dec
    ensures { result ≡ greater a b }
{
    match a.compare(b) {
        Ordering::Less => b,
        Ordering::Equal | Ordering::Greater => a,
    }
}
