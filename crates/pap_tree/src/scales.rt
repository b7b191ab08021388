//! Decimals at a number of places.
ghost use Rattle.std.specs.Prelude.{◌≡◌, ◌≤◌};
ghost use Rattle.scaled_decimal.specs.Limits.{most_places};
ghost use Rattle.pap_tree.specs.Scales.{is_kept_at};

use scaled_decimal::{Dec, LIMIT, power_of_ten};

/// Whether a decimal has at most so many places, of at most 30, and at so many places a numerator of at most 10^37 in
/// magnitude.
pub fn is_kept_at(value: Dec, places: u8) -> bool
    requires { places ≤ most_places }
    ensures { result ≡ is_kept_at places value }
{
    if value.scale() > places {
        return false;
    }
    let power = power_of_ten(places - value.scale());
    match value.numerator().checked_mul(power) {
        Some(numerator) => numerator.unsigned_abs() <= LIMIT,
        None => false,
    }
}
