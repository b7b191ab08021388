//! Ways of rounding as types.
ghost use Rattle.std.specs.Prelude.{◌≢◌, pos};
ghost use Rattle.scaled_decimal.specs.Rounding.{Rounds, StaysNear, RisesWithQuotient};
ghost use Rattle.scaled_decimal.specs.laws.RoundingLaws.{rounds_near, rounds_rising};
ghost use Rattle.scaled_decimal.specs.Limits.{IsWithinLimit};
ghost use Rattle.scaled_decimal.specs.declared.rounding.Mode.{Mode};
ghost use Rattle.scaled_decimal.specs.declared.rounding.Mode.TheVariants.{Down, Up, Floor, Ceiling, HalfUp, HalfDown, HalfEven};

use crate::rounding::{Mode, round_div};

/// A rounding as a type, for code that is generic over it.
pub trait Rounding {
    /// The mode that the type stands for.
    const MODE: Mode;

    ghost MODE: { Mode };

    /// The quotient of `n` by `d`, rounded to a whole number. Both are at most 10^37 in magnitude, and `d` isn't 0.
    fn round(n: i128, d: i128) -> i128
        requires not_zero { d ≢ pos 0 }
        requires dividend { IsWithinLimit n }
        requires divisor { IsWithinLimit d }
        ensures { Rounds MODE n d result };

    /// The rounding differs from the quotient by less than one.
    ghost near: { StaysNear (Rounds MODE) };

    /// A greater or equal quotient has a greater or equal rounding.
    ghost rises: { RisesWithQuotient (Rounds MODE) };
}

/// Towards zero.
pub struct RDown;

impl Rounding for RDown {
    const MODE: Mode = Mode::Down;

    ghost MODE = { Down };

    ghost near = { rounds_near Down };

    ghost rises = { rounds_rising Down };

    fn round(n: i128, d: i128) -> i128 {
        round_div(n, d, Mode::Down)
    }
}

/// Away from zero.
pub struct RUp;

impl Rounding for RUp {
    const MODE: Mode = Mode::Up;

    ghost MODE = { Up };

    ghost near = { rounds_near Up };

    ghost rises = { rounds_rising Up };

    fn round(n: i128, d: i128) -> i128 {
        round_div(n, d, Mode::Up)
    }
}

/// Towards minus infinity.
pub struct RFloor;

impl Rounding for RFloor {
    const MODE: Mode = Mode::Floor;

    ghost MODE = { Floor };

    ghost near = { rounds_near Floor };

    ghost rises = { rounds_rising Floor };

    fn round(n: i128, d: i128) -> i128 {
        round_div(n, d, Mode::Floor)
    }
}

/// Towards plus infinity.
pub struct RCeiling;

impl Rounding for RCeiling {
    const MODE: Mode = Mode::Ceiling;

    ghost MODE = { Ceiling };

    ghost near = { rounds_near Ceiling };

    ghost rises = { rounds_rising Ceiling };

    fn round(n: i128, d: i128) -> i128 {
        round_div(n, d, Mode::Ceiling)
    }
}

/// To the nearest, a tie away from zero.
pub struct RHalfUp;

impl Rounding for RHalfUp {
    const MODE: Mode = Mode::HalfUp;

    ghost MODE = { HalfUp };

    ghost near = { rounds_near HalfUp };

    ghost rises = { rounds_rising HalfUp };

    fn round(n: i128, d: i128) -> i128 {
        round_div(n, d, Mode::HalfUp)
    }
}

/// To the nearest, a tie towards zero.
pub struct RHalfDown;

impl Rounding for RHalfDown {
    const MODE: Mode = Mode::HalfDown;

    ghost MODE = { HalfDown };

    ghost near = { rounds_near HalfDown };

    ghost rises = { rounds_rising HalfDown };

    fn round(n: i128, d: i128) -> i128 {
        round_div(n, d, Mode::HalfDown)
    }
}

/// To the nearest, a tie to the even neighbour.
pub struct RHalfEven;

impl Rounding for RHalfEven {
    const MODE: Mode = Mode::HalfEven;

    ghost MODE = { HalfEven };

    ghost near = { rounds_near HalfEven };

    ghost rises = { rounds_rising HalfEven };

    fn round(n: i128, d: i128) -> i128 {
        round_div(n, d, Mode::HalfEven)
    }
}
