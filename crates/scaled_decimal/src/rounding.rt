//! Rounding a quotient to a whole number.
ghost use Rattle.std.specs.Prelude.{◌≡◌, ◌≢◌, pos, ◌<ℤ◌, int_div};
ghost use Rattle.scaled_decimal.specs.Rounding.{Rounds, RoundsPositive, EachQuotientHasOneRounding};
ghost use Rattle.scaled_decimal.specs.private.RoundingDecision.{moves_away};
ghost use Rattle.scaled_decimal.specs.Limits.{IsWithinLimit};

/// How a quotient that lies between two whole numbers is rounded, as in `java.math.RoundingMode`.
#[derive(Clone, Copy, Debug, PartialEq, Eq)]
pub enum Mode {
    /// Towards zero.
    Down,
    /// Away from zero.
    Up,
    /// Towards minus infinity.
    Floor,
    /// Towards plus infinity.
    Ceiling,
    /// To the nearest, a tie away from zero.
    HalfUp,
    /// To the nearest, a tie towards zero.
    HalfDown,
    /// To the nearest, a tie to the even neighbour.
    HalfEven,
}

/// The quotient of `n` by `d`, rounded to a whole number. Both are at most 10^37 in magnitude, and `d` isn't 0.
pub fn round_div(n: i128, d: i128, mode: Mode) -> i128
    requires not_zero { d ≢ pos 0 }
    requires dividend { IsWithinLimit n }
    requires divisor { IsWithinLimit d }
    ensures { Rounds mode n d result }
{
    if d < 0 {
        return round_to_neighbour(-n, -d, mode);
    }
    round_by_positive(n, d, mode)
}

/// The same, where `d` is positive. A quotient is most often cut; what the other ways of rounding do besides has a function of its
/// own, so that this one is short.
fn round_by_positive(n: i128, d: i128, mode: Mode) -> i128
    requires positive { pos 0 <ℤ d }
    requires dividend { IsWithinLimit n }
    requires divisor { IsWithinLimit d }
    ensures { RoundsPositive mode n d result }
{
    if let Mode::Down = mode {
        return cut_quotient(n, d);
    }
    round_to_neighbour(n, d, mode)
}

/// The same, by what is left when the quotient is cut.
#[inline(never)]
fn round_to_neighbour(n: i128, d: i128, mode: Mode) -> i128
    requires positive { pos 0 <ℤ d }
    requires dividend { IsWithinLimit n }
    requires divisor { IsWithinLimit d }
    ensures { RoundsPositive mode n d result }
{
    let towards_zero = cut_quotient(n, d);
    let rest = (n - towards_zero * d).unsigned_abs();
    let odd = towards_zero.unsigned_abs() % 2 == 1;
    if rest == 0 {
        return towards_zero;
    }
    if !moves_away(mode, n < 0, odd, 2 * rest, d.unsigned_abs()) {
        return towards_zero;
    }
    if n < 0 {
        towards_zero - 1
    } else {
        towards_zero + 1
    }
}

/// The quotient, cut towards zero. Numbers of 64 bits, as most are, are divided as such, which is several times faster.
fn cut_quotient(n: i128, d: i128) -> i128
    requires positive { pos 0 <ℤ d }
    requires dividend { IsWithinLimit n }
    ensures { result ≡ int_div n d }
{
    match (i64::try_from(n), i64::try_from(d)) {
        (Ok(short), Ok(divisor)) => i128::from(short / divisor),
        _ => long_quotient(n, d),
    }
}

/// The same, in 128 bits.
#[inline(never)]
fn long_quotient(n: i128, d: i128) -> i128
    requires positive { pos 0 <ℤ d }
    requires dividend { IsWithinLimit n }
    ensures { result ≡ int_div n d }
{
    n / d
}

/// Whether a quotient that was cut towards zero, with something left, moves one away from zero.
fn moves_away(mode: Mode, negative: bool, odd: bool, twice: u128, whole: u128) -> bool
    ensures { result ≡ moves_away mode negative odd twice whole }
{
    match mode {
        Mode::Down => false,
        Mode::Up => true,
        Mode::Floor => negative,
        Mode::Ceiling => !negative,
        Mode::HalfUp => twice >= whole,
        Mode::HalfDown => twice > whole,
        Mode::HalfEven => twice > whole || (twice == whole && odd),
    }
}

/// A law, with nothing to run: whatever the mode, each quotient has one rounding and no other.
pub fn each_quotient_has_one_rounding()
    ensures { EachQuotientHasOneRounding }
{}
