//! The answers to lines of operations.
use crate::operations;
use scaled_decimal::{Dec, Mode, read_dec, round_div};
use std::cmp::Ordering;
use std::fmt;

/// What an operation gives.
#[derive(Clone, Copy, Debug)]
pub(crate) enum Answer {
    /// A decimal, printed as plain text.
    Decimal(Dec),
    /// A whole number.
    Whole(i128),
}

impl fmt::Display for Answer {
    fn fmt<W: fmt::Write>(&self, f: &mut fmt::Formatter<W>) -> fmt::Result {
        match self {
            Answer::Decimal(d) => write!(f, "{d}"),
            Answer::Whole(n) => write!(f, "{n}"),
        }
    }
}

/// The answer to an operation's name and its words, or none where they are malformed or a number leaves the limits.
pub(crate) fn work_out(line: &str) -> Option<Answer> {
    let mut words = line.split(' ');
    let name = words.next()?;
    let first = words.next()?;
    match name.as_bytes() {
        b"neg" => Some(Answer::Decimal(read(first)?.neg())),
        b"abs" => Some(Answer::Decimal(read(first)?.abs())),
        b"read" => Some(Answer::Decimal(read(first)?)),
        b"exact" => divided_exactly(first, words.next()?),
        b"round" => rounded(first, words.next()?, words.next()?),
        b"scale" => rescaled(first, words.next()?, words.next()?),
        b"div" => divided(first, words.next()?, words.next()?, words.next()?),
        _ => of_two(name, read(first)?, read(words.next()?)?),
    }
}

/// The decimal of a text.
fn read(text: &str) -> Option<Dec> {
    read_dec(text.as_bytes()).ok()
}

/// An operation of two decimals.
fn of_two(name: &str, a: Dec, b: Dec) -> Option<Answer> {
    match name.as_bytes() {
        b"add" => Some(Answer::Decimal(operations::sum(a, b)?)),
        b"sub" => Some(Answer::Decimal(operations::difference(a, b)?)),
        b"mul" => Some(Answer::Decimal(operations::product(a, b)?)),
        b"compare" => Some(Answer::Whole(number_of(a.compare(b)))),
        _ => of_comparable(name, a, b),
    }
}

/// An operation of two decimals that have to be comparable.
fn of_comparable(name: &str, a: Dec, b: Dec) -> Option<Answer> {
    if !operations::are_comparable(a, b) {
        return None;
    }
    match name.as_bytes() {
        b"min" => Some(Answer::Decimal(a.min(b))),
        b"max" => Some(Answer::Decimal(a.max(b))),
        b"cmp" => Some(Answer::Whole(a.cmp_value(b) as i128)),
        _ => None,
    }
}

/// An order as -1, 0 or 1.
fn number_of(order: Ordering) -> i128 {
    match order {
        Ordering::Less => -1,
        Ordering::Equal => 0,
        Ordering::Greater => 1,
    }
}

/// A decimal divided by a whole number, with all its places.
fn divided_exactly(divisor: &str, text: &str) -> Option<Answer> {
    let divisor = divisor.parse::<i128>().ok()?;
    Some(Answer::Decimal(operations::exact_quotient(read(text)?, divisor)?))
}

/// The quotient of two whole numbers, rounded to a whole number by a mode.
fn rounded(mode: &str, dividend: &str, divisor: &str) -> Option<Answer> {
    let mode = mode_of(mode)?;
    let n = read(dividend)?;
    let d = read(divisor)?;
    if n.scale() != 0 || d.scale() != 0 || d.numerator() == 0 {
        return None;
    }
    Some(Answer::Whole(round_div(n.numerator(), d.numerator(), mode)))
}

/// A decimal at a scale, rounded by a mode.
fn rescaled(mode: &str, scale: &str, text: &str) -> Option<Answer> {
    let scale = scale.parse::<u8>().ok()?;
    Some(Answer::Decimal(operations::rescaled(read(text)?, scale, mode_of(mode)?)?))
}

/// The quotient of two decimals at a scale, rounded by a mode.
fn divided(mode: &str, scale: &str, dividend: &str, divisor: &str) -> Option<Answer> {
    let scale = scale.parse::<u8>().ok()?;
    let quotient = operations::quotient(read(dividend)?, read(divisor)?, scale, mode_of(mode)?)?;
    Some(Answer::Decimal(quotient))
}

/// The mode of a name in `java.math.RoundingMode`.
fn mode_of(name: &str) -> Option<Mode> {
    match name.as_bytes() {
        b"DOWN" => Some(Mode::Down),
        b"UP" => Some(Mode::Up),
        b"FLOOR" => Some(Mode::Floor),
        b"CEILING" => Some(Mode::Ceiling),
        b"HALF_UP" => Some(Mode::HalfUp),
        b"HALF_DOWN" => Some(Mode::HalfDown),
        b"HALF_EVEN" => Some(Mode::HalfEven),
        _ => None,
    }
}
