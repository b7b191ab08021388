//! Reading a decimal from its plain text.
ghost use Rattle.std.specs.Prelude.{◌≡◌, ◌≤◌, ◌∷◌, ◌↔◌, ℕ, IfOk, IfErr, MatchOption, length, take, drop};
ghost use Rattle.std.specs.Option.{SomeIff};
ghost use Rattle.std.specs.Str.Parse.{AllDigits, digits_value_after};
ghost use Rattle.scaled_decimal.specs.Decimals.{Decimal};
ghost use Rattle.scaled_decimal.specs.NumberTexts.{IsNumber, signed, Spells, SpellsNone, IsLongestFront, HasManyPlaces, IsWide};
ghost use Rattle.scaled_decimal.specs.private.TextParts.{NoDigitFirst, NotFirst, IsSignSplit, IsDigitSplit};
ghost use Rattle.scaled_decimal.specs.Limits.{IsKept, IsWithinLimit, limit};

use crate::decimal::Dec;
use crate::limits::{LIMIT, MOST_PLACES};
use std::error::Error;
use std::fmt;

/// A number below this can take one more digit in 64 bits.
const SHORT: u64 = 1_000_000_000_000_000_000;

/// Why a text is no kept decimal.
#[derive(Clone, Copy, Debug, PartialEq, Eq)]
pub enum NumFault {
    /// No number goes on like the text from byte `at` on, which is the text's length where the text ends too early.
    Shape {
        /// How many bytes of the text begin some number.
        at: usize,
    },
    /// More than 30 digits after the point.
    Scale,
    /// A numerator beyond 10^37 in magnitude.
    Wide,
}

impl fmt::Display for NumFault {
    ghost use Rattle.std.specs.Prelude.{Some};
    ghost use Rattle.scaled_decimal.specs.Faults.{fault_text};

    ghost output = { λ fault. Some (fault_text fault) };

    fn fmt<W: fmt::Write>(&self, f: &mut fmt::Formatter<W>) -> fmt::Result {
        match self {
            NumFault::Shape { at } => write!(f, "no number at byte {at}"),
            NumFault::Scale => f.write_str("more than 30 digits after the point"),
            NumFault::Wide => f.write_str("a number of too many digits"),
        }
    }
}

impl Error for NumFault {}

/// The decimal that a text spells: an optional `-`, digits, and optionally a point and digits.
///
/// Leading zeros are accepted, and `-0` is 0. The faults are tried in the order of `NumFault`.
pub fn read_dec(text: &[u8]) -> Result<Dec, NumFault>
    ensures number { (d : Decimal) → (result ≡ Ok d) ↔ (Spells text.now d × IsKept d) }
    ensures shape { (at : ℕ) → (result ≡ Err (NumFault.Shape at))
        ↔ (SpellsNone text.now × IsLongestFront text.now at) }
    ensures scale { (result ≡ Err NumFault.Scale) ↔ HasManyPlaces text.now }
    ensures wide { (result ≡ Err NumFault.Wide) ↔ IsWide text.now }
{
    let parts = match number_parts(text) {
        Ok(parts) => parts,
        Err(at) => return Err(NumFault::Shape { at }),
    };
    if parts.places.len() > MOST_PLACES as usize {
        return Err(NumFault::Scale);
    }
    let Some(whole) = value_after(0, parts.whole) else {
        return Err(NumFault::Wide);
    };
    let Some(magnitude) = value_after(whole, parts.places) else {
        return Err(NumFault::Wide);
    };
    Ok(Dec::new(signed(parts.negative, magnitude), parts.places.len() as u8))
}

/// A magnitude under a sign.
fn signed(negative: bool, magnitude: u128) -> i128
    requires { magnitude ≤ limit }
    ensures value { result ≡ signed negative magnitude }
    ensures kept { IsWithinLimit result }
{
    if negative {
        -(magnitude as i128)
    } else {
        magnitude as i128
    }
}

/// The parts of a number's text.
#[derive(Drop)]
struct NumberParts<'a> {
    negative: bool,
    whole: &'a [u8],
    places: &'a [u8],
}

/// The parts of a number's text, or how many bytes of the text begin some number.
fn number_parts(text: &[u8]) -> Result<NumberParts<'_>, usize>
    ensures ok { IfOk result (λ p. IsNumber text.now p.negative p.whole.now p.places.now) }
    ensures err { IfErr result (λ at. SpellsNone text.now × IsLongestFront text.now at) }
{
    let (negative, unsigned) = split_sign(text);
    let (whole, after) = split_digits(unsigned);
    if whole.is_empty() {
        return Err(text.len() - after.len());
    }
    let Some(fraction) = after_byte(after, b'.') else {
        if after.is_empty() {
            return Ok(NumberParts {
                negative,
                whole,
                places: after,
            });
        }
        return Err(text.len() - after.len());
    };
    let (places, left) = split_digits(fraction);
    if places.is_empty() || !left.is_empty() {
        return Err(text.len() - left.len());
    }
    Ok(NumberParts {
        negative,
        whole,
        places,
    })
}

/// Whether a `-` stands first, and what follows the sign.
fn split_sign(text: &[u8]) -> (bool, &[u8])
    ensures { IsSignSplit text.now result.0 result.1.now }
{
    match after_byte(text, b'-') {
        Some(unsigned) => (true, unsigned),
        None => (false, text),
    }
}

/// What follows a byte that stands first.
fn after_byte(text: &[u8], byte: u8) -> Option<&[u8]>
    ensures { MatchOption result (NotFirst byte text.now) (λ rest. text.now ≡ byte ∷ rest.now) }
{
    match text.split_first() {
        Some((first, rest)) if *first == byte => Some(rest),
        _ => None,
    }
}

/// The digits that stand first, and what follows them.
fn split_digits(text: &[u8]) -> (&[u8], &[u8])
    ensures { IsDigitSplit text.now result.0.now result.1.now }
{
    text.split_at(digit_count(text))
}

/// How many digits stand first.
fn digit_count(text: &[u8]) -> usize
    ensures within { result ≤ length text.now }
    ensures digits { AllDigits 10 (take result text.now) }
    ensures stops { NoDigitFirst (drop result text.now) }
{
    for (count, byte) in text.iter().enumerate() {
        if !byte.is_ascii_digit() {
            return count;
        }
    }
    text.len()
}

/// The number that digits spell after those of `start`, if it is within the limit. It is worked out in 64 bits as long as
/// these hold it, since that is several times faster.
fn value_after(start: u128, digits: &[u8]) -> Option<u128>
    requires start { start ≤ limit }
    requires digits { AllDigits 10 digits.now }
    ensures { let number = digits_value_after 10 start digits.now in
        SomeIff result (number ≤ limit) number }
{
    let Ok(mut number) = u64::try_from(start) else {
        return long_value_after(start, digits);
    };
    for (at, digit) in digits.iter().enumerate() {
        if number >= SHORT {
            return long_value_after(u128::from(number), &digits[at..]);
        }
        number = number * 10 + u64::from(*digit - b'0');
    }
    Some(u128::from(number))
}

/// The same, in 128 bits.
fn long_value_after(start: u128, digits: &[u8]) -> Option<u128>
    requires start { start ≤ limit }
    requires digits { AllDigits 10 digits.now }
    ensures { let number = digits_value_after 10 start digits.now in
        SomeIff result (number ≤ limit) number }
{
    let mut number = start;
    for digit in digits {
        number = number * 10 + (*digit - b'0') as u128;
        if number > LIMIT {
            return None;
        }
    }
    Some(number)
}
