//! The numbers that stand first in a text.
ghost use Rattle.std.specs.Prelude.{◌≡◌, ◌<◌, ◌≤◌, ◌^◌, ◌∷◌, ◌++◌, length, true, MatchOption, codes};
ghost use Rattle.std.specs.Option.{SomeIff};
ghost use Rattle.std.specs.List.{list_all, prefix_len};
ghost use Rattle.std.specs.Char.{is_ascii_digit};
ghost use Rattle.std.specs.Str.Parse.{digits_value};
ghost use Rattle.scaled_decimal.specs.Decimals.{Decimal};
ghost use Rattle.pap_tree.specs.Tokens.{IsToken, IsNumeral, IsPoint};
ghost use Rattle.expr_tokens.specs.Spots.{token_of};
ghost use Rattle.expr_tokens.specs.private.Views.{Begins, First, IsLongest, IsNumeralSplit, IsAfterPlaces, NoPlaces, NotFirst, is_no_quote};

use crate::token::Token;
use scaled_decimal::{NumFault, read_dec};

/// The greatest literal of `int`.
const GREATEST_INT: u64 = 2_147_483_647;

/// The greatest literal of `long`.
const GREATEST_LONG: u64 = 9_223_372_036_854_775_807;

/// The number that stands first, and what follows it.
pub(crate) fn split_number(bytes: &[u8]) -> (Token, &[u8])
    requires { First is_ascii_digit bytes.now }
    ensures { Begins bytes.now (token_of result.0) result.1.now }
{
    let (numeral, after) = split_numeral(bytes);
    if let Some(rest) = after_byte(after, b'L') {
        return (long_token(numeral), rest);
    }
    let Some(rest) = after_places(after) else {
        return (int_token(numeral), after);
    };
    let (text, _) = bytes.split_at(bytes.len() - rest.len());
    (point_token(text), rest)
}

/// The number in quotation marks whose first byte stands first, and what follows it. Where there is none, the quotation
/// mark alone isn't a token.
pub(crate) fn split_quoted(bytes: &[u8]) -> (Token, &[u8])
    ensures { Begins (34 ∷ bytes.now) (token_of result.0) result.1.now }
{
    let Some((inner, after)) = split_at_quote(bytes) else {
        return (Token::Alien, bytes);
    };
    match read_dec(inner) {
        Ok(number) => (Token::Quoted(number), after),
        Err(NumFault::Shape { at: _ }) => (Token::Alien, bytes),
        Err(NumFault::Scale) => (Token::Beyond, after),
        Err(NumFault::Wide) => (Token::Beyond, after),
    }
}

/// What stands before the first quotation mark, and what follows it.
fn split_at_quote(bytes: &[u8]) -> Option<(&[u8], &[u8])>
    ensures { MatchOption result (list_all is_no_quote bytes.now ≡ true)
        (λ x. IsLongest is_no_quote bytes.now x.0.now (34 ∷ x.1.now)) }
{
    let (inner, quoted) = bytes.split_at(inner_len(bytes));
    let rest = after_byte(quoted, b'"')?;
    Some((inner, rest))
}

/// How many bytes stand before the first quotation mark.
fn inner_len(bytes: &[u8]) -> usize
    ensures count { result ≡ prefix_len is_no_quote bytes.now }
    ensures within { result ≤ length bytes.now }
{
    bytes.iter().take_while(|b| **b != b'"').count()
}

/// The literal of `int` that a numeral is.
fn int_token(numeral: &[u8]) -> Token
    requires { IsNumeral numeral.now (digits_value 10 numeral.now) }
    ensures { IsToken numeral.now (token_of result) }
{
    match value_of(numeral) {
        Some(n) if n <= GREATEST_INT => Token::Int(n as u32),
        _ => Token::Beyond,
    }
}

/// The literal of `long` that a numeral with `L` after it is.
fn long_token(numeral: &[u8]) -> Token
    requires { IsNumeral numeral.now (digits_value 10 numeral.now) }
    ensures { IsToken (numeral.now ++ codes "L") (token_of result) }
{
    match value_of(numeral) {
        Some(n) if n <= GREATEST_LONG => Token::Long(n),
        _ => Token::Beyond,
    }
}

/// The literal with a point that a text is.
fn point_token(text: &[u8]) -> Token
    requires { (d : Decimal) × IsPoint text.now d }
    ensures { IsToken text.now (token_of result) }
{
    match read_dec(text) {
        Ok(number) => Token::Point(number),
        Err(_) => Token::Beyond,
    }
}

/// The number that a numeral is, if 64 bits hold it.
fn value_of(numeral: &[u8]) -> Option<u64>
    requires { IsNumeral numeral.now (digits_value 10 numeral.now) }
    ensures { let n = digits_value 10 numeral.now in SomeIff result (n < 2 ^ 64) n }
{
    match read_dec(numeral) {
        Ok(number) => u64::try_from(number.numerator()).ok(),
        Err(_) => None,
    }
}

/// The numeral that stands first, and what follows it: 0, or all digits.
fn split_numeral(bytes: &[u8]) -> (&[u8], &[u8])
    requires { First is_ascii_digit bytes.now }
    ensures { IsNumeralSplit bytes.now result.0.now result.1.now }
{
    match after_byte(bytes, b'0') {
        Some(_) => bytes.split_at(1),
        None => split_digits(bytes),
    }
}

/// What follows a point and digits that stand first.
fn after_places(bytes: &[u8]) -> Option<&[u8]>
    ensures { MatchOption result (NoPlaces bytes.now) (λ rest. IsAfterPlaces bytes.now rest.now) }
{
    let fraction = after_byte(bytes, b'.')?;
    let (places, rest) = split_digits(fraction);
    if places.is_empty() {
        return None;
    }
    Some(rest)
}

/// The digits that stand first, and what follows them.
fn split_digits(bytes: &[u8]) -> (&[u8], &[u8])
    ensures { IsLongest is_ascii_digit bytes.now result.0.now result.1.now }
{
    bytes.split_at(digits_len(bytes))
}

/// How many digits stand first.
fn digits_len(bytes: &[u8]) -> usize
    ensures count { result ≡ prefix_len is_ascii_digit bytes.now }
    ensures within { result ≤ length bytes.now }
{
    bytes.iter().take_while(|b| b.is_ascii_digit()).count()
}

/// What follows a byte that stands first.
fn after_byte(bytes: &[u8], byte: u8) -> Option<&[u8]>
    ensures { MatchOption result (NotFirst byte bytes.now) (λ rest. bytes.now ≡ byte ∷ rest.now) }
{
    match bytes.split_first() {
        Some((first, rest)) if *first == byte => Some(rest),
        _ => None,
    }
}
