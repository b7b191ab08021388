//! Letters and signs behind a number that don't belong to it.
use crate::tokens::{Stop, begins_operand, goes_on_with_word, name_at};
use expr_tokens::Token;
use pap_tree::Binary;

/// What helps at what stands behind a number.
pub(crate) fn suffix_help(stop: &Stop<'_>) -> Option<&'static str> {
    if is_behind_percent(stop) {
        return Some(PERCENT);
    }
    if !is_number(stop.token_before(1)?) || !goes_on_with_word(stop) {
        return None;
    }
    let suffix = name_at(stop.tokens, stop.number)?;
    if is_exponent(suffix.bytes()) {
        Some(EXPONENT)
    } else {
        Some(LETTER)
    }
}

/// What is written in place of a percentage.
pub(crate) const PERCENT: &str = "a number has no % behind it: write 0.20 for 20%";

/// What is written in place of a number with an exponent.
pub(crate) const EXPONENT: &str =
    "a number has no exponent: write its digits out, as 100000000 for 1e8";

/// Which letters a number has.
const LETTER: &str =
    "a number has no letter behind it but the capital L of a long, which is needed beyond 2147483647 alone";

/// Whether a `%` behind a number stands right before, and no operand behind it.
fn is_behind_percent(stop: &Stop<'_>) -> bool {
    match (stop.token_before(2), stop.token_before(1)) {
        (Some(number), Some(Token::Operator(Binary::Rem))) => {
            is_number(number) && !begins_part(stop)
        }
        _ => false,
    }
}

/// Whether an operand begins there.
fn begins_part(stop: &Stop<'_>) -> bool {
    match stop.token() {
        Some(token) => begins_operand(token),
        None => false,
    }
}

/// Whether a token is a number.
fn is_number(token: Token) -> bool {
    matches!(token, Token::Int(_) | Token::Long(_) | Token::Point(_))
}

/// Whether letters right behind a number begin an exponent.
fn is_exponent(letters: &[u8]) -> bool {
    match letters {
        [b'e' | b'E', digits @ ..] => digits.iter().all(|byte| byte.is_ascii_digit()),
        _ => false,
    }
}
