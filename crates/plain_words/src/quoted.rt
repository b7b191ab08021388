//! Texts in quotation marks that an expression doesn't have there.
use crate::numerals::number_with_comma;
use crate::signs::POINT;
use crate::slips::{NUMBER, Slip};
use crate::suffixes::{EXPONENT, PERCENT};
use crate::tokens::Stop;
use expr_tokens::Token;

/// What stands in quotation marks and isn't read on.
pub(crate) fn quoted_slip<'a>(stop: &Stop<'a>) -> Slip<'a> {
    let first = stop.at.saturating_add(1);
    let rest = stop.text.get(first..).unwrap_or(&[]);
    let Some(end) = rest.iter().position(|byte| *byte == b'"') else {
        return Slip::Other("the quotation mark behind the number is missing");
    };
    let inner = rest.get(..end).unwrap_or(&[]);
    if let Some(Token::Quoted(_)) = stop.token() {
        return quoted_number(stop, inner);
    }
    match number_with_comma(inner, 0) {
        Some(number) if number.len() == inner.len() => Slip::Comma(number),
        _ => Slip::Other(unread_help(inner)),
    }
}

/// A number in quotation marks that doesn't stand in `new BigDecimal(..)`.
fn quoted_number<'a>(stop: &Stop<'a>, number: &'a [u8]) -> Slip<'a> {
    if is_operand(stop) && number.iter().all(|byte| byte.is_ascii_digit()) || is_valued(stop) {
        Slip::Bare(number)
    } else {
        Slip::Quoted(number)
    }
}

/// Whether an operator stands right before.
fn is_operand(stop: &Stop<'_>) -> bool {
    matches!(stop.token_before(1), Some(Token::Operator(_)))
}

/// Whether it stands in the brackets of a `valueOf`.
fn is_valued(stop: &Stop<'_>) -> bool {
    match stop.call() {
        Some(call) => call.word.bytes() == b"valueOf".as_slice(),
        None => false,
    }
}

/// What helps where a text in quotation marks isn't a number.
fn unread_help(inner: &[u8]) -> &'static str {
    match inner {
        [.., b'%'] => PERCENT,
        [b'.', ..] | [.., b'.'] => POINT,
        [first, ..] if first.is_ascii_digit() && has_exponent(inner) => EXPONENT,
        [first, ..] if first.is_ascii_digit() => NUMBER,
        _ => "in quotation marks stands a number alone, as in new BigDecimal(\"2500.55\")",
    }
}

/// Whether a number has the letter of an exponent.
fn has_exponent(number: &[u8]) -> bool {
    number.iter().any(|byte| *byte == b'e' || *byte == b'E')
}
