//! What is wrong in the brackets of a call.
use crate::math::is_of_math;
use crate::tokens::{OpenCall, Stop, is_mark, open_call};
use expr_tokens::{Keyword, Sign, Token};
use pap_tree::{Binary, Name};

/// What helps in the brackets of a call, or at its word.
pub(crate) fn call_help(stop: &Stop<'_>) -> Option<&'static str> {
    let call = stop.call()?;
    if is_mode(&call) {
        mode_help(stop)
    } else if is_scale(&call) {
        scale_help(stop, &call)
    } else {
        None
    }
}

/// Whether a call is at the rounding mode.
fn is_mode(call: &OpenCall) -> bool {
    match call.word.bytes() {
        b"setScale" => call.commas == 1,
        b"divide" => call.commas == 2,
        _ => false,
    }
}

/// Whether a call is at the scale.
fn is_scale(call: &OpenCall) -> bool {
    match call.word.bytes() {
        b"setScale" => call.commas == 0,
        b"divide" | b"valueOf" => call.commas == 1,
        _ => false,
    }
}

/// What helps at a rounding mode.
fn mode_help(stop: &Stop<'_>) -> Option<&'static str> {
    if stop.has_mark_before(1, Sign::Comma) {
        return Some(MODES);
    }
    if !stop.has_mark_before(1, Sign::Dot) {
        return None;
    }
    match stop.token_before(2)? {
        Token::Keyword(Keyword::BigDecimal) => Some(MODES),
        Token::Keyword(Keyword::RoundingMode) => Some(
            "the rounding modes are DOWN, UP, FLOOR, CEILING, HALF_UP, HALF_DOWN and HALF_EVEN, each behind RoundingMode and a point",
        ),
        _ => None,
    }
}

/// The rounding modes.
const MODES: &str =
    "the rounding modes are ROUND_DOWN, ROUND_UP, ROUND_FLOOR, ROUND_CEILING, ROUND_HALF_UP, ROUND_HALF_DOWN and ROUND_HALF_EVEN, each behind BigDecimal and a point";

/// What helps at a scale.
fn scale_help(stop: &Stop<'_>, call: &OpenCall) -> Option<&'static str> {
    match stop.token()? {
        Token::Mark(Sign::Close) if call.word.bytes() == b"divide".as_slice() => Some(
            "divide lacks its rounding mode: write it behind the scale, as in A.divide(B, 2, BigDecimal.ROUND_DOWN)",
        ),
        Token::Name(_) | Token::Mark(Sign::Open) if is_first_of_part(stop) => {
            Some("a scale is a number from 0 to 30, and neither a name nor a calculation")
        }
        Token::Operator(Binary::Sub) if is_first_of_part(stop) => {
            Some("a scale is a whole number from 0 to 30, and never below 0")
        }
        Token::Keyword(_) if is_first_of_part(stop) => class_for_scale(call),
        _ => None,
    }
}

/// What helps where a class stands in the place of a call's scale. In a `divide` it may be that the scale is left out.
fn class_for_scale(call: &OpenCall) -> Option<&'static str> {
    match call.word.bytes() {
        b"setScale" => Some(
            "the scale stands first, and the rounding mode behind it, as in A.setScale(2, BigDecimal.ROUND_DOWN)",
        ),
        b"valueOf" => Some(
            "valueOf takes a number alone, or a whole number and a scale, and no rounding mode",
        ),
        _ => None,
    }
}

/// Whether what stands there is the first of what a call is given.
fn is_first_of_part(stop: &Stop<'_>) -> bool {
    stop.has_mark_before(1, Sign::Comma) || stop.has_mark_before(1, Sign::Open)
}

/// The word of a call whose bracket isn't closed before a comma, as it seems: it has all that it takes, and stands in another call.
pub(crate) fn unclosed_call(stop: &Stop<'_>) -> Option<Name> {
    if !is_mark(stop.tokens, stop.number, Sign::Comma) {
        return None;
    }
    let call = stop.call()?;
    if !is_full(&call) || is_of_math(stop.tokens, call.number) {
        return None;
    }
    match open_call(stop.tokens, call.number) {
        Some(_) => Some(call.word),
        None => None,
    }
}

/// What helps at a comma where a call has all that it takes.
pub(crate) fn full_call_help(stop: &Stop<'_>) -> Option<&'static str> {
    let call = stop.call()?;
    if is_full(&call) {
        Some(taken_by_call(&call.word))
    } else {
        None
    }
}

/// Whether a call has all that it takes once what stands before a comma is read.
fn is_full(call: &OpenCall) -> bool {
    match call.word.bytes() {
        b"add" | b"subtract" | b"multiply" | b"compareTo" | b"min" | b"max" => true,
        b"valueOf" | b"setScale" => call.commas >= 1,
        b"divide" => call.commas >= 2,
        _ => false,
    }
}

/// What a call takes in its brackets.
pub(crate) fn taken_by_call(word: &Name) -> &'static str {
    match word.bytes() {
        b"valueOf" => "valueOf takes a number alone, or a whole number and a scale",
        b"setScale" => "setScale takes a scale and a rounding mode",
        b"divide" => "divide takes a value, a scale and a rounding mode",
        _ => "the method takes one value in its brackets",
    }
}
