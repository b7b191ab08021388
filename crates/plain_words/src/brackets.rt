//! Brackets that aren't closed, or that nothing opens.
use crate::tokens::{Form, Stop, ends_operand};
use expr_tokens::{Sign, Token};

/// What helps where a bracket or a conditional isn't complete before a sign.
pub(crate) fn bracket_help(stop: &Stop<'_>) -> Option<&'static str> {
    let sign = match stop.token()? {
        Token::Mark(sign) => sign,
        _ => return None,
    };
    if ends_part(sign) && stop.lacks_colon() && is_behind_operand(stop) {
        return Some(CHOICE);
    }
    match (sign, stop.bracket()) {
        (Sign::Close | Sign::CloseTable | Sign::Comma | Sign::Semicolon, Some(Sign::OpenItem)) => {
            Some("a ] is missing before it")
        }
        (Sign::CloseItem | Sign::CloseTable, Some(Sign::Open)) => Some("a ) is missing before it"),
        (Sign::Close, None | Some(Sign::OpenTable)) => {
            Some("no ( is open there: take the ) out, or write the ( that is missing before it")
        }
        (Sign::CloseItem, None | Some(Sign::OpenTable)) => {
            Some("no [ is open there: take the ] out, or write the [ that is missing before it")
        }
        (Sign::CloseTable, None) => Some("no { is open there: the items of a table stand in { }"),
        (Sign::OpenItem | Sign::Open, None) if is_bare_table(stop) => {
            Some("the items of a table stand in { }, with commas between")
        }
        (Sign::Semicolon, Some(_)) if is_last(stop) => {
            Some("a bracket isn't closed: close it before the ;")
        }
        (Sign::Semicolon, Some(_)) => Some("what stands in brackets has commas between, and no ;"),
        _ => None,
    }
}

/// What helps where a text ends too early.
pub(crate) fn end_help(stop: &Stop<'_>) -> Option<&'static str> {
    if stop.token().is_some() {
        return None;
    }
    if stop.number == 0 {
        return Some(empty_help(stop.form));
    }
    if stop.has_mark_before(1, Sign::Dot) {
        return Some("the text ends too early: a method is missing behind the point");
    }
    if !is_behind_operand(stop) {
        return Some("the text ends too early: a value is missing at its end");
    }
    if stop.lacks_colon() {
        return Some(CHOICE);
    }
    match stop.bracket()? {
        Sign::Open => Some("the text ends too early: a ) is missing"),
        Sign::OpenItem => Some("the text ends too early: a ] is missing"),
        Sign::OpenTable => Some("the text ends too early: a } is missing"),
        _ => None,
    }
}

/// What helps where a text is empty.
fn empty_help(form: Form) -> &'static str {
    match form {
        Form::Assignment => "the text is empty: write an assignment, as J = 3",
        Form::Test => "the text is empty: write a test, as J == 3",
        Form::Literal => {
            "the text is empty: write a literal, as 0 or BigDecimal.ZERO; an INPUT, OUTPUT or INTERNAL may do without a default"
        }
    }
}

/// What helps where a conditional has no `:`.
const CHOICE: &str =
    "a conditional has two values, as in A > B ? A : B; the : and the value behind it are missing";

/// Whether a part of an expression ends before a sign.
fn ends_part(sign: Sign) -> bool {
    matches!(
        sign,
        Sign::Close | Sign::CloseItem | Sign::CloseTable | Sign::Comma | Sign::Semicolon
    )
}

/// Whether an operand may end right before.
fn is_behind_operand(stop: &Stop<'_>) -> bool {
    match stop.token_before(1) {
        Some(token) => ends_operand(token),
        None => false,
    }
}

/// Whether a literal begins there with a bracket that isn't a table's.
fn is_bare_table(stop: &Stop<'_>) -> bool {
    stop.form == Form::Literal && stop.number == 0
}

/// Whether what stands there is the last of its text.
fn is_last(stop: &Stop<'_>) -> bool {
    stop.tokens.len() == stop.number.saturating_add(1)
}
