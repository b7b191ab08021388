//! What the literal of a declaration doesn't have.
use crate::tokens::{Form, Stop, ends_operand};
use expr_tokens::{Sign, Token};

/// What helps where a declaration's literal goes on with what no literal has.
pub(crate) fn literal_help(stop: &Stop<'_>) -> Option<&'static str> {
    if stop.form != Form::Literal {
        return None;
    }
    match stop.token()? {
        Token::Name(_) if !stop.has_mark_before(1, Sign::Dot) => Some(
            "a literal has no names: write the value itself, as 5, 0.5 or new BigDecimal(\"0.05\")",
        ),
        Token::Operator(_) | Token::Mark(Sign::Dot | Sign::Question) if is_behind_value(stop) => {
            Some(
                "a literal is a value, and no calculation: write the value itself, or calculate it in an EVAL",
            )
        }
        _ => None,
    }
}

/// Whether a value stands right before.
fn is_behind_value(stop: &Stop<'_>) -> bool {
    match stop.token_before(1) {
        Some(token) => ends_operand(token),
        None => false,
    }
}
