//! Casts, which expressions don't have.
use crate::tokens::{Stop, name_at};
use expr_tokens::{Keyword, Sign, Token};

/// What helps at a cast as Java has it, or right behind it.
pub(crate) fn cast_help(stop: &Stop<'_>) -> Option<&'static str> {
    if is_decimal_cast(stop) {
        return Some("there is no cast: write BigDecimal.valueOf(..) round the number");
    }
    if !stop.has_mark_before(1, Sign::Close) || !begins_bracket(stop, 3) {
        return None;
    }
    let number = stop.number.checked_sub(2)?;
    let word = name_at(stop.tokens, number)?;
    match word.bytes() {
        b"int" | b"long" => Some(
            "there is no cast: leave it out of whole numbers; the whole part of a BigDecimal A is A.setScale(0, BigDecimal.ROUND_DOWN)",
        ),
        b"double" | b"float" => {
            Some("there is no cast: leave it out, or write BigDecimal.valueOf(..) round the number")
        }
        _ => None,
    }
}

/// Whether the bracket behind `(BigDecimal` stands there.
fn is_decimal_cast(stop: &Stop<'_>) -> bool {
    match (stop.token(), stop.token_before(1)) {
        (Some(Token::Mark(Sign::Close)), Some(Token::Keyword(Keyword::BigDecimal))) => {
            begins_bracket(stop, 2)
        }
        _ => false,
    }
}

/// Whether a `(` stands so many tokens before it that isn't that of a call.
fn begins_bracket(stop: &Stop<'_>, count: usize) -> bool {
    stop.has_mark_before(count, Sign::Open)
        && !matches!(
            stop.token_before(count.saturating_add(1)),
            Some(Token::Name(_) | Token::Keyword(_))
        )
}
