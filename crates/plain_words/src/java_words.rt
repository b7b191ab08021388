//! Words that Java or another language has in an expression, and the flowchart's profile doesn't.
use crate::tokens::{Stop, begins_operand, is_mark, name_at};
use expr_tokens::{Keyword, Sign, Token};

/// What helps at a word that isn't of the profile.
pub(crate) fn word_help(stop: &Stop<'_>) -> Option<&'static str> {
    if is_behind_not(stop) {
        return Some("write ! for not, as in !(A > B)");
    }
    if let Some(help) = class_help(stop) {
        return Some(help);
    }
    let name = name_at(stop.tokens, stop.number)?;
    match name.bytes() {
        b"and" | b"AND" => Some("write && for and, which is &amp;&amp; in the file"),
        b"or" | b"OR" => Some("write || for or"),
        b"MathContext" => Some(
            "a MathContext isn't part of the profile: write a scale and a rounding mode, as in A.divide(B, 2, BigDecimal.ROUND_DOWN)",
        ),
        word if stop.has_mark_before(1, Sign::Dot) => method_help(word),
        _ => None,
    }
}

/// Whether an operand stands behind the word `not`.
fn is_behind_not(stop: &Stop<'_>) -> bool {
    let Some(before) = stop.number.checked_sub(1) else {
        return false;
    };
    match name_at(stop.tokens, before) {
        Some(name) => matches!(name.bytes(), b"not" | b"NOT") && is_operand(stop),
        None => false,
    }
}

/// Whether an operand may begin there.
fn is_operand(stop: &Stop<'_>) -> bool {
    match stop.token() {
        Some(token) => begins_operand(token),
        None => false,
    }
}

/// What helps at a method of Java's that isn't of the profile.
fn method_help(word: &[u8]) -> Option<&'static str> {
    match word {
        b"equals" => Some(
            "there is no equals: write A.compareTo(B) == 0, or A.compareTo(B) != 0 for its contrary",
        ),
        b"signum" => {
            Some("there is no signum: write A.compareTo(BigDecimal.ZERO), which is -1, 0 or 1")
        }
        b"pow" => Some("there is no pow: write A.multiply(A) for its square"),
        b"remainder" | b"mod" => Some(
            "there is no remainder: write A.subtract(A.divide(B, 0, BigDecimal.ROUND_DOWN).multiply(B))",
        ),
        b"floor" | b"ceil" | b"round" => Some(
            "round by setScale, as in A.setScale(0, BigDecimal.ROUND_FLOOR), with ROUND_CEILING or ROUND_HALF_UP for the others",
        ),
        b"plus" | b"sum" => Some("there is no method of this name: write A.add(B)"),
        b"minus" | b"sub" => Some("there is no method of this name: write A.subtract(B)"),
        b"times" | b"mul" | b"mult" => {
            Some("there is no method of this name: write A.multiply(B)")
        }
        b"div" | b"over" => Some(
            "there is no method of this name: write A.divide(B, 2, BigDecimal.ROUND_DOWN)",
        ),
        _ => None,
    }
}

/// What helps at a class, or right behind it.
fn class_help(stop: &Stop<'_>) -> Option<&'static str> {
    if let Some(help) = spelling_help(stop) {
        return Some(help);
    }
    let Some(Token::Keyword(keyword)) = stop.token_before(1) else {
        return None;
    };
    match keyword {
        Keyword::New => Some("behind new stands BigDecimal, as in new BigDecimal(\"0.05\")"),
        Keyword::BigDecimal if is_behind_new(stop) => {
            Some("behind new BigDecimal stands a (, as in new BigDecimal(\"0.05\")")
        }
        Keyword::BigDecimal if is_mark(stop.tokens, stop.number, Sign::Open) => {
            Some("write new before BigDecimal, or BigDecimal.valueOf(..)")
        }
        Keyword::BigDecimal | Keyword::RoundingMode => Some(
            "behind a class stands a point, as in BigDecimal.ZERO, BigDecimal.valueOf(5) or RoundingMode.DOWN",
        ),
    }
}

/// Whether the word `new` stands before the class there.
fn is_behind_new(stop: &Stop<'_>) -> bool {
    match stop.token_before(2) {
        Some(Token::Keyword(keyword)) => keyword == Keyword::New,
        _ => false,
    }
}

/// What helps where a class is written with other letters of its words as capitals.
fn spelling_help(stop: &Stop<'_>) -> Option<&'static str> {
    let number = if stop.has_mark_before(1, Sign::Dot) {
        stop.number.checked_sub(2)?
    } else {
        stop.number
    };
    let name = name_at(stop.tokens, number)?;
    if name.as_str().eq_ignore_ascii_case("BigDecimal") {
        Some("the class is written BigDecimal, with a capital B and a capital D")
    } else if name.as_str().eq_ignore_ascii_case("RoundingMode") {
        Some("the class is written RoundingMode, with a capital R and a capital M")
    } else {
        None
    }
}
