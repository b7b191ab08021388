//! Java's class `Math`, which expressions don't have.
use crate::tokens::{Stop, is_mark, name_at};
use expr_tokens::{Placed, Sign};

/// What helps at a method of `Math`, or in its brackets.
pub(crate) fn math_help(stop: &Stop<'_>) -> Option<&'static str> {
    if is_of_math(stop.tokens, stop.number) {
        let method = name_at(stop.tokens, stop.number)?;
        return Some(method_help(method.bytes()));
    }
    let call = stop.call()?;
    if is_of_math(stop.tokens, call.number) {
        Some(method_help(call.word.bytes()))
    } else {
        None
    }
}

/// What is written in place of a method of `Math`.
fn method_help(method: &[u8]) -> &'static str {
    match method {
        b"max" => {
            "there is no Math: write A.max(B) of values of BigDecimal, and A > B ? A : B of whole numbers"
        }
        b"min" => {
            "there is no Math: write A.min(B) of values of BigDecimal, and A > B ? B : A of whole numbers"
        }
        b"abs" => {
            "there is no Math: write A.abs() of a value of BigDecimal, and A > 0 ? A : -A of a whole number"
        }
        b"floor" => "there is no Math: write A.setScale(0, BigDecimal.ROUND_FLOOR)",
        b"ceil" => "there is no Math: write A.setScale(0, BigDecimal.ROUND_CEILING)",
        b"round" | b"rint" => "there is no Math: write A.setScale(0, BigDecimal.ROUND_HALF_UP)",
        b"pow" => {
            "there is no Math: write a product, A.multiply(A) of a value of BigDecimal, and A * A of a whole number"
        }
        _ => {
            "there is no Math: there are A.max(B), A.min(B), A.abs() and A.setScale(0, BigDecimal.ROUND_DOWN) of values of BigDecimal"
        }
    }
}

/// Whether a word stands behind `Math` and a point.
pub(crate) fn is_of_math(tokens: &[Placed], number: usize) -> bool {
    let Some(class) = number.checked_sub(2) else {
        return false;
    };
    match name_at(tokens, class) {
        Some(name) => {
            name.bytes() == b"Math".as_slice()
                && is_mark(tokens, class.saturating_add(1), Sign::Dot)
        }
        None => false,
    }
}
