//! Signs that an expression doesn't have, or not there.
use crate::called::called_at;
use crate::calls::full_call_help;
use crate::slips::NUMBER;
use crate::tokens::{Stop, begins_operand, ends_operand, goes_on_with_word, is_mark, name_at};
use expr_tokens::{Sign, Token};

/// What is written for a character that isn't of ASCII, as a value in the file has it.
pub(crate) fn plain_sign(sign: char) -> &'static str {
    match sign {
        '\u{2010}'..='\u{2015}' | '\u{2212}' => "write - for it",
        '\u{2018}'..='\u{201F}' | '\u{AB}' | '\u{BB}' => {
            "write a plain quotation mark for it, as &quot;"
        }
        '\u{A0}' | '\u{2007}' | '\u{2009}' | '\u{202F}' => {
            "write a space for it, or nothing between the digits of a number"
        }
        '×' => "write * for it",
        '÷' => "write / for it",
        '≤' => "write &lt;= for it",
        '≥' => "write &gt;= for it",
        '≠' => "write != for it",
        _ =>
            "an expression is written in ASCII, and a name has the letters A to Z and a to z, digits and _",
    }
}

/// What helps at a sign that an expression doesn't have there.
pub(crate) fn sign_help(stop: &Stop<'_>) -> Option<&'static str> {
    if is_behind_bare_point(stop) {
        return Some(POINT);
    }
    match stop.byte()? {
        b'&' => Some("and is written with two signs, which are &amp;&amp; in the file"),
        b'|' => Some("or is written with two signs, as ||"),
        b'>' if stop.byte_before() == Some(b'<') => Some("write != for <>"),
        b'=' if stop.byte_behind() == Some(b'>') => Some("write &gt;= for =>"),
        b'=' if stop.byte_behind() == Some(b'<') => Some("write &lt;= for =<"),
        b'+' if stop.byte_before() == Some(b'+') || stop.byte_behind() == Some(b'+') => {
            Some("there is no ++: write J = J + 1 in an EVAL of its own")
        }
        b';' => Some("a ; stands at the end of an EVAL alone"),
        b'\'' | b'_' if is_between_digits(stop) => Some(NUMBER),
        b'\'' => Some("write a double quotation mark for ', which is &quot; in the file"),
        b':' if stop.byte_behind() == Some(b'=') => {
            Some("write = for := behind the name of an EVAL, and == in a comparison")
        }
        b'^' => Some(
            "there is no power: write a product, as J * J, or A.multiply(A) of a value of BigDecimal",
        ),
        b'/' | b'*' if stop.byte_before() == Some(b'/') => Some(COMMENT),
        b'/' if is_comment(stop.byte_behind()) => Some(COMMENT),
        b'#' => Some(COMMENT),
        b'.' if is_beside_digit(stop) => Some(POINT),
        b',' => full_call_help(stop),
        _ => None,
    }
}

/// How a number with a point is written.
pub(crate) const POINT: &str = "a number with a point has digits before and behind it, as 0.5";

/// Where a comment is written.
const COMMENT: &str =
    "an expression has no comment: write it before the tag, in <!-- and -->, or leave it out";

/// Whether a `/` with this byte behind it begins a comment.
fn is_comment(behind: Option<u8>) -> bool {
    behind == Some(b'/') || behind == Some(b'*')
}

/// Whether a number with no digit behind its point stands right before.
fn is_behind_bare_point(stop: &Stop<'_>) -> bool {
    stop.has_mark_before(1, Sign::Dot)
        && matches!(stop.token_before(2), Some(Token::Int(_) | Token::Long(_)))
}

/// Whether a digit stands right before or behind.
fn is_beside_digit(stop: &Stop<'_>) -> bool {
    is_digit(stop.byte_before()) || is_digit(stop.byte_behind())
}

/// Whether digits stand right before and behind.
fn is_between_digits(stop: &Stop<'_>) -> bool {
    is_digit(stop.byte_before()) && is_digit(stop.byte_behind())
}

fn is_digit(byte: Option<u8>) -> bool {
    match byte {
        Some(byte) => byte.is_ascii_digit(),
        None => false,
    }
}

/// What helps where an operand stands right behind another.
pub(crate) fn operand_help(stop: &Stop<'_>) -> Option<&'static str> {
    let token = stop.token()?;
    let before = stop.token_before(1)?;
    if !ends_operand(before) && lacks_operand(before, token) {
        return Some("a value is missing before it");
    }
    if !ends_operand(before) || !begins_operand(token) || called_at(stop).is_some() {
        return None;
    }
    Some(match (before, token) {
        (Token::Name(_), Token::Name(_)) if goes_on_with_word(stop) => {
            "a name has at most 32 letters, digits and _"
        }
        (_, Token::Name(_)) if begins_call(stop) => {
            "a point is missing before the method, as in A.add(B)"
        }
        _ => "an operator is missing before it",
    })
}

/// Whether the word of a method stands there, with a bracket behind it.
fn begins_call(stop: &Stop<'_>) -> bool {
    match name_at(stop.tokens, stop.number) {
        Some(name) => {
            is_method_word(name.bytes())
                && is_mark(stop.tokens, stop.number.saturating_add(1), Sign::Open)
        }
        None => false,
    }
}

/// Whether a word is that of a method of BigDecimal.
fn is_method_word(word: &[u8]) -> bool {
    matches!(
        word,
        b"add"
            | b"subtract"
            | b"multiply"
            | b"divide"
            | b"setScale"
            | b"compareTo"
            | b"min"
            | b"max"
            | b"negate"
            | b"abs"
    )
}

/// Whether a token that stands behind another goes on behind an operand alone, which is missing then.
fn lacks_operand(before: Token, token: Token) -> bool {
    let waits = match before {
        Token::Operator(_) => true,
        Token::Mark(sign) => matches!(
            sign,
            Sign::Equals
                | Sign::Bang
                | Sign::Question
                | Sign::Colon
                | Sign::Comma
                | Sign::Open
                | Sign::OpenItem
        ),
        _ => false,
    };
    let goes_on = match token {
        Token::Operator(_) => true,
        Token::Mark(sign) => matches!(
            sign,
            Sign::Question
                | Sign::Colon
                | Sign::Comma
                | Sign::Semicolon
                | Sign::Close
                | Sign::CloseItem
        ),
        _ => false,
    };
    waits && goes_on
}
