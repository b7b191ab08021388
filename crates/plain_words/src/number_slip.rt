//! What stands in place of a number.
use scaled_decimal::{NumFault, read_dec};

/// Why a text is no number, as far as that is told apart.
#[derive(Clone, Copy, PartialEq, Eq)]
pub(crate) enum NumberSlip {
    /// A number has a `+` before it.
    Plus,
    /// A number has a dash before it that isn't the `-` of ASCII.
    Dash,
    /// A number has no digit before its point.
    NoWhole,
    /// A number has no digit behind its point.
    NoPlaces,
    /// A number has an exponent, as `4.5e3`.
    Exponent,
    /// A number has blanks round it or in it.
    Blank,
    /// There is a comma.
    Comma,
    /// A number has too many decimal places.
    Places,
    /// A number is too great.
    Wide,
    /// It is none of these.
    Other,
}

/// What a text has that is no number, and what helps.
#[derive(Clone, Copy)]
pub(crate) struct SlipWords {
    /// What it has, as `an exponent`.
    pub has: &'static str,
    /// What helps.
    pub help: &'static str,
}

impl NumberSlip {
    /// Why a text is no number: the first of the reasons that is so.
    pub(crate) fn of(text: &[u8]) -> NumberSlip {
        if has_plus(text) {
            NumberSlip::Plus
        } else if has_dash(text) {
            NumberSlip::Dash
        } else if lacks_whole(text) {
            NumberSlip::NoWhole
        } else if lacks_places(text) {
            NumberSlip::NoPlaces
        } else if has_exponent(text) {
            NumberSlip::Exponent
        } else if has_blanks(text) {
            NumberSlip::Blank
        } else if text.contains(&b',') {
            NumberSlip::Comma
        } else {
            match read_dec(text) {
                Err(NumFault::Scale) => NumberSlip::Places,
                Err(NumFault::Wide) => NumberSlip::Wide,
                _ => NumberSlip::Other,
            }
        }
    }

    /// What such a text has, and what helps; nothing is known where it is none of the others.
    pub(crate) fn words(self) -> Option<SlipWords> {
        let (has, help) = match self {
            NumberSlip::Plus => ("a `+` before its number", "take the sign out"),
            NumberSlip::Dash => (
                "a dash before its number that isn't the minus sign of ASCII",
                "write the `-` of the keyboard",
            ),
            NumberSlip::NoWhole => ("no digit before its point", "write one there, as 0.9"),
            NumberSlip::NoPlaces => (
                "no digit behind its point",
                "write one there, or take the point out",
            ),
            NumberSlip::Exponent => (
                "an exponent",
                "write all digits of the number, as 4500 and not 4.5e3",
            ),
            NumberSlip::Blank => ("a blank", "take the blank out"),
            NumberSlip::Comma => (
                "a comma",
                "write a point before decimal places and nothing between thousands, as 2500.55",
            ),
            NumberSlip::Places => ("more than 30 decimal places", "round it to at most 30"),
            NumberSlip::Wide => (
                "a number beyond 10^37 without its point",
                "write one of fewer digits, or with fewer decimal places",
            ),
            NumberSlip::Other => return None,
        };
        Some(SlipWords { has, help })
    }
}

/// Whether a text is a number.
fn is_number(text: &[u8]) -> bool {
    read_dec(text).is_ok()
}

/// Whether a text is a number with a `+` before it.
fn has_plus(text: &[u8]) -> bool {
    match text.strip_prefix(b"+") {
        Some(rest) => is_number(rest),
        None => false,
    }
}

/// Whether a text is a number with a dash before it, or with the minus sign of typography: a character from U+2010 to U+2015, or
/// U+2212.
fn has_dash(text: &[u8]) -> bool {
    match text {
        [0xE2, 0x80, 0x90..=0x95, rest @ ..] | [0xE2, 0x88, 0x92, rest @ ..] => is_number(rest),
        _ => false,
    }
}

/// Whether a text is a number but for a digit before its point, as `.9`.
fn lacks_whole(text: &[u8]) -> bool {
    let unsigned = text.strip_prefix(b"-").unwrap_or(text);
    match unsigned.strip_prefix(b".") {
        Some(places) => places.iter().all(|byte| byte.is_ascii_digit()) && is_number(places),
        None => false,
    }
}

/// Whether a text is a number but for a digit behind its point, as `4500.`.
fn lacks_places(text: &[u8]) -> bool {
    match text.strip_suffix(b".") {
        Some(whole) => !whole.contains(&b'.') && is_number(whole),
        None => false,
    }
}

/// Whether a text is a number with an exponent, as `4.5e3`.
fn has_exponent(text: &[u8]) -> bool {
    let length = text
        .iter()
        .take_while(|byte| !is_exponent_sign(**byte))
        .count();
    let Some(sign_and_digits) = text.get(length.saturating_add(1)..) else {
        return false;
    };
    let exponent = sign_and_digits
        .strip_prefix(b"+")
        .unwrap_or(sign_and_digits);
    is_number(&text[..length]) && is_number(exponent)
}

/// Whether a byte begins an exponent.
fn is_exponent_sign(byte: u8) -> bool {
    byte == b'e' || byte == b'E'
}

/// Whether a text has digits, points, signs and blanks alone, and a blank among them.
fn has_blanks(text: &[u8]) -> bool {
    text.iter().any(|byte| byte.is_ascii_whitespace())
        && text
            .iter()
            .all(|byte| byte.is_ascii_whitespace() || is_of_number(*byte))
}

/// Whether a byte may stand in a number.
fn is_of_number(byte: u8) -> bool {
    byte.is_ascii_digit() || byte == b'.' || byte == b'-'
}
