//! Signs that look like one that a plan's file has, and aren't.
use crate::quotes::character;

/// The most bytes of a character in UTF-8.
const LONGEST: usize = 4;

/// Whether a text begins with a typographic quotation mark, or with an accent that is typed in its place.
pub(crate) fn begins_with_other_quote(text: &[u8]) -> bool {
    match first_char(text) {
        Some(sign) => matches!(
            sign,
            '\u{2018}'..='\u{201F}' | '\u{2039}' | '\u{203A}' | '\u{AB}' | '\u{BB}' | '\u{B4}' | '`'
        ),
        None => false,
    }
}

/// Whether such a mark stands in a text.
pub(crate) fn has_other_quote(text: &[u8]) -> bool {
    for at in 0..text.len() {
        if begins_with_other_quote(text.get(at..).unwrap_or(&[])) {
            return true;
        }
    }
    false
}

/// What the space is called with which a text begins, where it isn't white space in a plan's file.
pub(crate) fn other_space(text: &[u8]) -> Option<&'static str> {
    match first_char(text)? {
        '\u{A0}' | '\u{2007}' | '\u{202F}' => Some("a no-break space"),
        '\u{200B}'..='\u{200D}' | '\u{2060}' | '\u{FEFF}' => Some("a space without width"),
        '\u{2000}'..='\u{200A}' | '\u{3000}' => Some("a space of another width"),
        _ => None,
    }
}

/// The character with which a text begins, where it is one of UTF-8.
fn first_char(text: &[u8]) -> Option<char> {
    let head = &text[..text.len().min(LONGEST)];
    match str::from_utf8(character(head)) {
        Ok(character) => character.chars().next(),
        Err(_) => None,
    }
}
