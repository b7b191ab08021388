//! Numbers that aren't written as an expression has them.
use pap_tree::{is_white, is_word};
use std::alloc::{AllocError, Global};

/// The number with a comma in the place of its point that stands round a byte of a text.
pub(crate) fn number_with_comma(text: &[u8], at: usize) -> Option<&[u8]> {
    let number = numeral_round(text, at);
    let commas = number.iter().filter(|byte| **byte == b',').count();
    if commas == 1 && !number.contains(&b'.') && is_between_digits(number) {
        Some(number)
    } else {
        None
    }
}

/// Whether a number with both points and commas, or with several points, stands round a byte of a text.
pub(crate) fn has_grouped_number(text: &[u8], at: usize) -> bool {
    let number = numeral_round(text, at);
    let points = number.iter().filter(|byte| **byte == b'.').count();
    (points > 1 || points == 1 && number.contains(&b',')) && is_between_digits(number)
}

/// The whole number that has a sign between its thousands at a byte of a text or right before it: an apostrophe, a `_`, or one of
/// several points.
pub(crate) fn number_in_thousands(text: &[u8], at: usize) -> Option<&[u8]> {
    let sign = thousands_sign(text, at)?;
    let front = text.get(..at)?;
    let first = match front.iter().rposition(|byte| !is_of_thousands(*byte, sign)) {
        Some(last) if is_word_at(text, last) => return None,
        Some(last) => last.saturating_add(1),
        None => 0,
    };
    let rest = text.get(first..)?;
    let count = rest
        .iter()
        .take_while(|byte| is_of_thousands(**byte, sign))
        .count();
    let number = rest.get(..count)?;
    let signs = number.iter().filter(|byte| **byte == sign).count();
    if are_thousands(number, sign) && (signs > 1 || sign != b'.') {
        Some(number)
    } else {
        None
    }
}

/// The sign at a byte of a text, or right before it, that may stand between thousands.
fn thousands_sign(text: &[u8], at: usize) -> Option<u8> {
    let here = *text.get(at)?;
    if is_thousands_sign(here) {
        return Some(here);
    }
    let before = *text.get(at.checked_sub(1)?)?;
    if is_thousands_sign(before) {
        Some(before)
    } else {
        None
    }
}

fn is_thousands_sign(byte: u8) -> bool {
    matches!(byte, b'\'' | b'_' | b'.')
}

/// Whether a byte is a digit or this sign.
fn is_of_thousands(byte: u8, sign: u8) -> bool {
    byte.is_ascii_digit() || byte == sign
}

/// Whether a sign parts digits into one to three, and three behind each sign.
fn are_thousands(number: &[u8], sign: u8) -> bool {
    let count = number.iter().take_while(|byte| **byte != sign).count();
    let groups = number.get(count..).unwrap_or(&[]);
    (1..=3).contains(&count)
        && groups.len() % 4 == 0
        && groups
            .iter()
            .enumerate()
            .all(|(i, byte)| (i % 4 == 0) == (*byte == sign))
}

/// The digits of a number.
pub(crate) fn digits_of(alloc: Global, number: &[u8]) -> Result<Vec<u8>, AllocError> {
    let mut digits = Vec::new(alloc);
    for byte in number {
        if byte.is_ascii_digit() {
            digits.push(*byte)?;
        }
    }
    Ok(digits)
}

/// The number with white space between its digits of which a part begins at a byte of a text.
pub(crate) fn parted_number(text: &[u8], at: usize) -> Option<&[u8]> {
    let before = text.get(..at)?;
    let front = before.trim_ascii_end();
    if front.len() == before.len() {
        return None;
    }
    let first = numeral_start(front);
    let end = at.saturating_add(parts_len(text.get(at..)?));
    let number = text.get(first..end)?.trim_ascii_end();
    if first < front.len() && is_between_digits(number) {
        Some(number)
    } else {
        None
    }
}

/// The number with zeros in front that stands round a byte of a text, without these zeros.
pub(crate) fn number_behind_zeros(text: &[u8], at: usize) -> Option<&[u8]> {
    let number = numeral_round(text, at);
    let zeros = number.iter().take_while(|byte| **byte == b'0').count();
    let is_whole = match number.get(zeros) {
        Some(byte) => byte.is_ascii_digit(),
        None => false,
    };
    let kept = if is_whole {
        zeros
    } else {
        zeros.saturating_sub(1)
    };
    if kept == 0 || number.contains(&b',') {
        return None;
    }
    number.get(kept..)
}

/// The digits and points with which a text begins at a byte.
pub(crate) fn number_from(text: &[u8], at: usize) -> &[u8] {
    let rest = text.get(at..).unwrap_or(&[]);
    let count = rest
        .iter()
        .take_while(|byte| byte.is_ascii_digit() || **byte == b'.')
        .count();
    &rest[..count]
}

/// A number as an expression has it: without white space, and with a point for a comma.
pub(crate) fn plain_number(alloc: Global, number: &[u8]) -> Result<Vec<u8>, AllocError> {
    let mut plain = Vec::new(alloc);
    for byte in number {
        if *byte == b',' {
            plain.push(b'.')?;
        } else if !is_white(*byte) {
            plain.push(*byte)?;
        }
    }
    Ok(plain)
}

/// The digits, points and commas that stand round a byte of a text, which has to be one of them. Nothing where they belong to a
/// name.
fn numeral_round(text: &[u8], at: usize) -> &[u8] {
    let front = text.get(..at).unwrap_or(&[]);
    let rest = text.get(at..).unwrap_or(&[]);
    let count = rest.iter().take_while(|byte| is_of_numeral(**byte)).count();
    if count == 0 {
        return &[];
    }
    let first = numeral_start(front);
    text.get(first..at.saturating_add(count)).unwrap_or(&[])
}

/// The byte at which the digits, points and commas begin with which a text ends: its end, where they belong to a name.
fn numeral_start(text: &[u8]) -> usize {
    match text.iter().rposition(|byte| !is_of_numeral(*byte)) {
        Some(last) if is_word_at(text, last) => text.len(),
        Some(last) => last.saturating_add(1),
        None => 0,
    }
}

/// Whether a byte of a text belongs to a word.
fn is_word_at(text: &[u8], at: usize) -> bool {
    match text.get(at) {
        Some(byte) => is_word(*byte),
        None => false,
    }
}

/// How many bytes a text begins with that are digits, points or white space.
fn parts_len(text: &[u8]) -> usize {
    text.iter()
        .take_while(|byte| byte.is_ascii_digit() || **byte == b'.' || is_white(**byte))
        .count()
}

/// Whether a byte is a digit, a point or a comma.
fn is_of_numeral(byte: u8) -> bool {
    byte.is_ascii_digit() || byte == b'.' || byte == b','
}

/// Whether a text begins and ends with a digit.
fn is_between_digits(text: &[u8]) -> bool {
    match (text.first(), text.last()) {
        (Some(first), Some(last)) => first.is_ascii_digit() && last.is_ascii_digit(),
        _ => false,
    }
}
