//! The values of attributes, and the escapes in them.

ghost use Rattle.std.specs.Prelude.{◌≡◌, ◌<◌, ◌≤◌, true, length, MatchOption, IfOk, IfSome};
ghost use Rattle.std.specs.List.{prefix_len, take_while};
ghost use Rattle.pap_reader.specs.Bytes.{drop_while};
ghost use Rattle.pap_reader.specs.Values.{is_quote, Quoted, IsByte, NoByte};
ghost use Rattle.pap_reader.specs.private.Values.{NoValue};
ghost use Rattle.pap_reader.specs.private.EscapeDecisions.{code_of, byte_numbered, byte_named};
ghost use Rattle.pap_reader.specs.private.Views.{is_code, FoundEscape, NoFoundEscape};

use crate::bytes::{after_byte, split};
use std::alloc::{AllocError, Global};

/// Whether the byte may stand in an escape's word.
fn is_code(b: u8) -> bool
    ensures { result ≡ is_code b }
{
    b.is_ascii_alphabetic() || b.is_ascii_digit() || b == b'#'
}

/// The code that digits of a radix write. `None` where one of them is no digit, and where the code isn't from 1 to 127.
fn code_of(digits: &[u8], radix: u32) -> Option<u8>
    requires low { 2 ≤ radix }
    requires high { radix ≤ 16 }
    ensures { result ≡ code_of radix digits.now }
{
    let mut code = 0;
    for digit in digits {
        code = code * radix + char::from(*digit).to_digit(radix)?;
        if code > 127 {
            return None;
        }
    }
    if code == 0 { None } else { Some(code as u8) }
}

/// The byte of a number, after its `#`.
fn byte_numbered(word: &[u8]) -> Option<u8>
    ensures { result ≡ byte_numbered word.now }
{
    match split(word) {
        Some((b'x', digits)) => code_of(digits, 16),
        _ => code_of(word, 10),
    }
}

/// The byte that an escape's word stands for.
fn byte_named(word: &[u8]) -> Option<u8>
    ensures { result ≡ byte_named word.now }
{
    if word == b"lt".as_slice() {
        Some(b'<')
    } else if word == b"gt".as_slice() {
        Some(b'>')
    } else if word == b"amp".as_slice() {
        Some(b'&')
    } else if word == b"quot".as_slice() {
        Some(b'"')
    } else if word == b"apos".as_slice() {
        Some(b'\'')
    } else {
        byte_numbered(after_byte(word, b'#')?)
    }
}

/// How many bytes of an escape's word come first.
fn word_len(bytes: &[u8]) -> usize
    ensures count { result ≡ prefix_len is_code bytes.now }
    ensures within { result ≤ length bytes.now }
{
    bytes.iter().take_while(|b| is_code(**b)).count()
}

/// The word of an escape, and what is left.
fn split_word(bytes: &[u8]) -> (&[u8], &[u8])
    ensures word { result.0.now ≡ take_while is_code bytes.now }
    ensures left { result.1.now ≡ drop_while is_code bytes.now }
    ensures shorter { length result.1.now ≤ length bytes.now }
{
    bytes.split_at(word_len(bytes))
}

/// The byte that an escape stands for, and what is left.
fn read_escape(bytes: &[u8]) -> Option<(u8, &[u8])>
    ensures found { MatchOption result (NoFoundEscape bytes.now)
        (λ r. FoundEscape bytes.now r.0 r.1.now) }
    ensures shorter { IfSome result (λ r. length r.1.now < length bytes.now) }
{
    let (word, rest) = split_word(after_byte(bytes, b'&')?);
    let byte = byte_named(word)?;
    let rest = after_byte(rest, b';')?;
    Some((byte, rest))
}

/// The byte that comes next in a value, and what is left. `None` at its quote, too.
pub fn read_byte(bytes: &[u8], quote: u8) -> Option<(u8, &[u8])>
    ensures found { MatchOption result (NoByte quote bytes.now)
        (λ r. IsByte quote bytes.now r.0 r.1.now) }
    ensures shorter { IfSome result (λ r. length r.1.now < length bytes.now) }
{
    let (first, rest) = split(bytes)?;
    if first == b'&' {
        return read_escape(bytes);
    }
    if first == quote || first == b'<' {
        return None;
    }
    Some((first, rest))
}

/// A value up to its closing quote, and what is left after that.
pub(crate) fn read_value(
    alloc: Global,
    bytes: &[u8],
    quote: u8,
) -> Result<Option<(Vec<u8>, &[u8])>, AllocError>
    requires { is_quote quote ≡ true }
    ensures found { IfOk result (λ o. MatchOption o
        (NoValue quote bytes.now)
        (λ r. Quoted quote bytes.now r.0.items r.1.now)) }
    ensures shorter { IfOk result (λ o. IfSome o (λ r. length r.1.now < length bytes.now)) }
{
    let mut value = Vec::new(alloc);
    let mut left = bytes;
    while let Some((byte, rest)) = read_byte(left, quote) {
        value.push(byte)?;
        left = rest;
    }
    match after_byte(left, quote) {
        Some(rest) => Ok(Some((value, rest))),
        None => Ok(None),
    }
}
