//! What is passed over before the tokens.

ghost use Rattle.std.specs.Prelude.{◌<◌, ◌≤◌, length, MatchOption, IfSome};
ghost use Rattle.pap_reader.specs.Skipped.{Past, IsAfterMark, IsAfterDeclaration, NoPast, IsAfterProlog};

use crate::bytes::{after_text, split};

/// What is left after the first place where the mark stands.
pub fn past_mark<'a>(bytes: &'a [u8], mark: &[u8]) -> Option<&'a [u8]>
    requires { 0 < length mark.now }
    ensures found { MatchOption result
        (NoPast mark.now bytes.now)
        (λ rest. Past mark.now bytes.now rest.now) }
    ensures shorter { IfSome result (λ rest. length rest.now < length bytes.now) }
{
    let mut left = bytes;
    while let Some((_, next)) = split(left) {
        if let Some(rest) = after_text(left, mark) {
            return Some(rest);
        }
        left = next;
    }
    None
}

/// What is left after a byte order mark, if one comes first.
fn after_mark(bytes: &[u8]) -> &[u8]
    ensures passed { IsAfterMark bytes.now result.now }
    ensures shorter { length result.now ≤ length bytes.now }
{
    match after_text(bytes, b"\xEF\xBB\xBF") {
        Some(rest) => rest,
        None => bytes,
    }
}

/// What is left after an XML declaration, if one comes first.
fn after_declaration(bytes: &[u8]) -> &[u8]
    ensures passed { IsAfterDeclaration bytes.now result.now }
    ensures shorter { length result.now ≤ length bytes.now }
{
    let Some(inside) = after_text(bytes, b"<?xml") else {
        return bytes;
    };
    match past_mark(inside, b"?>") {
        Some(rest) => rest,
        None => bytes,
    }
}

/// What is left after what may stand before the tokens: a byte order mark and an XML declaration.
pub fn after_prolog(bytes: &[u8]) -> &[u8]
    ensures passed { IsAfterProlog bytes.now result.now }
    ensures shorter { length result.now ≤ length bytes.now }
{
    after_declaration(after_mark(bytes))
}
