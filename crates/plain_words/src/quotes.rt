//! Parts of a file as they are quoted.
ghost use Rattle.std.specs.Prelude.{◌≡◌, ◌≤◌, ◌++◌, OnOk, length};
ghost use Rattle.std.specs.List.{prefix_len, take_while};
ghost use Rattle.std.specs.String.{string_bytes};
ghost use Rattle.pap_tree.specs.Names.{is_word};
ghost use Rattle.plain_words.specs.Lines.{left_out, quote_start, quoted_text};

use pap_tree::is_word;
use std::alloc::AllocError;

/// The most bytes of a text that are quoted.
const LONGEST: usize = 160;

/// Appends a text in backquotes; of a long one the part round a place, with two points for what is left out.
pub(crate) fn write_quoted(out: &mut String, text: &[u8], at: usize) -> Result<(), AllocError>
    ensures { OnOk result
        (string_bytes out.new ≡ string_bytes out.old ++ quoted_text text.now at) }
{
    let start = quote_start(text, at);
    let end = start.saturating_add(LONGEST).min(text.len());
    let shown = String::from_utf8_lossy(*out.allocator(), &text[start..end])?;
    let front = left_out(start == 0);
    let behind = left_out(end == text.len());
    write!(out, "`{front}{shown}{behind}`")
}

/// Two points in place of what is left out.
fn left_out(whole: bool) -> &'static str
    ensures { result.now ≡ left_out whole }
{
    if whole { "" } else { ".." }
}

/// Where the part of a text begins that is quoted for a place.
fn quote_start(text: &[u8], at: usize) -> usize
    ensures start { result ≡ quote_start text.now at }
    ensures within { result ≤ length text.now }
{
    if text.len() <= LONGEST {
        return 0;
    }
    at.saturating_sub(LONGEST / 2).min(text.len() - LONGEST)
}

/// Appends where a word, a number or a sign stands of a text that is quoted next; of none, in which text alone.
pub(crate) fn write_token(out: &mut String, token: &[u8]) -> Result<(), AllocError> {
    if !token.is_empty() {
        out.push_str(", at ")?;
        write_quoted(out, token, 0)?;
        return out.push_str(" in ");
    }
    out.push_str(", in ")
}

/// The word, the number or the sign that stands at a place of a text; nothing at its end.
pub(crate) fn token_at(text: &[u8], at: usize) -> &[u8] {
    let Some(rest) = text.get(at..) else {
        return &[];
    };
    match rest {
        [] => &[],
        [first, ..] if first.is_ascii_digit() => numeral(rest),
        [first, ..] if is_word(*first) => word(rest),
        _ => character(rest),
    }
}

/// The number that begins a text.
fn numeral(text: &[u8]) -> &[u8] {
    let count = text
        .iter()
        .take_while(|byte| is_word(**byte) || **byte == b'.')
        .count();
    &text[..count]
}

/// The word that begins a text; nothing where none does.
pub(crate) fn word(text: &[u8]) -> &[u8]
    ensures { result.now ≡ take_while is_word text.now }
{
    text.split_at(word_len(text)).0
}

/// How many bytes of a word come first.
fn word_len(text: &[u8]) -> usize
    ensures count { result ≡ prefix_len is_word text.now }
    ensures within { result ≤ length text.now }
{
    text.iter().take_while(|byte| is_word(**byte)).count()
}

/// The character that begins a text, with the bytes of UTF-8 that go on with it; nothing of an empty text.
pub(crate) fn character(text: &[u8]) -> &[u8] {
    let count = text
        .iter()
        .skip(1)
        .take_while(|byte| (0x80..=0xBF).contains(*byte))
        .count();
    &text[..count.saturating_add(1).min(text.len())]
}

/// Appends what stands in the line with which a text begins.
pub(crate) fn write_line(told: &mut String, text: &[u8]) -> Result<(), AllocError> {
    let line = first_line(text);
    if line.is_empty() {
        return Ok(());
    }
    told.push_str(", at ")?;
    write_quoted(told, line, 0)
}

/// A text up to the end of its first line.
pub(crate) fn first_line(text: &[u8]) -> &[u8] {
    let count = text
        .iter()
        .take_while(|byte| **byte != b'\n' && **byte != b'\r')
        .count();
    &text[..count]
}
