//! The lines of a range file's entries and of their keys.
ghost use Rattle.std.specs.Prelude.{◌⊎◌, IfSome, IsTrue};
ghost use Rattle.plain_words.specs.Lines.{EndsWith};
ghost use Rattle.plain_words.specs.EntryPlaces.{HasWord, IsLineWith};

use crate::file_lines::{begins_line, behind_word, line_at, trimmed, without};
use pap_tree::is_word;
use range_faults::Section;

/// In which table of a range file a line stands.
#[derive(Clone, Copy)]
enum Within {
    /// In none: before all headings.
    File,
    /// In the table of a section, as below `[input]`.
    Section,
    /// In that of an entry, as below `[input.RE4]`.
    Entry,
    /// In another table.
    Other,
}

/// The byte of an entry: of its heading, as `[input.RE4]`, `[input."R 4"]` or `[[input.RE4]]`, of its line below the heading `[input]`,
/// or of its line `input.RE4 = ..` before all headings.
pub(crate) fn entry_byte(limits: &[u8], section: Section, entry: &str) -> Option<usize>
    ensures { IfSome result (λ at. IsLineWith limits.now entry.now at) }
{
    let name = section.name().as_bytes();
    let entry = entry.as_bytes();
    let mut within = Within::File;
    for at in 0..limits.len() {
        if begins_line(limits, at) {
            let line = line_at(limits, at);
            if is_entry_line(line, within, name, entry) {
                return Some(at);
            }
            within = within_after(line, within, name, entry);
        }
    }
    None
}

/// The byte of the line of a key of an entry; where it has no line of its own, that of the entry.
pub(crate) fn key_byte(limits: &[u8], section: Section, entry: &str, key: &str) -> Option<usize>
    ensures { IfSome result (λ at. IsLineWith limits.now key.now at ⊎ IsLineWith limits.now entry.now at) }
{
    match own_line(limits, section, entry, key) {
        Some(at) => Some(at),
        None => entry_byte(limits, section, entry),
    }
}

/// The byte of a key's own line: below the heading of its entry, or `RE4.low = ..` and `input.RE4.low = ..` above.
fn own_line(limits: &[u8], section: Section, entry: &str, key: &str) -> Option<usize>
    ensures { IfSome result (λ at. IsLineWith limits.now key.now at) }
{
    let name = section.name().as_bytes();
    let entry = entry.as_bytes();
    let key = key.as_bytes();
    let mut within = Within::File;
    for at in 0..limits.len() {
        if begins_line(limits, at) {
            let line = line_at(limits, at);
            if is_key_line(line, within, name, entry, key) {
                return Some(at);
            }
            within = within_after(line, within, name, entry);
        }
    }
    None
}

/// Whether a line names an entry.
fn is_entry_line(line: &[u8], within: Within, section: &[u8], entry: &[u8]) -> bool
    ensures { IsTrue result → HasWord line.now entry.now }
{
    match behind_entry(line, within, section, entry) {
        Some(_) => true,
        None => false,
    }
}

/// Whether a line is that of a key of an entry.
fn is_key_line(line: &[u8], within: Within, section: &[u8], entry: &[u8], key: &[u8]) -> bool
    ensures { IsTrue result → HasWord line.now key.now }
{
    match inner_key(line, within, section, entry) {
        Some(inner) => begins_with_key(inner, key),
        None => false,
    }
}

/// What a line has from a key of an entry on, if it has one.
fn inner_key<'a>(line: &'a [u8], within: Within, section: &[u8], entry: &[u8]) -> Option<&'a [u8]>
    ensures { IfSome result (λ inner. EndsWith inner.now line.now) }
{
    if let Within::Entry = within
        && !line.starts_with(b"[")
    {
        return Some(line);
    }
    match behind_entry(line, within, section, entry) {
        Some(rest) => behind_word(rest, b"."),
        None => None,
    }
}

/// What stands in a line behind the name of an entry, if the line has that where an entry is named.
fn behind_entry<'a>(
    line: &'a [u8],
    within: Within,
    section: &[u8],
    entry: &[u8],
) -> Option<&'a [u8]>
    ensures has { IfSome result (λ rest. HasWord line.now entry.now) }
    ensures tail { IfSome result (λ rest. EndsWith rest.now line.now) }
{
    match entry_key(line, within, section) {
        Some(key) => behind_key(key, entry),
        None => None,
    }
}

/// What a line has from the key of an entry of a section on, if it has one.
fn entry_key<'a>(line: &'a [u8], within: Within, section: &[u8]) -> Option<&'a [u8]>
    ensures { IfSome result (λ key. EndsWith key.now line.now) }
{
    match (behind_word(line, b"["), within) {
        (Some(heading), _) => behind_section(trimmed(without(heading, b"[")), section),
        (None, Within::File) => behind_section(line, section),
        (None, Within::Section) => Some(line),
        (None, Within::Entry | Within::Other) => None,
    }
}

/// What stands behind the name of a section and a point, if a text begins with these.
fn behind_section<'a>(text: &'a [u8], section: &[u8]) -> Option<&'a [u8]>
    ensures { IfSome result (λ rest. EndsWith rest.now text.now) }
{
    match behind_word(text, section) {
        Some(rest) => behind_word(rest, b"."),
        None => None,
    }
}

/// In which table the next line stands.
fn within_after(line: &[u8], within: Within, section: &[u8], entry: &[u8]) -> Within {
    let Some(heading) = line.strip_prefix(b"[") else {
        return within;
    };
    match heading.trim_ascii_start().strip_prefix(section) {
        Some(rest) if rest.trim_ascii_start().starts_with(b"]") => Within::Section,
        Some(rest) if names_entry(rest, entry) => Within::Entry,
        _ => Within::Other,
    }
}

/// Whether a heading behind the name of its section is that of an entry: `.RE4]`.
fn names_entry(rest: &[u8], entry: &[u8]) -> bool {
    let Some(key) = rest.strip_prefix(b".") else {
        return false;
    };
    match behind_key(key, entry) {
        Some(end) => end.trim_ascii_start().starts_with(b"]"),
        None => false,
    }
}

/// Whether a text begins with a key, in quotation marks or without.
fn begins_with_key(text: &[u8], key: &[u8]) -> bool
    ensures { IsTrue result → HasWord text.now key.now }
{
    match behind_key(text, key) {
        Some(_) => true,
        None => false,
    }
}

/// What stands behind a key with which a text begins, in quotation marks or without. `None` where it begins with no such key.
fn behind_key<'a>(text: &'a [u8], key: &[u8]) -> Option<&'a [u8]>
    ensures has { IfSome result (λ rest. HasWord text.now key.now) }
    ensures tail { IfSome result (λ rest. EndsWith rest.now text.now) }
{
    if text.starts_with(b"\"") {
        return behind_quoted(text, key, b"\"");
    }
    if text.starts_with(b"'") {
        return behind_quoted(text, key, b"'");
    }
    behind_bare(text, key)
}

/// What stands behind a key between two of these marks, if a text begins with that.
fn behind_quoted<'a>(text: &'a [u8], key: &[u8], mark: &[u8]) -> Option<&'a [u8]>
    ensures has { IfSome result (λ rest. HasWord text.now key.now) }
    ensures tail { IfSome result (λ rest. EndsWith rest.now text.now) }
{
    match behind_word(without(text, mark), key) {
        Some(rest) => behind_word(rest, mark),
        None => None,
    }
}

/// What stands behind a key without quotation marks, if a text begins with it.
fn behind_bare<'a>(text: &'a [u8], key: &[u8]) -> Option<&'a [u8]>
    ensures has { IfSome result (λ rest. HasWord text.now key.now) }
    ensures tail { IfSome result (λ rest. EndsWith rest.now text.now) }
{
    match behind_word(text, key) {
        Some(rest) if !begins_in_key(rest) => Some(rest),
        _ => None,
    }
}

/// Whether a text begins with a byte that a key without quotation marks may have.
fn begins_in_key(text: &[u8]) -> bool {
    match text {
        [first, ..] => is_word(*first) || *first == b'-',
        [] => false,
    }
}

/// The byte at which the first line does that begins with a key of the range file itself, as `[inputs.RE4]` does with `inputs`,
/// or `other = 1` with `other`.
pub(crate) fn section_byte(limits: &[u8], key: &str) -> Option<usize>
    ensures { IfSome result (λ at. IsLineWith limits.now key.now at) }
{
    let key = key.as_bytes();
    for at in 0..limits.len() {
        if begins_line(limits, at) {
            let line = line_at(limits, at);
            let heading = without(line, b"[");
            let text = without(heading, b"[");
            if begins_with_key(text, key) {
                return Some(at);
            }
        }
    }
    None
}
