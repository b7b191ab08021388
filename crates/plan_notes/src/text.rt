//! Texts of a file in one line.
ghost use Rattle.std.specs.Prelude.{◌≡◌, ◌++◌, IfOk, OnOk, string_bytes, encode_utf8, encode_utf8_all};
ghost use Rattle.std.specs.Str.{chars};
ghost use Rattle.plan_notes.specs.Lines.{is_blank, spaced_words, line_text};
ghost use Rattle.plan_notes.specs.private.LineViews.{gap_text};

use std::alloc::{AllocError, Global};

/// A text in one line: white space and control characters are one space, none stands at its ends, and bytes that aren't
/// UTF-8 are U+FFFD.
pub fn one_line(alloc: Global, bytes: &[u8]) -> Result<String, AllocError>
    ensures { IfOk result (λ line. string_bytes line ≡ line_text bytes.now) }
{
    let text = String::from_utf8_lossy(alloc, bytes)?;
    spaced(alloc, text.as_str())
}

/// The words of a text, with a space between two of them.
fn spaced(alloc: Global, text: &str) -> Result<String, AllocError>
    ensures { IfOk result (λ line.
        string_bytes line ≡ encode_utf8_all (spaced_words (chars text.now))) }
{
    let mut line = String::new(alloc);
    let mut is_gap = false;
    for c in text.chars() {
        if is_blank(c) {
            is_gap = !line.is_empty();
        } else {
            push_behind(&mut line, is_gap, c)?;
            is_gap = false;
        }
    }
    Ok(line)
}

/// Appends a character of a word, behind a space where there is a gap.
fn push_behind(line: &mut String, is_gap: bool, c: char) -> Result<(), AllocError>
    ensures { OnOk result (string_bytes line.new
        ≡ string_bytes line.old ++ (encode_utf8_all (gap_text is_gap) ++ encode_utf8 c)) }
{
    if is_gap {
        line.push(' ')?;
    }
    line.push(c)
}

/// Whether a character is shown as a space: a space or a control character.
fn is_blank(c: char) -> bool
    ensures { result ≡ is_blank c }
{
    c <= ' ' || ('\u{7F}'..='\u{A0}').contains(&c) || c == '\u{2028}' || c == '\u{2029}'
}
