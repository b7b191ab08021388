//! Texts for a terminal: one line without control characters, whatever a file has.
ghost use Rattle.std.specs.Prelude.{◌≡◌, IfOk};
ghost use Rattle.std.specs.String.{string_bytes};
ghost use Rattle.plain_words.specs.Lines.{is_shown, shown_char, shown_text, IsOneLine};

use std::alloc::{AllocError, Global};

/// The text with a space for each tab and line end, and with `?` for each other character that isn't printable ASCII or of
/// Latin script.
pub fn one_line(alloc: Global, text: &str) -> Result<String, AllocError>
    ensures text { IfOk result (λ line. string_bytes line ≡ shown_text text.now) }
    ensures shown { IfOk result (λ line. IsOneLine (string_bytes line)) }
{
    let mut line = String::new(alloc);
    for c in text.chars() {
        line.push(shown(c))?;
    }
    Ok(line)
}

/// What is shown of a character.
fn shown(c: char) -> char
    ensures { result ≡ shown_char c }
{
    if is_shown(c) {
        c
    } else if c == '\t' || c == '\n' || c == '\r' {
        ' '
    } else {
        '?'
    }
}

fn is_shown(c: char) -> bool
    ensures { result ≡ is_shown c }
{
    (' '..='~').contains(&c) || ('\u{A1}'..='\u{24F}').contains(&c)
}
