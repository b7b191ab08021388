//! Why a range file isn't TOML.
use crate::counting::line_start;
use crate::encoding::{is_utf16, stray_byte};
use crate::quotes::{first_line, write_quoted};
use crate::toml_lines::write_line_cause;
use std::alloc::AllocError;

/// Appends why a text isn't TOML from a byte on: what its line shows there, or else what TOML's reader says, in words of a range file.
pub(crate) fn write_cause(
    told: &mut String,
    limits: &[u8],
    at: usize,
    message: &str,
) -> Result<(), AllocError> {
    if limits.starts_with(b"<") {
        return told.push_str(", and it begins as a flowchart's file does, which comes first");
    }
    if is_utf16(limits) {
        return told.push_str(", since it is written in UTF-16: save the file in UTF-8");
    }
    if let Some(byte) = stray_byte(limits) {
        return write!(
            told,
            ", since the byte 0x{byte:02x} stands there: save the file in UTF-8"
        );
    }
    let line = line_at(limits, at);
    if message == "duplicate key" {
        told.push_str(": ")?;
        write_quoted(told, line.trim_ascii(), 0)?;
        return told.push_str(
            " stands there though its key has a value above: take one of the two out",
        );
    }
    let before = told.len();
    write_line_cause(told, line)?;
    if told.len() > before {
        return Ok(());
    }
    write_reader_words(told, message, first_line(limits.get(at..).unwrap_or(&[])))
}

/// The line of a text in which a byte stands.
fn line_at(text: &[u8], at: usize) -> &[u8] {
    let start = line_start(text.get(..at).unwrap_or(text));
    first_line(text.get(start..).unwrap_or(&[]))
}

/// Appends what TOML's reader says, in words of a range file, and what stands there.
fn write_reader_words(told: &mut String, message: &str, text: &[u8]) -> Result<(), AllocError> {
    let words = reader_words(message);
    write!(told, ": {words}")?;
    if text.is_empty() {
        return Ok(());
    }
    told.push_str(", at ")?;
    write_quoted(told, text, 0)
}

/// What TOML's reader says, in words of a range file; other words of it as they are.
fn reader_words(message: &str) -> &str {
    match message {
        "invalid key, expected letters, numbers, `-`, `_` or a quoted key" => {
            "a key, as in low = 0, or a heading, as [input.NAME], is missing"
        }
        "key with no value, expected `=`" => "no = stands behind a key, as in low = 0",
        "unclosed table, expected `]`" | "unclosed array table, expected `]]`" => {
            "a heading ends with ], as [input.NAME]"
        }
        "unexpected key or value, expected newline, `#`" => {
            "nothing stands behind a value or a heading but a comment, which begins with #"
        }
        "missing comma between array elements, expected `,` or `]`" => {
            "a list has commas between its values and ] at its end"
        }
        "missing comma between key-value pairs, expected `,` or `}`" => {
            "an entry in braces has commas between its keys and } at its end, in one line"
        }
        "invalid string" => "a text in quotation marks ends with its mark, in one line",
        "invalid escape sequence" => "a \\ stands in quotation marks: take it out",
        "invalid value, expected a string, number, boolean, date-time, array or inline table" => {
            "a value is a whole number, or stands in quotation marks, as in high = \"9.5\""
        }
        "`_` may only go between digits" => "a _ stands in a number, and not between digits",
        "number out of range" => "a number beyond 64 bits stands in quotation marks",
        "invalid date-time" => "a value begins as a date does, and a bound is a number",
        "cannot extend a value with a dotted key" => {
            "a key with a point goes on with one that has a value already: take one of the two out"
        }
        "cannot recurse further; max recursion depth met" => "there are too many open brackets",
        _ => message,
    }
}
