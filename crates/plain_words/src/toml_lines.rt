//! Why a line of a range file isn't TOML, as far as the line shows it.
use crate::quotes::write_quoted;
use pap_tree::is_word;
use std::alloc::AllocError;

/// Appends why a line isn't TOML and what to write, where that shows.
pub(crate) fn write_line_cause(told: &mut String, line: &[u8]) -> Result<(), AllocError> {
    let line = line.trim_ascii();
    if begins_comment(line) {
        return told.push_str(": a comment begins with #");
    }
    if line.starts_with(b"[") {
        return told.push_str(heading_cause(before_comment(line).trim_ascii_end()));
    }
    let Some(equals) = line.iter().position(|byte| *byte == b'=') else {
        return write_unset_cause(told, line);
    };
    let key = line.get(..equals).unwrap_or(&[]);
    let value = line.get(equals.saturating_add(1)..).unwrap_or(&[]);
    write_value_cause(told, key.trim_ascii_end(), value.trim_ascii_start())
}

/// Why a heading isn't one, where that shows, else nothing.
fn heading_cause(line: &[u8]) -> &'static str {
    let Some(end) = line.iter().position(|byte| *byte == b']') else {
        return ": a heading ends with ], as [input.NAME]";
    };
    if line.starts_with(b"[[") || line.ends_with(b"]]") {
        return ": a heading stands in single brackets, as [input.NAME]";
    }
    if end.saturating_add(1) < line.len() {
        return ": nothing stands behind a heading, and its keys have lines of their own";
    }
    if !line.contains(&b'.') {
        return ": a heading has a point before the name of its entry, as [input.NAME]";
    }
    ""
}

/// Appends that a line has a key without `=`, where it begins with a key.
fn write_unset_cause(told: &mut String, line: &[u8]) -> Result<(), AllocError> {
    let count = line.iter().take_while(|byte| is_word(**byte)).count();
    let (key, rest) = line.split_at(count);
    if key.is_empty() {
        return Ok(());
    }
    told.push_str(if rest.trim_ascii_start().starts_with(b":") {
        ": a : stands in place of = behind the key "
    } else {
        ": no = stands behind the key "
    })?;
    write_quoted(told, key, 0)?;
    told.push_str(", as in low = 0")
}

/// Appends why the value of a key isn't one, where that shows.
fn write_value_cause(told: &mut String, key: &[u8], value: &[u8]) -> Result<(), AllocError> {
    if value.is_empty() || value.starts_with(b"#") {
        return told.push_str(": no value stands behind =, as 0 does in low = 0");
    }
    if has_curly_quote(value) {
        return told.push_str(": quotation marks are straight ones, as in high = \"9.5\"");
    }
    if value.starts_with(b"\"") || value.starts_with(b"'") {
        return write_quote_cause(told, value);
    }
    write_bare_cause(told, key, before_comment(value).trim_ascii_end())
}

/// Appends why a text in quotation marks isn't a value, where that shows.
fn write_quote_cause(told: &mut String, value: &[u8]) -> Result<(), AllocError> {
    let mark = value.first().copied().unwrap_or(b'"');
    let inner = value.get(1..).unwrap_or(&[]);
    let Some(end) = inner.iter().position(|byte| *byte == mark) else {
        return told.push_str(": the closing quotation mark is missing");
    };
    let behind = inner.get(end.saturating_add(1)..).unwrap_or(&[]);
    told.push_str(rest_cause(before_comment(behind).trim_ascii()))
}

/// Why a text can't stand behind a value, else nothing.
fn rest_cause(rest: &[u8]) -> &'static str {
    match rest {
        [] => "",
        b";" => ": no ; stands behind a value",
        _ if begins_comment(rest) => ": a comment begins with #",
        _ if rest.contains(&b'=') => ": each key has a line of its own",
        _ => ": nothing stands behind a value but a comment, which begins with #",
    }
}

/// A value up to where a comment begins.
fn before_comment(value: &[u8]) -> &[u8] {
    let count = value.iter().take_while(|byte| **byte != b'#').count();
    &value[..count]
}

/// Appends why a number or a word without quotation marks isn't a value, where that shows.
fn write_bare_cause(told: &mut String, key: &[u8], value: &[u8]) -> Result<(), AllocError> {
    if has_decimal_comma(value) {
        return told.push_str(
            ": a decimal stands in quotation marks with a point, as high = \"9.5\"",
        );
    }
    let digits = value.strip_prefix(b"-").unwrap_or(value);
    match digits {
        [b'{', ..] if !value.contains(&b'}') => {
            told.push_str(": an entry in braces ends with } in its line")
        }
        [first, ..] if first.is_ascii_digit() => told.push_str(number_cause(digits)),
        [first, ..] if is_word(*first) && !is_boolean(value) => write_word_cause(told, key, value),
        _ => Ok(()),
    }
}

/// Why a number without its sign isn't a value, where that shows, else nothing.
fn number_cause(digits: &[u8]) -> &'static str {
    if has_gap(digits) {
        return ": a number has no blanks between its digits";
    }
    if has_leading_zero(digits) {
        return ": a number has no zeros before its other digits";
    }
    let count = digits
        .iter()
        .take_while(|byte| byte.is_ascii_digit() || **byte == b'.')
        .count();
    let (number, rest) = digits.split_at(count);
    match rest {
        [b' ' | b'\t' | b',' | b';' | b'/', ..] => rest_cause(rest.trim_ascii()),
        [] if number.len() > 18 && !number.contains(&b'.') => {
            ": a number beyond 64 bits stands in quotation marks"
        }
        _ => "",
    }
}

/// Appends that a word stands in quotation marks.
fn write_word_cause(told: &mut String, key: &[u8], value: &[u8]) -> Result<(), AllocError> {
    let alloc = *told.allocator();
    let count = value.iter().take_while(|byte| is_word(**byte)).count();
    let word = String::from_utf8_lossy(alloc, &value[..count])?;
    let key = String::from_utf8_lossy(alloc, key)?;
    write!(
        told,
        ": a word stands in quotation marks, {key} = \"{word}\""
    )
}

/// Whether a number begins with a zero and another digit.
fn has_leading_zero(digits: &[u8]) -> bool {
    match digits {
        [b'0', second, ..] => second.is_ascii_digit(),
        _ => false,
    }
}

/// Whether a value is one of the two words that TOML has.
fn is_boolean(value: &[u8]) -> bool {
    matches!(value, b"true" | b"false")
}

/// Whether a text has a comma between two digits.
fn has_decimal_comma(text: &[u8]) -> bool {
    for i in 0..text.len() {
        if begins_with_decimal(&text[i..]) {
            return true;
        }
    }
    false
}

/// Whether a text has a blank between two digits.
fn has_gap(text: &[u8]) -> bool {
    for i in 0..text.len() {
        if begins_with_gap(&text[i..]) {
            return true;
        }
    }
    false
}

/// Whether a text begins with a sign that begins comments elsewhere.
fn begins_comment(text: &[u8]) -> bool {
    text.starts_with(b";") || text.starts_with(b"//")
}

/// Whether a text begins with a digit, a comma and a digit.
fn begins_with_decimal(text: &[u8]) -> bool {
    match text {
        [first, b',', second, ..] => first.is_ascii_digit() && second.is_ascii_digit(),
        _ => false,
    }
}

/// Whether a text begins with a digit, a blank and a digit.
fn begins_with_gap(text: &[u8]) -> bool {
    match text {
        [first, b' ', second, ..] => first.is_ascii_digit() && second.is_ascii_digit(),
        _ => false,
    }
}

/// Whether a text has a quotation mark of print: U+2018 to U+201F, or one of the marks U+00AB and U+00BB.
fn has_curly_quote(text: &[u8]) -> bool {
    for i in 0..text.len() {
        match &text[i..] {
            [0xE2, 0x80, 0x98..=0x9F, ..] | [0xC2, 0xAB | 0xBB, ..] => return true,
            _ => {}
        }
    }
    false
}
