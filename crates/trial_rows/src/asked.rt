//! What a row asks, written out.
use std::test::Fail;

/// Appends what a row asks: its parts, between which ` ~ ` stands, once each. A part that begins
/// with `N x ` is appended N times, `{n}` being the number of the time. `\n` is the end of a line.
pub(crate) fn write_asked(asked: &str, text: &mut String) -> Result<(), Fail> {
    for part in asked.split(" ~ ") {
        write_part(part, text)?;
    }
    Ok(())
}

/// Appends a part as often as it says.
fn write_part(part: &str, text: &mut String) -> Result<(), Fail> {
    if let Some((times, piece)) = part.split_once(" x ") {
        if let Ok(times) = times.parse::<u32>() {
            return write_times(times, piece, text);
        }
    }
    write_piece(part, text)
}

/// Appends a piece so many times.
fn write_times(times: u32, piece: &str, text: &mut String) -> Result<(), Fail> {
    for number in 0..times {
        write_numbered(number, piece, text)?;
    }
    Ok(())
}

/// Appends a piece with three digits of a number in each `{n}`.
fn write_numbered(number: u32, piece: &str, text: &mut String) -> Result<(), Fail> {
    let mut is_first = true;
    for part in piece.split("{n}") {
        if !is_first {
            write!(text, "{number:03}")?;
        }
        is_first = false;
        write_piece(part, text)?;
    }
    Ok(())
}

/// Appends a piece with the ends of its lines.
fn write_piece(piece: &str, text: &mut String) -> Result<(), Fail> {
    let mut is_first = true;
    for line in piece.split("\\n") {
        if !is_first {
            text.push('\n')?;
        }
        is_first = false;
        text.push_str(line)?;
    }
    Ok(())
}
