//! Places in a text as an editor counts them.
ghost use Rattle.std.specs.Prelude.{◌≡◌, ◌+◌, ◌≤◌, length, drop};
ghost use Rattle.std.specs.List.{after_last};
ghost use Rattle.plain_words.specs.Positions.{is_line_feed, begins_character, line_of, column_of};
ghost use Rattle.plain_words.specs.Positions.{line_number, column_number};

use crate::place::Position;

/// The place of a byte in a text. A byte beyond the end has the place of the end.
pub fn position(text: &[u8], at: usize) -> Position
    ensures line { result.line ≡ line_of text.now at }
    ensures column { result.column ≡ column_of text.now at }
{
    let before = &text[..at.min(text.len())];
    Position {
        line: line_number(before),
        column: column_number(before),
    }
}

/// The line behind some bytes.
pub(crate) fn line_number(before: &[u8]) -> usize
    ensures { result ≡ line_number before.now }
{
    before.iter().filter(|byte| is_line_feed(**byte)).count() + 1
}

/// The column behind some bytes.
fn column_number(before: &[u8]) -> usize
    ensures { result ≡ column_number before.now }
{
    let line = &before[line_start(before)..];
    line.iter().filter(|byte| begins_character(**byte)).count() + 1
}

/// Where the last line of some bytes begins.
pub(crate) fn line_start(before: &[u8]) -> usize
    ensures within { result ≤ length before.now }
    ensures start { drop result before.now ≡ after_last is_line_feed before.now }
{
    let mut start = 0;
    for (i, byte) in before.iter().enumerate() {
        if is_line_feed(*byte) {
            start = i + 1;
        }
    }
    start
}

fn is_line_feed(byte: u8) -> bool
    ensures { result ≡ is_line_feed byte }
{
    byte == b'\n'
}

/// Whether a character of UTF-8 begins with this byte, or it is no part of one.
fn begins_character(byte: u8) -> bool
    ensures { result ≡ begins_character byte }
{
    !(0x80..=0xBF).contains(&byte)
}
