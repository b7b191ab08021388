//! A place in a text that moves forward, with its line and column.
ghost use Rattle.std.specs.Prelude.{◌≡◌, ◌≤◌, length};
ghost use Rattle.plain_words.specs.Positions.{begins_character, line_of, column_of};
ghost use Rattle.flowchart_findings.specs.private.PlaceViews.{IsCursor};

use plain_words::Position;

/// A byte of a text, counted from 0, and its line and column, each counted from 1.
#[derive(Clone, Copy)]
pub(crate) struct Cursor {
    pub at: usize,
    pub line: usize,
    pub column: usize,
}

impl Cursor {
    /// The first byte of a text.
    pub fn first(text: &[u8]) -> Cursor
        ensures cursor { IsCursor text.now result }
        ensures first { result.at ≡ 0 }
    {
        let _ = text;
        Cursor {
            at: 0,
            line: 1,
            column: 1,
        }
    }

    /// The cursor at a byte, which is found from this one; where this one stands behind the byte, from the text's first. Beyond the end
    /// it is at the end.
    #[tactic(auto, using(crate::proofs::CursorLemmas::line_beyond, crate::proofs::CursorLemmas::column_beyond))]
    pub fn moved_to(self, text: &[u8], at: usize) -> Cursor
        requires { IsCursor text.now self }
        ensures cursor { IsCursor text.now result }
        ensures line { result.line ≡ line_of text.now at }
        ensures column { result.column ≡ column_of text.now at }
    {
        let end = at.min(text.len());
        if self.at <= end {
            self.moved(text, end)
        } else {
            Cursor::first(text).moved(text, end)
        }
    }

    /// Its line and column.
    pub fn position(self) -> Position
        ensures line { result.line ≡ self.line }
        ensures column { result.column ≡ self.column }
    {
        Position {
            line: self.line,
            column: self.column,
        }
    }

    /// The cursor at a byte that doesn't stand before it.
    #[tactic(auto, using(crate::proofs::CursorLemmas::line_more, crate::proofs::CursorLemmas::line_same, crate::proofs::CursorLemmas::column_first, crate::proofs::CursorLemmas::column_more, crate::proofs::CursorLemmas::column_same, crate::proofs::CursorLemmas::few_lines, crate::proofs::CursorLemmas::few_columns))]
    fn moved(self, text: &[u8], end: usize) -> Cursor
        requires cursor { IsCursor text.now self }
        requires order { self.at ≤ end }
        requires within { end ≤ length text.now }
        ensures cursor { IsCursor text.now result }
        ensures at { result.at ≡ end }
    {
        let mut line = self.line;
        let mut column = self.column;
        for at in self.at..end {
            if text[at] == b'\n' {
                line += 1;
                column = 1;
            } else if begins_character(text[at]) {
                column += 1;
            }
        }
        Cursor {
            at: end,
            line,
            column,
        }
    }
}

/// Whether a character of UTF-8 begins with this byte, or it is no part of one.
fn begins_character(byte: u8) -> bool
    ensures { result ≡ begins_character byte }
{
    !(0x80..=0xBF).contains(&byte)
}
