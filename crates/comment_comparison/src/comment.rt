//! A comment of a plan's file.
ghost use Rattle.std.specs.Prelude.{◌≡◌, string_bytes};
ghost use Rattle.comment_comparison.specs.Comments.{line_comment};

use std::marker::Model;

/// A comment of a plan's file, by the line on which it begins and its text.
#[derive(Drop)]
pub struct Comment {
    line: usize,
    text: String,
}

impl Model for Comment {
    ghost use Rattle.std.specs.Prelude.{string_bytes};
    ghost use Rattle.comment_comparison.specs.Comments.{LineComment};

    ghost Value = { LineComment };

    ghost view = { λ c. record { line = c.line; text = string_bytes c.text } };
}

impl Comment {
    /// A comment that begins on a line.
    pub(crate) fn new(line: usize, text: String) -> Comment
        ensures { result ≡ line_comment line (string_bytes text) }
    {
        Comment { line, text }
    }

    /// The line on which it begins, counted from 1.
    pub fn line(&self) -> usize
        ensures { result ≡ self.now.line }
    {
        self.line
    }

    /// What stands between `<!--` and `-->`, in one line: white space and control characters are one space, none stands at its ends,
    /// and bytes that aren't UTF-8 are U+FFFD.
    pub fn text(&self) -> &str
        ensures { result.now ≡ self.now.text }
    {
        self.text.as_str()
    }
}
