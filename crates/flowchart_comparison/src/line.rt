//! A line of a method.
ghost use Rattle.std.specs.Prelude.{◌≡◌, map};
ghost use Rattle.flowchart_comparison.specs.Outlines.{statement, mark};

use std::marker::Model;

/// A line of a method: an assignment, an IF with its test, ELSE, the end of an IF, or an EXECUTE. Expressions have their canonical
/// spelling, so layout and comments make no difference.
#[derive(Drop)]
pub struct Line {
    number: Option<usize>,
    text: Vec<u8>,
}

impl Model for Line {
    ghost use Rattle.flowchart_comparison.specs.Outlines.{TextLine};

    ghost Value = { TextLine };

    ghost view = { λ l. record { number = l.number; text = l.text.items } };
}

impl Line {
    /// The line of the statement of a number. Other texts are aligned as such lines too, each by its number among them.
    pub fn statement(number: usize, text: Vec<u8>) -> Line
        ensures { result ≡ statement number text.items }
    {
        Line {
            number: Some(number),
            text,
        }
    }

    /// A line that begins no statement.
    pub(crate) fn mark(text: Vec<u8>) -> Line
        ensures { result ≡ mark text.items }
    {
        Line { number: None, text }
    }

    /// The number of the statement that begins here, from 0 in the order of the method's text. ELSE and END IF have none.
    pub fn number(&self) -> Option<usize>
        ensures { result ≡ self.now.number }
    {
        self.number
    }

    /// The text.
    pub fn text(&self) -> &[u8]
        ensures { result.now ≡ self.now.text }
    {
        &self.text
    }
}
