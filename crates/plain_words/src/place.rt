//! Files as the words of the program name them, and places in them.
ghost use Rattle.std.specs.Prelude.{◌≡◌, IfOk};
ghost use Rattle.std.specs.String.{string_bytes};
ghost use Rattle.plain_words.specs.Places.{named_text, place_text};

use crate::position;
use std::alloc::{AllocError, Global};
use std::fmt;

/// A file as it was named, and the bytes that were read of it.
#[derive(Clone, Copy)]
pub struct TextFile<'a> {
    /// Its name as the words or a line give it.
    pub name: &'a str,
    /// What was read of it.
    pub bytes: &'a [u8],
}

/// A place in a text: line and column, each counted from 1. Columns count characters, not bytes.
#[derive(Clone, Copy, Debug, PartialEq, Eq)]
pub struct Position {
    /// The line, counted from 1.
    pub line: usize,
    /// The character in the line, counted from 1.
    pub column: usize,
}

impl fmt::Display for Position {
    ghost use Rattle.std.specs.Prelude.{Some};
    ghost use Rattle.plain_words.specs.Positions.{position_text};

    ghost output = { λ place. Some (position_text place.line place.column) };

    /// `3:9`.
    fn fmt<W: fmt::Write>(&self, f: &mut fmt::Formatter<W>) -> fmt::Result {
        let line = self.line;
        let column = self.column;
        write!(f, "{line}:{column}")
    }
}

/// The place of a byte in a file, as `plan.xml:3:9`; without a byte the file as a whole.
pub(crate) fn place_text(
    alloc: Global,
    file: TextFile<'_>,
    at: Option<usize>,
) -> Result<String, AllocError>
    ensures { IfOk result
        (λ text. string_bytes text ≡ place_text (named_text file.entry) at) }
{
    let name = file.name;
    match at {
        Some(at) => {
            let position = position(file.bytes, at);
            format!(in alloc; "{name}:{position}")
        }
        None => format!(in alloc; "{name}"),
    }
}
