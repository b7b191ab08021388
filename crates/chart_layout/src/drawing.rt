//! A method's drawing: symbols and words in reading order, lines, arrowheads.
ghost use Rattle.std.specs.Prelude.{◌≡◌, []};

use crate::leads::Lead;
use crate::note::Note;
use crate::px::Px;
use crate::statement::{Call, Statement};
use std::alloc::Global;

/// The drawing of a method, in parts for print: each begins at its top and ends where the next begins, or at the height.
#[derive(Drop)]
pub struct Drawing<'a> {
    pub width: Px,
    pub height: Px,
    pub parts: Vec<Part<'a>>,
    /// Where its lines lead, in the order of what they lead to.
    pub leads: Vec<Lead>,
}

/// A part of a drawing.
#[derive(Drop)]
pub struct Part<'a> {
    pub top: Px,
    /// The symbols and words, in the order in which they are read.
    pub rows: Vec<Row<'a>>,
    pub verticals: Vec<Stroke>,
    pub horizontals: Vec<Stroke>,
    pub heads: Vec<Head>,
}

impl<'a> Part<'a> {
    /// A part in which nothing stands.
    pub(crate) fn new(alloc: Global, top: Px) -> Part<'a>
        ensures { result.rows.items ≡ [] }
    {
        Part {
            top,
            rows: Vec::new(alloc),
            verticals: Vec::new(alloc),
            horizontals: Vec::new(alloc),
            heads: Vec::new(alloc),
        }
    }
}

/// A line from one place to another of the same height, or of the same distance from the left.
#[derive(Clone, Copy)]
pub struct Stroke {
    pub x: Px,
    pub y: Px,
    /// Where it ends: its `y` if it is vertical, else its `x`.
    pub end: Px,
    /// A run went along it.
    pub is_taken: bool,
}

/// An arrowhead, by its point.
#[derive(Clone, Copy)]
pub struct Head {
    pub x: Px,
    pub y: Px,
    /// It points to the left, at a join; else down, at an entry.
    pub is_left: bool,
    /// A run came there.
    pub is_taken: bool,
}

/// A symbol or a word. `x` is the left edge, of a comment and a word the place of the text.
#[derive(Clone, Copy)]
pub enum Row<'a> {
    /// The symbol with which the method begins.
    Start {
        x: Px,
        y: Px,
        width: Px,
    },
    /// The symbol with which it ends.
    End {
        x: Px,
        y: Px,
        width: Px,
    },
    /// EVALs in a row.
    Box {
        x: Px,
        y: Px,
        width: Px,
        height: Px,
        row: &'a [Statement],
    },
    /// The test of an IF.
    Test {
        x: Px,
        y: Px,
        test: &'a Statement,
    },
    /// An EXECUTE.
    Call {
        x: Px,
        y: Px,
        call: &'a Call,
    },
    /// Comments of the file.
    Note {
        x: Px,
        y: Px,
        note: &'a Note,
    },
    /// The word at a way of a test.
    Word {
        x: Px,
        y: Px,
        /// The number of the test.
        test: u32,
        word: Word,
        anchor: Anchor,
    },
}

/// Which way of a test a line is.
#[derive(Clone, Copy, PartialEq)]
pub enum Word {
    Yes,
    No,
    YesOrNo,
}

/// Whether a word begins or ends at its place.
#[derive(Clone, Copy)]
pub enum Anchor {
    Begins,
    Ends,
}
