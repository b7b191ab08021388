//! The lines of a text.
use crate::measures::INDENT;
use crate::pieces::{CALL, Piece, Weight};
use crate::px::Px;
use std::alloc::{AllocError, Global};

/// A line of a text: its pieces from the first on, before the last, and how far it is indented, in characters.
#[derive(Clone, Copy)]
pub struct Line {
    pub first: usize,
    pub last: usize,
    pub indent: usize,
    /// How many characters stand behind the indent.
    pub chars: usize,
}

impl Line {
    /// How far it is indented.
    pub fn left(&self) -> Px {
        INDENT.times(self.indent)
    }
}

/// How many characters lines have room for.
#[derive(Clone, Copy)]
pub(crate) struct Room {
    /// In the first line, beside the statement's place.
    pub first: usize,
    /// In the others.
    pub other: usize,
}

/// The lines of a text. Takes time linear in the text: for each line at most its room is looked at.
pub(crate) fn break_lines(
    alloc: Global,
    pieces: &[Piece],
    room: Room,
) -> Result<Vec<Line>, AllocError> {
    let mut lines = Vec::new(alloc);
    let mut first = 0;
    for _ in 0..pieces.len() {
        let Some(line) = next_line(pieces, first, room) else {
            break;
        };
        first = line.last;
        lines.push(line)?;
    }
    Ok(lines)
}

/// The line that begins with the piece of a number, if there is that piece.
fn next_line(pieces: &[Piece], first: usize, room: Room) -> Option<Line> {
    let rest = pieces.get(first..)?;
    let begin = rest.first()?;
    let indent = if first == 0 { 0 } else { indent_of(begin) };
    let width = if first == 0 {
        room.first
    } else {
        room.other.saturating_sub(indent)
    };
    let count = line_length(rest, width);
    Some(Line {
        first,
        last: first.saturating_add(count),
        indent,
        chars: chars_of(rest.get(..count).unwrap_or(&[])),
    })
}

/// How far a line is indented that begins with a piece: 4, and 2 for each of at most 6 open brackets.
fn indent_of(piece: &Piece) -> usize {
    piece.brackets.min(6) * 2 + 4
}

/// How many characters pieces have as one line.
fn chars_of(pieces: &[Piece]) -> usize {
    let mut chars: usize = 0;
    for (i, piece) in pieces.iter().enumerate() {
        chars = chars.saturating_add(width_of(piece, i));
    }
    chars
}

/// How many characters a piece takes, with the space before it where it isn't the first of its line.
fn width_of(piece: &Piece, number: usize) -> usize {
    piece
        .chars
        .saturating_add(usize::from(number > 0 && piece.is_spaced))
}

/// How many of the pieces stand in the first line: all where they fit; else those before the last of the least weighty breaks,
/// or before the first break where none fits.
fn line_length(pieces: &[Piece], room: usize) -> usize {
    let mut best: Option<(Weight, usize)> = None;
    let mut chars: usize = 0;
    for (i, piece) in pieces.iter().enumerate() {
        let fits = chars <= room;
        if let (Some((_, at)), false) = (best, fits) {
            return at;
        }
        if let Some(weight) = piece.cut
            && i > 0
            && may_break(weight, chars, room)
            && is_no_worse(weight, best)
        {
            best = Some((weight, i));
        }
        chars = chars.saturating_add(width_of(piece, i));
    }
    match best {
        Some((_, at)) if chars > room => at,
        _ => pieces.len(),
    }
}

/// Whether a line may end after some characters: one before a call has at least a quarter of its room.
fn may_break(weight: Weight, chars: usize, room: usize) -> bool {
    weight.tightness != CALL || chars >= room / 4
}

/// Whether a break is no weightier than the best before it.
fn is_no_worse(weight: Weight, best: Option<(Weight, usize)>) -> bool {
    match best {
        Some((least, _)) => weight <= least,
        None => true,
    }
}
