//! Statements with their texts in lines.
ghost use Rattle.std.specs.Prelude.{◌≡◌, IfOk};
ghost use Rattle.chart_layout.specs.Drawn.{drawn, drawn_statement, drawn_call};

use crate::lines::{Line, Room, break_lines};
use crate::measures::{
    BENEATH_INDENT, BOX_SIDE, CALL_SIDE, CODE_CHAR, LINE_HEIGHT, PLACE_CHAR, PLACE_GAP, TEST_SIDE,
    TEXT_DROP,
};
use crate::passage::Passage;
use crate::pieces::{Piece, read_pieces};
use crate::px::{Px, tenths};
use pap_tree::Name;
use std::alloc::{AllocError, Global};

/// A text in lines.
#[derive(Drop)]
pub struct Written {
    pub text: Vec<u8>,
    pub pieces: Vec<Piece>,
    pub lines: Vec<Line>,
}

/// An EVAL or the test of an IF.
#[derive(Drop)]
pub struct Statement {
    /// Its number in its method.
    pub number: u32,
    /// It is the one for which the plan is refused.
    pub is_refused: bool,
    pub written: Written,
    /// How many lines stand below its text.
    pub beneath: usize,
    /// The width of its text with its place.
    width: Px,
}

/// An EXECUTE.
#[derive(Clone, Copy)]
pub struct Call {
    /// Its number in its method.
    pub number: u32,
    /// It is the one for which the plan is refused.
    pub is_refused: bool,
    /// The method that is executed.
    pub method: Name,
    /// The width of its box.
    width: Px,
}

/// A statement's number with what its place is written with.
#[derive(Clone, Copy)]
pub(crate) struct Site {
    pub number: u32,
    pub is_refused: bool,
    /// How many characters its place has, as `refused TARIFF:2`.
    pub chars: usize,
    /// What a run did there.
    pub passage: Passage,
}

impl Statement {
    /// A statement of a text, of which a line may take some room.
    pub(crate) fn new(
        alloc: Global,
        site: Site,
        text: Vec<u8>,
        room: Px,
    ) -> Result<Statement, AllocError>
        ensures { IfOk result (λ s. drawn_statement s ≡ drawn site.number site.is_refused text.items) }
    {
        let beside = beside_place(site.chars);
        let room = Room {
            first: chars_in(room.tenths().saturating_sub(beside)),
            other: chars_in(room.tenths()),
        };
        let pieces = read_pieces(alloc, &text)?;
        let lines = break_lines(alloc, &pieces, room)?;
        let below = tenths(site.passage.chars, CODE_CHAR);
        let width = text_width(&lines, beside).max(Px::of_tenths(below) + BENEATH_INDENT);
        Ok(Statement {
            number: site.number,
            is_refused: site.is_refused,
            written: Written {
                text,
                pieces,
                lines,
            },
            beneath: site.passage.lines,
            width,
        })
    }

    /// The height of the lines of its text, of an empty text of one.
    pub fn text_height(&self) -> Px {
        LINE_HEIGHT.times(self.written.lines.len().max(1))
    }

    /// The height of its lines, with those below its text.
    pub fn height(&self) -> Px {
        self.text_height() + LINE_HEIGHT.times(self.beneath)
    }

    /// The width of a box in which it stands alone.
    pub(crate) fn box_width(&self) -> Px {
        (self.width + BOX_SIDE + BOX_SIDE).symbol_width()
    }

    /// The width of its hexagon, where it is a test.
    pub fn test_width(&self) -> Px {
        (self.width + TEST_SIDE + TEST_SIDE).symbol_width()
    }

    /// The height of its hexagon.
    pub fn test_height(&self) -> Px {
        self.height() + TEXT_DROP + TEXT_DROP
    }
}

impl Call {
    /// An EXECUTE of a method.
    pub(crate) fn new(site: Site, method: Name) -> Call
        ensures { drawn_call result ≡ drawn site.number site.is_refused method }
    {
        let name = tenths(method.bytes().len(), CODE_CHAR);
        let names = Px::of_tenths(name.saturating_add(tenths(site.chars, PLACE_CHAR)));
        Call {
            number: site.number,
            is_refused: site.is_refused,
            method,
            width: (names + PLACE_GAP + CALL_SIDE + CALL_SIDE).symbol_width(),
        }
    }

    /// The width of its box, which has the method's name and the place side by side.
    pub fn width(&self) -> Px {
        self.width
    }
}

/// How many tenths of a px a place of some characters takes in a statement's first line.
fn beside_place(chars: usize) -> u32 {
    tenths(chars, PLACE_CHAR).saturating_add(PLACE_GAP.tenths())
}

/// How many characters have room in tenths of a px.
fn chars_in(room: u32) -> usize {
    (room / CODE_CHAR) as usize
}

/// The width of lines, the first of which has a place beside it.
fn text_width(lines: &[Line], beside: u32) -> Px {
    let mut widest = 0;
    for (i, line) in lines.iter().enumerate() {
        let width = tenths(line.chars, CODE_CHAR).saturating_add(line.left().tenths());
        let width = if i == 0 {
            width.saturating_add(beside)
        } else {
            width
        };
        widest = width.max(widest);
    }
    Px::of_tenths(widest)
}
