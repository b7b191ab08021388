//! Where the lines of a drawing lead.
ghost use Rattle.std.specs.Prelude.{◌≡◌, ◌++◌, ◌∷◌, [], IfOk};

use crate::drawing::Word;
use crate::px::Px;
use std::alloc::{AllocError, Global};

/// A way of a test, by the test's number and the word at it.
#[derive(Clone, Copy)]
pub struct Way {
    pub test: u32,
    pub word: Word,
}

/// Where a line begins.
#[derive(Clone, Copy)]
pub enum Exit {
    /// Where the method begins.
    Start,
    /// Below an EVAL or an EXECUTE, by its number.
    Below(u32),
    /// At a way of a test.
    Way(Way),
}

/// Where a line leads.
#[derive(Clone, Copy)]
pub enum Entry {
    /// Into a statement, by its number.
    Into(u32),
    /// To where the method ends.
    End,
}

/// A line, by its two ends. It may share its way with others.
#[derive(Clone, Copy)]
pub struct Lead {
    pub exit: Exit,
    pub entry: Entry,
}

/// A vertical line at the right, to which branches go.
#[derive(Drop)]
pub(crate) struct Rail {
    pub x: Px,
    /// Where the first branch meets it.
    pub top: Option<Px>,
    /// Where the first branch meets it along which a run went.
    pub taken: Option<Px>,
    /// The exits whose lines have met it.
    pub exits: Vec<Exit>,
}

impl Rail {
    /// A rail that nothing meets yet.
    pub(crate) fn new(alloc: Global, x: Px) -> Rail
        ensures { result.exits.items ≡ [] }
    {
        Rail {
            x,
            top: None,
            taken: None,
            exits: Vec::new(alloc),
        }
    }
}

/// One exit alone.
pub(crate) fn one(alloc: Global, exit: Exit) -> Result<Vec<Exit>, AllocError>
    ensures { IfOk result (λ exits. exits.items ≡ exit ∷ []) }
{
    let mut exits = Vec::new(alloc);
    exits.push(exit)?;
    Ok(exits)
}

/// Exits, and others behind them.
pub(crate) fn both(exits: Vec<Exit>, others: &[Exit]) -> Result<Vec<Exit>, AllocError>
    ensures { IfOk result (λ all. all.items ≡ exits.items ++ others.now) }
{
    let mut all = exits;
    all.extend_from_slice(others)?;
    Ok(all)
}
