//! What the lines of a script have made so far.
ghost use Rattle.std.specs.Prelude.{◌≡◌};
ghost use Rattle.script_steps.specs.Standings.{first_standing};

use correction_ledger::Ledger;
use recalc_engine::{Book, Work};
use script_lang::NameOrder;
use std::alloc::Global;
use std::marker::Model;

/// What the lines of a script have made so far: a book, what was filed of it, and the work of all edits that were accepted.
#[derive(Drop)]
pub struct Script {
    pub(crate) book: Book,
    pub(crate) ledger: Ledger,
    pub(crate) made: Work,
    /// The order of the names in the last line that gave values, by which the next line is read faster. No answer depends on it.
    pub(crate) order: Option<NameOrder>,
}

impl Model for Script {
    ghost use Rattle.std.specs.Coded.{codes};
    ghost use Rattle.recalc_engine.specs.Codes.{body_code};
    ghost use Rattle.script_steps.specs.Standings.{Standing};

    ghost Value = { Standing };

    ghost coded = { Prim.hlevel (
      codes,
      body_code (Prim.hlevel codes) (Prim.hlevel codes) (Prim.hlevel codes),
    ) };

    ghost view = { λ s. record { book = s.book; filings = s.ledger; made = s.made } };
}

impl Script {
    /// Before the first line: a book without runs and without plans, of which nothing was filed.
    pub fn new(alloc: Global) -> Script
        ensures { result ≡ first_standing }
    {
        Script {
            book: Book::new(alloc),
            ledger: Ledger::new(alloc),
            made: Work { runs: 0, steps: 0 },
            order: None,
        }
    }

    /// The book.
    pub fn book(&self) -> &Book
        ensures { result.now ≡ self.now.book }
    {
        &self.book
    }

    /// What was filed of it.
    pub fn ledger(&self) -> &Ledger
        ensures { result.now ≡ self.now.filings }
    {
        &self.ledger
    }

    /// The runs and the steps of all edits that were accepted, each no more than the greatest number of 64 bits.
    pub fn made(&self) -> Work
        ensures { result ≡ self.now.made }
    {
        self.made
    }
}
