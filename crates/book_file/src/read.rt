//! The book of a text.
ghost use Rattle.std.specs.Prelude.{◌≡◌, IfOk, IfErr, Ok};
ghost use Rattle.saved_items.specs.SavedBooks.{IsSaved};
ghost use Rattle.saved_items.specs.ItemFaults.{saved_in};
ghost use Rattle.recalc_engine.specs.Contents.{whole_work};
ghost use Rattle.book_file.specs.BookLaws.{FrontsTell, TextsAreOfOneBook};
ghost use Rattle.book_file.specs.BookLaws.{TextsSayOneThing, TextsSaySomething};
ghost use Rattle.book_file.specs.BookSays.{BookSays};
ghost use Rattle.book_file.specs.Clauses.{CountsRead, IsBookFaultOrMemory};
ghost use Rattle.book_file.specs.private.Views.{CountsMade, HasNoPlan, IsBookOf};

use crate::plans::accept_plans;
use crate::{BookFault, MOST_BOOK_TEXT};
use recalc_engine::{Book, RestoredBook, Work};
use saved_items::{ItemFault, SavedBook, read_items};
use std::alloc::Global;
use std::sync::ledger::Ledger;
use steps::Steps;

/// The book whose text these bytes are, with the work of its last edit, and the work of running all its jobs; or what
/// is wrong with them: they are too many; else the first item that isn't of its form after the items before it, or the
/// first plan that isn't accepted, whichever comes first. The counter rises by the cost of all jobs of the book; where
/// memory runs out it may have risen by some of it.
pub fn read_book<L: Ledger>(
    alloc: Global,
    bytes: &[u8],
    steps: &mut Steps<L>,
) -> Result<RestoredBook, BookFault>
    ensures read { IfOk result (λ restored. BookSays bytes.now (Ok restored.book)) }
    ensures work { IfOk result (λ restored. restored.work ≡ whole_work restored.book) }
    ensures refused { IfErr result (IsBookFaultOrMemory bytes.now) }
    ensures counted { CountsRead bytes.now result steps.old steps.new }
{
    if bytes.len() > MOST_BOOK_TEXT {
        return Err(BookFault::Long);
    }
    match read_items(alloc, bytes) {
        Ok(items) => restore(alloc, items, steps),
        Err(ItemFault::Form { item, plans, .. }) => {
            accept_plans(alloc, &plans)?;
            Err(BookFault::Form { item })
        }
        Err(ItemFault::Memory(error)) => Err(BookFault::Memory(error)),
    }
}

/// The book of what is saved, once its plans are accepted, and the work of running all its jobs.
fn restore<L: Ledger>(
    alloc: Global,
    items: SavedBook<'_>,
    steps: &mut Steps<L>,
) -> Result<RestoredBook, BookFault>
    requires { IsSaved (saved_in items) }
    ensures made { IfOk result (λ restored. IsBookOf (saved_in items.entry) restored.book) }
    ensures work { IfOk result (λ restored. restored.work ≡ whole_work restored.book) }
    ensures refused { IfErr result (HasNoPlan (saved_in items.entry).plans) }
    ensures counted { CountsMade (saved_in items.entry) result steps.old steps.new }
{
    let plans = accept_plans(alloc, &items.plans)?;
    let last = Work {
        runs: items.runs,
        steps: items.steps,
    };
    Ok(Book::restore(alloc, items.records, plans, last, steps)?)
}

/// Every text says one thing: a book, or what is wrong with it; its first bytes tell, one more than the limit. So a text is that
/// of at most one book.
pub fn text_laws()
    ensures some { TextsSaySomething }
    ensures one { TextsSayOneThing }
    ensures fronts { FrontsTell }
    ensures book { TextsAreOfOneBook }
{}
