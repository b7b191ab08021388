//! The book of a table's runs.
ghost use Rattle.std.specs.Prelude.{◌≡◌, [], ◌∷◌, IfOk, IfErr, OnOk};
ghost use Rattle.payroll_records.specs.Tables.{HaveOwnKeys};
ghost use Rattle.book_edits.specs.Books.{loaded};
ghost use Rattle.pay_run.specs.Accepted.{accepted};
ghost use Rattle.table_coverage.specs.TableCoverages.{IsBookOf, IsFirstDay};
ghost use Rattle.table_coverage.specs.private.Parts.{IsMemoryFault, IsWithoutBook, load_stop};

use crate::refusal::CoverRefusal;
use book_edits::EditRefusal;
use pap_plan::Plan;
use payroll_records::{Day, Record};
use recalc_engine::Book;
use std::alloc::{AllocError, Global};
use std::marker::Brand;
use std::sync::ledger::{Blank, Ledger};
use steps::Steps;

/// A book of these runs, with the plan from the first day of the first run's year on.
pub(crate) fn book_of(alloc: Global, plan: Plan, runs: Vec<Record>) -> Result<Book, CoverRefusal>
    requires { HaveOwnKeys runs.items }
    ensures book { IfOk result (IsBookOf (accepted plan) runs.items) }
    ensures refused { IfErr result (IsWithoutBook runs.items) }
{
    loaded_book::<Brand>(alloc, plan, runs, Blank::new(1))
}

/// The same, with a counter of its own.
fn loaded_book<L: Ledger>(
    alloc: Global,
    plan: Plan,
    runs: Vec<Record>,
    blank: Blank,
) -> Result<Book, CoverRefusal>
    requires name { blank.name ≡ L.name }
    requires parts { blank.parts ≡ L.parts }
    requires one { blank.parts ≡ 1 }
    requires keys { HaveOwnKeys runs.items }
    ensures book { IfOk result (IsBookOf (accepted plan) runs.items) }
    ensures refused { IfErr result (IsWithoutBook runs.items) }
{
    let mut steps = Steps::<L>::new(blank);
    let mut book = Book::new(alloc);
    put_alone(&mut book, first_day(&runs), plan, &mut steps)?;
    load_alone(&mut book, runs, &mut steps)?;
    Ok(book)
}

/// The first day of the year in which the first of some runs is; without runs that of 1900.
fn first_day(runs: &[Record]) -> Day
    ensures { IsFirstDay runs.now result }
{
    let year = match runs {
        [run, ..] => run.day.year,
        [] => 1900,
    };
    Day::new(year, 1, 1).unwrap()
}

/// Puts a plan into a book without plans and runs.
fn put_alone<L: Ledger>(
    book: &mut Book,
    day: Day,
    plan: Plan,
    steps: &mut Steps<L>,
) -> Result<(), AllocError>
    requires plans { book.old.plans ≡ [] }
    requires years { book.old.years ≡ [] }
    ensures plans { OnOk result (book.new.plans ≡ (day, accepted plan) ∷ []) }
    ensures years { OnOk result (book.new.years ≡ []) }
{
    match book.put_plan(day, plan, steps) {
        Ok(_) => Ok(()),
        Err(why) => Err(memory_fault(why)),
    }
}

/// The fault of a call that failed for lack of memory alone.
fn memory_fault(why: EditRefusal) -> AllocError
    requires { IsMemoryFault why }
{
    match why {
        EditRefusal::Memory(error) => error,
        _ => unreachable!(),
    }
}

/// Loads runs into a book without runs.
fn load_alone<L: Ledger>(
    book: &mut Book,
    runs: Vec<Record>,
    steps: &mut Steps<L>,
) -> Result<(), CoverRefusal>
    requires keys { HaveOwnKeys runs.items }
    requires years { book.old.years ≡ [] }
    ensures plans { OnOk result (book.new.plans ≡ book.old.plans) }
    ensures years { OnOk result (book.new.years ≡ loaded runs.items []) }
    ensures refused { IfErr result (IsWithoutBook runs.items) }
{
    match book.load(runs, steps) {
        Ok(_) => Ok(()),
        Err(why) => Err(load_stop(why)),
    }
}

/// Why runs aren't loaded into a book without runs: memory ran out, or they are too many.
fn load_stop(why: EditRefusal) -> CoverRefusal
    ensures { result ≡ load_stop why }
{
    match why {
        EditRefusal::Memory(error) => CoverRefusal::Memory(error),
        _ => CoverRefusal::Records,
    }
}
