//! The text of a book.
ghost use Rattle.std.specs.Prelude.{◌≡◌, ◌++◌, All, IfOk, IfErr, OnOk, Ok};
ghost use Rattle.std.specs.List.{flat_map};
ghost use Rattle.saved_items.specs.SavedBooks.{IsRun, IsWork, saved_run_text};
ghost use Rattle.book_year.specs.Accepted.{plans_in};
ghost use Rattle.book_edits.specs.Kept.{runs_in};
ghost use Rattle.book_file.specs.BookLaws.{BooksAreSaved, BooksAreSavedOneWay};
ghost use Rattle.book_file.specs.BookSays.{BookSays};
ghost use Rattle.book_file.specs.Saving.{IsUnsaved, SaveSays};
ghost use Rattle.book_file.specs.private.WritingViews.{HasRuns, IsCutFrom, entry_text, year_text};

use crate::{MOST_BOOK_TEXT, SaveRefusal};
use book_year::Year;
use pap_plan::Plan;
use payroll_records::{Day, Record};
use recalc_engine::{Book, Work};
use saved_items::{push_end, push_head, push_plan, push_run, push_run_count, run_law};
use std::alloc::{AllocError, Global};

/// The text as which a book is saved, of at most 268,435,456 bytes. It is the text of this book and of no other.
pub fn write_book(alloc: Global, b: &Book) -> Result<Vec<u8>, SaveRefusal>
    ensures saved { IfOk result (λ text. SaveSays b.now (Ok text.items)) }
    ensures refused { IfErr result (IsUnsaved b.now) }
    ensures read { IfOk result (λ text. BookSays text.items (Ok b.now)) }
{
    b.law();
    let work = b.last_work();
    work_law(work);
    let plans = b.plans();
    let years = b.years();
    let mut text = Vec::new(alloc);
    push_head(&mut text, work.runs, work.steps, plans.len() as u64)?;
    write_plans(&mut text, plans.entries())?;
    push_run_count(&mut text, years.count as u64)?;
    write_years(&mut text, years.list.as_slice())?;
    push_end(&mut text)?;
    if text.len() > MOST_BOOK_TEXT {
        return Err(SaveRefusal::Long);
    }
    Ok(text)
}

/// A law, with nothing to run: the numbers of a work fit 64 bits, as can be written.
fn work_law(work: Work)
    ensures { IsWork work.runs work.steps }
{
    let _ = work;
}

/// Appends the plans.
fn write_plans(text: &mut Vec<u8>, plans: &[(Day, Plan)]) -> Result<(), AllocError>
    ensures { OnOk result (text.new.items
        ≡ text.old.items ++ flat_map entry_text (plans_in plans.now)) }
{
    for entry in plans {
        push_plan(text, entry.0, entry.1.plan_bytes(), entry.1.limits_bytes())?;
    }
    Ok(())
}

/// Appends the runs of these years, each of which has a text, as long as the text isn't too long.
fn write_years(text: &mut Vec<u8>, years: &[Year]) -> Result<(), SaveRefusal>
    ensures runs { OnOk result (All HasRuns years.now) }
    ensures ok { OnOk result
        (text.new.items ≡ text.old.items ++ flat_map year_text (runs_in years.now)) }
    ensures refused { IfErr result
        (IsCutFrom (text.old.items ++ flat_map year_text (runs_in years.now))) }
{
    for year in years {
        write_runs(text, year.records.as_slice())?;
        if text.len() > MOST_BOOK_TEXT {
            return Err(SaveRefusal::Long);
        }
    }
    Ok(())
}

/// Appends these runs, each of which has a text.
fn write_runs(text: &mut Vec<u8>, runs: &[Record]) -> Result<(), AllocError>
    ensures runs { OnOk result (All IsRun runs.now) }
    ensures ok { OnOk result (text.new.items ≡ text.old.items ++ flat_map saved_run_text runs.now) }
{
    for run in runs {
        run_law(run);
        push_run(text, run)?;
    }
    Ok(())
}

/// Every book is saved as one text, or its text is too long.
pub fn saving_laws()
    ensures some { BooksAreSaved }
    ensures one { BooksAreSavedOneWay }
{}
