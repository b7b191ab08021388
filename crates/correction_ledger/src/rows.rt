//! The runs of a book up to a month.
ghost use Rattle.std.specs.Prelude.{◌≡◌, IfOk};
ghost use Rattle.recalc_engine.specs.MonthRows.{month_rows};
ghost use Rattle.recalc_engine.specs.LentRows.{lent_row};
ghost use Rattle.correction_ledger.specs.Months.{is_up_to};
ghost use Rattle.correction_ledger.specs.Open.{first_open, is_open};
ghost use Rattle.correction_ledger.specs.private.RowViews.{outputs_by, AreReported};

use crate::due::Due;
use crate::outputs::list_outputs;
use payroll_records::{Day, Key, Month, NamedValue};
use recalc_engine::{Book, MonthRow, State};
use std::alloc::{AllocError, Global};

/// Whether a day lies in the month or in an earlier one.
pub(crate) fn is_up_to(month: Month, day: Day) -> bool
    ensures { result ≡ is_up_to month day }
{
    Month::of_day(day) <= month
}

/// Whether a run of the month or of an earlier one isn't ok.
fn is_open(row: &MonthRow, month: Month) -> bool
    ensures { result ≡ is_open month (lent_row row.now) }
{
    match row.state {
        State::Done(_) => false,
        State::NoPlan | State::Blocked(_) => is_up_to(month, row.key.day),
    }
}

/// The first run up to the month that isn't ok.
pub(crate) fn first_open(book: &Book, month: Month) -> Option<Key>
    ensures { result ≡ first_open month (month_rows book.now) }
{
    for row in book.months() {
        if is_open(&row, month) {
            return Some(row.key);
        }
    }
    None
}

/// The outputs of a run up to the month: none where it is of a later month, or isn't ok.
fn outputs_by<'a>(row: &MonthRow<'a>, month: Month) -> &'a [NamedValue]
    ensures { result.now ≡ outputs_by month (lent_row row.now) }
{
    match row.state {
        State::Done(outputs) if is_up_to(month, row.key.day) => outputs.as_slice(),
        _ => &[],
    }
}

/// What the book reports of each output up to the month, in order of key and name.
pub(crate) fn reported(alloc: Global, book: &Book, month: Month) -> Result<Vec<Due>, AllocError>
    ensures { IfOk result (λ dues. AreReported (month_rows book.now) month dues.items) }
{
    book.rows_law();
    let mut dues = Vec::new(alloc);
    let mut of_run = Vec::new(alloc);
    for row in book.months() {
        list_outputs(&mut of_run, &row.key, outputs_by(&row, month))?;
        dues.append(&mut of_run)?;
    }
    Ok(dues)
}
