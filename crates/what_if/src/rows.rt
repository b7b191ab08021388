//! The rows of a trial, run by run.
ghost use Rattle.std.specs.Prelude.{◌≡◌, ◌++◌, OnOk};
ghost use Rattle.recalc_engine.specs.KeptRows.{kept_rows, rows_kept_in};
ghost use Rattle.recalc_engine.specs.RowLaws.{HaveNames};
ghost use Rattle.book_edits.specs.RedoneClauses.{with_new};
ghost use Rattle.what_if.specs.Changes.{state_outputs, run_changes, value_rows};
ghost use Rattle.what_if.specs.private.YearViews.{AreOutcomesOf, HasOutcomes, changes};

use crate::sides::{Sides, ordered, push_sides};
use crate::states::{same_state, shown, state_outputs};
use crate::trial::{TrialRow, push_changed};
use book_edits::RedoneYear;
use book_year::{Outcome, Year};
use payroll_records::{Key, NamedValue, Record};
use recalc_engine::State;
use std::alloc::AllocError;

/// Appends the rows of a year's runs, where it has new outcomes.
pub(crate) fn push_year(
    rows: &mut Vec<TrialRow>,
    year: &Year,
    redone: &RedoneYear,
) -> Result<(), AllocError>
    requires before { HasOutcomes year.now }
    requires after { HasOutcomes (with_new year.now redone.now.outcomes) }
    ensures { OnOk result (rows.new.items ≡ rows.old.items
        ++ changes (rows_kept_in year.now) (rows_kept_in (with_new year.now redone.now.outcomes))) }
{
    match &redone.outcomes {
        None => Ok(()),
        Some(outcomes) => push_runs(
            rows,
            year.records.as_slice(),
            year.outcomes.as_slice(),
            outcomes.as_slice(),
        ),
    }
}

/// Appends the rows of some runs, which came to `before` and come to `after`.
fn push_runs(
    rows: &mut Vec<TrialRow>,
    records: &[Record],
    before: &[Outcome],
    after: &[Outcome],
) -> Result<(), AllocError>
    requires before { AreOutcomesOf records.now before.now }
    requires after { AreOutcomesOf records.now after.now }
    ensures { OnOk result (rows.new.items ≡ rows.old.items
        ++ changes (kept_rows records.now before.now) (kept_rows records.now after.now)) }
{
    for (at, record) in records.iter().enumerate() {
        push_run(rows, &record.key(), &before[at].state, &after[at].state)?;
    }
    Ok(())
}

/// Appends the rows of a run: none where its state stays, else its own and those of its outputs.
fn push_run(
    rows: &mut Vec<TrialRow>,
    key: &Key,
    before: &State,
    after: &State,
) -> Result<(), AllocError>
    requires before { HaveNames (state_outputs before.now) }
    requires after { HaveNames (state_outputs after.now) }
    ensures { OnOk result
        (rows.new.items ≡ rows.old.items ++ run_changes key.now before.now after.now) }
{
    if same_state(before, after) {
        return Ok(());
    }
    push_changed(rows, key, shown(before), shown(after))?;
    push_values(rows, key, state_outputs(before), state_outputs(after))
}

/// Appends the rows of a run's outputs, in order of their names.
fn push_values(
    rows: &mut Vec<TrialRow>,
    key: &Key,
    before: &[NamedValue],
    after: &[NamedValue],
) -> Result<(), AllocError>
    requires before { HaveNames before.now }
    requires after { HaveNames after.now }
    ensures { OnOk result
        (rows.new.items ≡ rows.old.items ++ value_rows key.now before.now after.now) }
{
    let alloc = *rows.allocator();
    let before = ordered(alloc, before)?;
    let after = ordered(alloc, after)?;
    push_sides(rows, key, Sides::of(before.as_slice(), after.as_slice()))
}
