//! The runs without amounts, counted by cause.
ghost use Rattle.std.specs.Prelude.{◌≡◌, if◌then◌else◌, IfOk, OnOk, map};
ghost use Rattle.recalc_engine.specs.LentRows.{lent_row};
ghost use Rattle.recalc_engine.specs.MonthRows.{month_rows};
ghost use Rattle.open_runs.specs.OpenRuns.{counted_in, counted_of};
ghost use Rattle.open_runs.specs.private.Tallies.{counted_row, is_left_out, none_counted};
ghost use Rattle.open_runs.specs.private.Tallies.{one_more, raised_by, stands, with_cause};

use crate::cause::{Cause, open_cause, same_reason};
use payroll_records::Key;
use recalc_engine::{Book, MonthRow};
use std::alloc::{AllocError, Global};

/// The most causes that are named.
pub const MOST_CAUSES: usize = 20;

/// The runs without amounts for one cause.
#[derive(Clone, Copy, Debug)]
pub struct CauseCount {
    /// The cause.
    pub cause: Cause,
    /// How many runs have it.
    pub count: u64,
    /// The first of them.
    pub first: Key,
}

/// How many runs a book has, how many have no amounts, and for which causes, in the order in which they first come.
#[derive(Debug, Drop)]
pub struct OpenRuns {
    /// How many runs there are.
    pub runs: u64,
    /// How many of them have no amounts.
    pub without: u64,
    /// Why, at most 20 causes.
    pub causes: Vec<CauseCount>,
    /// Whether there are other causes.
    pub others: bool,
}

impl OpenRuns {
    /// Of no runs.
    fn none(alloc: Global) -> OpenRuns
        ensures { counted_in result ≡ none_counted }
    {
        OpenRuns {
            runs: 0,
            without: 0,
            causes: Vec::new(alloc),
            others: false,
        }
    }

    /// Counts one more run.
    fn count(&mut self, row: &MonthRow) -> Result<(), AllocError>
        ensures { OnOk result
            (counted_in self.new ≡ counted_row (counted_in self.old) (lent_row row.now)) }
    {
        self.runs = self.runs.saturating_add(1);
        let Some(cause) = open_cause(row.state) else {
            return Ok(());
        };
        self.without = self.without.saturating_add(1);
        let left_out = count_cause(&mut self.causes, cause, row.key)?;
        self.others = self.others || left_out;
        Ok(())
    }
}

/// The runs of a book that have no amounts, by cause: one pass over all runs.
pub fn open_runs(alloc: Global, book: &Book) -> Result<OpenRuns, AllocError>
    ensures { IfOk result (λ tally. counted_in tally ≡ counted_of (month_rows book.now)) }
{
    book.law();
    let mut tally = OpenRuns::none(alloc);
    for row in book.months() {
        tally.count(&row)?;
    }
    Ok(tally)
}

/// Counts one more run of this cause. `Ok` says whether the cause is left out, since 20 others stand already.
fn count_cause(causes: &mut Vec<CauseCount>, cause: Cause, key: Key) -> Result<bool, AllocError>
    ensures causes { OnOk result (causes.new.items ≡ with_cause causes.old.items cause key) }
    ensures others { IfOk result (λ left_out. left_out ≡ is_left_out cause causes.old.items) }
{
    if raise(causes.as_mut_slice(), &cause) {
        return Ok(false);
    }
    if causes.len() >= MOST_CAUSES {
        return Ok(true);
    }
    causes.push(CauseCount {
        cause,
        count: 1,
        first: key,
    })?;
    Ok(false)
}

/// Raises the count of this cause, where it stands, and says whether it does.
fn raise(causes: &mut [CauseCount], cause: &Cause) -> bool
    ensures raised { causes.new ≡ map (raised_by cause.now) causes.old }
    ensures stands { result ≡ stands cause.now causes.old }
{
    let mut stands = false;
    for i in 0..causes.len() {
        let known = causes[i];
        let same = same_reason(&known.cause, cause);
        causes[i] = raised(known, same);
        stands = stands || same;
    }
    stands
}

/// What is counted of a cause, with one run more where that has the same.
fn raised(known: CauseCount, same: bool) -> CauseCount
    ensures { result ≡ (if same then one_more known else known) }
{
    if !same {
        return known;
    }
    CauseCount {
        cause: known.cause,
        count: known.count.saturating_add(1),
        first: known.first,
    }
}
