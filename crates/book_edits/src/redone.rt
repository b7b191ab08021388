//! Years computed anew for an edit of the calendar, beside those that are kept.
ghost use Rattle.std.specs.Prelude.{◌≡◌, length, IfOk};
ghost use Rattle.book_year.specs.Accepted.{plans_in};
ghost use Rattle.book_year.specs.Jobs.{Counts, total_cost};
ghost use Rattle.book_year.specs.Picks.{planned_before, planned_after, ArePicks};
ghost use Rattle.book_year.specs.Years.{IsYear};
ghost use Rattle.book_year.specs.YearClauses.{replan_cost};
ghost use Rattle.book_edits.specs.Kept.{AreYears, years_of, jobs_in};
ghost use Rattle.book_edits.specs.RedoneClauses.{with_new, IsYearRedone};
ghost use Rattle.book_edits.specs.private.RedoneClauses.{merged, AreRedone};

use crate::years::Years;
use book_year::{Outcome, Picks, Work, Year};
use std::alloc::{AllocError, Global};
use std::sync::ledger::Ledger;
use steps::Steps;

/// New outcomes of the years, where they have some, and the work that they took.
#[derive(Drop)]
pub(crate) struct Redone {
    pub(crate) outcomes: Vec<Option<Vec<Outcome>>>,
    pub(crate) work: Work,
}

/// New outcomes of a year, where its plans may change, and the work that they took.
#[derive(Drop)]
pub struct RedoneYear {
    /// In order of day. `None` where no plan of the year may change: its outcomes stay.
    pub outcomes: Option<Vec<Outcome>>,
    /// Of the runs whose job is new.
    pub work: Work,
}

/// Computes the years anew whose plans may change. The counter rises by exactly their steps; where memory runs out it may have
/// risen by some of them.
pub(crate) fn redo_years<L: Ledger>(
    picks: &Picks,
    years: &Years,
    steps: &mut Steps<L>,
) -> Result<Redone, AllocError>
    requires picks { ArePicks picks.now }
    requires years { AreYears (plans_in picks.now.plans.now) years.now }
    ensures done { IfOk result
        (AreRedone (planned_before picks.now) (planned_after picks.now) years.now) }
    ensures counted { Counts result steps.old steps.new (total_cost
        (jobs_in (planned_before picks.now) (planned_after picks.now) (years_of years.now)
        (years_of years.now))) }
{
    let alloc = *years.list.allocator();
    let mut outcomes = Vec::new(alloc);
    let mut runs = 0;
    let mut taken = 0;
    for year in years.list.as_slice() {
        let done = redo_year(alloc, picks, year, steps)?;
        runs += done.work.runs;
        taken += done.work.steps;
        outcomes.push(done.outcomes)?;
    }
    Ok(Redone {
        outcomes,
        work: Work { runs, steps: taken },
    })
}

/// Computes a year anew, where its plans may change. The year stays as it is. The counter rises by exactly the steps of the
/// work; where memory runs out it may have risen by some of them.
pub fn redo_year<L: Ledger>(
    alloc: Global,
    picks: &Picks,
    year: &Year,
    steps: &mut Steps<L>,
) -> Result<RedoneYear, AllocError>
    requires picks { ArePicks picks.now }
    requires year { IsYear (plans_in picks.now.plans.now) year.now }
    ensures done { IfOk result
        (IsYearRedone (planned_before picks.now) (planned_after picks.now) year.now) }
    ensures counted { Counts result steps.old steps.new (replan_cost picks.now year.now) }
{
    if !picks.may_move(year.key.year) {
        return Ok(RedoneYear {
            outcomes: None,
            work: Work { runs: 0, steps: 0 },
        });
    }
    let done = year.recalculated(alloc, picks, steps)?;
    Ok(RedoneYear {
        outcomes: Some(done.outcomes),
        work: done.work,
    })
}

/// Puts the new outcomes in. It takes no memory.
pub(crate) fn put_in(years: &mut Vec<Year>, mut outcomes: Vec<Option<Vec<Outcome>>>)
    requires { length outcomes.items ≡ length years.old.items }
    ensures { years.new.items ≡ merged years.old.items outcomes.items }
{
    while let Some(new) = outcomes.pop() {
        put_outcomes(&mut years[outcomes.len()], new);
    }
}

/// Puts a year's new outcomes in, where it has some.
fn put_outcomes(year: &mut Year, new: Option<Vec<Outcome>>)
    ensures { year.new ≡ with_new year.old new }
{
    if let Some(outcomes) = new {
        year.outcomes = outcomes;
    }
}
