//! The trial of a plan.
ghost use Rattle.std.specs.Prelude.{◌≡◌, IfOk, IfErr};
ghost use Rattle.book_year.specs.Accepted.{accepted, plans_in};
ghost use Rattle.book_year.specs.Jobs.{Counts, total_cost};
ghost use Rattle.book_year.specs.Picks.{planned_before, planned_after, ArePicks};
ghost use Rattle.book_edits.specs.Kept.{AreYears, jobs_in, years_of};
ghost use Rattle.recalc_engine.specs.EditAnswers.{CanEdit, put};
ghost use Rattle.what_if.specs.TrialLaws.{NamedRunsChange, RowsTellBoth, SameStatesAreOne, UnnamedRunsStay, UntoldValuesStay};
ghost use Rattle.what_if.specs.Trials.{CountsTry, IsTryRefused, trial_of};
ghost use Rattle.what_if.specs.private.YearViews.{ArePlanned, IsTried};

use crate::rows::push_year;
use crate::trial::{Trial, TryRefusal};
use book_edits::{Years, is_full, redo_year};
use book_year::{Picks, Work};
use limits_file::Items;
use pap_plan::Plan;
use payroll_records::Day;
use recalc_engine::Book;
use std::alloc::{AllocError, Global};
use std::sync::ledger::Ledger;
use steps::Steps;

/// What putting a plan at its day would change of a book, and the work that it would be: the runs whose job would be new are
/// run, and nothing of it is kept. `Plans` exactly where there are 64 plans and none of that day, else `Memory` where memory
/// runs out. The counter rises by exactly the steps of that work; after `Plans` it stays, after `Memory` it may have risen by
/// some of them.
pub fn try_plan<L: Ledger>(
    alloc: Global,
    book: &Book,
    day: Day,
    plan: Plan,
    steps: &mut Steps<L>,
) -> Result<Trial, TryRefusal>
    ensures ok { IfOk result (λ trial. trial ≡ trial_of book.now (day, accepted plan)) }
    ensures can { IfOk result (λ _. CanEdit book.now (put (day, accepted plan))) }
    ensures refused { IfErr result (IsTryRefused book.now (day, accepted plan)) }
    ensures counted { CountsTry result steps.old steps.new
        (trial_of book.now (day, accepted plan)).work.steps }
{
    if is_full(book.plans().entries(), day) {
        return Err(TryRefusal::Plans);
    }
    book.law();
    plan.law();
    let picks = Picks::edited(book.plans(), day, Some((day, &plan)));
    let trial = try_years(alloc, &picks, book.years(), steps)?;
    Ok(trial)
}

/// What the plans that the days are about to get change of all years. The counter rises by exactly the steps of the work;
/// where memory runs out it may have risen by some of them.
fn try_years<L: Ledger>(
    alloc: Global,
    picks: &Picks,
    years: &Years,
    steps: &mut Steps<L>,
) -> Result<Trial, AllocError>
    requires picks { ArePicks picks.now }
    requires years { AreYears (plans_in picks.now.plans.now) years.now }
    requires before { ArePlanned (planned_before picks.now) }
    requires after { ArePlanned (planned_after picks.now) }
    ensures ok { IfOk result
        (IsTried (planned_before picks.now) (planned_after picks.now) years.now) }
    ensures counted { Counts result steps.old steps.new (total_cost
        (jobs_in (planned_before picks.now) (planned_after picks.now) (years_of years.now)
        (years_of years.now))) }
{
    let mut rows = Vec::new(alloc);
    let mut runs = 0;
    let mut taken = 0;
    for year in years.list.as_slice() {
        let done = redo_year(alloc, picks, year, steps)?;
        runs += done.work.runs;
        taken += done.work.steps;
        push_year(&mut rows, year, &done)?;
    }
    Ok(Trial {
        rows: Items::from_vec(rows),
        work: Work { runs, steps: taken },
    })
}

/// Laws of the definitions: two states are told the same exactly where they are; a run has another state once the plan is put
/// where a row of the trial names it, and else the same; what a row tells is so before and after, and a value that it tells
/// differs; an output of which no row tells has the same value, or none as before.
pub fn trial_laws()
    ensures one { SameStatesAreOne }
    ensures stay { UnnamedRunsStay }
    ensures change { NamedRunsChange }
    ensures tell { RowsTellBoth }
    ensures untold { UntoldValuesStay }
{}
