//! Loading many runs.
ghost use Rattle.std.specs.Prelude.{◌≡◌, ◌≤◌, [], IfOk, IfErr, OnErr, length};
ghost use Rattle.book_year.specs.Accepted.{plans_in};
ghost use Rattle.book_year.specs.Jobs.{Counts, total_cost, work_of};
ghost use Rattle.book_edits.specs.Books.{loaded};
ghost use Rattle.book_edits.specs.Kept.{AreSameYears, AreYears, IsYearsEdit, edit_cost};
ghost use Rattle.book_edits.specs.Kept.{edit_jobs, runs_in, years_of};
ghost use Rattle.book_edits.specs.Refusals.{CountsEdit};
ghost use Rattle.payroll_records.specs.Limits.{most_records};
ghost use Rattle.payroll_records.specs.Tables.{HaveOwnKeys};
ghost use Rattle.book_edits.specs.private.Views.{AreKeptYears, IsListEdit, list_cost};
ghost use Rattle.book_edits.specs.Loads.{CanLoad, IsLoadRefused};

use crate::drafts::draft_all;
use crate::groups::grouped;
use crate::merge::merged;
use crate::refusal::EditRefusal;
use crate::refused::refused;
use crate::years::Years;
use book_year::{Work, Year};
use pap_plan::Plan;
use payroll_records::Record;
use plan_calendar::Calendar;
use std::alloc::{AllocError, Global};
use std::mem;
use std::sync::ledger::Ledger;
use steps::Steps;

/// The years of some runs alone, and the work of running each of them that has inputs.
#[derive(Drop)]
pub struct RestoredYears {
    /// The runs, by employee and year.
    pub years: Years,
    /// How many runs these were, and their steps.
    pub work: Work,
}

/// Puts all these runs into the book, or none of them.
pub fn load<L: Ledger>(
    plans: &Calendar<Plan>,
    years: &mut Years,
    items: Vec<Record>,
    steps: &mut Steps<L>,
) -> Result<Work, EditRefusal>
    requires years { AreYears (plans_in plans.now) years.old }
    requires distinct { HaveOwnKeys items.items }
    ensures ok { IfOk result
        (IsYearsEdit (plans_in plans.now) years.old years.new
        (loaded items.items (years_of years.old))) }
    ensures can { IfOk result (λ _. CanLoad (years_of years.old) items.items) }
    ensures err { OnErr result (AreSameYears (plans_in plans.now) years.old years.new) }
    ensures refused { IfErr result (IsLoadRefused (years_of years.old) items.items) }
    ensures counted { CountsEdit result steps.old steps.new
        (edit_cost (plans_in plans.now) years.old (loaded items.items (years_of years.old))) }
{
    refused(years, items.as_slice())?;
    let count = years.count + items.len();
    let work = load_runs(plans, &mut years.list, items, steps)?;
    years.count = count;
    Ok(work)
}

/// The years of these runs alone, and the work of running each of them that has inputs. The counter rises by exactly
/// the steps of that work; where memory runs out it may have risen by some of them.
pub fn restore<L: Ledger>(
    alloc: Global,
    plans: &Calendar<Plan>,
    items: Vec<Record>,
    steps: &mut Steps<L>,
) -> Result<RestoredYears, AllocError>
    requires distinct { HaveOwnKeys items.items }
    requires few { length items.items ≤ most_records }
    ensures kept { IfOk result (λ restored. AreYears (plans_in plans.now) restored.years) }
    ensures years { IfOk result (λ restored. years_of restored.years ≡ loaded items.items []) }
    ensures work { IfOk result (λ restored. restored.work
        ≡ work_of (edit_jobs (plans_in plans.now) [] (loaded items.items []))) }
    ensures counted { Counts result steps.old steps.new
        (total_cost (edit_jobs (plans_in plans.now) [] (loaded items.items []))) }
{
    let count = items.len();
    let mut list = Vec::new(alloc);
    let work = load_runs(plans, &mut list, items, steps)?;
    let years = Years { list, count };
    Ok(RestoredYears { years, work })
}

/// Puts all these runs into the years. Without memory the years are as before.
fn load_runs<L: Ledger>(
    plans: &Calendar<Plan>,
    list: &mut Vec<Year>,
    items: Vec<Record>,
    steps: &mut Steps<L>,
) -> Result<Work, AllocError>
    requires kept { AreKeptYears (plans_in plans.now) list.old.items }
    requires distinct { HaveOwnKeys items.items }
    requires few { length items.items ≤ most_records }
    ensures ok { IfOk result (IsListEdit (plans_in plans.now) list.old.items list.new.items
        (loaded items.items (runs_in list.old.items))) }
    ensures err { OnErr result (list.new.items ≡ list.old.items) }
    ensures counted { Counts result steps.old steps.new
        (list_cost (plans_in plans.now) list.old.items
        (loaded items.items (runs_in list.old.items))) }
{
    let alloc = *list.allocator();
    let groups = grouped(alloc, items)?;
    let done = draft_all(alloc, plans, list.as_slice(), groups, steps)?;
    let room = Vec::with_capacity(alloc, list.len() + done.drafts.len())?;
    let olds = mem::replace(list, Vec::new(alloc));
    *list = merged(alloc, olds, done.drafts, room);
    Ok(done.work)
}
