//! An employee's calendar year, and its edits.
ghost use Rattle.std.specs.Prelude.{◌≡◌, ◌+◌, ◌≤◌, ◌++◌, IfOk, OnErr, List, [], length, take};
ghost use Rattle.std.specs.Prelude.{vec_len, vec_capacity};
ghost use Rattle.std.specs.List.{AllByRecursion};
ghost use Rattle.rising_lists.specs.Keyed.{IsRising};
ghost use Rattle.payroll_records.specs.Orders.{day_cmp};
ghost use Rattle.plan_calendar.specs.Picking.{Entry};
ghost use Rattle.book_year.specs.Accepted.{Accepted, plans_in};
ghost use Rattle.book_year.specs.Picks.{ArePicks, planned_before, planned_after};
ghost use Rattle.book_year.specs.Jobs.{Counts};
ghost use Rattle.book_year.specs.Records.{put_run, record_day, without_run};
ghost use Rattle.book_year.specs.Years.{IsOwn, IsYear, YearsStay, YearsFollowPlans};
ghost use Rattle.book_year.specs.YearClauses.{IsYearEdit, IsSameYear, edit_cost};
ghost use Rattle.book_year.specs.private.YearClauses.{IsComputed};
ghost use Rattle.book_year.specs.YearClauses.{IsReplanned, replan_cost};

use crate::chain::{Old, Recalculated, Rest, recalculate, recalculate_rest};
use crate::outcome::{Outcome, Work};
use crate::picks::Picks;
use crate::records::{
    put_in_room, put_record, put_reference, references, runs_before, runs_with, runs_without,
    take_record,
};
use pap_plan::Plan;
use payroll_records::{Day, Employee, Record};
use plan_calendar::Calendar;
use std::alloc::{AllocError, Global};
use std::sync::ledger::Ledger;
use steps::Steps;

/// What an employee's year is known by. The runs of one employee in one calendar year are one chain.
#[derive(Clone, Copy, Debug, PartialEq, Eq, PartialOrd, Ord)]
pub struct YearKey {
    /// Whose runs they are.
    pub employee: Employee,
    /// The calendar year, from 1900 to 2999.
    pub year: u16,
}

/// An employee's calendar year: its records in order of day, and what each came to.
#[derive(Drop)]
pub struct Year {
    /// The employee and the year.
    pub key: YearKey,
    /// At most 366, one a day, in order of day.
    pub records: Vec<Record>,
    /// In the order of the records.
    pub outcomes: Vec<Outcome>,
}

impl Year {
    /// A year without runs.
    pub fn new(alloc: Global, key: YearKey) -> Year
        ensures key { result.key ≡ key }
        ensures none { result.records.items ≡ [] }
        ensures year { (plans : List (Entry Accepted)) → IsYear plans result }
    {
        Year {
            key,
            records: Vec::new(alloc),
            outcomes: Vec::new(alloc),
        }
    }

    /// The year computed anew for an edit of the calendar. The year stays as it is.
    pub fn recalculated<L: Ledger>(
        &self,
        alloc: Global,
        picks: &Picks,
        steps: &mut Steps<L>,
    ) -> Result<Recalculated, AllocError>
        requires picks { ArePicks picks.now }
        requires year { IsYear (plans_in picks.now.plans.now) self.now }
        ensures done { IfOk result (IsReplanned picks.now self.now) }
        ensures counted { Counts result steps.old steps.new (replan_cost picks.now self.now) }
    {
        let records = self.records.as_slice();
        let runs = references(alloc, records)?;
        let kept = unmoved(picks, records);
        recalculate(alloc, picks, old_of(self), kept, runs.as_slice(), steps)
    }

    /// Puts a run at its day, in place of the one that stood there. Without memory the year is as before.
    pub fn put<L: Ledger>(
        &mut self,
        alloc: Global,
        plans: &Calendar<Plan>,
        item: Record,
        steps: &mut Steps<L>,
    ) -> Result<Work, AllocError>
        requires year { IsYear (plans_in plans.now) self.old }
        requires own { IsOwn self.old.key item }
        ensures ok { IfOk result
            (IsYearEdit (plans_in plans.now) self.old self.new
            (put_run item self.old.records.items)) }
        ensures err { OnErr result (IsSameYear self.old self.new) }
        ensures counted { Counts result steps.old steps.new
            (edit_cost (plans_in plans.now) self.old (put_run item self.old.records.items)) }
    {
        let rest = computed_with(alloc, plans, self, &item, steps)?;
        self.outcomes.reserve(rest.outcomes.len())?;
        put_record(&mut self.records, item)?;
        put_rest(&mut self.outcomes, rest.kept, rest.outcomes);
        Ok(rest.work)
    }

    /// Takes the run of a day away and puts another one. Without memory the year is as before.
    pub fn change<L: Ledger>(
        &mut self,
        alloc: Global,
        plans: &Calendar<Plan>,
        from: Day,
        item: Record,
        steps: &mut Steps<L>,
    ) -> Result<Work, AllocError>
        requires year { IsYear (plans_in plans.now) self.old }
        requires own { IsOwn self.old.key item }
        ensures ok { IfOk result (IsYearEdit (plans_in plans.now) self.old self.new
            (put_run item (without_run from self.old.records.items))) }
        ensures err { OnErr result (IsSameYear self.old self.new) }
        ensures counted { Counts result steps.old steps.new
            (edit_cost (plans_in plans.now) self.old
            (put_run item (without_run from self.old.records.items))) }
    {
        let rest = computed_with_change(alloc, plans, self, from, &item, steps)?;
        self.records.reserve(1)?;
        self.outcomes.reserve(rest.outcomes.len())?;
        take_record(&mut self.records, from);
        put_in_room(&mut self.records, item);
        put_rest(&mut self.outcomes, rest.kept, rest.outcomes);
        Ok(rest.work)
    }

    /// Takes the run of a day away. Without memory the year is as before.
    pub fn take<L: Ledger>(
        &mut self,
        alloc: Global,
        plans: &Calendar<Plan>,
        day: Day,
        steps: &mut Steps<L>,
    ) -> Result<Work, AllocError>
        requires { IsYear (plans_in plans.now) self.old }
        ensures ok { IfOk result
            (IsYearEdit (plans_in plans.now) self.old self.new
            (without_run day self.old.records.items)) }
        ensures err { OnErr result (IsSameYear self.old self.new) }
        ensures counted { Counts result steps.old steps.new
            (edit_cost (plans_in plans.now) self.old (without_run day self.old.records.items)) }
    {
        let rest = computed_without(alloc, plans, self, day, steps)?;
        self.outcomes.reserve(rest.outcomes.len())?;
        take_record(&mut self.records, day);
        put_rest(&mut self.outcomes, rest.kept, rest.outcomes);
        Ok(rest.work)
    }
}

/// How many runs at the front of a year have the plans that they had: those before the edit of the
/// calendar.
fn unmoved(picks: &Picks, records: &[Record]) -> usize
    requires { IsRising day_cmp record_day records.now }
    ensures within { result ≤ length records.now }
    ensures plans { AllByRecursion
        (λ r. planned_after picks.now r.day ≡ planned_before picks.now r.day)
        (take result records.now) }
{
    match picks.edit {
        None => records.len(),
        Some(edit) => runs_before(records, edit.day),
    }
}

/// Puts new outcomes behind the first `kept` ones, where there is room for them.
fn put_rest(outcomes: &mut Vec<Outcome>, kept: usize, mut new: Vec<Outcome>)
    requires { vec_len outcomes.old + vec_len new ≤ vec_capacity outcomes.old }
    ensures { outcomes.new.items ≡ take kept outcomes.old.items ++ new.items }
{
    outcomes.truncate(kept);
    outcomes.append(&mut new).unwrap();
}

/// The year computed with one run put.
fn computed_with<'a, L: Ledger>(
    alloc: Global,
    plans: &'a Calendar<Plan>,
    year: &'a Year,
    item: &'a Record,
    steps: &mut Steps<L>,
) -> Result<Rest, AllocError>
    requires year { IsYear (plans_in plans.now) year.now }
    requires own { IsOwn year.now.key item.now }
    ensures done { IfOk result
        (IsComputed (plans_in plans.now) year.now (put_run item.now year.now.records.items)) }
    ensures counted { Counts result steps.old steps.new
        (edit_cost (plans_in plans.now) year.now (put_run item.now year.now.records.items)) }
{
    let records = year.records.as_slice();
    let runs = runs_with(alloc, records, item)?;
    let kept = runs_before(records, item.day);
    recalculate_rest(
        alloc,
        &Picks { plans, edit: None },
        old_of(year),
        kept,
        runs.as_slice(),
        steps,
    )
}

/// The year computed with one run taken away and another put.
fn computed_with_change<'a, L: Ledger>(
    alloc: Global,
    plans: &'a Calendar<Plan>,
    year: &'a Year,
    from: Day,
    item: &'a Record,
    steps: &mut Steps<L>,
) -> Result<Rest, AllocError>
    requires year { IsYear (plans_in plans.now) year.now }
    requires own { IsOwn year.now.key item.now }
    ensures done { IfOk result (IsComputed (plans_in plans.now) year.now
        (put_run item.now (without_run from year.now.records.items))) }
    ensures counted { Counts result steps.old steps.new
        (edit_cost (plans_in plans.now) year.now
        (put_run item.now (without_run from year.now.records.items))) }
{
    let records = year.records.as_slice();
    let mut runs = runs_without(alloc, records, from)?;
    put_reference(&mut runs, item)?;
    let kept = runs_before(records, from).min(runs_before(records, item.day));
    recalculate_rest(
        alloc,
        &Picks { plans, edit: None },
        old_of(year),
        kept,
        runs.as_slice(),
        steps,
    )
}

/// The year computed with one run taken away.
fn computed_without<L: Ledger>(
    alloc: Global,
    plans: &Calendar<Plan>,
    year: &Year,
    day: Day,
    steps: &mut Steps<L>,
) -> Result<Rest, AllocError>
    requires { IsYear (plans_in plans.now) year.now }
    ensures done { IfOk result
        (IsComputed (plans_in plans.now) year.now (without_run day year.now.records.items)) }
    ensures counted { Counts result steps.old steps.new
        (edit_cost (plans_in plans.now) year.now (without_run day year.now.records.items)) }
{
    let records = year.records.as_slice();
    let runs = runs_without(alloc, records, day)?;
    let kept = runs_before(records, day);
    recalculate_rest(
        alloc,
        &Picks { plans, edit: None },
        old_of(year),
        kept,
        runs.as_slice(),
        steps,
    )
}

/// What is kept of the year.
fn old_of(year: &Year) -> Old<'_>
    ensures records { result.records.now ≡ year.now.records.items }
    ensures outcomes { result.outcomes.now ≡ year.now.outcomes.items }
{
    Old {
        records: year.records.as_slice(),
        outcomes: year.outcomes.as_slice(),
    }
}

/// Laws of the definitions: where neither plans nor records change no run is run again, and plans of other days play no
/// part in a year's runs.
pub fn year_laws()
    ensures stay { YearsStay }
    ensures follow { YearsFollowPlans }
{}
