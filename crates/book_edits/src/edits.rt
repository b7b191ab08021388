//! Edits of the runs. What stands against an edit is found first, without memory; then the runs whose job is new are run; and
//! only then is anything written.
ghost use Rattle.std.specs.Prelude.{◌≡◌, IfOk, IfErr, OnErr, IsSome};
ghost use Rattle.payroll_records.specs.Orders.{day_cmp};
ghost use Rattle.payroll_records.specs.Tables.{key_of};
ghost use Rattle.rising_lists.specs.Keyed.{at_key};
ghost use Rattle.book_year.specs.Accepted.{plans_in};
ghost use Rattle.book_year.specs.Jobs.{Counts};
ghost use Rattle.book_year.specs.Records.{record_day};
ghost use Rattle.book_edits.specs.Books.{AreInOrder, added, changed, changed_from, run_at, source_of};
ghost use Rattle.book_edits.specs.Books.{runs_of, withdrawal, withdrawn, withdrawn_from, year_of};
ghost use Rattle.book_edits.specs.Kept.{AreSameYears, AreYears, IsYearsEdit, edit_cost, runs_in, years_of};
ghost use Rattle.book_edits.specs.Refusals.{CanAdd, CountsEdit, IsAddRefused, IsChangeRefused};
ghost use Rattle.book_edits.specs.Refusals.{IsOne, IsWithdrawRefused};
ghost use Rattle.book_edits.specs.private.Views.{AreKeptYears, IsListEdit, IsSameList, only_key, list_cost};

use crate::places::{place_year, year_of};
use crate::{EditRefusal, InMonth, Years};
use book_year::{Work, Year};
use pap_plan::Plan;
use payroll_records::{Day, Employee, Key, MOST_RECORDS, Month, Record, When};
use plan_calendar::Calendar;
use std::alloc::AllocError;
use std::sync::ledger::Ledger;
use steps::Steps;

impl Years {
    /// Adds a run. After a refusal the runs are as before.
    pub fn add<L: Ledger>(
        &mut self,
        plans: &Calendar<Plan>,
        item: Record,
        steps: &mut Steps<L>,
    ) -> Result<Work, EditRefusal>
        requires { AreYears (plans_in plans.now) self.old }
        ensures ok { IfOk result
            (IsYearsEdit (plans_in plans.now) self.old self.new (added item (years_of self.old))) }
        ensures can { IfOk result (λ _. CanAdd (years_of self.old) item) }
        ensures err { OnErr result (AreSameYears (plans_in plans.now) self.old self.new) }
        ensures refused { IfErr result (IsAddRefused (years_of self.old) item) }
        ensures counted { CountsEdit result steps.old steps.new
            (edit_cost (plans_in plans.now) self.old (added item (years_of self.old))) }
    {
        let key = item.key();
        if self.find(&key).is_some() {
            return Err(EditRefusal::Present { key });
        }
        if self.count == MOST_RECORDS {
            return Err(EditRefusal::Records);
        }
        let work = add_run(plans, &mut self.list, item, steps)?;
        self.count += 1;
        Ok(work)
    }

    /// Puts a run in place of that of its day, or else of the only one of its month, whose day it then takes. After a refusal
    /// the runs are as before.
    pub fn change<L: Ledger>(
        &mut self,
        plans: &Calendar<Plan>,
        item: Record,
        steps: &mut Steps<L>,
    ) -> Result<Work, EditRefusal>
        requires { AreYears (plans_in plans.now) self.old }
        ensures ok { IfOk result (IsYearsEdit (plans_in plans.now) self.old self.new
            (changed_from (source_of (years_of self.old) item) item (years_of self.old))) }
        ensures can { IfOk result (λ _. IsOne (source_of (years_of self.old) item)) }
        ensures err { OnErr result (AreSameYears (plans_in plans.now) self.old self.new) }
        ensures refused { IfErr result (IsChangeRefused (years_of self.old) item) }
        ensures counted { CountsEdit result steps.old steps.new
            (edit_cost (plans_in plans.now) self.old
            (changed_from (source_of (years_of self.old) item) item (years_of self.old))) }
    {
        let from = self.source_of(&item)?;
        Ok(change_run(plans, &mut self.list, from.day, item, steps)?)
    }

    /// Takes a run away: that of a day, or the only one of a month. After a refusal the runs are as before.
    pub fn withdraw<L: Ledger>(
        &mut self,
        plans: &Calendar<Plan>,
        employee: Employee,
        when: When,
        steps: &mut Steps<L>,
    ) -> Result<Work, EditRefusal>
        requires { AreYears (plans_in plans.now) self.old }
        ensures ok { IfOk result (IsYearsEdit (plans_in plans.now) self.old self.new
            (withdrawn_from (withdrawal (years_of self.old) employee when) (years_of self.old))) }
        ensures can { IfOk result (λ _. IsOne (withdrawal (years_of self.old) employee when)) }
        ensures err { OnErr result (AreSameYears (plans_in plans.now) self.old self.new) }
        ensures refused { IfErr result (IsWithdrawRefused (years_of self.old) employee when) }
        ensures counted { CountsEdit result steps.old steps.new
            (edit_cost (plans_in plans.now) self.old
            (withdrawn_from (withdrawal (years_of self.old) employee when) (years_of self.old))) }
    {
        let key = self.withdrawal(employee, when)?;
        let work = take_run(plans, &mut self.list, &key, steps)?;
        self.count -= 1;
        Ok(work)
    }

    /// The run that a change replaces: that of the record's day, or else the only one of its month.
    fn source_of(&self, item: &Record) -> Result<Key, EditRefusal>
        requires { AreInOrder (years_of self.now) }
        ensures ok { IfOk result (λ k. source_of (years_of self.now) item.now ≡ InMonth.One k) }
        ensures refused { IfErr result (IsChangeRefused (years_of self.now) item.now) }
    {
        let key = item.key();
        if self.find(&key).is_some() {
            return Ok(key);
        }
        let month = Month::of_day(item.day);
        only_key(self.in_month(&item.employee, month), item.employee, month)
    }

    /// The run that is withdrawn: that of the day, or the only one of the month.
    fn withdrawal(&self, employee: Employee, when: When) -> Result<Key, EditRefusal>
        requires { AreInOrder (years_of self.now) }
        ensures ok { IfOk result
            (λ k. withdrawal (years_of self.now) employee when ≡ InMonth.One k) }
        ensures refused { IfErr result (IsWithdrawRefused (years_of self.now) employee when) }
    {
        match when {
            When::Day(day) => {
                let key = Key { employee, day };
                if self.find(&key).is_none() {
                    return Err(EditRefusal::Absent { employee, when });
                }
                Ok(key)
            }
            When::Month(month) => only_key(self.in_month(&employee, month), employee, month),
        }
    }
}

/// The key of the only run that an employee has in a month, or why there is none.
fn only_key(found: InMonth, employee: Employee, month: Month) -> Result<Key, EditRefusal>
    ensures { result ≡ only_key found employee month }
{
    match found {
        InMonth::Empty => Err(EditRefusal::Absent {
            employee,
            when: When::Month(month),
        }),
        InMonth::One(key) => Ok(key),
        InMonth::Several => Err(EditRefusal::Several { employee, month }),
    }
}

/// Adds a run to its year, which is made where it isn't there. Without memory the years are as before.
fn add_run<L: Ledger>(
    plans: &Calendar<Plan>,
    years: &mut Vec<Year>,
    item: Record,
    steps: &mut Steps<L>,
) -> Result<Work, AllocError>
    requires { AreKeptYears (plans_in plans.now) years.old.items }
    ensures ok { IfOk result (IsListEdit (plans_in plans.now) years.old.items years.new.items
        (added item (runs_in years.old.items))) }
    ensures err { OnErr result (IsSameList (plans_in plans.now) years.old.items years.new.items) }
    ensures counted { Counts result steps.old steps.new
        (list_cost (plans_in plans.now) years.old.items (added item (runs_in years.old.items))) }
{
    let alloc = *years.allocator();
    let key = year_of(&item.key());
    match place_year(years.as_slice(), &key) {
        Ok(at) => {
            let year = &mut years[at];
            year.put(alloc, plans, item, steps)
        }
        Err(at) => {
            let mut year = Year::new(alloc, key);
            let work = year.put(alloc, plans, item, steps)?;
            years.insert(at, year)?;
            Ok(work)
        }
    }
}

/// Takes the run of a day away and puts another one of its year. Without memory the years are as before.
fn change_run<L: Ledger>(
    plans: &Calendar<Plan>,
    years: &mut Vec<Year>,
    from: Day,
    item: Record,
    steps: &mut Steps<L>,
) -> Result<Work, AllocError>
    requires years { AreKeptYears (plans_in plans.now) years.old.items }
    requires there { IsSome (at_key day_cmp record_day
        (runs_of (runs_in years.old.items) (year_of (key_of item))) from) }
    ensures ok { IfOk result (IsListEdit (plans_in plans.now) years.old.items years.new.items
        (changed from item (runs_in years.old.items))) }
    ensures err { OnErr result (IsSameList (plans_in plans.now) years.old.items years.new.items) }
    ensures counted { Counts result steps.old steps.new
        (list_cost (plans_in plans.now) years.old.items
        (changed from item (runs_in years.old.items))) }
{
    let alloc = *years.allocator();
    let key = year_of(&item.key());
    let at = place_year(years.as_slice(), &key).unwrap();
    years[at].change(alloc, plans, from, item, steps)
}

/// Takes a run away, and with its last run a year. Without memory the years are as before.
fn take_run<L: Ledger>(
    plans: &Calendar<Plan>,
    years: &mut Vec<Year>,
    key: &Key,
    steps: &mut Steps<L>,
) -> Result<Work, AllocError>
    requires years { AreKeptYears (plans_in plans.now) years.old.items }
    requires there { IsSome (run_at (runs_in years.old.items) key.now) }
    ensures ok { IfOk result (IsListEdit (plans_in plans.now) years.old.items years.new.items
        (withdrawn key.now (runs_in years.old.items))) }
    ensures err { OnErr result (IsSameList (plans_in plans.now) years.old.items years.new.items) }
    ensures counted { Counts result steps.old steps.new
        (list_cost (plans_in plans.now) years.old.items
        (withdrawn key.now (runs_in years.old.items))) }
{
    let alloc = *years.allocator();
    let at = place_year(years.as_slice(), &year_of(key)).unwrap();
    if years[at].records.len() == 1 {
        let _year = years.remove(at);
        return Ok(Work { runs: 0, steps: 0 });
    }
    years[at].take(alloc, plans, key.day, steps)
}
