//! The book.
ghost use Rattle.std.specs.Prelude.{◌≡◌, ◌≤◌, [], length, IfOk, OnErr, IfSome, IfNone, option_map};
ghost use Rattle.std.specs.Option.{option_copied};
ghost use Rattle.payroll_records.specs.Tables.{HaveOwnKeys};
ghost use Rattle.book_year.specs.Accepted.{accepted, plans_in};
ghost use Rattle.book_edits.specs.Books.{in_month, run_at};
ghost use Rattle.book_year.specs.Jobs.{Counts};
ghost use Rattle.book_edits.specs.Kept.{AreYears, years_of};
ghost use Rattle.book_edits.specs.Refusals.{CountsEdit, most_records};
ghost use Rattle.recalc_engine.specs.BookLaws.{AreAcceptedPlans, BooksAreTheirParts, HaveKeptValues, IsBook, JobsAreDone};
ghost use Rattle.recalc_engine.specs.BookLaws.{JobsAreSafe, NewJobsAreByKey, RowsAreCounted, RowsAreRuns, RowsRise};
ghost use Rattle.recalc_engine.specs.BookLaws.{RunsAreDistinct, SameTextsChangeNothing};
ghost use Rattle.recalc_engine.specs.Contents.{book_of, cost_between, row_at, whole_cost, whole_work};
ghost use Rattle.recalc_engine.specs.EditAnswers.{EditsHaveOneAnswer, IsEdited, edited_book};
ghost use Rattle.recalc_engine.specs.EditAnswers.{add, change, drop, load, put, withdraw};
ghost use Rattle.recalc_engine.specs.MonthRows.{month_rows};
ghost use Rattle.recalc_engine.specs.RowLaws.{AreBookRows};
ghost use Rattle.recalc_engine.specs.EditMaps.{EditsAreMapped};
ghost use Rattle.recalc_engine.specs.RunMaps.{RunsAreMapped};
ghost use Rattle.recalc_engine.specs.Jobs.{AdmitsInputs, HasNoOutputs, job_of_key, lent_job};

use crate::job::{Job, inputs_on, job_of, year_at};
use crate::months::Months;
use crate::values::each_year_is_kept;
use book_edits::{EditRefusal, InMonth, RestoredYears, Years, drop_plan, load, put_plan, restore};
use book_year::Work;
use pap_plan::Plan;
use payroll_records::{Day, Employee, Key, Month, Record, When};
use plan_calendar::Calendar;
use std::alloc::{AllocError, Global};
use std::marker::Model;
use std::sync::ledger::Ledger;
use steps::Steps;

/// Pay runs by employee and day, plans by day, and what each run came to.
#[derive(Drop)]
pub struct Book {
    years: Years,
    plans: Calendar<Plan>,
    last: Work,
}

/// A book of which every run that has inputs was run, and the work of that.
#[derive(Drop)]
pub struct RestoredBook {
    /// The book.
    pub book: Book,
    /// How many runs were run, and their steps.
    pub work: Work,
}

impl Model for Book {
    ghost use Rattle.std.specs.Coded.{codes};
    ghost use Rattle.recalc_engine.specs.Codes.{body_code};
    ghost use Rattle.book_year.specs.Accepted.{plans_in};
    ghost use Rattle.book_edits.specs.Kept.{AreYears, years_of};
    ghost use Rattle.recalc_engine.specs.Contents.{Contents};

    ghost Value = { Contents };

    ghost coded = { Prim.hlevel (
      codes,
      body_code (Prim.hlevel codes) (Prim.hlevel codes) (Prim.hlevel codes),
    ) };

    ghost view = { λ b. record {
      years = years_of b.years;
      plans = plans_in b.plans;
      last = b.last;
    } };

    ghost invariant = { λ b. AreYears (plans_in b.plans) b.years };
}

impl Book {
    /// A book without runs and without plans.
    pub fn new(alloc: Global) -> Book
        ensures { result ≡ book_of [] [] (record { runs = 0; steps = 0 }) }
    {
        Book {
            years: Years::new(alloc),
            plans: Calendar::new(alloc),
            last: Work { runs: 0, steps: 0 },
        }
    }

    /// A book of these runs and plans, whose last work was this. Each run that has inputs is run: the answer has the
    /// work of that, and the counter rises by exactly its steps; where memory runs out it may have risen by some of
    /// them.
    pub fn restore<L: Ledger>(
        alloc: Global,
        runs: Vec<Record>,
        plans: Calendar<Plan>,
        last: Work,
        steps: &mut Steps<L>,
    ) -> Result<RestoredBook, AllocError>
        requires distinct { HaveOwnKeys runs.items }
        requires few { length runs.items ≤ most_records }
        ensures ok { IfOk result
            (λ restored. restored.book ≡ book_of runs.items (plans_in plans) last) }
        ensures work { IfOk result
            (λ restored. restored.work ≡ whole_work (book_of runs.items (plans_in plans) last)) }
        ensures counted { Counts result steps.old steps.new
            (whole_cost (book_of runs.items (plans_in plans) last)) }
    {
        let RestoredYears { years, work } = restore(alloc, &plans, runs, steps)?;
        let book = Book { years, plans, last };
        Ok(RestoredBook { book, work })
    }

    /// A law: it looks at each plan and changes nothing. Each book is as `IsBook` says.
    pub fn law(&self)
        ensures { IsBook self.now }
    {
        each_is_accepted(self.plans.entries());
    }

    /// A law: it looks at each plan and changes nothing. The rows of each book are as `AreBookRows` says.
    pub fn rows_law(&self)
        ensures { AreBookRows (month_rows self.now) }
    {
        let _ = &self.years;
        self.law();
    }

    /// A law: it looks at each value and changes nothing. The values of each book's runs are as `HaveKeptValues` says.
    pub fn values_law(&self)
        ensures { HaveKeptValues self.now }
    {
        each_year_is_kept(self.years.list.as_slice());
    }

    /// The work of the last edit that was accepted, else zeros.
    pub fn last_work(&self) -> Work
        ensures { result ≡ self.now.last }
    {
        self.last
    }

    /// The runs by employee and calendar year, in order, with what is kept of each.
    pub fn years(&self) -> &Years
        ensures years { years_of result.now ≡ self.now.years }
        ensures kept { AreYears self.now.plans result.now }
    {
        &self.years
    }

    /// The plans by day.
    pub fn plans(&self) -> &Calendar<Plan>
        ensures { plans_in result.now ≡ self.now.plans }
    {
        &self.plans
    }

    /// The run of a key.
    pub fn find(&self, key: &Key) -> Option<&Record>
        ensures { option_copied result ≡ run_at self.now.years key.now }
    {
        self.years.find(key)
    }

    /// The runs that an employee has in a month.
    pub fn in_month(&self, employee: &Employee, month: Month) -> InMonth
        ensures { result ≡ in_month self.now.years employee.now month.year month.month }
    {
        self.years.in_month(employee, month)
    }

    /// All runs, in order of employee and day, with the days of their plans and their states.
    pub fn months(&self) -> Months<'_>
        ensures { result ≡ month_rows self.now }
    {
        Months::of(self.years.list.as_slice())
    }

    /// What the run of a key ran: its plan and its inputs. `None` exactly where there is no such run, or it has no outputs.
    pub fn job(&self, key: &Key) -> Option<Job<'_>>
        ensures job { option_map lent_job result ≡ job_of_key self.now key.now }
        ensures admitted { IfSome result AdmitsInputs }
        ensures none { IfNone result (HasNoOutputs (row_at self.now key.now)) }
    {
        let year = year_at(self.years.list.as_slice(), key)?;
        let inputs = inputs_on(year, key.day)?;
        let (_, plan) = self.plans.pick(key.day)?;
        Some(job_of(plan, inputs))
    }

    /// Adds a run. After a refusal the book is as before.
    pub fn add<L: Ledger>(
        &mut self,
        item: Record,
        steps: &mut Steps<L>,
    ) -> Result<Work, EditRefusal>
        ensures answers { IsEdited self.old (add item) self.new result }
        ensures err { OnErr result (self.new ≡ self.old) }
        ensures counted { CountsEdit result steps.old steps.new
            (cost_between self.old (edited_book (add item) self.old)) }
    {
        let work = self.years.add(&self.plans, item, steps)?;
        self.last = work;
        Ok(work)
    }

    /// Puts a run in place of that of its day, or else of the only one of its month, whose day it then takes. After a
    /// refusal the book is as before.
    pub fn change<L: Ledger>(
        &mut self,
        item: Record,
        steps: &mut Steps<L>,
    ) -> Result<Work, EditRefusal>
        ensures answers { IsEdited self.old (change item) self.new result }
        ensures err { OnErr result (self.new ≡ self.old) }
        ensures counted { CountsEdit result steps.old steps.new
            (cost_between self.old (edited_book (change item) self.old)) }
    {
        let work = self.years.change(&self.plans, item, steps)?;
        self.last = work;
        Ok(work)
    }

    /// Takes a run away: that of a day, or the only one of a month. After a refusal the book is as before.
    pub fn withdraw<L: Ledger>(
        &mut self,
        employee: Employee,
        when: When,
        steps: &mut Steps<L>,
    ) -> Result<Work, EditRefusal>
        ensures answers { IsEdited self.old (withdraw employee when) self.new result }
        ensures err { OnErr result (self.new ≡ self.old) }
        ensures counted { CountsEdit result steps.old steps.new
            (cost_between self.old (edited_book (withdraw employee when) self.old)) }
    {
        let work = self.years.withdraw(&self.plans, employee, when, steps)?;
        self.last = work;
        Ok(work)
    }

    /// Adds all these runs, or none of them. After a refusal the book is as before.
    pub fn load<L: Ledger>(
        &mut self,
        items: Vec<Record>,
        steps: &mut Steps<L>,
    ) -> Result<Work, EditRefusal>
        requires { HaveOwnKeys items.items }
        ensures answers { IsEdited self.old (load items.items) self.new result }
        ensures err { OnErr result (self.new ≡ self.old) }
        ensures counted { CountsEdit result steps.old steps.new
            (cost_between self.old (edited_book (load items.items) self.old)) }
    {
        let work = load(&self.plans, &mut self.years, items, steps)?;
        self.last = work;
        Ok(work)
    }

    /// Puts a plan at its day, in place of one that stood there. After a refusal the book is as before.
    pub fn put_plan<L: Ledger>(
        &mut self,
        day: Day,
        plan: Plan,
        steps: &mut Steps<L>,
    ) -> Result<Work, EditRefusal>
        ensures answers { IsEdited self.old (put (day, accepted plan)) self.new result }
        ensures err { OnErr result (self.new ≡ self.old) }
        ensures counted { CountsEdit result steps.old steps.new
            (cost_between self.old (edited_book (put (day, accepted plan)) self.old)) }
    {
        let work = put_plan(&mut self.plans, &mut self.years, day, plan, steps)?;
        self.last = work;
        Ok(work)
    }

    /// Takes the plan of a day away. After a refusal the book is as before.
    pub fn drop_plan<L: Ledger>(
        &mut self,
        day: Day,
        steps: &mut Steps<L>,
    ) -> Result<Work, EditRefusal>
        ensures answers { IsEdited self.old (drop day) self.new result }
        ensures err { OnErr result (self.new ≡ self.old) }
        ensures counted { CountsEdit result steps.old steps.new
            (cost_between self.old (edited_book (drop day) self.old)) }
    {
        let work = drop_plan(&mut self.plans, &mut self.years, day, steps)?;
        self.last = work;
        Ok(work)
    }
}

/// The texts of each plan were accepted, as its type says.
fn each_is_accepted(entries: &[(Day, Plan)])
    ensures { AreAcceptedPlans (plans_in entries.now) }
{
    for entry in entries {
        entry.1.law();
    }
}

/// A law of the definitions: every edit of every book has one answer.
pub fn edit_laws()
    ensures { EditsHaveOneAnswer }
{}

/// Laws of the definitions: the rows of a book stand in order, one for each run; a book is the book of its runs, which have
/// different keys, its plans and its last work; the new jobs of a book are those of its keys, each told from the job of its key
/// in the old one; a plan with the texts that stand at its day changes nothing; a run that has a job is done, with the job's
/// outputs; the run of each job gets to its end; an edit of the runs changes the run at its key alone, and an accepted edit of a
/// book the runs that it means and nothing else.
pub fn book_laws()
    ensures rise { RowsRise }
    ensures counted { RowsAreCounted }
    ensures runs { RowsAreRuns }
    ensures parts { BooksAreTheirParts }
    ensures distinct { RunsAreDistinct }
    ensures work { NewJobsAreByKey }
    ensures same { SameTextsChangeNothing }
    ensures done { JobsAreDone }
    ensures safe { JobsAreSafe }
    ensures mapped { RunsAreMapped }
    ensures edits { EditsAreMapped }
{}
