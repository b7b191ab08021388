//! Edits of the calendar.
ghost use Rattle.std.specs.Prelude.{◌≡◌, ◌↔◌, IfOk, IfErr, OnErr, is_some, IsSome, IsTrue};
ghost use Rattle.plan_calendar.specs.Picking.{AreEntries, entry_at, with_entry, without_day};
ghost use Rattle.book_year.specs.Accepted.{accepted, plans_in};
ghost use Rattle.book_year.specs.Jobs.{Counts};
ghost use Rattle.book_edits.specs.Kept.{AreSameYears, AreYears};
ghost use Rattle.book_edits.specs.Refusals.{CountsEdit};
ghost use Rattle.book_edits.specs.Replans.{IsDropRefused, HasMostPlans, IsPutRefused, IsReplan, replan_cost};
ghost use Rattle.book_edits.specs.private.RedoneClauses.{AreRedoneFor};

use crate::redone::{Redone, put_in, redo_years};
use crate::refusal::EditRefusal;
use crate::years::Years;
use book_year::{Picks, Work};
use pap_plan::Plan;
use payroll_records::Day;
use plan_calendar::{Calendar, MOST_PLANS};
use std::alloc::AllocError;
use std::sync::ledger::Ledger;
use steps::Steps;

/// Puts a plan at its day, in place of one that stood there, and computes anew what that changes. Runs exactly the runs whose
/// job is new. `Plans` where there are 64 plans and none of that day, else `Memory` where memory runs out; plans and runs are
/// then as before.
pub fn put_plan<L: Ledger>(
    plans: &mut Calendar<Plan>,
    years: &mut Years,
    day: Day,
    plan: Plan,
    steps: &mut Steps<L>,
) -> Result<Work, EditRefusal>
    requires { AreYears (plans_in plans.old) years.old }
    ensures ok { IfOk result
        (IsReplan (plans_in plans.old) years.old (plans_in plans.new) years.new
        (with_entry (day, accepted plan) (plans_in plans.old))) }
    ensures can { IfOk result (λ _. HasMostPlans (plans_in plans.old) day → ⊥) }
    ensures plans_stay { OnErr result (plans.new ≡ plans.old) }
    ensures years_stay { OnErr result (AreSameYears (plans_in plans.old) years.old years.new) }
    ensures refused { IfErr result (IsPutRefused (plans_in plans.old) day) }
    ensures counted { CountsEdit result steps.old steps.new
        (replan_cost (plans_in plans.old)
        (with_entry (day, accepted plan) (plans_in plans.old)) years.old) }
{
    if is_full(plans.entries(), day) {
        return Err(EditRefusal::Plans);
    }
    let done = redone_with(plans, years, day, &plan, steps)?;
    if plans.put(day, plan).is_err() {
        return Err(EditRefusal::Memory(AllocError));
    }
    put_in(&mut years.list, done.outcomes);
    Ok(done.work)
}

/// Takes the plan of a day away, and computes anew what that changes: its days get the plan before it in its year, or none.
/// Runs exactly the runs whose job is new. `NoPlanThere` where no plan holds from that day, else `Memory` where memory runs
/// out; plans and runs are then as before.
pub fn drop_plan<L: Ledger>(
    plans: &mut Calendar<Plan>,
    years: &mut Years,
    day: Day,
    steps: &mut Steps<L>,
) -> Result<Work, EditRefusal>
    requires { AreYears (plans_in plans.old) years.old }
    ensures ok { IfOk result
        (IsReplan (plans_in plans.old) years.old (plans_in plans.new) years.new
        (without_day day (plans_in plans.old))) }
    ensures can { IfOk result (λ _. IsSome (entry_at (plans_in plans.old) day)) }
    ensures plans_stay { OnErr result (plans.new ≡ plans.old) }
    ensures years_stay { OnErr result (AreSameYears (plans_in plans.old) years.old years.new) }
    ensures refused { IfErr result (IsDropRefused (plans_in plans.old) day) }
    ensures counted { CountsEdit result steps.old steps.new
        (replan_cost (plans_in plans.old) (without_day day (plans_in plans.old)) years.old) }
{
    if !has_plan(plans.entries(), day) {
        return Err(EditRefusal::NoPlanThere { day });
    }
    let done = redone_without(plans, years, day, steps)?;
    let _plan = plans.drop_day(day);
    put_in(&mut years.list, done.outcomes);
    Ok(done.work)
}

/// The years computed anew for a plan that is about to be put.
fn redone_with<'a, L: Ledger>(
    plans: &'a Calendar<Plan>,
    years: &Years,
    day: Day,
    plan: &'a Plan,
    steps: &mut Steps<L>,
) -> Result<Redone, AllocError>
    requires entries { AreEntries plans.now }
    requires years { AreYears (plans_in plans.now) years.now }
    ensures done { IfOk result
        (AreRedoneFor (plans_in plans.now)
        (with_entry (day, accepted plan.now) (plans_in plans.now)) years.now) }
    ensures counted { Counts result steps.old steps.new
        (replan_cost (plans_in plans.now)
        (with_entry (day, accepted plan.now) (plans_in plans.now)) years.now) }
{
    let picks = Picks::edited(plans, day, Some((day, plan)));
    redo_years(&picks, years, steps)
}

/// The years computed anew for a plan that is about to be taken away: its days get the one before it in its year.
fn redone_without<L: Ledger>(
    plans: &Calendar<Plan>,
    years: &Years,
    day: Day,
    steps: &mut Steps<L>,
) -> Result<Redone, AllocError>
    requires entries { AreEntries plans.now }
    requires years { AreYears (plans_in plans.now) years.now }
    requires there { IsSome (entry_at (plans_in plans.now) day) }
    ensures done { IfOk result
        (AreRedoneFor (plans_in plans.now) (without_day day (plans_in plans.now)) years.now) }
    ensures counted { Counts result steps.old steps.new
        (replan_cost (plans_in plans.now) (without_day day (plans_in plans.now)) years.now) }
{
    let picks = Picks::edited(plans, day, plans.pick_before(day));
    redo_years(&picks, years, steps)
}

/// Whether there are 64 plans, and none of a day.
pub fn is_full(entries: &[(Day, Plan)], day: Day) -> bool
    requires { AreEntries entries.now }
    ensures { IsTrue result ↔ HasMostPlans (plans_in entries.now) day }
{
    entries.len() == MOST_PLANS && !has_plan(entries, day)
}

/// Whether a plan holds from a day on.
fn has_plan(entries: &[(Day, Plan)], day: Day) -> bool
    requires { AreEntries entries.now }
    ensures { result ≡ is_some (entry_at (plans_in entries.now) day) }
{
    entries.binary_search_by_key(&day, |e| e.0).is_ok()
}
