//! The walk along a year's runs, in order of day.
ghost use Rattle.std.specs.Prelude.{◌≡◌, ◌≤◌, All, length, Option, Some, None, IfOk};
ghost use Rattle.std.specs.Bool.{OnFalse};
ghost use Rattle.std.specs.List.{AllByRecursion};
ghost use Rattle.std.specs.Option.{option_map};
ghost use Rattle.payroll_records.specs.declared.day.Day.{Day as Date};
ghost use Rattle.plan_calendar.specs.Picking.{Entry, plan_of};
ghost use Rattle.carry_bindings.specs.Conditions.{AreBounded};
ghost use Rattle.carry_bindings.specs.declared.filling.Filled.TheVariants.{Inputs as HasInputs};
ghost use Rattle.carry_bindings.specs.Limits.{most_runs};
ghost use Rattle.pap_plan.specs.Plans.{Admits};
ghost use Rattle.book_year.specs.Accepted.{Accepted};
ghost use Rattle.book_year.specs.Rows.{Job, job_of, row_of, row_filled};
ghost use Rattle.book_year.specs.Jobs.{same_inputs, new_job, Counts};
ghost use Rattle.book_year.specs.Kept.{IsOld};
ghost use Rattle.book_year.specs.Picks.{planned_before, planned_after, KnowsSame, ArePicks, picked_plan};
ghost use Rattle.book_year.specs.private.ChainClauses.{old_parts, outcome_job, IsOldJob, KeepsOutputs, IsRan, CountsRun};
ghost use Rattle.book_year.specs.ChainClauses.{old_jobs, chain_cost, IsChain, KeepsFront};
ghost use Rattle.book_year.specs.private.ChainClauses.{IsChainRest, PlanReadsNothing};

use crate::done::{Done, copied, copy_of, lent_front};
use crate::outcome::{Outcome, State, Work};
use crate::picks::{Picked, Picks};
use crate::records::place_run;
use carry_bindings::{Earlier, Filled};
use limits_file::Items;
use pay_run::{filled, reads_earlier, run};
use payroll_records::{Day, NamedValue, Record};
use scaled_decimal::Dec;
use std::alloc::{AllocError, Global};
use std::sync::ledger::Ledger;
use steps::Steps;

/// What is kept of a year before an edit: its records in order of day, and what each came to.
#[derive(Clone, Copy)]
pub struct Old<'a> {
    /// In order of day.
    pub records: &'a [Record],
    /// In the order of the records.
    pub outcomes: &'a [Outcome],
}

/// The inputs and outputs of a run that has run.
#[derive(Clone, Copy)]
pub(crate) struct OldJob<'a> {
    pub(crate) inputs: &'a Items<Dec>,
    pub(crate) outputs: &'a Items<NamedValue>,
}

/// A run's outcome, and the work that it took.
#[derive(Drop)]
pub(crate) struct Ran {
    pub(crate) outcome: Outcome,
    pub(crate) work: Work,
}

/// A year's outcomes computed for an edit, and the work that it took.
#[derive(Drop)]
pub struct Recalculated {
    /// In order of day.
    pub outcomes: Vec<Outcome>,
    /// Of the runs whose job is new.
    pub work: Work,
}

/// What a year's runs came to behind the first `kept` ones, whose outcomes stay; and the work that
/// they took.
#[derive(Drop)]
pub(crate) struct Rest {
    pub(crate) kept: usize,
    pub(crate) outcomes: Vec<Outcome>,
    pub(crate) work: Work,
}

/// Computes a year's runs in order of day, and runs those whose job isn't the old one of their day.
/// The first `kept` runs are as they were, with their plans: what they came to is taken as it is
/// kept. The counter rises by exactly the steps of those that are run; where memory runs out it may
/// have risen by some of them.
pub fn recalculate<L: Ledger>(
    alloc: Global,
    picks: &Picks,
    old: Old,
    kept: usize,
    records: &[&Record],
    steps: &mut Steps<L>,
) -> Result<Recalculated, AllocError>
    requires picks { ArePicks picks.now }
    requires old { IsOld (planned_before picks.now) old }
    requires front { KeepsFront picks.now old records.now kept }
    requires few { length records.now ≤ most_runs }
    ensures done { IfOk result (IsChain picks.now old.entry records.now) }
    ensures counted { Counts result steps.old steps.new
        (chain_cost picks.now old.entry records.now) }
{
    let mut rest = recalculate_rest(alloc, picks, old, kept, records, steps)?;
    let mut outcomes = copied(alloc, old.outcomes, kept)?;
    outcomes.append(&mut rest.outcomes)?;
    Ok(Recalculated {
        outcomes,
        work: rest.work,
    })
}

/// Computes the runs of a year behind its first `kept`, whose outcomes stay where they are. In all
/// else as `recalculate`.
pub(crate) fn recalculate_rest<L: Ledger>(
    alloc: Global,
    picks: &Picks,
    old: Old,
    kept: usize,
    records: &[&Record],
    steps: &mut Steps<L>,
) -> Result<Rest, AllocError>
    requires picks { ArePicks picks.now }
    requires old { IsOld (planned_before picks.now) old }
    requires front { KeepsFront picks.now old records.now kept }
    requires few { length records.now ≤ most_runs }
    ensures kept { IfOk result (λ rest. rest.kept ≡ kept) }
    ensures done { IfOk result (IsChainRest picks.now old.entry records.now) }
    ensures counted { Counts result steps.old steps.new
        (chain_cost picks.now old.entry records.now) }
{
    let runs_left = &records[kept..];
    let reads = some_reads(picks, runs_left);
    let earlier = lent_front(alloc, old, kept, reads)?;
    let mut done = Done {
        outcomes: Vec::new(alloc),
        earlier,
    };
    let mut runs = 0;
    let mut taken = 0;
    for item in runs_left {
        let ran = next_run(alloc, picks, old, item, done.earlier.as_slice(), steps)?;
        runs += ran.work.runs;
        taken += ran.work.steps;
        done.push(alloc, item.day, ran.outcome, reads)?;
    }
    Ok(Rest {
        kept,
        outcomes: done.outcomes,
        work: Work { runs, steps: taken },
    })
}

/// Whether the plan of some run's day reads what earlier runs came to.
fn some_reads(picks: &Picks, records: &[&Record]) -> bool
    requires { ArePicks picks.now }
    ensures { OnFalse result
        (All (λ item. PlanReadsNothing (planned_after picks.now item.now.day)) records.now) }
{
    for item in records {
        if plan_reads(picks, item.day) {
            return true;
        }
    }
    false
}

/// Whether a day has a plan that reads what earlier runs came to.
fn plan_reads(picks: &Picks, day: Day) -> bool
    requires { ArePicks picks.now }
    ensures { OnFalse result (PlanReadsNothing (planned_after picks.now day)) }
{
    match picks.pick(day) {
        Some(picked) => reads_earlier(picked.plan),
        None => false,
    }
}

/// Whether the inputs are the same, with the same scales.
fn same_inputs(a: &Items<Dec>, b: &Items<Dec>) -> bool
    ensures { result ≡ same_inputs a.now b.now }
{
    a.as_slice() == b.as_slice()
}

/// The outputs of the old job, where it is the new one.
fn kept_outputs<'a>(
    old: Option<OldJob<'a>>,
    same: bool,
    inputs: &Items<Dec>,
) -> Option<&'a Items<NamedValue>>
    ensures { (was : Option (Entry Accepted)) (job : Option Job) (e : Entry Accepted)
        → KnowsSame was (Some e) same → IsOldJob was job old.entry
        → KeepsOutputs (new_job job (Some (job_of (plan_of e) inputs.now)))
        (job_of (plan_of e) inputs.now) result }
{
    let job = old?;
    if !same {
        return None;
    }
    if !same_inputs(job.inputs, inputs) {
        return None;
    }
    Some(job.outputs)
}

/// The outcome of a run whose inputs are known. It runs where they or the plan's texts are new.
fn run_job<L: Ledger>(
    alloc: Global,
    picked: Picked,
    old: Option<OldJob>,
    inputs: Items<Dec>,
    steps: &mut Steps<L>,
) -> Result<Ran, AllocError>
    requires { Admits picked.plan.now inputs }
    ensures ran { (was : Option (Entry Accepted)) (job : Option Job) (day : Date)
        → KnowsSame was (Some (picked_plan picked.entry)) picked.entry.same
        → IsOldJob was job old.entry
        → IfOk result (IsRan (row_filled (picked_plan picked.entry) day (HasInputs inputs)) job) }
    ensures counted { CountsRun result steps.old steps.new }
{
    if let Some(outputs) = kept_outputs(old, picked.same, &inputs) {
        let outputs = copy_of(alloc, outputs)?;
        return Ok(Ran {
            outcome: finished(picked.day, inputs, outputs),
            work: Work { runs: 0, steps: 0 },
        });
    }
    let ran = run(alloc, picked.plan, inputs.as_slice(), steps)?;
    Ok(Ran {
        outcome: finished(picked.day, inputs, ran.outputs),
        work: Work {
            runs: 1,
            steps: ran.cost,
        },
    })
}

/// The outcome of a run that has run.
fn finished(plan: Day, inputs: Items<Dec>, outputs: Items<NamedValue>) -> Outcome
    ensures { result ≡ record {
      plan = Some plan;
      inputs = Some inputs;
      state = State.Done outputs;
    } }
{
    Outcome {
        plan: Some(plan),
        inputs: Some(inputs),
        state: State::Done(outputs),
    }
}

/// The run of a record, after the earlier ones of its year.
fn next_run<L: Ledger>(
    alloc: Global,
    picks: &Picks,
    old: Old,
    item: &Record,
    earlier: &[Earlier],
    steps: &mut Steps<L>,
) -> Result<Ran, AllocError>
    requires picks { ArePicks picks.now }
    requires old { IsOld (planned_before picks.now) old }
    requires few { length earlier.now ≤ most_runs }
    requires bounded { AllByRecursion (λ e. AreBounded e.outputs) earlier.now }
    ensures ran { IfOk result
        (IsRan (row_of (planned_after picks.now item.now.day) earlier.now item.now)
        (old_jobs picks.now old.entry item.now.day)) }
    ensures counted { CountsRun result steps.old steps.new }
{
    let Some(picked) = picks.pick(item.day) else {
        return Ok(idle(None, State::NoPlan));
    };
    match filled(alloc, picked.plan, item, earlier)? {
        Filled::State(why) => Ok(idle(Some(picked.day), State::Blocked(why))),
        Filled::Inputs(inputs) => run_job(
            alloc,
            picked,
            old_job(picks, old, item.day),
            inputs,
            steps,
        ),
    }
}

/// A run without inputs.
fn idle(plan: Option<Day>, state: State) -> Ran
    ensures { result ≡ record {
      outcome = record { plan = plan; inputs = None; state = state };
      work = record { runs = 0; steps = 0 };
    } }
{
    Ran {
        outcome: Outcome {
            plan,
            inputs: None,
            state,
        },
        work: Work { runs: 0, steps: 0 },
    }
}

/// The job that a day had, where it had one.
fn old_job<'a>(picks: &Picks, old: Old<'a>, day: Day) -> Option<OldJob<'a>>
    requires { IsOld (planned_before picks.now) old }
    ensures { IsOldJob (planned_before picks.now day) (old_jobs picks.now old.entry day) result }
{
    let Ok(at) = place_run(old.records, day) else {
        return None;
    };
    job_of(&old.outcomes[at])
}

/// The inputs and outputs of an outcome that has both.
fn job_of(outcome: &Outcome) -> Option<OldJob<'_>>
    ensures { option_map old_parts result ≡ outcome_job outcome.now }
{
    let inputs = outcome.inputs.as_ref()?;
    match &outcome.state {
        State::Done(outputs) => Some(OldJob { inputs, outputs }),
        _ => None,
    }
}
