//! The runs of a year that are done.
ghost use Rattle.std.specs.Prelude.{◌≡◌, ◌≤◌, ◌++◌, [], ◌∷◌, length, map, take, IfOk, OnOk};
ghost use Rattle.book_year.specs.Kept.{IsOld};
ghost use Rattle.book_year.specs.Rows.{Planned, earlier_of, done_outputs, read_of, year_rows};
ghost use Rattle.book_year.specs.private.ChainClauses.{lent_if};

use crate::chain::Old;
use crate::outcome::{Outcome, State};
use carry_bindings::Earlier;
use limits_file::Items;
use payroll_records::{Day, NamedValue};
use scaled_decimal::Dec;
use std::alloc::{AllocError, Global};

/// What the runs behind a front came to, and what later ones read of all that are done: nothing where no plan reads it.
#[derive(Drop)]
pub(crate) struct Done {
    pub(crate) outcomes: Vec<Outcome>,
    pub(crate) earlier: Vec<Earlier>,
}

impl Done {
    /// Puts one run more behind them. Its outputs are kept for later ones only where these read them.
    pub(crate) fn push(
        &mut self,
        alloc: Global,
        day: Day,
        outcome: Outcome,
        reads: bool,
    ) -> Result<(), AllocError>
        ensures outcomes { OnOk result
            (self.new.outcomes.items ≡ self.old.outcomes.items ++ outcome ∷ []) }
        ensures earlier { OnOk result (self.new.earlier.items
            ≡ self.old.earlier.items ++ lent_if reads (read_of day outcome.state ∷ [])) }
    {
        if reads {
            let outputs = outputs_of(alloc, &outcome.state)?;
            self.earlier.push(Earlier { day, outputs })?;
        }
        Ok(self.outcomes.push(outcome)?)
    }
}

/// What later runs read of the first `count` runs of a year, where they read anything.
pub(crate) fn lent_front(
    alloc: Global,
    old: Old,
    count: usize,
    reads: bool,
) -> Result<Vec<Earlier>, AllocError>
    requires within { count ≤ length old.records.now }
    requires each { length old.outcomes.now ≡ length old.records.now }
    ensures { (planned : Planned) → IsOld planned old.entry → IfOk result (λ read. read.items
        ≡ lent_if reads (map earlier_of (take count (year_rows planned old.entry.records.now)))) }
{
    if reads {
        return front(alloc, old, count);
    }
    Ok(Vec::new(alloc))
}

/// What later runs read of the first `count` runs of a year.
fn front(alloc: Global, old: Old, count: usize) -> Result<Vec<Earlier>, AllocError>
    requires within { count ≤ length old.records.now }
    requires each { length old.outcomes.now ≡ length old.records.now }
    ensures { (planned : Planned) → IsOld planned old.entry → IfOk result (λ read. read.items
        ≡ map earlier_of (take count (year_rows planned old.entry.records.now))) }
{
    let mut earlier = Vec::new(alloc);
    for (at, outcome) in old.outcomes[..count].iter().enumerate() {
        let outputs = outputs_of(alloc, &outcome.state)?;
        let day = old.records[at].day;
        earlier.push(Earlier { day, outputs })?;
    }
    Ok(earlier)
}

/// The first `count` outcomes again.
pub(crate) fn copied(
    alloc: Global,
    outcomes: &[Outcome],
    count: usize,
) -> Result<Vec<Outcome>, AllocError>
    requires { count ≤ length outcomes.now }
    ensures { IfOk result (λ copies. copies.items ≡ take count outcomes.now) }
{
    let mut copies = Vec::new(alloc);
    for outcome in &outcomes[..count] {
        copies.push(copy_of_outcome(alloc, outcome)?)?;
    }
    Ok(copies)
}

/// What later runs read of a state.
fn outputs_of(alloc: Global, state: &State) -> Result<Option<Items<NamedValue>>, AllocError>
    ensures { IfOk result (λ outputs. outputs ≡ done_outputs state.now) }
{
    match state {
        State::Done(outputs) => Ok(Some(copy_of(alloc, outputs)?)),
        _ => Ok(None),
    }
}

/// The same values again.
pub(crate) fn copy_of(
    alloc: Global,
    values: &Items<NamedValue>,
) -> Result<Items<NamedValue>, AllocError>
    ensures { IfOk result (λ copy. copy ≡ values.now) }
{
    Ok(Items::from_vec(Vec::from_slice(alloc, values.as_slice())?))
}

/// The same outcome again.
fn copy_of_outcome(alloc: Global, outcome: &Outcome) -> Result<Outcome, AllocError>
    ensures { IfOk result (λ copy. copy ≡ outcome.now) }
{
    Ok(Outcome {
        plan: outcome.plan,
        inputs: copy_of_inputs(alloc, &outcome.inputs)?,
        state: copy_of_state(alloc, &outcome.state)?,
    })
}

/// The same inputs again, where there are some.
fn copy_of_inputs(
    alloc: Global,
    inputs: &Option<Items<Dec>>,
) -> Result<Option<Items<Dec>>, AllocError>
    ensures { IfOk result (λ copy. copy ≡ inputs.now) }
{
    match inputs {
        None => Ok(None),
        Some(inputs) => Ok(Some(Items::from_vec(Vec::from_slice(alloc, inputs.as_slice())?))),
    }
}

/// The same state again.
fn copy_of_state(alloc: Global, state: &State) -> Result<State, AllocError>
    ensures { IfOk result (λ copy. copy ≡ state.now) }
{
    match state {
        State::NoPlan => Ok(State::NoPlan),
        State::Blocked(why) => Ok(State::Blocked(*why)),
        State::Done(outputs) => Ok(State::Done(copy_of(alloc, outputs)?)),
    }
}
