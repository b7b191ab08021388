//! What a run came to.

use carry_bindings::Blocked;
use limits_file::Items;
use payroll_records::{Day, NamedValue};
use scaled_decimal::Dec;

/// The state of a run.
#[derive(Drop)]
pub enum State {
    /// No plan serves the run's day.
    NoPlan,
    /// The run has no inputs.
    Blocked(Blocked),
    /// The run's outputs, in declared order.
    Done(Items<NamedValue>),
}

/// What is kept of a run beside its record.
#[derive(Drop)]
pub struct Outcome {
    /// The day from which the run's plan holds, where it has a plan.
    pub plan: Option<Day>,
    /// The run's inputs in declared order, where it has them.
    pub inputs: Option<Items<Dec>>,
    /// The run's state.
    pub state: State,
}

/// How many runs an edit runs, and the steps that they take.
#[derive(Clone, Copy, Debug, PartialEq, Eq)]
pub struct Work {
    /// How many runs.
    pub runs: u64,
    /// The steps that they take.
    pub steps: u64,
}
