//! One item of a saved book.
use crate::PlanItem;
use payroll_records::Record;

/// An item of a saved book, but for its last line.
#[derive(Drop)]
pub(crate) enum Item<'a> {
    /// The title.
    Title,
    /// The last work: how many runs it ran, in how many steps.
    Work { runs: u64, steps: u64 },
    /// How many plans there are.
    PlanCount(u64),
    /// A plan.
    Plan(PlanItem<'a>),
    /// How many runs there are.
    RunCount(u64),
    /// A run.
    Run(Record),
}
