//! The runs of a book that have no amounts, by cause, and what is said of them.
#![tactic(auto)]

mod cause;
mod filled;
mod line;
mod tally;

pub use cause::Cause;
pub use line::open_line;
pub use tally::{CauseCount, MOST_CAUSES, OpenRuns, open_runs};
