//! What the runs of a book never touch: how many of them came to each statement of a flowchart, and how many took each exit of its
//! tests.
//!
//! Each run that has amounts is carried out once more by `month_trace`, and each statement and exit keeps the number of
//! the last run that came there, so that a run counts once. One trace is held at a time.
#![tactic(auto)]

mod board;
mod coverage;
mod runs;
mod statement;
mod tally;

pub use coverage::{Coverage, cover_book};
pub use runs::{MethodRuns, StatementRuns};
