//! To which statements and exits of a flowchart the runs of a table came.
//!
//! The runs of the table are loaded into a book of their own, and `run_coverage` counts over it.
#![tactic(auto)]

mod book;
mod plan;
mod refusal;
mod table;

pub use refusal::CoverRefusal;
pub use table::{TableCoverage, cover_table};
