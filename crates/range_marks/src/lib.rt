//! What the walk over a flowchart's ranges knows of its statements, as the drawings show it: under each EVAL the range of what it puts,
//! and the statements and exits that no run within the ranges comes to; of a walk that stops at a node the same up to there, and why that
//! may fail. And what it knows of the internals: the range of each over the whole run.
#![tactic(auto)]

mod findings;
mod internals;
mod marks;
mod place;
mod text;

pub use findings::{FailingNode, Findings};
pub use internals::internal_ranges;
pub use marks::range_marks;
