//! The ranges of a plan's values: whether every run on admitted inputs is safe, and within which ranges its outputs lie.
//!
//! The walk is that of `interval_walk`, with the variables' ranges in an array by number. What a branch changes is
//! noted with what it replaced, so that the branch can be left as it was entered; where two branches meet only what is
//! noted is joined, in place (`joins.rt`). The parts of `&&`, `||` and a conditional are walked on the same array, and
//! their changes taken back at the end. A variable's name is looked up by its first 16 bytes as one number. Asked by
//! `survey`, the walk keeps each statement to which it comes, the least range of what each EVAL puts over all visits,
//! and which exits of each IF are open. A walk that stops at a node brings the ranges of its operands along (`stop.rt`).
#![tactic(auto)]

mod analysis;
mod bounds;
mod branches;
mod comparisons;
mod conditions;
mod expressions;
mod fault;
mod joins;
mod names;
mod nodes;
mod operations;
mod outputs;
mod repeats;
mod start;
mod statements;
mod stop;
mod tables;
mod value_range;
mod variables;
mod verdict;
mod visits;
mod weights;

pub use analysis::{analyse, analyse_told, survey};
pub use fault::RangeFault;
pub use value_range::ValueRange;
pub use verdict::{OutputRange, RefusedRanges, RefusedSurvey, Survey, Verdict};
