//! All reasons why a run has no inputs, all faults of the stage that a plan doesn't pass, and faults that are told line by line.
#![tactic(auto)]

mod entry_lines;
mod expressions;
mod fault_lines;
mod operands;
mod reasons;
mod refusals;
mod stage_lines;
mod stages;

pub use expressions::{expression_faults, expression_laws};
pub use fault_lines::{MOST_TOLD, plan_lines, state_lines};
pub use reasons::{reason_laws, run_reasons, slot_reasons};
pub use refusals::refusal_lines;
