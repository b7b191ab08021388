//! Acceptance: from the two texts of a plan to a plan that runs, whatever admitted inputs it gets.
#![tactic(auto)]

mod acceptance;
mod bindings;
mod bound;
mod inputs;
mod judgement;
mod plan;
mod refusal;
mod unmatched;

pub use acceptance::{accept, acceptance_laws, read_plan};
pub use bound::{BoundPlan, read_bound};
pub use judgement::{Judgement, RefusedPlan, judge_plan};
pub use plan::Plan;
pub use plan_text::Spot;
pub use refusal::PlanRefusal;
pub use unmatched::{limit_fault_laws, limit_faults};
