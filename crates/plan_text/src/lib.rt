//! The text of a plan, whole: its elements, and the expressions that stand in their attributes.
#![tactic(auto)]

mod declarations;
mod fault;
mod reading;
mod statements;

pub use fault::{PlanFault, Spot};
pub use reading::{plan_laws, read_plan};
