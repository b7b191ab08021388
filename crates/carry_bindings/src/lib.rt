//! The inputs of a pay run: from its record, from the plan's defaults and from the employee's earlier runs of the year.
//!
//! The inputs are gone over once, in declared order. An input's value is looked up where the last run with the same
//! names had it, and searched for only where its name doesn't stand there.
#![tactic(auto)]

mod carried;
mod filling;
mod names;
mod outputs;

pub use carried::Earlier;
pub use filling::{Blocked, Filled, fill, fill_laws, reads_earlier};
