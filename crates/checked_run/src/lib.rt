//! The run of a plan on any inputs of its types: the values at its end, or the first node that fails, with its cause.
//!
//! The tree is run, with a test before each operation.
#![tactic(auto)]

mod cause;
mod expressions;
mod failure;
mod fits;
mod operations;
mod run;
mod statements;

pub use cause::FailureCause;
pub use failure::RunFailure;
pub use run::{RunEnd, checked_run, failures_are_unsafe};
