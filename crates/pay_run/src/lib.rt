//! One run of a plan on a record: its inputs, its outputs and its steps.
#![tactic(auto)]

mod inputs;
mod outputs;

pub use inputs::{each_is_kept, filled, reads_earlier, run_laws};
pub use outputs::{Finished, run};
