//! For a flowchart that the walk over ranges refuses: admitted inputs on which its run fails, or that every admitted input is safe.
//!
//! The walk refuses a flowchart that may fail, and some that never do. Where it refuses, the flowchart is run on some
//! of the inputs that its ranges admit, by `checked_run`, and then the ranges are split at one input after another, by
//! `range_parts` (branch and bound), for at most 2,000 walks. The plan comes from `read_bound` of `pap_plan`, which is
//! acceptance without its last stage. `tools/broken_flowcharts.py` counts on flowcharts broken at random how often an
//! answer is found.
#![tactic(auto)]

mod failure;
mod outputs;
mod samples;
mod search;
mod text;

pub use failure::Failure;
pub use search::{Search, failing_input};
pub use text::search_text;
