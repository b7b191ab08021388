//! A range file to begin with, from the inputs of a plan.
#![tactic(auto)]

mod bounds;
mod draft;

pub use bounds::{Bounds, widest};
pub use draft::draft_ranges;
