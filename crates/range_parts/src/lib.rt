//! Parts of the ranges of a plan's inputs.
#![tactic(auto)]

mod limits;
mod parts;

pub use parts::{Parts, copied, split};
