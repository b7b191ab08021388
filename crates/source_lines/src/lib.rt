//! The lines of a plan's file on which its statements begin, by method and number.
#![tactic(auto)]

mod cursor;
mod lines;

pub use lines::{SourceLines, source_lines};
