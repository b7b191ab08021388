//! What a year's flowchart changed against the one before: both flowcharts as lists of texts, and which of these stand in one, in
//! the other or in both.
#![tactic(auto)]

mod alignment;
mod comparison;
mod entry;
mod gaps;
mod item;
mod line;
mod matching;
mod outline;
mod pairing;
mod proposals;
mod statements;

pub use alignment::align;
pub use comparison::{Comparison, MethodComparison, compare, differs};
pub use entry::Entry;
pub use item::Item;
pub use line::Line;
pub use outline::{MethodOutline, Outline, read_outline};
