//! What a year's range file changed against the one before: ranges of inputs, and what inputs carry over.
#![tactic(auto)]

mod change;
mod changes;
mod entry;

pub use change::RangeChange;
pub use changes::compare_ranges;
pub use entry::RangeEntry;
