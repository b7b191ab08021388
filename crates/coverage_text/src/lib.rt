//! To which statements of a flowchart and to which exits of its tests runs came, as a text.
#![tactic(auto)]

mod counts;
mod item;
mod items;
mod sites;
mod text;

pub use counts::{CoverageCounts, count_methods, share_of, share_reached};
pub use item::{ExitRuns, Item, MethodItems};
pub use items::flowchart_items;
pub use sites::Known;
pub use text::coverage_text;
