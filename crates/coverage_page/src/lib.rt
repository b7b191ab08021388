//! To which statements of a flowchart and to which exits of its tests runs came, as the page of the flowchart shows it: a part above
//! the drawings, and in them how many runs came to each statement.
#![tactic(auto)]

mod item_list;
mod marks;
mod part;

pub use marks::coverage_marks;
pub use part::coverage_part;
