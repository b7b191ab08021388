//! The comments of two flowcharts' files: which of them stand in one file alone.
#![tactic(auto)]

mod change;
mod comment;
mod comparison;
mod moves;
mod reading;
mod tally;

pub use change::CommentChange;
pub use comment::Comment;
pub use comparison::{CommentComparison, compare_comments};
pub use reading::read_comments;
