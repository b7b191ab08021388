//! The comparison of two flowcharts as it is written: a text for a terminal or a log, and a page of HTML.
#![tactic(auto)]

mod cells;
mod comment_text;
mod comments;
mod contents;
mod counts;
mod lines;
mod page;
mod parts;
mod ranges;
mod rows;
mod text;

pub use comment_text::write_comment_changes;
pub use page::{FileNames, commented_page, comparison_page, ranges_differ};
pub use ranges::write_range_changes;
pub use text::comparison_text;
