//! A run of a flowchart as a text and as a part of a page: its inputs and outputs, and each statement that it executes with what came
//! of it.
#![tactic(auto)]

mod entries;
mod head;
mod marks;
mod page;
mod step_text;
mod tally;
mod telling;
mod text;
mod values;

pub use page::{RunOnPage, blocked_part, run_on_page};
pub use text::run_text;
