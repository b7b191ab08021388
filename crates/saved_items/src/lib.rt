//! The text of a saved book as items: the work, the plans as texts, and the runs. What the plans mean and what the runs came
//! to is no matter here.
#![tactic(auto)]

mod front;
mod item;
mod item_words;
mod items;
mod lines;
mod next;
mod numbers;
mod reading;
mod run_words;
mod writing;
mod wrong_items;

pub use items::{ItemFault, PlanItem, SavedBook};
pub use reading::{each_text_has_one_answer, read_items};
pub use run_words::run_law;
pub use writing::{push_end, push_head, push_plan, push_run, push_run_count};
pub use wrong_items::{Wanted, WrongItem, wrong_item};
