//! The program's commands, over the outside that the caller hands in.
#![tactic(auto)]

mod answer;
mod bad_words;
mod call;
mod check;
mod once;
mod reply;
mod sample;
mod save;
mod script;
mod status;
mod summary;
mod words;

pub use bad_words::bad_value;
pub use call::{answer_laws, papcalc, papcalc_told, word_laws};
pub use save::save_laws;
pub use script_run::LineCounts;
pub use status::Status;
