//! All faults of a range file's entries.
#![tactic(auto)]

mod bounds;
mod entries;
mod fault;
mod file;
mod forms;
mod key_text;

pub use fault::{EntryFault, Section};
pub use file::{fault_laws, file_faults, read_table};
pub use key_text::KeyText;
