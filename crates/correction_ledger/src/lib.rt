//! Filings of a book's outputs: what was filed stays filed, and what changes afterwards is owed, once.
//!
//! Beside the entries stand their sums by key and name, so that a filing merges the book's rows with these and doesn't
//! go over what was filed before. It takes all memory before the entries are appended.
#![tactic(auto)]

mod balances;
mod due;
mod filings;
mod ledger;
mod outputs;
mod rows;

pub use due::{Due, Entry};
pub use ledger::{FileRefusal, Ledger, OwedRefusal, owed_laws};
