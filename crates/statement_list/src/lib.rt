//! The statements of a flowchart by method and number, each with its expression as a text and the names that it reads.
#![tactic(auto)]

mod list;
mod reads;
mod statement;

pub use list::{ListedMethod, list_statements};
pub use statement::{Form, ListedStatement};
