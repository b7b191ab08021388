//! What the author of a flowchart may want to change: what no run executes, and what nothing reads or assigns.
#![tactic(auto)]

mod carries;
mod cursor;
mod declarations;
mod finding;
mod flowchart;
mod name_sets;
mod statements;
mod tags;
mod text;
mod uses;
mod words;

pub use carries::add_carry_findings;
pub use finding::{DeclarationSite, Finding, Group, StatementSite};
pub use flowchart::findings;
pub use text::findings_text;
