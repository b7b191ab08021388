//! HTML as it is written: the markup that a flowchart's page may have, and how numbers, names and texts stand in it.
#![tactic(auto)]

mod escape;
mod fill;
mod page;

pub use escape::{escape_laws, push_escaped};
pub use fill::Fill;
pub use page::{Page, template_laws};
