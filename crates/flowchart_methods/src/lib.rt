//! The methods of a flowchart's page: each drawn as SVG, with what stands beside its drawing.
#![tactic(auto)]

mod callers;
mod chapter;
mod comments;
mod conditions;
mod figure;
mod kind;
mod mark;
mod measures;
mod method;
mod site;
mod statement;
mod symbols;

pub use chapter::{Chapter, read_chapters};
pub use comments::{write_comments, write_last_paragraph, write_paragraphs};
pub use conditions::Condition;
pub use kind::{ExitKind, MarkKind};
pub use mark::{Mark, MethodMarks, runs_text};
pub use method::write_methods;
pub use site::Site;
