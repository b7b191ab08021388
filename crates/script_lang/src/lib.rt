//! The lines of a script: what a line asks for, or why it is refused.
#![tactic(auto)]

mod command;
mod fault;
mod line;
mod run;
mod words;

pub use command::Command;
pub use fault::LineFault;
pub use line::{MOST_LINE, each_line_has_one_answer, read_line, read_next_line};
pub use payroll_records::NameOrder;
