//! The lines of a script, carried out one by one: what a line answers, what it makes of the book, and what it counts.
#![tactic(auto)]

mod book_plans;
mod book_words;
mod command;
mod edits;
mod filings;
mod going_on;
mod line_words;
mod load;
mod open;
mod plan;
mod refusals;
mod reply;
mod report;
mod script;
mod shown;
mod step;
mod stop;
mod takes;
mod time_words;
mod trace;
mod trial;
mod unwritten;

pub use going_on::going_on_laws;
pub use script::Script;
pub use step::{answer_line, step_laws};
pub use stop::LineStop;
pub use unwritten::{Refusal, answer_unwritten};
