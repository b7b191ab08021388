//! The companion program's commands, over the outside that the caller hands in.
#![tactic(auto)]

mod answer;
mod call;
mod charted;
mod compared;
mod compared_pairs;
mod covered;
mod covered_words;
mod drawn;
mod example;
mod given;
mod linted;
mod stop;
mod traced;
mod words;

pub use call::{draft_laws, pap_author, word_laws};
pub use stop::{Stop, exit_number};
