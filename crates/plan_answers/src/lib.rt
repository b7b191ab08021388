//! What is written on the bytes of a plan and of a range file: what an accepted plan says, or why it is refused.
#![tactic(auto)]

mod check;
mod fronts;
mod places;
mod refusals;
mod reply;

pub use check::{accepted_text, bound_line, check_reply, refused};
pub use fronts::read_both;
pub use reply::{Reply, refusal};
