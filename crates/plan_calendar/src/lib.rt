//! Plans by the day from which they hold.
#![tactic(auto)]

mod calendar;

pub use calendar::{Calendar, MOST_PLANS, PutRefusal, edits_move_picks, picks_are_latest};
