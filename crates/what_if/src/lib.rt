//! What a new plan would change: the runs of a book that would come to another state, and their outputs, while the book stays
//! as it is.
#![tactic(auto)]

mod rows;
mod sides;
mod states;
mod trial;
mod trials;

pub use trial::{Shown, Trial, TrialRow, TryRefusal};
pub use trials::{trial_laws, try_plan};
