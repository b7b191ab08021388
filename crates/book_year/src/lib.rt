//! One employee's calendar year of pay runs: what each came to, kept so that an edit runs only the runs whose job is new.
//!
//! A run's job is the two texts of its plan and its inputs. The runs of a year are one chain, since a run may read the
//! outputs of earlier ones: they are computed anew in order of day, and a run whose job is the old one of its day keeps
//! its outputs.
//!
//! An edit fills from the first changed day on; what earlier runs came to is kept. Where no flowchart from there on
//! carries an input over, no outputs are copied for later runs to read.
#![tactic(auto)]

mod chain;
mod done;
mod outcome;
mod picks;
mod records;
mod year;

pub use chain::{Old, Recalculated, recalculate};
pub use outcome::{Outcome, State, Work};
pub use picks::{Edit, Picked, Picks};
pub use records::{place_run, put_in_room, put_reference, references, runs_before};
pub use year::{Year, YearKey, year_laws};
