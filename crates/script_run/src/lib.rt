//! The lines of a script, taken from a source turn by turn and answered one by one.
#![tactic(auto)]

mod deliver;
mod line_counts;
mod memory;
mod open_line;
mod reading;
mod sample;
mod stop;
mod transcript;
mod turns;

pub use line_counts::LineCounts;
pub use sample::{MOST_EMPLOYEES, run_sample, sample_line_count};
pub use script_lang::MOST_LINE;
pub use stop::{Stop, Stopped};
pub use transcript::transcript_laws;
pub use turns::{Ended, Unwritten, run, run_unwritten};

/// The most bytes of a script.
pub const MOST_SCRIPT: usize = 67_108_864;

/// The most bytes that one turn takes.
pub(crate) const MOST_TURN: usize = 65_536;
