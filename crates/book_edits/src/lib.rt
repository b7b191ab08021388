//! The runs of a book by employee and calendar year: what stands at a key, and the edits of its runs and of its plans, each of
//! which counts as many runs as have a new job.
//!
//! Many runs are put in at once: they are grouped by year; each group's year is computed with them once, beside the book, and
//! has memory for all its runs; then the years of the book and those of the groups are merged, without memory.
#![tactic(auto)]

mod drafts;
mod edits;
mod groups;
mod in_month;
mod loads;
mod merge;
mod places;
mod plans;
mod records;
mod redone;
mod refusal;
mod refused;
mod years;

pub use in_month::InMonth;
pub use loads::{RestoredYears, load, restore};
pub use places::{place_year, year_of};
pub use plans::{drop_plan, is_full, put_plan};
pub use redone::{RedoneYear, redo_year};
pub use refusal::EditRefusal;
pub use years::{Years, years_laws};
