//! The incremental book: pay runs and plans, and what each run came to, which is at any time what computing every run anew
//! gives. An edit runs as many runs as have a new job.
//!
//! The years of all employees stand in one list, in order of employee and year. Plans are lent below the book and never
//! dropped there.
#![tactic(auto)]

mod book;
mod job;
mod months;
mod values;

pub use book::{Book, RestoredBook, book_laws, edit_laws};
pub use book_edits::{EditRefusal, InMonth};
pub use book_year::{State, Work};
pub use job::Job;
pub use months::{MonthRow, Months};
