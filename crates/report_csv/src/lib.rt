//! The report of a book: what each pay run came to, as a CSV text.
//!
//! Rows go through memory into the sink in pieces of some 32 KB, each with one writer of `csv`. The first five fields
//! of a run's rows are put into one text once a run, and the name and number of a row into another; `csv` writes each
//! row as these two texts, without quotes, since a law says that no field needs them.
#![tactic(auto)]

mod front;
mod report;
mod rows;
mod run;
mod texts;

pub use report::{ReportFault, report_laws, write_report};
