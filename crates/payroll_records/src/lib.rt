//! Payroll records: who was paid on which day, from which named values, and the tables that list them.
//!
//! Values stand in order of their names' bytes, with a list of which name was given after which, in a line or a header,
//! that runs with the same names share.
//!
//! The cells of a table's row are read once, from left to right; the first that is neither empty nor a number ends the
//! reading. Then the numbers are put in order of their names.
#![tactic(auto)]

mod day;
mod employee;
mod header;
mod limits;
mod month;
mod name_order;
mod names;
mod record;
mod row;
mod rows;
mod table;
mod value_word;
mod values;
mod when;

pub use day::Day;
pub use employee::Employee;
pub use limits::{LONGEST_TABLE, MOST_RECORDS, MOST_VALUES};
pub use month::Month;
pub use name_order::NameOrder;
pub use record::{Key, Record};
pub use table::{TableFault, each_table_has_one_answer, read_table};
pub use values::{Guess, InsertFault, NamedValue, Values};
pub use when::{When, when_laws};
