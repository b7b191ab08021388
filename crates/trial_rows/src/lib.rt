//! Tables of tests, a row a line: what is asked, ` => ` and the answer that is wanted.
#![tactic(auto)]

mod asked;
mod rows;

pub use rows::all_rows;
