//! From plans to flat code.
//!
//! The code is MAIN's, the end, and then that of each method once. Each name is a number in it, and each EXECUTE a
//! call.
//!
//! A constant stands in the code as a literal, and only variables have slots. Each declared name has a table, an
//! empty one where it isn't one, so that a table's number is that of its name. A jump forward is written over when
//! its target is reached; only the methods' places are found before, by one walk for their lengths.
#![tactic(auto)]

mod assembly;
mod depths;
mod emit;
mod names;
mod sizes;
mod statements;
mod values;

pub use assembly::compile;
