//! The tests of what a book is made of: pay runs and the lines of a script. What a book answers to
//! them stands in `examples/answers`, as rows for the built program.
#![tactic(auto)]

#[cfg(test)]
mod lines;
#[cfg(test)]
mod records;
