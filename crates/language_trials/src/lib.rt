//! The tests of the language: each public call that takes memory, with ample memory. What a whole
//! flowchart is answered stands in `examples/answers`, as rows for the built program.
#![tactic(auto)]

#[cfg(test)]
mod element_texts;
#[cfg(test)]
mod expressions;
#[cfg(test)]
mod range_files;
#[cfg(test)]
mod tokens;
