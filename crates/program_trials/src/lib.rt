//! The tests of the top call and of what lies outside: whole answers, calls that fail, reasons of
//! refusals, streams. Answers to other words, and what standard error says, stand in
//! `examples/answers`, as rows for the built program.
#![tactic(auto)]

#[cfg(test)]
mod answers;
#[cfg(test)]
mod disturbed;
#[cfg(test)]
mod outside_objects;
#[cfg(test)]
mod reasons;
