//! The walk of a plan over ranges of its variables: its definitions, and the law that every admitted input is safe where it
//! passes.
//!
//! The functions have empty bodies: their contracts are laws, the soundness of the walk among them.
#![tactic(auto)]

mod soundness;

pub use soundness::{
    admitted_inputs_are_safe, executed_statements_are_visited, no_range_gets_empty,
    nothing_is_refused_outright, ranges_suit_their_kinds, reading_refuses_nothing,
    refusals_are_rows, some_branch_is_reached, walks_read_all,
};
