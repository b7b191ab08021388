//! The laws of the expression grammar, a machine that decides it token by token, and the canonical spelling as a text.
//!
//! The grammar is one table in `pap_tree`. This crate has no code: it proves the laws of that grammar by a machine that
//! reads token by token, and that a tree's canonical spelling is a text of it.
#![tactic(auto)]

mod grammar;
mod reading_back;

pub use grammar::{
    always_one, decides, keeps_places, one_fault, one_tree, reads_fronts, sized, spells,
    tree_or_fault,
};
pub use reading_back::spelling_is_a_text;
