//! Expressions of the flowchart: from their text to their tree.
//!
//! The parser's contracts are steps of the machine of `expr_grammar`. If it is asked (`parse_expr_placed`), a trail
//! that follows the same reading tells where the nodes stand: beside each frame of the parser's stack it keeps the byte
//! at which the frame's text begins, and it notes a node's bytes when its last token is read.
#![tactic(auto)]

mod constant;
mod constants;
mod expression;
mod fault;
mod frame;
mod laws;
mod operand;
mod reader;
mod reading;
mod stack;
mod state;
mod steps;
mod stretch;
mod trail;
mod words;

pub use constants::parse_constant;
pub use expression::{parse_assign, parse_assign_placed, parse_expr, parse_expr_placed};
pub use fault::ExprFault;
pub use laws::{each_text_has_one_answer, each_text_has_one_tree, spellings_are_read_back};
pub use stretch::Stretch;
