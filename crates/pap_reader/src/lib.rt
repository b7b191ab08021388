//! Reads the elements of a plan's file, each with the texts of its attributes.
//!
//! The file is read once, from left to right, into its tokens, which keep their places for the crates above; then the elements
//! are read from these, with the open elements on a stack, each with its children so far. Time and memory are linear in the file,
//! but for the names of one tag's attributes. `pap_expr` reads the texts of attributes later. What an element text is stands in
//! `specs/Elements.antt`: tokens, their nesting after a table of elements, their attributes, and the tree that they say.
//!
//! What may stand at a place is decided by the tags before it, attributes aside, so a tag is refused for its place
//! before its attributes are looked at. The names of a tag's attributes are kept in order, not by hashes: the
//! standard hash has a fixed seed, so a file could make names that collide.
#![tactic(auto)]

mod attributes;
mod bytes;
mod counts;
mod element;
mod elements;
mod fault;
mod reader;
mod skipped;
mod tags;
mod text;
mod tokens;
mod values;

pub use attributes::value_of;
pub use bytes::split_letters;
pub use element::Element;
pub use elements::{Elements, RawDeclared, RawMethod, RawStmt};
pub use fault::{ReadFault, Which};
pub use skipped::{after_prolog, past_mark};
pub use tags::{Attribute, Form, Tag, ValueFront, read_tag, read_value_front};
pub use text::{LONGEST_PLAN, element_laws, elements_of, read_elements, token_laws};
pub use tokens::{Token, Tokens, read_tokens};
pub use values::read_byte;
