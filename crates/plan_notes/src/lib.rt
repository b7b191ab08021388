//! The tags of a plan's file: where each begins, the comments before it, and the attributes in it.
//!
//! They are made of the tokens that `pap_reader` reads; what is kept is the comments and where each element begins and ends.
#![tactic(auto)]

mod attributes;
mod notes;
mod scan;
mod tag;
mod text;

pub use attributes::value_byte;
pub use notes::{Notes, Walk};
pub use pap_reader::Element;
pub use scan::{notes_of, read_notes};
pub use tag::{Mark, Starts, element_name, tag_laws};
pub use text::one_line;
