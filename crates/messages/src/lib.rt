//! The messages of the programs, as lines of words or as objects of JSON.
//!
//! A message comes as a line of words. Where the form is JSON, [`MessageSink`] cuts that line into its fields and writes them as an object.
//! Each field is there exactly where the line has it, and put together the fields are the line again. [`AnswerSink`] stands before the
//! answers and keeps the last refusal, whose group and name the next object has as its code.
#![tactic(auto)]

mod answer_sink;
mod cut;
mod form;
mod json;
mod message;
mod message_sink;
mod objects;
mod reading;

pub use answer_sink::{AnswerSink, LastRefusal};
pub use form::MessageForm;
pub use json::{json_laws, push_json};
pub use message::{Message, Position, Program, Site};
pub use message_sink::MessageSink;
pub use reading::{message_of, reading_laws};
