//! Range files: the range of each input, and what inputs carry over from earlier runs.
#![tactic(auto)]

mod bindings;
mod entries;
mod fault;
mod inputs;
mod items;
mod label;
mod limits;
mod reading;
mod slots;

pub use bindings::unsuited_binding_key;
pub use fault::LimitsFault;
pub use inputs::{bound_at, places_at, unsuited_input_key};
pub use items::Items;
pub use label::Label;
pub use limits::{Binding, Carry, InputLimit, Limits};
pub use reading::{LONGEST_LIMITS, each_text_has_one_answer, files_are_in_order, read_limits};
pub use slots::{Slot, Spec};
