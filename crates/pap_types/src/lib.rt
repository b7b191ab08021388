//! When a plan is well typed, and what a run of it means.
#![tactic(auto)]

mod declarations;
mod declared_names;
mod fault;
mod fault_list;
mod kinds;
mod limits;
mod literals;
mod meaning;
mod name_hashes;
mod nodes;
mod outlines;
mod scope;
mod sizes;
mod statements;
mod typed;

pub use fault::TypeFault;
pub use fault_list::{type_fault_laws, type_faults};
pub use kinds::{NodeKind, has_few_places, kind_of_one, kind_of_two};
pub use limits::LONGEST_CHAIN;
pub use literals::{FACTOR_PLACES, at_factor_scale, first_value, items_of, shortened};
pub use meaning::{bounded, one_outputs, typed_parts};
pub use outlines::{Outline, outline_of};
pub use typed::{Typed, check_types};
