//! What a run of the tree works with: the values of variables by number, what names stand for, the bodies of methods, and
//! operations on values that fit.
#![tactic(auto)]

mod methods;
mod names;
mod operations;
mod values;

pub use methods::method_body;
pub use names::{table, value_of_name};
pub use operations::{
    as_big, exact_quotient, goes_right, holds, is_zero, item, quotient, rescaled, truth,
};
pub use values::{put, start_values};
