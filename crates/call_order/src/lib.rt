//! The order of a plan's methods, and how long a plan is once its methods stand in place of what executes them.
#![tactic(auto)]

mod contents;
mod cycles;
mod fault;
mod lengths;
mod levels;
mod order;
mod theorems;

pub use fault::OrderFault;
pub use order::order_methods;
pub use theorems::{bound_laws, chain_laws, order_laws};
