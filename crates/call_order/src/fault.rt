//! Why the methods of a plan have no order.
ghost use Rattle.std.specs.Prelude.{◌≡◌};
ghost use Rattle.call_order.specs.declared.fault.OrderFault.TheVariants.{Memory};

use pap_tree::Name;
use std::alloc::AllocError;
use thiserror::Error;

/// Why the methods of a plan have no order, or why the plan is too long: the first of these reasons. Its texts are for a
/// plan's author.
#[derive(Debug, Drop, Error)]
pub enum OrderFault {
    /// The first declared method that executes itself, directly or through others.
    #[error("the method {method} executes itself, directly or through the methods that it executes")]
    Cycle { method: Name },
    /// The first declared method that begins a chain of more than 64 methods, each of which executes the next.
    #[error("the method {method} begins a chain of more than 64 methods, each of which executes the \
        next")]
    Chain { method: Name },
    /// The statements of MAIN with those of all methods that it executes, where they are more than 200,000. The count
    /// stops at 2^63.
    #[error("with the statements of each executed method in the place of its EXECUTE the plan has \
        {count} statements, and at most 200000 may be")]
    TooLong { count: u64 },
    /// Memory ran out.
    #[error("out of memory")]
    Memory(AllocError),
}

impl From<AllocError> for OrderFault {
    ghost from_gives = { λ error fault. fault ≡ Memory error };

    fn from(error: AllocError) -> OrderFault {
        OrderFault::Memory(error)
    }
}
