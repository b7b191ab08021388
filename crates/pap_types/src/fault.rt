//! Why a plan is not well typed.

use pap_tree::{Name, Place};
use std::alloc::AllocError;
use thiserror::Error;

/// The first of a plan's checks that doesn't pass. Its texts are for a plan's author, and say
/// what is wrong without the place.
#[derive(Debug, Drop, Error)]
pub enum TypeFault {
    /// A declared name, or a method's, that stands twice.
    #[error("the name {name} is declared twice")]
    Twice { name: Name },
    /// A name that isn't declared. The place of a target is that of its expression's last node.
    #[error("the name {name} isn't declared, or isn't one that may stand here")]
    Unknown { name: Name, place: Place },
    /// An operation that doesn't take its operands, or a value that doesn't suit its target.
    #[error("the types don't go together")]
    Kind { place: Place },
    /// An assignment to a constant.
    #[error("the target is a CONSTANT, which can't be given a value")]
    ConstantWritten { place: Place },
    /// An EXECUTE of a method that isn't there.
    #[error("there is no METHOD of this name")]
    NoMethod { place: Place },
    /// A declared literal that isn't of its type.
    #[error("the literal of {name} isn't of its type")]
    Value { name: Name },
    /// Memory ran out.
    #[error("out of memory")]
    Memory(AllocError),
}
