//! Why a text is refused.
ghost use Rattle.std.specs.Prelude.{◌≡◌};
ghost use Rattle.pap_expr.specs.declared.fault.ExprFault.TheVariants.{Memory};

use std::alloc::{AllocError, AllocFailed};
use thiserror::Error;

/// Why a text is refused, and the byte where the token begins that stops its reading: the text's length where the text
/// ends too early. `Deep` is tried first, then up to `Syntax`; `Memory` may come at any point. Their texts are for a
/// plan's author, and say what is wrong without the place.
#[derive(Clone, Copy, Debug, PartialEq, Eq, Error)]
pub enum ExprFault {
    /// The token isn't allowed there.
    #[error("something else is expected here")]
    Syntax { at: usize },
    /// The token begins a form that Java has here and the flowchart's profile doesn't.
    #[error("this form isn't part of the profile")]
    Unsupported { at: usize },
    /// A literal with a point is right after `new BigDecimal(`, where Java would take its binary value.
    #[error("new BigDecimal of a number with a point takes a binary fraction, which isn't exact")]
    BinaryFraction { at: usize },
    /// A number beyond its range.
    #[error("the number is beyond its range")]
    Number { at: usize },
    /// More than 1,000 tokens, or more than 64 levels.
    #[error("the text has more than 1000 words, numbers and signs, or more than 64 open brackets \
        and signs")]
    Deep { at: usize },
    /// Memory ran out.
    #[error("out of memory")]
    Memory,
}

impl From<AllocError> for ExprFault {
    ghost from_gives = { λ _ e. e ≡ Memory };

    fn from(_e: AllocError) -> ExprFault {
        ExprFault::Memory
    }
}

impl<T: Drop> From<AllocFailed<T>> for ExprFault {
    ghost from_gives = { λ _ e. e ≡ Memory };

    fn from(_e: AllocFailed<T>) -> ExprFault {
        ExprFault::Memory
    }
}
