//! What can be wrong with a range file.
ghost use Rattle.std.specs.Prelude.{◌≡◌, alloc_error};
ghost use Rattle.limits_file.specs.declared.fault.LimitsFault.TheVariants.{Memory};
ghost use Rattle.limits_file.specs.Labels.{label_of};

use crate::Label;
use std::alloc::{AllocError, AllocFailed};
use thiserror::Error;

/// Why a text gives no limits. Its texts are for the author of a range file.
#[derive(Debug, Drop, Error)]
pub enum LimitsFault {
    /// The text is no TOML, or isn't UTF-8.
    #[error("the range file is not valid TOML")]
    Toml,
    /// A key that has no place there or whose value is of another type, or an entry that lacks a key.
    #[error("the key {name} isn't one that may stand there, its value isn't of its form, or it is an \
        entry that lacks a key")]
    Key { name: Label },
    /// An input whose bounds break their rule, or the 257th input.
    #[error("in the entry [input.{name}] low is above high, one of them isn't a number, has more digits \
        after its point than places or is beyond 10^37, or places isn't from 0 to 30, or this is the \
        257th input")]
    Bound { name: Label },
    /// The text has more than 262,144 bytes.
    #[error("the range file has more than 262144 bytes")]
    LimitsLong,
    /// Memory ran out.
    #[error("out of memory")]
    Memory(AllocError),
}

impl LimitsFault {
    /// A fault of a key.
    pub(crate) fn key(key: &str) -> LimitsFault
        ensures { result ≡ LimitsFault.Key (label_of key.now) }
    {
        LimitsFault::Key {
            name: Label::of(key),
        }
    }

    /// A fault of an input's bounds.
    pub(crate) fn bound(input: &str) -> LimitsFault
        ensures { result ≡ LimitsFault.Bound (label_of input.now) }
    {
        LimitsFault::Bound {
            name: Label::of(input),
        }
    }
}

impl<T: Drop> From<AllocFailed<T>> for LimitsFault {
    ghost from_gives = { λ _ fault. fault ≡ Memory alloc_error };

    fn from(_failed: AllocFailed<T>) -> LimitsFault {
        LimitsFault::Memory(AllocError)
    }
}
