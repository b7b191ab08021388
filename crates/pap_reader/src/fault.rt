//! Why a text is not read.

ghost use Rattle.std.specs.Prelude.{◌≡◌};
ghost use Rattle.pap_reader.specs.declared.fault.ReadFault.TheVariants.{Memory};
ghost use Rattle.pap_reader.specs.Amounts.{counted_words};
ghost use Rattle.pap_reader.specs.Limits.{most};

use crate::text::LONGEST_PLAN;
use pap_tree::{
    MOST_CONSTANTS, MOST_INPUTS, MOST_INTERNALS, MOST_METHODS, MOST_NESTING, MOST_OUTPUTS,
    MOST_STATEMENTS,
};
use std::alloc::{AllocError, AllocFailed};
use std::fmt;
use thiserror::Error;

/// What there is too much of.
#[derive(Clone, Copy, Debug, PartialEq, Eq)]
pub enum Which {
    /// More than 1,048,576 bytes.
    Bytes,
    /// More than 256 INPUTs.
    Inputs,
    /// More than 256 OUTPUTs.
    Outputs,
    /// More than 1,024 INTERNALs.
    Internals,
    /// More than 512 CONSTANTs.
    Constants,
    /// More than 256 METHODs.
    Methods,
    /// More than 20,000 statements: EVALs, EXECUTEs and IFs.
    Statements,
    /// More than 32 IFs in one another.
    Depth,
}

impl Which {
    /// The most that there may be.
    fn most(self) -> u32
        ensures { result ≡ most self }
    {
        match self {
            Which::Bytes => LONGEST_PLAN as u32,
            Which::Inputs => MOST_INPUTS,
            Which::Outputs => MOST_OUTPUTS,
            Which::Internals => MOST_INTERNALS,
            Which::Constants => MOST_CONSTANTS,
            Which::Methods => MOST_METHODS,
            Which::Statements => MOST_STATEMENTS,
            Which::Depth => MOST_NESTING,
        }
    }

    /// What there may be so much of.
    fn words(self) -> &'static str
        ensures { result.now ≡ counted_words self }
    {
        match self {
            Which::Bytes => "bytes",
            Which::Inputs => "INPUTs",
            Which::Outputs => "OUTPUTs",
            Which::Internals => "INTERNALs",
            Which::Constants => "CONSTANTs",
            Which::Methods => "METHODs beside MAIN",
            Which::Statements => "EVALs, EXECUTEs and IFs",
            Which::Depth => "IFs in one another",
        }
    }
}

impl fmt::Display for Which {
    ghost use Rattle.std.specs.Prelude.{Some};
    ghost use Rattle.pap_reader.specs.Amounts.{amount_text};

    ghost output = { λ which. Some (amount_text which) };

    /// The most that there may be, and of what.
    fn fmt<W: fmt::Write>(&self, f: &mut fmt::Formatter<W>) -> fmt::Result {
        let most = self.most();
        let words = self.words();
        write!(f, "{most} {words}")
    }
}

/// Why a text is not read. Its texts are for a plan's author, and say what is wrong without the place. `at` is the
/// token's first byte, counted from the file's beginning; at the end of the text it is the number of its bytes.
#[derive(Clone, Copy, Debug, PartialEq, Eq, Error)]
pub enum ReadFault {
    /// No token begins there.
    #[error("expected a tag, a comment or white space")]
    Text { at: usize },
    /// The tag, or the end of the text, is not allowed there.
    #[error("expected another element or another end tag")]
    Element { at: usize },
    /// An attribute of the tag is missing, stands twice, is longer than 8,192 bytes or is not of its form.
    #[error("the tag lacks a needed attribute, or has one that isn't of its form, stands twice or is \
        longer than 8192 bytes")]
    Attribute { at: usize },
    /// There is too much of something.
    #[error("there may be at most {which}")]
    Many { which: Which },
    /// Memory ran out.
    #[error("out of memory")]
    Memory,
}

impl From<AllocError> for ReadFault {
    ghost from_gives = { λ _ fault. fault ≡ Memory };

    fn from(_error: AllocError) -> ReadFault {
        ReadFault::Memory
    }
}

impl<T: Drop> From<AllocFailed<T>> for ReadFault {
    ghost from_gives = { λ _ fault. fault ≡ Memory };

    fn from(_error: AllocFailed<T>) -> ReadFault {
        ReadFault::Memory
    }
}
