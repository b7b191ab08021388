//! Why a node fails.
use std::fmt;

/// Why an operation fails on the values of its operands.
#[derive(Clone, Copy, Debug, PartialEq, Eq)]
pub enum FailureCause {
    /// A number is beyond its limit: 10^37, or 32 or 64 bits.
    Wide,
    /// A scale is above 30.
    Scale,
    /// The divisor is zero.
    Divisor,
    /// The index is outside its table.
    Index,
}

impl fmt::Display for FailureCause {
    ghost use Rattle.std.specs.Prelude.{Some};
    ghost use Rattle.checked_run.specs.FailureTexts.{failure_text};

    ghost output = { λ cause. Some (failure_text cause) };

    fn fmt<W: fmt::Write>(&self, f: &mut fmt::Formatter<W>) -> fmt::Result {
        f.write_str(match self {
            FailureCause::Wide => "a number is too great",
            FailureCause::Scale => "there are more than 30 digits after the point",
            FailureCause::Divisor => "the divisor is zero",
            FailureCause::Index => "the index is outside the table",
        })
    }
}
