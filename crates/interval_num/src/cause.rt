//! Why an operation on intervals is refused.
use std::error::Error;
use std::fmt;

/// Why an operation fails for some values of its intervals.
#[derive(Clone, Copy, Debug, PartialEq, Eq)]
pub enum RangeCause {
    /// A number may be beyond its limit: 10^37, or 32 or 64 bits.
    Wide,
    /// A scale may be above 30.
    Scale,
    /// A divisor may be zero.
    Divisor,
    /// An index may be outside its table.
    Index,
}

impl fmt::Display for RangeCause {
    ghost use Rattle.std.specs.Prelude.{Some};
    ghost use Rattle.interval_num.specs.Causes.{cause_text};

    ghost output = { λ cause. Some (cause_text cause) };

    fn fmt<W: fmt::Write>(&self, f: &mut fmt::Formatter<W>) -> fmt::Result {
        f.write_str(match self {
            RangeCause::Wide => "a number may be too great",
            RangeCause::Scale => "there may be more than 30 digits after the point",
            RangeCause::Divisor => "the divisor may be zero",
            RangeCause::Index => "the index may be outside the table",
        })
    }
}

impl Error for RangeCause {}
