//! What the walk over the ranges of values knows of the operands of a node that may fail, or of an output that may be beyond its bound.
ghost use Rattle.std.specs.Prelude.{◌≡◌, IfOk};
ghost use Rattle.std.specs.String.{string_bytes};
ghost use Rattle.diagnostics.specs.Operands.{one_words, operands_line, beyond_line, ranges_line, there_line, walk_line, two_words};

use interval_analysis::{RangeFault, ValueRange};
use interval_num::RangeCause;
use pap_plan::{PlanRefusal, RefusedPlan};
use pap_tree::Name;
use std::alloc::{AllocError, Global};
use std::fmt;

/// The most digits of an output after its point.
const OUTPUT_PLACES: u8 = 12;

/// A range in words: its only value, or its ends.
#[derive(Clone, Copy)]
struct RangeWords {
    range: ValueRange,
}

impl fmt::Display for RangeWords {
    ghost use Rattle.std.specs.Prelude.{Some};
    ghost use Rattle.diagnostics.specs.Operands.{operand_words};

    ghost output = { λ words. Some (operand_words words.range) };

    /// `is 5`, or `lies from 0.00 to 9.99`.
    fn fmt<W: fmt::Write>(&self, f: &mut fmt::Formatter<W>) -> fmt::Result {
        let least = self.range.least;
        let greatest = self.range.greatest;
        if least.compare(greatest).is_eq() {
            write!(f, "is {least}")
        } else {
            write!(f, "lies from {least} to {greatest}")
        }
    }
}

/// The ranges of two operands in words.
#[derive(Clone, Copy)]
struct BothWords {
    first: RangeWords,
    second: RangeWords,
}

impl fmt::Display for BothWords {
    ghost use Rattle.std.specs.Prelude.{Some};
    ghost use Rattle.diagnostics.specs.Operands.{both_words};

    ghost output = { λ words. Some (both_words words.first.range words.second.range) };

    /// `the first operand is 5, and the second lies from 0.00 to 9.99`.
    fn fmt<W: fmt::Write>(&self, f: &mut fmt::Formatter<W>) -> fmt::Result {
        let first = self.first;
        let second = self.second;
        write!(f, "the first operand {first}, and the second {second}")
    }
}

/// What is wrong with the range of an output.
#[derive(Clone, Copy)]
struct BeyondWords {
    range: ValueRange,
}

impl fmt::Display for BeyondWords {
    ghost use Rattle.std.specs.Prelude.{Some};
    ghost use Rattle.diagnostics.specs.Operands.{beyond_words};

    ghost output = { λ words. Some (beyond_words words.range) };

    /// `has up to 14 digits after its point, and an output has at most 12`, or within which range it lies.
    fn fmt<W: fmt::Write>(&self, f: &mut fmt::Formatter<W>) -> fmt::Result {
        let places = self.range.most_places;
        if places > OUTPUT_PLACES {
            write!(
                f,
                "has up to {places} digits after its point, and an output has at most 12"
            )
        } else {
            let range = RangeWords { range: self.range };
            write!(f, "{range}, and an output lies from -10^20 to 10^20")
        }
    }
}

/// The line of the ranges that belong to a refusal; nothing where there are none. Fails only for lack of memory.
pub(crate) fn operands_told(alloc: Global, refused: &RefusedPlan) -> Result<String, AllocError>
    ensures { IfOk result (λ text.
        string_bytes text ≡ walk_line refused.now.refusal refused.now.operands.items) }
{
    match &refused.refusal {
        PlanRefusal::Range(fault) => ranges_text(alloc, fault, &refused.operands),
        _ => Ok(String::new(alloc)),
    }
}

/// The line of the ranges that the walk has where it fails so.
fn ranges_text(
    alloc: Global,
    fault: &RangeFault,
    operands: &[ValueRange],
) -> Result<String, AllocError>
    ensures { IfOk result (λ text. string_bytes text ≡ ranges_line fault.now operands.now) }
{
    match fault {
        RangeFault::At { cause, .. } => operands_text(alloc, *cause, operands),
        RangeFault::Output { name } => match operands {
            [range] => output_text(alloc, *name, *range),
            _ => Ok(String::new(alloc)),
        },
        RangeFault::Memory(_) => Ok(String::new(alloc)),
    }
}

/// The line of the range that an output has behind MAIN.
fn output_text(alloc: Global, name: Name, range: ValueRange) -> Result<String, AllocError>
    ensures { IfOk result (λ text. string_bytes text ≡ beyond_line name range) }
{
    let words = BeyondWords { range };
    format!(in alloc; "papcalc: at the end the output {name} {words}\n")
}

/// The line of the ranges that the operands of a node have; nothing where it has none.
fn operands_text(
    alloc: Global,
    cause: RangeCause,
    operands: &[ValueRange],
) -> Result<String, AllocError>
    ensures { IfOk result (λ text. string_bytes text ≡ operands_line cause operands.now) }
{
    match operands {
        [only] => one_text(alloc, cause, *only),
        [first, second] => two_text(alloc, cause, *first, *second),
        _ => Ok(String::new(alloc)),
    }
}

/// The line of the range of a node's only operand.
fn one_text(alloc: Global, cause: RangeCause, only: ValueRange) -> Result<String, AllocError>
    ensures { IfOk result (λ text. string_bytes text ≡ there_line (one_words cause only)) }
{
    let range = RangeWords { range: only };
    match cause {
        RangeCause::Index => format!(in alloc; "papcalc: there the index {range}\n"),
        RangeCause::Wide | RangeCause::Scale | RangeCause::Divisor => {
            format!(in alloc; "papcalc: there the operand {range}\n")
        }
    }
}

/// The line of the ranges of a node's two operands, or of its divisor's where that may be zero.
fn two_text(
    alloc: Global,
    cause: RangeCause,
    first: ValueRange,
    second: ValueRange,
) -> Result<String, AllocError>
    ensures { IfOk result (λ text. string_bytes text ≡ there_line (two_words cause first second)) }
{
    let divisor = RangeWords { range: second };
    let both = BothWords {
        first: RangeWords { range: first },
        second: divisor,
    };
    match cause {
        RangeCause::Divisor => format!(in alloc; "papcalc: there the divisor {divisor}\n"),
        RangeCause::Wide | RangeCause::Scale | RangeCause::Index => {
            format!(in alloc; "papcalc: there {both}\n")
        }
    }
}
