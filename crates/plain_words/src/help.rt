//! What helps against a refusal, where the refusal alone decides it.
ghost use Rattle.std.specs.Prelude.{◌≡◌};
ghost use Rattle.std.specs.Option.{option_copied};
ghost use Rattle.plain_words.specs.Helps.{help_of, read_help, excess_help, expression_help, type_help};
ghost use Rattle.plain_words.specs.Helps.{order_help, limits_help, range_help, cause_help};

use call_order::OrderFault;
use interval_analysis::RangeFault;
use interval_num::RangeCause;
use limits_file::LimitsFault;
use pap_expr::ExprFault;
use pap_plan::PlanRefusal;
use pap_reader::{ReadFault, Which};
use pap_types::TypeFault;

/// What helps against a refusal. `None` where the refusal alone doesn't decide it.
pub(crate) fn help_of(refusal: &PlanRefusal) -> Option<&'static str>
    ensures { option_copied result ≡ help_of refusal.now }
{
    match refusal {
        PlanRefusal::Read(fault) => read_help(fault),
        PlanRefusal::Expr { fault, .. } => expression_help(fault),
        PlanRefusal::Types(fault) => type_help(fault),
        PlanRefusal::Order(fault) => order_help(fault),
        PlanRefusal::Limits(fault) => limits_help(fault),
        PlanRefusal::Range(fault) => range_help(fault),
        _ => None,
    }
}

/// What helps where the elements of a plan's file aren't read.
fn read_help(fault: &ReadFault) -> Option<&'static str>
    ensures { option_copied result ≡ read_help fault.now }
{
    match fault {
        ReadFault::Many { which } => Some(excess_help(*which)),
        _ => None,
    }
}

/// What helps where there is too much of something.
fn excess_help(which: Which) -> &'static str
    ensures { result.now ≡ excess_help which }
{
    match which {
        Which::Bytes => "take out comments and what isn't used",
        Which::Statements => {
            "take out what isn't used, and put what stands several times into a METHOD"
        }
        Which::Depth => "put inner IFs into a METHOD",
        _ => "take out what isn't used",
    }
}

/// What helps where the text of an expression isn't read.
pub(crate) fn expression_help(fault: &ExprFault) -> Option<&'static str>
    ensures { option_copied result ≡ expression_help fault.now }
{
    match fault {
        ExprFault::BinaryFraction { .. } => Some(
            "write the number in quotation marks, as in new BigDecimal(\"0.4\"), or BigDecimal.valueOf(0.4)",
        ),
        ExprFault::Number { .. } => Some(
            "a scale goes up to 30, an int up to 2147483647, a long, with L behind it, up to 9223372036854775807, and a decimal has at most 30 digits after its point and at most 10^37 without its point",
        ),
        ExprFault::Deep { .. } => Some("split it into several statements"),
        _ => None,
    }
}

/// What helps where names and kinds aren't right.
fn type_help(fault: &TypeFault) -> Option<&'static str>
    ensures { option_copied result ≡ type_help fault.now }
{
    match fault {
        TypeFault::Twice { .. } => Some("rename one of the two, or take it out"),
        TypeFault::Unknown { .. } => {
            Some("correct its spelling, or declare it as an INPUT, OUTPUT, INTERNAL or CONSTANT")
        }
        TypeFault::ConstantWritten { .. } => Some("make it an INTERNAL, or assign to another name"),
        TypeFault::NoMethod { .. } => Some("correct the name, or add the METHOD"),
        _ => None,
    }
}

/// What helps where the methods have no order, or there are too many statements.
fn order_help(fault: &OrderFault) -> Option<&'static str>
    ensures { option_copied result ≡ order_help fault.now }
{
    match fault {
        OrderFault::Cycle { .. } => {
            Some("a run might have no end; take one EXECUTE out of that circle")
        }
        OrderFault::Chain { .. } => {
            Some("put the statements of some into the method that executes them")
        }
        OrderFault::TooLong { .. } => Some("execute methods in fewer places"),
        OrderFault::Memory(_) => None,
    }
}

/// What helps where a range file isn't read.
fn limits_help(fault: &LimitsFault) -> Option<&'static str>
    ensures { option_copied result ≡ limits_help fault.now }
{
    match fault {
        LimitsFault::Toml => Some("correct what stands there, or before it"),
        LimitsFault::LimitsLong => Some("take out what no input needs"),
        _ => None,
    }
}

/// What helps where something may fail on inputs within their ranges.
fn range_help(fault: &RangeFault) -> Option<&'static str>
    ensures { option_copied result ≡ range_help fault.now }
{
    match fault {
        RangeFault::At { cause, .. } => Some(cause_help(*cause)),
        RangeFault::Output { .. } => {
            Some(
                "round it by setScale where it has too many digits, and where it is too great bound it by min or narrow the ranges in the range file",
            )
        }
        RangeFault::Memory(_) => None,
    }
}

/// What helps at a node that may fail.
fn cause_help(cause: RangeCause) -> &'static str
    ensures { result.now ≡ cause_help cause }
{
    match cause {
        RangeCause::Wide => {
            "an int has 32 bits, a long 64, and a BigDecimal is at most 10^37 without its point: take a long or a BigDecimal, narrow the ranges in the range file, or bound the value by setScale, min or max"
        }
        RangeCause::Scale => "write setScale with a smaller scale before it",
        RangeCause::Divisor => {
            "test the divisor's own name in an IF before it, as N > 0 for a whole number, or N.compareTo(CENT) >= 0 with a constant of its least value for a BigDecimal, or narrow the ranges in the range file so that it can't be 0"
        }
        RangeCause::Index => {
            "test the index in an IF before it, or narrow the ranges in the range file"
        }
    }
}
