//! What is wrong with a plan, where its refusal decides the words.
ghost use Rattle.std.specs.Prelude.{◌≡◌, ◌++◌, Bool, OnOk};
ghost use Rattle.std.specs.String.{string_bytes};
ghost use Rattle.plain_words.specs.RefusalTexts.{read_fault_text, expression_fault_text, type_fault_text, order_fault_text};
ghost use Rattle.plain_words.specs.RefusalTexts.{limits_fault_text, range_fault_text, plan_refusal_text};
ghost use Rattle.plain_words.specs.RefusalTexts.{limit_name_text, binding_text};

use call_order::OrderFault;
use interval_analysis::RangeFault;
use limits_file::LimitsFault;
use pap_expr::ExprFault;
use pap_plan::PlanRefusal;
use pap_reader::ReadFault;
use pap_tree::Name;
use pap_types::TypeFault;
use std::alloc::AllocError;

/// What stands where a fault is one of memory.
const MEMORY: &str = "out of memory";

/// Appends the words with which what is wrong with a plan begins, where its refusal alone decides them, and else nothing.
pub(crate) fn write_refusal(told: &mut String, refusal: &PlanRefusal) -> Result<(), AllocError>
    ensures { OnOk result
        (string_bytes told.new ≡ string_bytes told.old ++ plan_refusal_text refusal.now) }
{
    match refusal {
        PlanRefusal::Read(fault) => write_read_fault(told, fault),
        PlanRefusal::Expr { fault, .. } => told.push_str(expression_fault_text(fault)),
        PlanRefusal::Types(fault) => write_type_fault(told, fault),
        PlanRefusal::Order(fault) => write_order_fault(told, fault),
        PlanRefusal::Limits(fault) => told.push_str(limits_fault_text(fault)),
        PlanRefusal::LimitKind { name } => write!(
            told,
            "the range of the entry [input.{name}] doesn't suit the type of the INPUT {name}"
        ),
        PlanRefusal::Range(fault) => write_range_fault(told, fault),
        PlanRefusal::LimitName { .. } | PlanRefusal::Bind { .. } => told.push_str(""),
        PlanRefusal::Memory => told.push_str(MEMORY),
    }
}

/// Appends that there is too much of something; nothing where what the flowchart's file has decides the words.
fn write_read_fault(told: &mut String, fault: &ReadFault) -> Result<(), AllocError>
    ensures { OnOk result
        (string_bytes told.new ≡ string_bytes told.old ++ read_fault_text fault.now) }
{
    match fault {
        ReadFault::Text { .. } | ReadFault::Element { .. } | ReadFault::Attribute { .. } => {
            told.push_str("")
        }
        ReadFault::Many { which } => write!(told, "there may be at most {which}"),
        ReadFault::Memory => told.push_str(MEMORY),
    }
}

/// Why the text of an expression isn't read.
fn expression_fault_text(fault: &ExprFault) -> &'static str
    ensures { result.now ≡ expression_fault_text fault.now }
{
    match fault {
        ExprFault::Syntax { .. } => "something else is expected here",
        ExprFault::Unsupported { .. } => "this form isn't part of the profile",
        ExprFault::BinaryFraction { .. } => {
            "new BigDecimal of a number with a point takes a binary fraction, which isn't exact"
        }
        ExprFault::Number { .. } => "the number is beyond its range",
        ExprFault::Deep { .. } => {
            "the text has more than 1000 words, numbers and signs, or more than 64 open brackets and signs"
        }
        ExprFault::Memory => MEMORY,
    }
}

/// Appends why names and kinds aren't right.
fn write_type_fault(told: &mut String, fault: &TypeFault) -> Result<(), AllocError>
    ensures { OnOk result
        (string_bytes told.new ≡ string_bytes told.old ++ type_fault_text fault.now) }
{
    match fault {
        TypeFault::Twice { name } => write!(told, "the name {name} is declared twice"),
        TypeFault::Unknown { name, .. } => write!(
            told,
            "the name {name} isn't declared, or isn't one that may stand here"
        ),
        TypeFault::Kind { .. } => told.push_str("the types don't go together"),
        TypeFault::ConstantWritten { .. } => {
            told.push_str("the target is a CONSTANT, which can't be given a value")
        }
        TypeFault::NoMethod { .. } => told.push_str("there is no METHOD of this name"),
        TypeFault::Value { name } => write!(told, "the literal of {name} isn't of its type"),
        TypeFault::Memory(_) => told.push_str(MEMORY),
    }
}

/// Appends why methods have no order, or that the plan is too long.
fn write_order_fault(told: &mut String, fault: &OrderFault) -> Result<(), AllocError>
    ensures { OnOk result
        (string_bytes told.new ≡ string_bytes told.old ++ order_fault_text fault.now) }
{
    match fault {
        OrderFault::Cycle { method } => write!(
            told,
            "the method {method} executes itself, directly or through the methods that it executes"
        ),
        OrderFault::Chain { method } => write!(
            told,
            "the method {method} begins a chain of more than 64 methods, each of which executes the next"
        ),
        OrderFault::TooLong { count } => write!(
            told,
            "with the statements of each executed method in the place of its EXECUTE the plan has {count} statements, and at most 200000 may be"
        ),
        OrderFault::Memory(_) => told.push_str(MEMORY),
    }
}

/// Why a range file isn't read; nothing where what it has decides the words.
fn limits_fault_text(fault: &LimitsFault) -> &'static str
    ensures { result.now ≡ limits_fault_text fault.now }
{
    match fault {
        LimitsFault::Toml => "the range file is not valid TOML",
        LimitsFault::Key { .. } | LimitsFault::Bound { .. } => "",
        LimitsFault::LimitsLong => "the range file has more than 262144 bytes",
        LimitsFault::Memory(_) => MEMORY,
    }
}

/// Appends that a node may fail, or that an output may be too great.
fn write_range_fault(told: &mut String, fault: &RangeFault) -> Result<(), AllocError>
    ensures { OnOk result
        (string_bytes told.new ≡ string_bytes told.old ++ range_fault_text fault.now) }
{
    match fault {
        RangeFault::At { cause, .. } => write!(told, "{cause} on inputs within their ranges"),
        RangeFault::Output { name } => write!(
            told,
            "the OUTPUT {name} may have more than 12 digits after its point, or be beyond 10^20, on inputs within their ranges"
        ),
        RangeFault::Memory(_) => told.push_str(MEMORY),
    }
}

/// Appends that an INPUT has no limit where the flowchart declares one of this name, and else that a limit is of no INPUT.
pub(crate) fn write_limit_name(
    told: &mut String,
    name: &Name,
    declared: bool,
) -> Result<(), AllocError>
    ensures { OnOk result
        (string_bytes told.new ≡ string_bytes told.old ++ limit_name_text name.now declared) }
{
    if declared {
        write!(
            told,
            "the INPUT {name} has no entry [input.{name}] in the range file"
        )
    } else {
        write!(
            told,
            "the entry [input.{name}] is of no INPUT of the flowchart"
        )
    }
}

/// Appends that a binding is to no OUTPUT where the flowchart declares an INPUT of its name, and else that it is of no INPUT.
pub(crate) fn write_binding(
    told: &mut String,
    name: &Name,
    declared: bool,
) -> Result<(), AllocError>
    ensures { OnOk result
        (string_bytes told.new ≡ string_bytes told.old ++ binding_text name.now declared) }
{
    if declared {
        write!(
            told,
            "the entry [bind.{name}] names no OUTPUT of the flowchart"
        )
    } else {
        write!(
            told,
            "the entry [bind.{name}] is of no INPUT of the flowchart"
        )
    }
}
