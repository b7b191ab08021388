//! How the refusals of a plan and its range file are written.
ghost use Rattle.std.specs.Prelude.{◌≡◌, IfOk};
ghost use Rattle.pap_tree.specs.Flowchart.{flowchart_of};
ghost use Rattle.plan_answers.specs.Refusals.{which_word, read_detail, expr_detail, type_detail, order_detail, limits_detail};
ghost use Rattle.plan_answers.specs.Refusals.{cause_word, node_detail, HasDetail, HasItsPlan};

use crate::places::spelling_at;
use call_order::OrderFault;
use interval_analysis::RangeFault;
use interval_num::RangeCause;
use limits_file::LimitsFault;
use pap_expr::ExprFault;
use pap_plan::{PlanRefusal, Spot, read_plan};
use pap_reader::{ReadFault, Which};
use pap_tree::{Place, PlanText};
use pap_types::TypeFault;
use std::alloc::{AllocError, Global};

/// The group, the name and the details of a refusal of this plan. The spelling of a node is read from the plan's text.
pub(crate) fn refusal_detail(
    alloc: Global,
    plan: &[u8],
    refusal: &PlanRefusal,
) -> Result<Vec<u8>, AllocError>
    requires { HasItsPlan plan.now refusal.now }
    ensures { IfOk result (λ detail. HasDetail plan.now refusal.now detail.items) }
{
    match refusal {
        PlanRefusal::Read(fault) => read_detail(alloc, fault),
        PlanRefusal::Expr { spot, fault } => expr_detail(alloc, spot, fault),
        PlanRefusal::Types(fault) => type_detail(alloc, fault),
        PlanRefusal::Order(fault) => order_detail(alloc, fault),
        PlanRefusal::Limits(fault) => limits_detail(alloc, fault),
        PlanRefusal::LimitName { name } => {
            Ok(format!(in alloc; "plan LimitName {name}")?.into_bytes())
        }
        PlanRefusal::LimitKind { name } => {
            Ok(format!(in alloc; "plan LimitKind {name}")?.into_bytes())
        }
        PlanRefusal::Bind { name } => Ok(format!(in alloc; "plan Bind {name}")?.into_bytes()),
        PlanRefusal::Range(RangeFault::At { place, cause }) => match read_plan(alloc, plan) {
            Ok(text) => node_detail(alloc, &text, place, *cause),
            Err(PlanRefusal::Memory) => Err(AllocError),
            Err(_) => unreachable!(),
        },
        PlanRefusal::Range(RangeFault::Output { name }) => {
            Ok(format!(in alloc; "plan Output {name}")?.into_bytes())
        }
        PlanRefusal::Range(RangeFault::Memory(_)) | PlanRefusal::Memory => Err(AllocError),
    }
}

fn which_word(which: Which) -> &'static str
    ensures { result.now ≡ which_word which }
{
    match which {
        Which::Bytes => "Bytes",
        Which::Inputs => "Inputs",
        Which::Outputs => "Outputs",
        Which::Internals => "Internals",
        Which::Constants => "Constants",
        Which::Methods => "Methods",
        Which::Statements => "Statements",
        Which::Depth => "Depth",
    }
}

fn read_detail(alloc: Global, fault: &ReadFault) -> Result<Vec<u8>, AllocError>
    ensures { IfOk result (λ detail. detail.items ≡ read_detail fault.now) }
{
    let detail = match fault {
        ReadFault::Text { at } => format!(in alloc; "plan Text {at}")?,
        ReadFault::Element { at } => format!(in alloc; "plan Element {at}")?,
        ReadFault::Attribute { at } => format!(in alloc; "plan Attribute {at}")?,
        ReadFault::Many { which } => {
            let word = which_word(*which);
            format!(in alloc; "plan Many {word}")?
        }
        ReadFault::Memory => return Err(AllocError),
    };
    Ok(detail.into_bytes())
}

fn expr_detail(alloc: Global, spot: &Spot, fault: &ExprFault) -> Result<Vec<u8>, AllocError>
    ensures { IfOk result (λ detail. detail.items ≡ expr_detail spot.now fault.now) }
{
    let detail = match fault {
        ExprFault::Syntax { at } => format!(in alloc; "plan Syntax {spot} {at}")?,
        ExprFault::Unsupported { at } => format!(in alloc; "plan Unsupported {spot} {at}")?,
        ExprFault::BinaryFraction { at } => format!(in alloc; "plan BinaryFraction {spot} {at}")?,
        ExprFault::Number { at } => format!(in alloc; "plan Number {spot} {at}")?,
        ExprFault::Deep { at } => format!(in alloc; "plan Deep {spot} {at}")?,
        ExprFault::Memory => return Err(AllocError),
    };
    Ok(detail.into_bytes())
}

fn type_detail(alloc: Global, fault: &TypeFault) -> Result<Vec<u8>, AllocError>
    ensures { IfOk result (λ detail. detail.items ≡ type_detail fault.now) }
{
    let detail = match fault {
        TypeFault::Twice { name } => format!(in alloc; "plan Twice {name}")?,
        TypeFault::Unknown { name, place } => format!(in alloc; "plan Unknown {name} {place}")?,
        TypeFault::Kind { place } => format!(in alloc; "plan Kind {place}")?,
        TypeFault::ConstantWritten { place } => format!(in alloc; "plan ConstantWritten {place}")?,
        TypeFault::NoMethod { place } => format!(in alloc; "plan NoMethod {place}")?,
        TypeFault::Value { name } => format!(in alloc; "plan Value {name}")?,
        TypeFault::Memory(_) => return Err(AllocError),
    };
    Ok(detail.into_bytes())
}

fn order_detail(alloc: Global, fault: &OrderFault) -> Result<Vec<u8>, AllocError>
    ensures { IfOk result (λ detail. detail.items ≡ order_detail fault.now) }
{
    let detail = match fault {
        OrderFault::Cycle { method } => format!(in alloc; "plan Cycle {method}")?,
        OrderFault::Chain { method } => format!(in alloc; "plan Chain {method}")?,
        OrderFault::TooLong { count } => format!(in alloc; "plan TooLong {count}")?,
        OrderFault::Memory(_) => return Err(AllocError),
    };
    Ok(detail.into_bytes())
}

fn limits_detail(alloc: Global, fault: &LimitsFault) -> Result<Vec<u8>, AllocError>
    ensures { IfOk result (λ detail. detail.items ≡ limits_detail fault.now) }
{
    let detail = match fault {
        LimitsFault::Toml => format!(in alloc; "limits Toml")?,
        LimitsFault::Key { name } => format!(in alloc; "limits Key {name}")?,
        LimitsFault::Bound { name } => format!(in alloc; "limits Bound {name}")?,
        LimitsFault::LimitsLong => format!(in alloc; "limits LimitsLong")?,
        LimitsFault::Memory(_) => return Err(AllocError),
    };
    Ok(detail.into_bytes())
}

fn cause_word(cause: RangeCause) -> &'static str
    ensures { result.now ≡ cause_word cause }
{
    match cause {
        RangeCause::Wide => "Wide",
        RangeCause::Scale => "Scale",
        RangeCause::Divisor => "Divisor",
        RangeCause::Index => "Index",
    }
}

/// The refusal of a node that may fail: the cause, its place and its spelling.
fn node_detail(
    alloc: Global,
    plan: &PlanText,
    place: &Place,
    cause: RangeCause,
) -> Result<Vec<u8>, AllocError>
    ensures { IfOk result
        (λ detail. detail.items ≡ node_detail (flowchart_of plan.now) place.now cause) }
{
    let cause = cause_word(cause);
    let front = format!(in alloc; "plan {cause} {place} ")?;
    let mut detail = front.into_bytes();
    detail.extend_from_slice(&spelling_at(alloc, plan, place)?)?;
    Ok(detail)
}
