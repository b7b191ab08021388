//! All faults of the stage of acceptance that the two texts of a plan don't pass.
ghost use Rattle.std.specs.Prelude.{◌≡◌, ◌∷◌, ◌++◌, [], IfOk, OnOk, Ok, drop, map};
ghost use Rattle.limits_file.specs.declared.limits.Limits.{Limits};
ghost use Rattle.limits_file.specs.RangeFiles.{FileSays};
ghost use Rattle.pap_plan.specs.Acceptance.{IsRefused};
ghost use Rattle.pap_plan.specs.StageRefusals.{text_refusal};
ghost use Rattle.pap_plan.specs.declared.refusal.PlanRefusal.TheVariants.{Types};
ghost use Rattle.pap_tree.specs.Flowchart.{Flowchart, flowchart_of};
ghost use Rattle.pap_types.specs.AllFaults.{type_faults};
ghost use Rattle.pap_types.specs.Counts.{IsWithinCounts};
ghost use Rattle.plan_text.specs.Plans.{IsPlan};
ghost use Rattle.diagnostics.specs.FurtherFaults.{AreAllFaults, AreLimitRefusals, AreTextRefusals, AreTypeRefusals};
ghost use Rattle.diagnostics.specs.private.StageViews.{AreFaultsBeside};

use crate::expressions::expression_faults;
use call_order::OrderFault;
use interval_analysis::RangeFault;
use limits_file::{LimitsFault, read_limits};
use pap_expr::ExprFault;
use pap_plan::{PlanRefusal, limit_fault_laws, limit_faults, read_plan};
use pap_reader::ReadFault;
use pap_tree::PlanText;
use pap_types::{TypeFault, type_fault_laws, type_faults};
use plan_text::{PlanFault, Spot};
use std::alloc::{AllocError, Global};

/// All faults of the stage that the two texts of a plan don't pass, in their order, of which the first is the refusal; none where a stage
/// tells only one. Fails only for lack of memory.
pub(crate) fn stage_faults(
    alloc: Global,
    plan: &[u8],
    limits: &[u8],
    refusal: &PlanRefusal,
) -> Result<Vec<PlanRefusal>, AllocError>
    requires { IsRefused plan.now limits.now refusal.now }
    ensures { IfOk result (λ faults. AreAllFaults plan.now limits.now refusal.now
        (refusal.now ∷ drop 1 faults.items)) }
{
    type_fault_laws();
    limit_fault_laws();
    match refusal {
        PlanRefusal::Expr { .. } => text_refusals(alloc, plan),
        PlanRefusal::Types(_) => type_refusals(alloc, plan),
        PlanRefusal::LimitName { .. } => limit_refusals(alloc, plan, limits),
        PlanRefusal::LimitKind { .. } => limit_refusals(alloc, plan, limits),
        PlanRefusal::Bind { .. } => limit_refusals(alloc, plan, limits),
        _ => Ok(Vec::new(alloc)),
    }
}

/// The faults of all expressions of a plan.
fn text_refusals(alloc: Global, plan: &[u8]) -> Result<Vec<PlanRefusal>, AllocError>
    ensures { IfOk result (λ all. AreTextRefusals plan.now all.items) }
{
    let faults = expression_faults(alloc, plan)?;
    as_text_refusals(alloc, faults)
}

/// Faults of a plan's text, as refusals.
fn as_text_refusals(alloc: Global, faults: Vec<PlanFault>) -> Result<Vec<PlanRefusal>, AllocError>
    ensures { IfOk result (λ all. all.items ≡ map text_refusal faults.items) }
{
    let mut refusals = Vec::new(alloc);
    for fault in faults {
        put(&mut refusals, PlanRefusal::from(fault))?;
    }
    Ok(refusals)
}

/// All faults of the names and kinds of a plan.
fn type_refusals(alloc: Global, plan: &[u8]) -> Result<Vec<PlanRefusal>, AllocError>
    requires { (f : Flowchart) × IsPlan plan.now f }
    ensures { IfOk result (λ all. AreTypeRefusals plan.now all.items) }
{
    match read_plan(alloc, plan) {
        Ok(text) => type_refusals_of(alloc, &text),
        Err(PlanRefusal::Memory) => Err(AllocError),
        Err(_) => unreachable!(),
    }
}

/// All faults of the names and kinds of a plan that is read.
fn type_refusals_of(alloc: Global, plan: &PlanText) -> Result<Vec<PlanRefusal>, AllocError>
    requires { IsWithinCounts (flowchart_of plan.now) }
    ensures { IfOk result (λ all. all.items ≡ map Types (type_faults (flowchart_of plan.now))) }
{
    let faults = type_faults(alloc, plan)?;
    as_type_refusals(alloc, faults)
}

/// Faults of names and kinds, as refusals.
fn as_type_refusals(alloc: Global, faults: Vec<TypeFault>) -> Result<Vec<PlanRefusal>, AllocError>
    ensures { IfOk result (λ all. all.items ≡ map Types faults.items) }
{
    let mut refusals = Vec::new(alloc);
    for fault in faults {
        put(&mut refusals, PlanRefusal::Types(fault))?;
    }
    Ok(refusals)
}

/// All faults of the entries of a range file beside a plan.
fn limit_refusals(alloc: Global, plan: &[u8], limits: &[u8]) -> Result<Vec<PlanRefusal>, AllocError>
    requires plan { (f : Flowchart) × IsPlan plan.now f }
    requires limits { (l : Limits) × FileSays limits.now (Ok l) }
    ensures { IfOk result (λ all. AreLimitRefusals plan.now limits.now all.items) }
{
    match read_plan(alloc, plan) {
        Ok(text) => faults_beside(alloc, &text, limits),
        Err(PlanRefusal::Memory) => Err(AllocError),
        Err(_) => unreachable!(),
    }
}

/// All faults of the entries of a range file beside a plan that is read.
fn faults_beside(
    alloc: Global,
    plan: &PlanText,
    limits: &[u8],
) -> Result<Vec<PlanRefusal>, AllocError>
    requires { (l : Limits) × FileSays limits.now (Ok l) }
    ensures { IfOk result (λ all. AreFaultsBeside (flowchart_of plan.now) limits.now all.items) }
{
    match read_limits(alloc, limits) {
        Ok(ranges) => limit_faults(alloc, plan, &ranges),
        Err(LimitsFault::Memory(failed)) => Err(failed),
        Err(_) => unreachable!(),
    }
}

/// Appends a refusal.
fn put(refusals: &mut Vec<PlanRefusal>, refusal: PlanRefusal) -> Result<(), AllocError>
    ensures { OnOk result (refusals.new.items ≡ refusals.old.items ++ (refusal ∷ [])) }
{
    // Names each type that a refusal holds: without them the prover can't follow a refusal into a list.
    let _nothing: Option<
        (
            ReadFault,
            Spot,
            ExprFault,
            TypeFault,
            OrderFault,
            LimitsFault,
            RangeFault,
        ),
    > = None;
    refusals.push(refusal)?;
    Ok(())
}
