//! The last stage of acceptance: the ranges of a plan's values.
ghost use Rattle.std.specs.Prelude.{◌≡◌, IfOk, Ok, map};
ghost use Rattle.pap_tree.specs.Flowchart.{flowchart_of};
ghost use Rattle.pap_types.specs.Meaning.{bound_of};
ghost use Rattle.interval_walk.specs.Analysis.{analysed};
ghost use Rattle.interval_analysis.specs.Answers.{named_range};
ghost use Rattle.pap_plan.specs.AcceptanceClauses.{IsAcceptedAs};
ghost use Rattle.pap_plan.specs.BoundPlans.{IsBoundPlan};
ghost use Rattle.pap_plan.specs.Judgements.{IsJudgementOf};

use crate::PlanRefusal;
use crate::bound::{BoundPlan, read_bound};
use crate::inputs::spec_of;
use crate::plan::Plan;
use interval_analysis::{RangeFault, ValueRange, Verdict, analyse_told};
use pap_compiler::compile;
use pap_machine::Prepared;
use std::alloc::{AllocError, Global};

/// Why two texts are refused, with the ranges that the walk over the plan's values has where it stops.
#[derive(Drop)]
pub struct RefusedPlan {
    /// Why, which is never that memory ran out.
    pub refusal: PlanRefusal,
    /// Of a refusal by the walk the ranges of the failing node's operands, from the left, or that of the failing output, as
    /// `RefusedRanges` of `interval_analysis` has them. At another stage there are none.
    pub operands: Vec<ValueRange>,
}

/// What two texts are judged to be.
#[derive(Drop)]
pub enum Judgement {
    /// A plan.
    Accepted(Plan),
    /// None.
    Refused(RefusedPlan),
}

/// Reads, checks and compiles the two texts of a plan as `accept` does, and tells of a refusal by the walk over its values also the ranges
/// that the walk has there. Fails only for lack of memory.
pub fn judge_plan(alloc: Global, plan: &[u8], limits: &[u8]) -> Result<Judgement, AllocError>
    ensures { IfOk result (IsJudgementOf plan.now limits.now) }
{
    match read_bound(alloc, plan, limits) {
        Ok(bound) => judge_bound(alloc, plan, limits, bound),
        Err(PlanRefusal::Memory) => Err(AllocError),
        Err(refusal) => Ok(Judgement::Refused(RefusedPlan {
            refusal,
            operands: Vec::new(alloc),
        })),
    }
}

/// The last stage: the ranges of the plan's values.
fn judge_bound(
    alloc: Global,
    plan: &[u8],
    limits: &[u8],
    bound: BoundPlan,
) -> Result<Judgement, AllocError>
    requires { IsBoundPlan plan.now limits.now bound }
    ensures { IfOk result (IsJudgementOf plan.now limits.now) }
{
    match analyse_told(alloc, &bound.typed, &bound.order, &bound.limits) {
        Ok(verdict) => {
            let accepted = compiled(alloc, plan, limits, bound, verdict)?;
            Ok(Judgement::Accepted(accepted))
        }
        Err(refused) => match refused.fault {
            RangeFault::Memory(failed) => Err(failed),
            fault => Ok(Judgement::Refused(RefusedPlan {
                refusal: PlanRefusal::Range(fault),
                operands: refused.operands,
            })),
        },
    }
}

/// The plan, with its inputs and its code.
fn compiled(
    alloc: Global,
    plan: &[u8],
    limits: &[u8],
    bound: BoundPlan,
    verdict: Verdict,
) -> Result<Plan, AllocError>
    requires bound { IsBoundPlan plan.now limits.now bound }
    requires walked { analysed (flowchart_of bound.typed) bound.limits
        ≡ Ok (map named_range verdict.outputs.items) }
    requires most { verdict.bound ≡ bound_of (flowchart_of bound.typed) }
    ensures { IfOk result (IsAcceptedAs plan.now limits.now) }
{
    let spec = spec_of(alloc, bound.typed.plan(), &bound.limits)?;
    let code = compile(alloc, &bound.typed, &bound.order)?;
    let code = Prepared::new(alloc, code)?;
    let plan = Vec::from_slice(alloc, plan)?;
    let limits = Vec::from_slice(alloc, limits)?;
    let BoundPlan {
        typed,
        order: _,
        limits: ranges,
    } = bound;
    Ok(Plan {
        plan,
        limits,
        typed,
        ranges,
        spec,
        verdict,
        code,
    })
}
