//! The statements of a plan to which a run may come.
ghost use Rattle.std.specs.Prelude.{IfOk, IfErr};
ghost use Rattle.pap_plan.specs.Acceptance.{IsRefusedOrMemory};
ghost use Rattle.pap_plan.specs.BoundPlans.{IsBoundPlan};
ghost use Rattle.table_coverage.specs.private.Parts.{IsReachable};

use interval_analysis::survey;
use pap_plan::{BoundPlan, PlanRefusal, read_bound};
use pap_tree::Name;
use std::alloc::Global;
use std::collections::BTreeSet;

/// The statements of a plan to which a run within its ranges may come.
pub(crate) fn reachable(
    alloc: Global,
    plan: &[u8],
    limits: &[u8],
) -> Result<BTreeSet<(Name, u32)>, PlanRefusal>
    ensures reached { IfOk result (IsReachable plan.now limits.now) }
    ensures refused { IfErr result (IsRefusedOrMemory plan.now limits.now) }
{
    let bound = read_bound(alloc, plan, limits)?;
    reachable_within(alloc, plan, limits, &bound)
}

/// Those of a plan with its limits, which are of these texts.
fn reachable_within(
    alloc: Global,
    plan: &[u8],
    limits: &[u8],
    bound: &BoundPlan,
) -> Result<BTreeSet<(Name, u32)>, PlanRefusal>
    requires { IsBoundPlan plan.now limits.now bound.now }
    ensures reached { IfOk result (IsReachable plan.now limits.now) }
    ensures refused { IfErr result (IsRefusedOrMemory plan.now limits.now) }
{
    match survey(alloc, &bound.typed, &bound.order, &bound.limits) {
        Ok(survey) => Ok(survey.reached),
        Err(refused) => Err(PlanRefusal::from(refused.fault)),
    }
}
