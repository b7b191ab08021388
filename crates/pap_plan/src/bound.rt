//! A plan with the limits of its inputs, before the ranges of its values are judged.
ghost use Rattle.std.specs.Prelude.{IfOk, IfErr};
ghost use Rattle.pap_tree.specs.Flowchart.{flowchart_of};
ghost use Rattle.pap_plan.specs.BoundPlans.{IsBoundPlan, IsBeforeRanges, IsUnboundOrMemory};
ghost use Rattle.pap_plan.specs.private.BoundViews.{HasBoundLimits, IsMisjudged};

use crate::PlanRefusal;
use crate::acceptance::{match_limits, read_typed};
use call_order::order_methods;
use limits_file::{Limits, read_limits};
use pap_types::Typed;
use std::alloc::Global;

/// A plan that passes all stages of acceptance but the last, which judges the ranges of its values.
#[derive(Drop)]
pub struct BoundPlan {
    /// The plan with its names by number.
    pub typed: Typed,
    /// Its methods by number, each after those that it executes.
    pub order: Vec<u32>,
    /// The limits of its inputs.
    pub limits: Limits,
}

/// The order of a plan's methods, and the limits of its inputs.
#[derive(Drop)]
pub(crate) struct BoundLimits {
    pub order: Vec<u32>,
    pub limits: Limits,
}

/// Reads and checks the two texts of a plan but for the ranges of its values. `accept` refuses exactly those of these plans by
/// a `Range` fault that the walk over ranges doesn't pass, and accepts the others; what is refused here it refuses so too.
pub fn read_bound(alloc: Global, plan: &[u8], limits: &[u8]) -> Result<BoundPlan, PlanRefusal>
    ensures bound { IfOk result (IsBoundPlan plan.now limits.now) }
    ensures refused { IfErr result (IsUnboundOrMemory plan.now limits.now) }
{
    let typed = read_typed(alloc, plan)?;
    let bound = bound_limits(alloc, &typed, limits)?;
    let BoundLimits { order, limits } = bound;
    Ok(BoundPlan {
        typed,
        order,
        limits,
    })
}

/// The order of a plan's methods, and the limits of its inputs.
fn bound_limits(alloc: Global, typed: &Typed, limits: &[u8]) -> Result<BoundLimits, PlanRefusal>
    ensures bound { IfOk result (HasBoundLimits limits.now (flowchart_of typed.now)) }
    ensures refused { IfErr result (IsMisjudged limits.now (flowchart_of typed.now)) }
    ensures early { IfErr result IsBeforeRanges }
{
    let order = order_methods(alloc, typed)?;
    let ranges = read_limits(alloc, limits)?;
    match_limits(typed.plan(), &ranges)?;
    Ok(BoundLimits {
        order,
        limits: ranges,
    })
}
