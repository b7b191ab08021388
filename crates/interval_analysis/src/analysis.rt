//! The analysis of a plan.
ghost use Rattle.std.specs.Prelude.{◌≡◌, ◌≤◌, IfOk, IfErr, IsSome, Ok, Some, List, map};
ghost use Rattle.scaled_decimal.specs.Decimals.{Decimal};
ghost use Rattle.pap_tree.specs.Flowchart.{flowchart_of};
ghost use Rattle.pap_types.specs.Meaning.{bound_of, cost_of};
ghost use Rattle.pap_types.specs.Scopes.{scope_of};
ghost use Rattle.call_order.specs.Orders.{IsOrdered};
ghost use Rattle.interval_walk.specs.Admission.{HaveLimits, AreAdmitted};
ghost use Rattle.interval_walk.specs.Analysis.{analysed};
ghost use Rattle.interval_walk.specs.Soundness.{RunHolds};
ghost use Rattle.interval_analysis.specs.Answers.{named_range, AreFailingOperands, IsWalkFaultOrMemory, UnlessMemory};
ghost use Rattle.interval_analysis.specs.Surveys.{AreLeastRanges, AreOpen, AreReached, HaveExecuted, HavePut, HaveTaken};
ghost use Rattle.interval_analysis.specs.private.OutputViews.{OutputAnswer};
ghost use Rattle.interval_analysis.specs.private.StopViews.{FaultOf, WithMemory};
ghost use Rattle.interval_analysis.specs.private.VisitViews.{Gathers, refused_known, survey_known};
ghost use Rattle.interval_walk.specs.Visits.{WalkComes};

use crate::bounds::bound_of;
use crate::expressions::Walk;
use crate::outputs::output_ranges;
use crate::start::start_ranges;
use crate::statements::Spot;
use crate::stop::WalkStop;
use crate::tables::TabledPlan;
use crate::variables::Variables;
use crate::visits::Visits;
use crate::weights::weights_of;
use crate::{OutputRange, RangeFault, RefusedRanges, RefusedSurvey, Survey, Verdict};
use limits_file::Limits;
use pap_tree::Name;
use pap_types::{LONGEST_CHAIN, Typed};
use std::alloc::Global;

/// Walks a plan over the ranges of its variables' values, from the limits of its inputs; `order` has its methods after those
/// that they execute. Answers the most that a run costs and the ranges of the outputs, in declared order: every run on inputs
/// that the limits admit is safe, costs at most so much, and has its outputs in these ranges.
///
/// Refused: `At` with the first node, in the order in which they are walked, that may fail on some values in the ranges, and
/// why; where there is none, `Output` with the first output that may have more than 12 digits after its point or be beyond
/// 10^20; `Memory`.
///
/// Takes time linear in the nodes that are walked, those of a method again at each EXECUTE of it, with a factor logarithmic in
/// the number of names and, at an item of a table, in the table's length; and, at each IF both of whose branches can be
/// reached, in the variables that these change. So what stands within IFs counts as often as there are such IFs around it,
/// with those around an EXECUTE of its method. Before the walk the items of the tables are kept with their ranges, in memory
/// linear in their number.
pub fn analyse(
    alloc: Global,
    t: &Typed,
    order: &[u32],
    limits: &Limits,
) -> Result<Verdict, RangeFault>
    requires ordered { IsOrdered (flowchart_of t.now) order.now }
    requires limits { HaveLimits (flowchart_of t.now) limits.now }
    ensures ranges { IfOk result
        (λ v. analysed (flowchart_of t.now) limits.now ≡ Ok (map named_range v.outputs.items)) }
    ensures bound { IfOk result (λ v. v.bound ≡ bound_of (flowchart_of t.now)) }
    ensures fault { IfErr result (IsWalkFaultOrMemory (flowchart_of t.now) limits.now) }
    ensures sound { IfOk result (λ v. (inputs : List Decimal)
        → AreAdmitted (flowchart_of t.now) limits.now inputs
        → RunHolds (flowchart_of t.now) (map named_range v.outputs.items) inputs
        × (cost_of (flowchart_of t.now) inputs ≤ v.bound)) }
{
    match analyse_told(alloc, t, order, limits) {
        Ok(verdict) => Ok(verdict),
        Err(refused) => Err(refused.fault),
    }
}

/// Analyses a plan as [`analyse`] does, with the same answers. Refused as by it, with the ranges that the walk has where it stops: of the
/// failing node's operands, or of the output.
pub fn analyse_told(
    alloc: Global,
    t: &Typed,
    order: &[u32],
    limits: &Limits,
) -> Result<Verdict, RefusedRanges>
    requires ordered { IsOrdered (flowchart_of t.now) order.now }
    requires limits { HaveLimits (flowchart_of t.now) limits.now }
    ensures ranges { IfOk result
        (λ v. analysed (flowchart_of t.now) limits.now ≡ Ok (map named_range v.outputs.items)) }
    ensures bound { IfOk result (λ v. v.bound ≡ bound_of (flowchart_of t.now)) }
    ensures fault { IfErr result (λ r. IsWalkFaultOrMemory (flowchart_of t.now) limits.now r.fault) }
    ensures operands { IfErr result
        (λ r. AreFailingOperands (flowchart_of t.now) limits.now r.fault r.operands.items) }
    ensures sound { IfOk result (λ v. (inputs : List Decimal)
        → AreAdmitted (flowchart_of t.now) limits.now inputs
        → RunHolds (flowchart_of t.now) (map named_range v.outputs.items) inputs
        × (cost_of (flowchart_of t.now) inputs ≤ v.bound)) }
{
    // For the proof: the plan is well typed, and its nodes and statements are counted.
    let _well_typed = t.plan();
    match judged(alloc, t, order, limits, &mut Visits::unasked()) {
        Ok(verdict) => Ok(verdict),
        Err(stop) => Err(stop.refused(alloc)),
    }
}

/// Walks a plan as [`analyse`] does, with the same answers, and tells to which statements the walk came, the least range of what each
/// EVAL put there, and which exits of IFs were open. Every statement that a run on admitted inputs executes is among them, each
/// value that it puts lies in the statement's range, and each exit that it takes is open; so no such run executes another
/// statement or takes another exit.
///
/// Refused as by [`analyse`], with the ranges of the failing node's operands and the same of the statements to which the walk came
/// until it stopped; `Memory` also where memory runs out for these.
///
/// Takes time as `analyse`, with a factor logarithmic in the number of statements at each statement that is walked, and memory
/// linear in that number beside what `analyse` takes.
pub fn survey(
    alloc: Global,
    t: &Typed,
    order: &[u32],
    limits: &Limits,
) -> Result<Survey, RefusedSurvey>
    requires ordered { IsOrdered (flowchart_of t.now) order.now }
    requires limits { HaveLimits (flowchart_of t.now) limits.now }
    ensures ranges { IfOk result (λ s.
        analysed (flowchart_of t.now) limits.now ≡ Ok (map named_range s.verdict.outputs.items)) }
    ensures bound { IfOk result (λ s. s.verdict.bound ≡ bound_of (flowchart_of t.now)) }
    ensures fault { IfErr result (λ r. IsWalkFaultOrMemory (flowchart_of t.now) limits.now r.fault) }
    ensures operands { IfErr result
        (λ r. AreFailingOperands (flowchart_of t.now) limits.now r.fault r.operands.items) }
    ensures refused_reached { IfErr result
        (λ r. UnlessMemory r.fault (AreReached (flowchart_of t.now) limits.now r.reached)) }
    ensures refused_values { IfErr result
        (λ r. UnlessMemory r.fault (AreLeastRanges (flowchart_of t.now) limits.now r.values)) }
    ensures refused_exits { IfErr result
        (λ r. UnlessMemory r.fault (AreOpen (flowchart_of t.now) limits.now r.exits)) }
    ensures reached { IfOk result (λ s. AreReached (flowchart_of t.now) limits.now s.reached) }
    ensures values { IfOk result (λ s. AreLeastRanges (flowchart_of t.now) limits.now s.values) }
    ensures exits { IfOk result (λ s. AreOpen (flowchart_of t.now) limits.now s.exits) }
    ensures sound { IfOk result (λ s. (inputs : List Decimal)
        → AreAdmitted (flowchart_of t.now) limits.now inputs
        → HaveExecuted (flowchart_of t.now) inputs s.reached
        × HavePut (flowchart_of t.now) inputs s.values
        × HaveTaken (flowchart_of t.now) inputs s.exits) }
{
    // For the proof: the plan is well typed, and its nodes and statements are counted.
    let _well_typed = t.plan();
    let mut visits = Visits::new(alloc);
    match judged(alloc, t, order, limits, &mut visits) {
        Ok(verdict) => Ok(survey_of(verdict, visits)),
        Err(WalkStop::Refused(refusal)) => Err(refused_survey(Box::into_inner(refusal), visits)),
        Err(WalkStop::Memory) => Err(RefusedSurvey::without_memory(alloc)),
    }
}

/// The verdict on a plan, or why its walk stops.
fn judged(
    alloc: Global,
    t: &Typed,
    order: &[u32],
    limits: &Limits,
    visits: &mut Visits,
) -> Result<Verdict, WalkStop>
    requires ordered { IsOrdered (flowchart_of t.now) order.now }
    requires limits { HaveLimits (flowchart_of t.now) limits.now }
    ensures ranges { IfOk result
        (λ v. analysed (flowchart_of t.now) limits.now ≡ Ok (map named_range v.outputs.items)) }
    ensures bound { IfOk result (λ v. v.bound ≡ bound_of (flowchart_of t.now)) }
    ensures stop { IfErr result (FaultOf (analysed (flowchart_of t.now) limits.now)) }
    ensures visits { WithMemory result
        (Gathers (scope_of (flowchart_of t.now)) (WalkComes (flowchart_of t.now) limits.now)
        visits.old visits.new) }
{
    let weights = weights_of(alloc, t, order)?;
    let outputs = walked_outputs(alloc, t, &weights, limits, visits)?;
    let bound = bound_of(alloc, t, order)?;
    Ok(Verdict { bound, outputs })
}

/// What is known behind a walk of which it was kept.
fn survey_of(verdict: Verdict, visits: Visits) -> Survey
    requires { IsSome visits.known }
    ensures verdict { result.verdict ≡ verdict }
    ensures known { visits.known ≡ Some (survey_known result) }
{
    match visits.known {
        Some(known) => Survey {
            verdict,
            reached: known.reached,
            values: known.values,
            exits: known.exits,
        },
        None => unreachable!(),
    }
}

/// A refusal with what is known where a walk stopped of which it was kept.
fn refused_survey(refusal: RefusedRanges, visits: Visits) -> RefusedSurvey
    requires { IsSome visits.known }
    ensures fault { result.fault ≡ refusal.fault }
    ensures operands { result.operands ≡ refusal.operands }
    ensures known { visits.known ≡ Some (refused_known result) }
{
    let RefusedRanges { fault, operands } = refusal;
    match visits.known {
        Some(known) => RefusedSurvey {
            fault,
            operands,
            reached: known.reached,
            values: known.values,
            exits: known.exits,
        },
        None => unreachable!(),
    }
}

/// The ranges of the outputs behind MAIN.
fn walked_outputs(
    alloc: Global,
    plan: &Typed,
    weights: &[u64],
    limits: &Limits,
    visits: &mut Visits,
) -> Result<Vec<OutputRange>, WalkStop>
    requires { HaveLimits (flowchart_of plan.now) limits.now }
    ensures outputs { OutputAnswer (analysed (flowchart_of plan.now) limits.now) result }
    ensures visits { WithMemory result
        (Gathers (scope_of (flowchart_of plan.now)) (WalkComes (flowchart_of plan.now) limits.now)
        visits.old visits.new) }
{
    let ranges = start_ranges(alloc, plan, limits)?;
    let mut variables = Variables::new(alloc, ranges);
    let tabled = TabledPlan::of(alloc, plan)?;
    let main = plan.plan().main.as_slice();
    let walk = Walk {
        alloc,
        plan: &tabled,
        weights,
    };
    let start = Spot {
        method: Name::main(),
        at: 0,
        chain: LONGEST_CHAIN,
    };
    walk.walk_body(start, main, &mut variables, visits)?;
    output_ranges(alloc, plan, &variables.ranges)
}
