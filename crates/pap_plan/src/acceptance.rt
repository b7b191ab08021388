//! Acceptance, stage by stage.
ghost use Rattle.std.specs.Prelude.{IfOk, IfErr, OnOk};
ghost use Rattle.pap_tree.specs.Flowchart.{flowchart_of};
ghost use Rattle.plan_text.specs.Plans.{IsPlan};
ghost use Rattle.pap_types.specs.Counts.{IsWithinCounts};
ghost use Rattle.interval_walk.specs.Reading.{HoldsPlan};
ghost use Rattle.pap_plan.specs.Acceptance.{IsTypedPlan, IsRefusedOrMemory};
ghost use Rattle.pap_plan.specs.AcceptanceClauses.{IsAcceptedAs, IsUnreadPlan};
ghost use Rattle.pap_plan.specs.Bindings.{AreMatched, IsUnmatched};
ghost use Rattle.pap_plan.specs.private.AcceptanceClauses.{IsUntyped};
ghost use Rattle.pap_plan.specs.AcceptanceLaws.{HaveAnAnswer, HaveOneAnswer, AcceptedPlansNeverFail, BoundsAreSmall, JudgedPlansAreRead, JudgedPlansAreRefusedByRows, OrderedPlansCanBeWalked, RangesAreNamed};

use crate::PlanRefusal;
use crate::bindings::{first_unsuited, unbound_input, unmatched_name};
use crate::judgement::{Judgement, judge_plan};
use crate::plan::Plan;
use limits_file::Limits;
use pap_tree::PlanText;
use pap_types::{Typed, check_types};
use std::alloc::Global;

/// The plan of a file's bytes as it is written, within the counts that `check_types` asks for, each of its literals a number
/// of its type. It is refused by its elements, or by its first expression that isn't one.
pub fn read_plan(alloc: Global, plan: &[u8]) -> Result<PlanText, PlanRefusal>
    ensures read { IfOk result (λ p. IsPlan plan.now (flowchart_of p)) }
    ensures counted { IfOk result (λ p. IsWithinCounts (flowchart_of p)) }
    ensures held { IfOk result (λ p. HoldsPlan (flowchart_of p)) }
    ensures refused { IfErr result (IsUnreadPlan plan.now) }
{
    Ok(plan_text::read_plan(alloc, plan)?)
}

/// Reads, checks and compiles the two texts of a plan. They are refused at the first stage that they don't pass: the plan's
/// elements, its expressions, its names and kinds, the order of its methods and its length, the range file, the names of its
/// limits, their types, its bindings, and the ranges of the plan's values.
pub fn accept(alloc: Global, plan: &[u8], limits: &[u8]) -> Result<Plan, PlanRefusal>
    ensures accepted { IfOk result (IsAcceptedAs plan.now limits.now) }
    ensures refused { IfErr result (IsRefusedOrMemory plan.now limits.now) }
{
    match judge_plan(alloc, plan, limits) {
        Ok(Judgement::Accepted(accepted)) => Ok(accepted),
        Ok(Judgement::Refused(refused)) => Err(refused.refusal),
        Err(_) => Err(PlanRefusal::Memory),
    }
}

/// The plan's text, where its names and kinds are right.
pub(crate) fn read_typed(alloc: Global, plan: &[u8]) -> Result<Typed, PlanRefusal>
    ensures typed { IfOk result (λ t. IsTypedPlan plan.now (flowchart_of t)) }
    ensures refused { IfErr result (IsUntyped plan.now) }
{
    let text = read_plan(alloc, plan)?;
    Ok(check_types(alloc, text)?)
}

/// The limits and bindings are those of the plan's inputs and outputs, or the first name that isn't so.
pub(crate) fn match_limits(plan: &PlanText, ranges: &Limits) -> Result<(), PlanRefusal>
    ensures matched { OnOk result (AreMatched (flowchart_of plan.now) ranges.now) }
    ensures refused { IfErr result (IsUnmatched (flowchart_of plan.now) ranges.now) }
{
    if let Some(name) = unmatched_name(plan, ranges) {
        return Err(PlanRefusal::LimitName { name });
    }
    if let Some(name) = first_unsuited(plan, ranges) {
        return Err(PlanRefusal::LimitKind { name });
    }
    match unbound_input(plan, ranges) {
        Some(name) => Err(PlanRefusal::Bind { name }),
        None => Ok(()),
    }
}

/// Every two texts are accepted, with one meaning, or refused for one reason, and never both. What is accepted never fails in
/// the middle of a run, whatever admitted inputs it gets: each run ends within the bound, which is at most 1,000,000,000 steps,
/// and its outputs lie in the ranges that stand under their names. The walk that judges a plan's ranges refuses nothing where
/// it is read, and nothing outright, whatever the ranges are: each refusal is that of a row, or an output is beyond its bound.
pub fn acceptance_laws()
    ensures some { HaveAnAnswer }
    ensures one { HaveOneAnswer }
    ensures runs { AcceptedPlansNeverFail }
    ensures bound { BoundsAreSmall }
    ensures ranges { RangesAreNamed }
    ensures read { JudgedPlansAreRead }
    ensures walk { OrderedPlansCanBeWalked }
    ensures rows { JudgedPlansAreRefusedByRows }
{}
