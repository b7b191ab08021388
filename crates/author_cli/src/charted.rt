//! The page of a plan.
ghost use Rattle.std.specs.Prelude.{◌≡◌, IfOk, Some, option_map, string_bytes};
ghost use Rattle.pap_tree.specs.Flowchart.{flowchart_of};
ghost use Rattle.interval_analysis.specs.Answers.{AreFailingOperands, IsWalkFaultOrMemory, UnlessMemory};
ghost use Rattle.interval_analysis.specs.Surveys.{AreLeastRanges, AreOpen, AreReached};
ghost use Rattle.pap_plan.specs.declared.refusal.PlanRefusal.TheVariants.{Range};
ghost use Rattle.pap_plan.specs.BoundPlans.{IsBoundPlan, IsUnboundOrMemory};
ghost use Rattle.plain_words.specs.Places.{named_text};
ghost use Rattle.flowchart_page.specs.Pages.{IsRunPage};
ghost use Rattle.flowchart_page.specs.Verdicts.{IsJudged};
ghost use Rattle.range_marks.specs.RangeMarks.{findings_in, failing_of, range_marks, refused_findings, AreFindings, AreRefusedFindings};
ghost use Rattle.author_cli.specs.Answers.{IsChart, ShowsRanges, refused_runs, ShowsRefused, ChartsRefused, IsChartWithin};
ghost use Rattle.author_cli.specs.private.AnswerViews.{answer_of};
ghost use Rattle.author_cli.specs.private.ChartViews.{is_memory, is_memory_fault};

use crate::answer::Answer;
use flowchart_methods::MethodMarks;
use flowchart_page::{Chart, draw_chart, draw_ranged, draw_stopped};
use interval_analysis::{RangeFault, RefusedSurvey, Survey, survey};
use pap_plan::{BoundPlan, PlanRefusal, read_bound};
use pap_tree::PlanText;
use plain_words::TextFile;
use range_marks::{FailingNode, Findings, internal_ranges, range_marks};
use std::alloc::{AllocError, Global};

/// The page of a plan's bytes and a range file's: of an accepted plan with what is known of all runs within its ranges, and of one whose
/// ranges are refused with what is known up to there.
pub(crate) fn chart_within(
    alloc: Global,
    plan: TextFile<'_>,
    limits: TextFile<'_>,
) -> Result<Answer, AllocError>
    ensures { IfOk result (λ answer. IsChartWithin (named_text plan.entry)
        (named_text limits.entry) (answer_of answer)) }
{
    match read_bound(alloc, plan.bytes, limits.bytes) {
        Ok(bound) => chart_bound(alloc, plan, limits, &bound),
        Err(PlanRefusal::Memory) => Err(AllocError),
        Err(fault) => chart_refused(alloc, plan, limits, &fault),
    }
}

/// The same of a plan with its limits, before the ranges of its values are judged.
fn chart_bound(
    alloc: Global,
    plan: TextFile<'_>,
    limits: TextFile<'_>,
    bound: &BoundPlan,
) -> Result<Answer, AllocError>
    requires { IsBoundPlan plan.bytes.now limits.bytes.now bound.now }
    ensures { IfOk result (λ answer. IsChartWithin (named_text plan.entry)
        (named_text limits.entry) (answer_of answer)) }
{
    match survey(alloc, &bound.typed, &bound.order, &bound.limits) {
        Ok(survey) => chart_ranges(alloc, plan, limits, bound, &survey),
        Err(refused) => chart_stopped(alloc, plan, limits, bound, &refused),
    }
}

/// The page of a plan whose walk passes, with what that found.
fn chart_ranges(
    alloc: Global,
    plan: TextFile<'_>,
    limits: TextFile<'_>,
    bound: &BoundPlan,
    survey: &Survey,
) -> Result<Answer, AllocError>
    requires { AreFindings (flowchart_of bound.now.typed) bound.now.limits (findings_in survey.now) }
    ensures { IfOk result (λ answer. ShowsRanges (named_text plan.entry) (named_text limits.entry)
        (flowchart_of bound.now.typed) bound.now.limits (answer_of answer)) }
{
    let marks = survey_marks(alloc, bound.typed.plan(), survey)?;
    let internals = internal_ranges(alloc, &bound.typed, survey)?;
    let Chart { page, reason } = draw_ranged(alloc, plan, limits, &marks, &internals)?;
    Ok(Answer { text: page, reason })
}

/// The marks of what a walk found that passes.
fn survey_marks(
    alloc: Global,
    plan: &PlanText,
    survey: &Survey,
) -> Result<Vec<MethodMarks>, AllocError>
    ensures { IfOk result (λ marks. marks.items
        ≡ range_marks (flowchart_of plan.now) (findings_in survey.now)) }
{
    let failing: Option<FailingNode<'_>> = None;
    let findings = Findings {
        reached: &survey.reached,
        values: &survey.values,
        exits: &survey.exits,
        failing,
    };
    range_marks(alloc, plan, &findings)
}

/// The page of a plan whose walk is refused.
fn chart_stopped(
    alloc: Global,
    plan: TextFile<'_>,
    limits: TextFile<'_>,
    bound: &BoundPlan,
    refused: &RefusedSurvey,
) -> Result<Answer, AllocError>
    requires bound { IsBoundPlan plan.bytes.now limits.bytes.now bound.now }
    requires fault { IsWalkFaultOrMemory (flowchart_of bound.now.typed) bound.now.limits
        refused.now.fault }
    requires operands { AreFailingOperands (flowchart_of bound.now.typed) bound.now.limits
        refused.now.fault refused.now.operands.items }
    requires reached { UnlessMemory refused.now.fault
        (AreReached (flowchart_of bound.now.typed) bound.now.limits refused.now.reached) }
    requires values { UnlessMemory refused.now.fault
        (AreLeastRanges (flowchart_of bound.now.typed) bound.now.limits refused.now.values) }
    requires exits { UnlessMemory refused.now.fault
        (AreOpen (flowchart_of bound.now.typed) bound.now.limits refused.now.exits) }
    ensures { IfOk result (λ answer. ChartsRefused (Range refused.now.fault)
        (named_text plan.entry) (named_text limits.entry) (answer_of answer)) }
{
    if is_memory_fault(&refused.fault) {
        return Err(AllocError);
    }
    chart_walked(alloc, plan, limits, bound, refused)
}

/// Whether a walk is refused for want of memory.
fn is_memory_fault(fault: &RangeFault) -> bool
    ensures { result ≡ is_memory_fault fault.now }
{
    matches!(fault, RangeFault::Memory(_))
}

/// The page of a plan whose walk is refused, with what that found up to where it stops.
fn chart_walked(
    alloc: Global,
    plan: TextFile<'_>,
    limits: TextFile<'_>,
    bound: &BoundPlan,
    refused: &RefusedSurvey,
) -> Result<Answer, AllocError>
    requires { AreRefusedFindings (flowchart_of bound.now.typed) bound.now.limits
        refused.now.fault (refused_findings refused.now) }
    ensures { IfOk result (λ answer. ShowsRefused (named_text plan.entry)
        (named_text limits.entry) (flowchart_of bound.now.typed) bound.now.limits
        refused.now.fault (answer_of answer)) }
{
    let findings = Findings::refused(refused);
    let marks = range_marks(alloc, bound.typed.plan(), &findings)?;
    let Chart { page, reason } = draw_walk(alloc, plan, limits, &marks, &findings.failing)?;
    Ok(Answer { text: page, reason })
}

/// The page with these marks of what a walk found that is refused, and the node at which it stops, where it does at one.
fn draw_walk(
    alloc: Global,
    plan: TextFile<'_>,
    limits: TextFile<'_>,
    marks: &[MethodMarks],
    failing: &Option<FailingNode<'_>>,
) -> Result<Chart, AllocError>
    ensures judged { IfOk result (λ chart. IsJudged (named_text plan.entry)
        (Some (named_text limits.entry)) (option_map (λ words. string_bytes words) chart.reason)) }
    ensures page { IfOk result (λ chart. IsRunPage
        (Some (refused_runs (option_map failing_of failing.now) marks.now))
        plan.entry.bytes.now (Some limits.entry.bytes.now)
        (option_map (λ words. string_bytes words) chart.reason) chart.page.items) }
{
    match failing {
        Some(node) => draw_stopped(alloc, plan, limits, marks, node.place),
        None => draw_ranged(alloc, plan, limits, marks, &[]),
    }
}

/// The page of a plan that is refused before its ranges are judged.
fn chart_refused(
    alloc: Global,
    plan: TextFile<'_>,
    limits: TextFile<'_>,
    fault: &PlanRefusal,
) -> Result<Answer, AllocError>
    requires { IsUnboundOrMemory plan.bytes.now limits.bytes.now fault.now }
    ensures { IfOk result (λ answer. ChartsRefused fault.now
        (named_text plan.entry) (named_text limits.entry) (answer_of answer)) }
{
    if is_memory(fault) {
        return Err(AllocError);
    }
    page_of(alloc, plan, Some(limits))
}

/// Whether a refusal is that memory ran out.
fn is_memory(fault: &PlanRefusal) -> bool
    ensures { result ≡ is_memory fault.now }
{
    matches!(fault, PlanRefusal::Memory)
}

/// The page of a plan's bytes, with those of a range file or without.
#[tactic(auto, using(crate::proofs::UnreadLemmas::charted))]
pub(crate) fn page_of(
    alloc: Global,
    plan: TextFile<'_>,
    limits: Option<TextFile<'_>>,
) -> Result<Answer, AllocError>
    ensures { IfOk result (λ answer. IsChart (named_text plan.entry)
        (option_map (λ file. named_text file) limits.entry) (answer_of answer)) }
{
    let Chart { page, reason } = draw_chart(alloc, plan, limits)?;
    Ok(Answer { text: page, reason })
}
