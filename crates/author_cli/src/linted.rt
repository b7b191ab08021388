//! What a plan has in vain.
ghost use Rattle.std.specs.Prelude.{◌≡◌, IfOk, map};
ghost use Rattle.pap_tree.specs.Flowchart.{flowchart_of};
ghost use Rattle.interval_analysis.specs.Answers.{named_range};
ghost use Rattle.interval_analysis.specs.Surveys.{AreOpen, AreReached};
ghost use Rattle.pap_plan.specs.BoundPlans.{IsBoundPlan};
ghost use Rattle.plain_words.specs.Places.{named_text};
ghost use Rattle.author_cli.specs.Ends.{words_of};
ghost use Rattle.author_cli.specs.Linted.{IsLinted, IsFindingsText, findings_words};

use crate::answer::Answer;
use crate::traced::answer_refused;
use flowchart_findings::{Finding, add_carry_findings, findings, findings_text};
use interval_analysis::{Survey, survey};
use pap_plan::{BoundPlan, PlanRefusal, read_bound};
use plain_words::TextFile;
use plan_notes::read_notes;
use std::alloc::{AllocError, Global};

/// What there is to tell of a plan's bytes within the ranges of a range file's, or why they are refused.
pub(crate) fn lint_plan(
    alloc: Global,
    plan: TextFile<'_>,
    limits: TextFile<'_>,
) -> Result<Answer, AllocError>
    ensures { IfOk result (λ answer. IsLinted (named_text plan.entry) (named_text limits.entry)
        answer.text.items (words_of answer.reason)) }
{
    match read_bound(alloc, plan.bytes, limits.bytes) {
        Ok(bound) => lint_bound(alloc, plan, limits, &bound),
        Err(PlanRefusal::Memory) => Err(AllocError),
        Err(fault) => answer_refused(alloc, plan, limits, &fault),
    }
}

/// The same of a plan with its limits, before the ranges of its values are judged.
fn lint_bound(
    alloc: Global,
    plan: TextFile<'_>,
    limits: TextFile<'_>,
    bound: &BoundPlan,
) -> Result<Answer, AllocError>
    requires { IsBoundPlan plan.bytes.now limits.bytes.now bound.now }
    ensures { IfOk result (λ answer. IsLinted (named_text plan.entry) (named_text limits.entry)
        answer.text.items (words_of answer.reason)) }
{
    match survey(alloc, &bound.typed, &bound.order, &bound.limits) {
        Ok(survey) => tell_findings(alloc, plan, bound, &survey),
        Err(refused) => answer_refused(alloc, plan, limits, &PlanRefusal::from(refused.fault)),
    }
}

/// A line for each finding in a plan whose walk passes.
fn tell_findings(
    alloc: Global,
    plan: TextFile<'_>,
    bound: &BoundPlan,
    survey: &Survey,
) -> Result<Answer, AllocError>
    requires reached { AreReached (flowchart_of bound.now.typed) bound.now.limits survey.now.reached }
    requires exits { AreOpen (flowchart_of bound.now.typed) bound.now.limits survey.now.exits }
    ensures { IfOk result (λ answer. IsFindingsText (named_text plan.entry)
        (flowchart_of bound.now.typed) bound.now.limits
        (map named_range survey.now.verdict.outputs.items)
        answer.text.items (words_of answer.reason)) }
{
    let notes = read_notes(alloc, plan.bytes)?;
    let mut found = findings(alloc, &bound.typed, &survey.reached, &survey.exits)?;
    add_carry_findings(&mut found, &bound.limits, &survey.verdict.outputs)?;
    let text = findings_text(alloc, plan, &notes.marks, &found)?;
    let reason = findings_words(alloc, &found)?;
    Ok(Answer { text, reason })
}

/// How many findings there are, in words. Nothing where there is none.
fn findings_words(alloc: Global, found: &[Finding]) -> Result<Option<String>, AllocError>
    ensures { IfOk result (λ words. words_of words ≡ findings_words found.now) }
{
    match found {
        [] => Ok(None),
        _ => {
            let count = found.len();
            Ok(Some(format!(in alloc; "findings: {count}")?))
        }
    }
}
