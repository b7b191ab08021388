//! The answer of `check`.
ghost use Rattle.std.specs.Prelude.{◌≡◌, ◌++◌, IfOk, OnOk, map, string_bytes};
ghost use Rattle.interval_analysis.specs.Answers.{named_range};
ghost use Rattle.pap_types.specs.Meaning.{bound_of};
ghost use Rattle.pap_plan.specs.Plans.{flowchart, meaning};
ghost use Rattle.plan_answers.specs.Lines.{bound_line, range_line, range_lines};
ghost use Rattle.plan_answers.specs.Refusals.{HasItsPlan};
ghost use Rattle.plan_answers.specs.Answers.{acceptance, IsRefusal, CheckAnswers};
ghost use Rattle.plan_answers.specs.Replies.{reply_of};

use crate::refusals::refusal_detail;
use crate::reply::{Reply, refusal};
use interval_analysis::OutputRange;
use pap_plan::{Plan, PlanRefusal, accept};
use scaled_decimal::Dec;
use std::alloc::{AllocError, Global};

/// The answer of `check` on the bytes of a plan and of a range file.
pub fn check_reply(alloc: Global, plan: &[u8], limits: &[u8]) -> Result<Reply, AllocError>
    ensures { IfOk result (λ reply. CheckAnswers plan.now limits.now (reply_of reply)) }
{
    match accept(alloc, plan, limits) {
        Ok(plan) => acceptance(alloc, &plan),
        Err(PlanRefusal::Memory) => Err(AllocError),
        Err(fault) => refused(alloc, plan, &fault),
    }
}

/// The refusal of this plan and its range file. Where it names a node, the plan's text is read.
pub fn refused(alloc: Global, plan: &[u8], fault: &PlanRefusal) -> Result<Reply, AllocError>
    requires { HasItsPlan plan.now fault.now }
    ensures { IfOk result (λ reply. IsRefusal plan.now fault.now (reply_of reply)) }
{
    let detail = refusal_detail(alloc, plan, fault)?;
    refusal(alloc, &detail)
}

/// The answer on an accepted plan.
fn acceptance(alloc: Global, plan: &Plan) -> Result<Reply, AllocError>
    ensures { IfOk result (λ reply. reply_of reply ≡ acceptance (meaning plan.now)) }
{
    Ok(Reply {
        text: accepted_text(alloc, plan)?,
        refused: false,
        steps: 0,
    })
}

/// The bound of an accepted plan, and the ranges of its outputs.
pub fn accepted_text(alloc: Global, plan: &Plan) -> Result<Vec<u8>, AllocError>
    ensures { IfOk result (λ text. text.items ≡ (acceptance (meaning plan.now)).text) }
{
    let mut text = bound_line(alloc, plan)?.into_bytes();
    write_ranges(alloc, plan.outputs(), &mut text)?;
    Ok(text)
}

/// The line of an accepted plan's bound.
pub fn bound_line(alloc: Global, plan: &Plan) -> Result<String, AllocError>
    ensures { IfOk result
        (λ line. string_bytes line ≡ bound_line (bound_of (flowchart plan.now))) }
{
    let bound = plan.bound();
    format!(in alloc; "accepted steps {bound}\n")
}

/// Appends a line for each output.
fn write_ranges(
    alloc: Global,
    outputs: &[OutputRange],
    text: &mut Vec<u8>,
) -> Result<(), AllocError>
    ensures { OnOk result
        (text.new.items ≡ text.old.items ++ range_lines (map named_range outputs.now)) }
{
    for output in outputs {
        let line = range_line(alloc, output)?;
        text.extend_from_slice(line.as_bytes())?;
    }
    Ok(())
}

/// The line of an output: its name, the ends of its range, and the least and the greatest scale.
fn range_line(alloc: Global, output: &OutputRange) -> Result<String, AllocError>
    ensures { IfOk result (λ line. string_bytes line ≡ range_line (named_range output.now)) }
{
    let name = output.name;
    let range = output.range;
    let low = Dec::new(range.lo(), range.s_hi());
    let high = Dec::new(range.hi(), range.s_hi());
    let least = range.s_lo();
    let greatest = range.s_hi();
    format!(in alloc; "{name} {low} {high} {least} {greatest}\n")
}
