//! The lines `plan` and `try`.
ghost use Rattle.std.specs.Prelude.{◌≡◌, ◌≢◌, ℕ, List, IfOk, OnErr, Ok, Err};
ghost use Rattle.std.specs.Result.{ForErr};
ghost use Rattle.outside.specs.Causes.{Caused};
ghost use Rattle.pap_plan.specs.Judgements.{IsRefusedPlan};
ghost use Rattle.plan_answers.specs.Answers.{IsRefusal};
ghost use Rattle.script_steps.specs.private.Replies.{reply_of};
ghost use Rattle.script_lang.specs.Commands as asked;
ghost use Rattle.script_steps.specs.LineSteps.{IsPut, IsTextsStep, IsTrialStep};
ghost use Rattle.script_steps.specs.private.PlanViews.{AreJudged, IsJudged, IsUnjudged};
ghost use Rattle.script_steps.specs.Standings.{StaysOrSteps};
ghost use Rattle.script_steps.specs.private.StepViews.{IsMade, IsUnmade, IsWant, ToldDoes};

use crate::edits::edit_reply;
use crate::reply::LineReply;
use crate::script::Script;
use crate::stop::LineStop;
use crate::trial::trial_reply;
use diagnostics::refusal_lines;
use outside::Files;
use pap_plan::{Judgement, Plan, PlanRefusal, RefusedPlan, judge_plan};
use payroll_records::Day;
use plain_words::{TextFile, plan_words};
use plan_answers::{Reply, bound_line, read_both};
use std::alloc::{AllocError, Global};
use std::sync::ledger::Ledger;
use steps::Steps;
use what_if::try_plan;

/// A plan of two texts.
#[derive(Drop)]
pub(crate) enum Judged {
    /// It is accepted, and its bound has this line.
    Accepted { plan: Plan, line: String },
    /// It is refused with this answer.
    Refused(LineReply),
}

/// The line `plan`, with the names of its files.
pub(crate) fn plan<F: Files, L: Ledger>(
    alloc: Global,
    script: &mut Script,
    day: Day,
    plan: &str,
    limits: &str,
    files: &mut F,
    steps: &mut Steps<L>,
) -> Result<LineReply, LineStop>
    ensures made { IfOk result (λ reply. IsMade
        (ToldDoes (F.told files.old) script.old (Ok (asked.plan day plan.now limits.now)))
        script.new steps.old steps.new (reply_of reply)) }
    ensures unmade { ForErr result (IsUnmade (F.told files.old)
        (ToldDoes (F.told files.old) script.old (Ok (asked.plan day plan.now limits.now)))
        (asked.plan day plan.now limits.now) steps.old steps.new (F.failed files.new)) }
    ensures left { OnErr result (StaysOrSteps
        (ToldDoes (F.told files.old) script.old (Ok (asked.plan day plan.now limits.now)))
        script.old script.new) }
    ensures unchanged { result ≡ Err LineStop.File → script.new ≡ script.old }
    ensures same { F.told files.new ≡ F.told files.old }
    ensures file { Caused LineStop.File (F.faults files.old) (F.faults files.new) result }
    ensures kept { result ≢ Err LineStop.File → F.failed files.new ≡ F.failed files.old }
{
    let judged = judge(alloc, plan, limits, files)?;
    Ok(put(alloc, script, day, judged, steps)?)
}

/// The line `try`, with the names of its files.
pub(crate) fn trial<F: Files, L: Ledger>(
    alloc: Global,
    script: &Script,
    day: Day,
    plan: &str,
    limits: &str,
    files: &mut F,
    steps: &mut Steps<L>,
) -> Result<LineReply, LineStop>
    ensures made { IfOk result (λ reply. IsMade
        (ToldDoes (F.told files.old) script.now (Ok (asked.trial day plan.now limits.now)))
        script.now steps.old steps.new (reply_of reply)) }
    ensures unmade { ForErr result (IsUnmade (F.told files.old)
        (ToldDoes (F.told files.old) script.now (Ok (asked.trial day plan.now limits.now)))
        (asked.trial day plan.now limits.now) steps.old steps.new (F.failed files.new)) }
    ensures same { F.told files.new ≡ F.told files.old }
    ensures file { Caused LineStop.File (F.faults files.old) (F.faults files.new) result }
    ensures kept { result ≢ Err LineStop.File → F.failed files.new ≡ F.failed files.old }
{
    let judged = judge(alloc, plan, limits, files)?;
    Ok(tried(alloc, script, day, judged, steps)?)
}

/// The plan of two files, the plan's read first.
fn judge<F: Files>(
    alloc: Global,
    plan: &str,
    limits: &str,
    files: &mut F,
) -> Result<Judged, LineStop>
    ensures judged { IfOk result (AreJudged (F.told files.old) plan.now limits.now) }
    ensures unjudged { ForErr result
        (IsUnjudged (F.told files.old) plan.now limits.now (F.failed files.new)) }
    ensures same { F.told files.new ≡ F.told files.old }
    ensures file { Caused LineStop.File (F.faults files.old) (F.faults files.new) result }
    ensures kept { result ≢ Err LineStop.File → F.failed files.new ≡ F.failed files.old }
{
    let (plan_bytes, limits_bytes) = read_both(alloc, plan, limits, files)?;
    let plan_file = TextFile {
        name: plan,
        bytes: &plan_bytes,
    };
    let limits_file = TextFile {
        name: limits,
        bytes: &limits_bytes,
    };
    Ok(judge_texts(alloc, plan_file, limits_file)?)
}

/// The plan of two texts.
pub(crate) fn judge_texts(
    alloc: Global,
    plan: TextFile<'_>,
    limits: TextFile<'_>,
) -> Result<Judged, AllocError>
    ensures { IfOk result (IsJudged plan.entry.bytes.now limits.entry.bytes.now) }
{
    match judge_plan(alloc, plan.bytes, limits.bytes)? {
        Judgement::Accepted(accepted) => {
            let line = bound_line(alloc, &accepted)?;
            Ok(Judged::Accepted {
                plan: accepted,
                line,
            })
        }
        Judgement::Refused(refused) => {
            Ok(Judged::Refused(refused_plan(alloc, plan, limits, &refused)?))
        }
    }
}

/// The refusal of a plan and its range file.
fn refused_plan(
    alloc: Global,
    plan: TextFile<'_>,
    limits: TextFile<'_>,
    told: &RefusedPlan,
) -> Result<LineReply, AllocError>
    requires { IsRefusedPlan plan.bytes.now limits.bytes.now told.now }
    ensures { IfOk result
        (λ reply. IsRefusal plan.entry.bytes.now told.now.refusal (reply_of reply)) }
{
    let Reply { text, steps, .. } = plan_answers::refused(alloc, plan.bytes, &told.refusal)?;
    let wrong = refusal_words(alloc, plan, limits, told)?;
    Ok(LineReply {
        text,
        wrong: Some(wrong),
        steps,
    })
}

/// Why a plan is refused, and where the walk over its values refuses it, which ranges it has there.
fn refusal_words(
    alloc: Global,
    plan: TextFile<'_>,
    limits: TextFile<'_>,
    told: &RefusedPlan,
) -> Result<String, AllocError>
    requires { IsRefusedPlan plan.bytes.now limits.bytes.now told.now }
{
    match &told.refusal {
        PlanRefusal::Range(_) => {
            let lines = refusal_lines(alloc, plan, limits, told)?;
            joined(alloc, &lines)
        }
        refusal => plan_words(alloc, plan, limits, refusal),
    }
}

/// Lines as one, with semicolons between them.
fn joined(alloc: Global, lines: &str) -> Result<String, AllocError> {
    let mut words = String::new(alloc);
    for line in lines.lines() {
        if !words.is_empty() {
            words.push_str("; ")?;
        }
        words.push_str(line.strip_prefix("papcalc: ").unwrap_or(line))?;
    }
    Ok(words)
}

/// Puts a plan at its day, where it is accepted.
fn put<L: Ledger>(
    alloc: Global,
    script: &mut Script,
    day: Day,
    judged: Judged,
    steps: &mut Steps<L>,
) -> Result<LineReply, AllocError>
    ensures made { (plan limits : List ℕ) → IsJudged plan limits judged → IfOk result
        (λ reply. IsMade (IsTextsStep IsPut script.old day plan limits)
        script.new steps.old steps.new (reply_of reply)) }
    ensures lost { (plan limits : List ℕ) → IsJudged plan limits judged → OnErr result
        (IsWant (IsTextsStep IsPut script.old day plan limits) steps.old steps.new) }
    ensures left { (plan limits : List ℕ) → IsJudged plan limits judged → OnErr result
        (StaysOrSteps (IsTextsStep IsPut script.old day plan limits) script.old script.new) }
{
    match judged {
        Judged::Accepted { plan, line } => {
            let made = script.book.put_plan(day, plan, steps);
            edit_reply(alloc, &mut script.made, line.as_bytes(), made)
        }
        Judged::Refused(reply) => Ok(reply),
    }
}

/// Tries a plan for its day, where it is accepted.
fn tried<L: Ledger>(
    alloc: Global,
    script: &Script,
    day: Day,
    judged: Judged,
    steps: &mut Steps<L>,
) -> Result<LineReply, AllocError>
    ensures made { (plan limits : List ℕ) → IsJudged plan limits judged → IfOk result
        (λ reply. IsMade (IsTextsStep IsTrialStep script.now day plan limits)
        script.now steps.old steps.new (reply_of reply)) }
    ensures lost { (plan limits : List ℕ) → IsJudged plan limits judged → OnErr result
        (IsWant (IsTextsStep IsTrialStep script.now day plan limits) steps.old steps.new) }
{
    match judged {
        Judged::Accepted { plan, line } => {
            let trial = try_plan(alloc, &script.book, day, plan, steps);
            trial_reply(alloc, line, trial)
        }
        Judged::Refused(reply) => Ok(reply),
    }
}
