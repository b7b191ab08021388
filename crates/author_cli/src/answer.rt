//! What is written on a request.
ghost use Rattle.std.specs.Prelude.{◌≡◌, IfOk, None, option_map};
ghost use Rattle.outside.specs.Causes.{Caused};
ghost use Rattle.pap_reader.specs.Contents.{AreRead};
ghost use Rattle.pap_reader.specs.Elements.{IsFault};
ghost use Rattle.plain_words.specs.Places.{named_text};
ghost use Rattle.author_cli.specs.Words.{two_plans, with_limits, chart, chart_within, ranges, compared, traced, drawn, example, linted, covered};
ghost use Rattle.author_cli.specs.private.WordViews.{medium_of, plans_of, form_of};
ghost use Rattle.author_cli.specs.Answers.{IsUnread, IsRanges};
ghost use Rattle.author_cli.specs.private.AnswerViews.{answer_of, Makes};
ghost use Rattle.author_cli.specs.Outside.{outside_of};
ghost use Rattle.author_cli.specs.CallClauses.{Leaves};

use crate::charted::{chart_within, page_of};
use crate::compared::{compare_plans, read_two};
use crate::compared_pairs::{PlanPair, compare_pairs, read_four};
use crate::covered::{cover_plan, read_three};
use crate::drawn::draw_trace;
use crate::example::seek_example;
use crate::linted::lint_plan;
use crate::stop::Stop;
use crate::traced::trace_plan;
use crate::words::{Medium, NamedPlans, Request};
use outside::{FileAnswer, Files, Sink, put_all};
use pap_plan::PlanRefusal;
use pap_reader::{LONGEST_PLAN, ReadFault, Tokens, elements_of, read_tokens};
use payroll_records::Values;
use plain_words::{TextFile, plan_words};
use plan_answers::{read_both, refused};
use plan_notes::notes_of;
use range_draft::draft_ranges;
use std::alloc::{AllocError, Global};

/// What is written, and why a plan is refused, that two differ, that a run fails, or how many findings there
/// are, where that is so.
#[derive(Drop)]
pub(crate) struct Answer {
    pub text: Vec<u8>,
    pub reason: Option<String>,
}

/// Writes the answer on a request. `Ok` says why a plan is refused, that two differ, that a run fails, or how many findings there
/// are, where that is so.
pub(crate) fn write_answer<F: Files, W: Sink>(
    alloc: Global,
    request: Request<'_>,
    files: &mut F,
    sink: &mut W,
) -> Result<Option<String>, Stop>
    ensures leaves { Leaves (form_of request.entry)
        (outside_of F.Files W.Sink files.old sink.old)
        (outside_of F.Files W.Sink files.new sink.new) result }
    ensures same { F.told files.new ≡ F.told files.old }
    ensures file { Caused Stop.File (F.faults files.old) (F.faults files.new) result }
    ensures write { Caused Stop.Write (W.faults sink.old) (W.faults sink.new) result }
{
    let Answer { text, reason } = make_answer(alloc, request, files)?;
    match put_all(sink, &text) {
        Ok(()) => Ok(reason),
        Err(_) => Err(Stop::Write),
    }
}

/// The answer on a request.
fn make_answer<F: Files>(
    alloc: Global,
    request: Request<'_>,
    files: &mut F,
) -> Result<Answer, FileAnswer>
    ensures made { Makes (form_of request.entry)
        (F.told files.old) (F.failed files.old) (F.failed files.new) result }
    ensures same { F.told files.new ≡ F.told files.old }
    ensures cause { Caused FileAnswer.Failed (F.faults files.old) (F.faults files.new) result }
{
    match request {
        Request::Chart { plan } => answer_chart(alloc, plan, files),
        Request::ChartWithin { plan, limits } => answer_chart_within(alloc, plan, limits, files),
        Request::Ranges { plan } => answer_ranges(alloc, plan, files),
        Request::Compare { medium, plans } => answer_named(alloc, medium, plans, files),
        Request::Trace {
            plan,
            limits,
            values,
        } => answer_traced(alloc, plan, limits, values, files),
        Request::Draw {
            plan,
            limits,
            values,
        } => answer_drawn(alloc, plan, limits, values, files),
        Request::Example { plan, limits } => answer_example(alloc, plan, limits, files),
        Request::Lint { plan, limits } => answer_linted(alloc, plan, limits, files),
        Request::Cover {
            medium,
            plan,
            limits,
            table,
            least,
        } => answer_covered(alloc, medium, plan, limits, table, least, files),
    }
}

/// The page of a plan without a range file.
fn answer_chart<F: Files>(alloc: Global, plan: &str, files: &mut F) -> Result<Answer, FileAnswer>
    ensures made { Makes (chart plan.now)
        (F.told files.old) (F.failed files.old) (F.failed files.new) result }
    ensures same { F.told files.new ≡ F.told files.old }
    ensures cause { Caused FileAnswer.Failed (F.faults files.old) (F.faults files.new) result }
{
    let bytes = files.read_front(alloc, plan, LONGEST_PLAN + 1)?;
    let plan = TextFile {
        name: plan,
        bytes: &bytes,
    };
    Ok(page_of(alloc, plan, None)?)
}

/// The page of a plan with a range file.
fn answer_chart_within<F: Files>(
    alloc: Global,
    plan: &str,
    limits: &str,
    files: &mut F,
) -> Result<Answer, FileAnswer>
    ensures made { Makes (chart_within plan.now limits.now)
        (F.told files.old) (F.failed files.old) (F.failed files.new) result }
    ensures same { F.told files.new ≡ F.told files.old }
    ensures cause { Caused FileAnswer.Failed (F.faults files.old) (F.faults files.new) result }
{
    let (plan_bytes, limits_bytes) = read_both(alloc, plan, limits, files)?;
    let plan = TextFile {
        name: plan,
        bytes: &plan_bytes,
    };
    let limits = TextFile {
        name: limits,
        bytes: &limits_bytes,
    };
    Ok(chart_within(alloc, plan, limits)?)
}

/// A range file to begin with.
fn answer_ranges<F: Files>(alloc: Global, plan: &str, files: &mut F) -> Result<Answer, FileAnswer>
    ensures made { Makes (ranges plan.now)
        (F.told files.old) (F.failed files.old) (F.failed files.new) result }
    ensures same { F.told files.new ≡ F.told files.old }
    ensures cause { Caused FileAnswer.Failed (F.faults files.old) (F.faults files.new) result }
{
    let bytes = files.read_front(alloc, plan, LONGEST_PLAN + 1)?;
    let plan = TextFile {
        name: plan,
        bytes: &bytes,
    };
    Ok(ranges_of(alloc, plan)?)
}

/// The comparison of the plans of these names.
fn answer_named<F: Files>(
    alloc: Global,
    medium: Medium,
    plans: NamedPlans<'_>,
    files: &mut F,
) -> Result<Answer, FileAnswer>
    ensures made { Makes (compared (medium_of medium) (plans_of plans.entry))
        (F.told files.old) (F.failed files.old) (F.failed files.new) result }
    ensures same { F.told files.new ≡ F.told files.old }
    ensures cause { Caused FileAnswer.Failed (F.faults files.old) (F.faults files.new) result }
{
    match plans {
        NamedPlans::TwoPlans { old, new } => answer_compared(alloc, medium, old, new, files),
        NamedPlans::WithLimits {
            old,
            old_limits,
            new,
            new_limits,
        } => answer_pairs(alloc, medium, old, old_limits, new, new_limits, files),
    }
}

/// The comparison of two plans.
fn answer_compared<F: Files>(
    alloc: Global,
    medium: Medium,
    old: &str,
    new: &str,
    files: &mut F,
) -> Result<Answer, FileAnswer>
    ensures made { Makes (compared (medium_of medium) (two_plans old.now new.now))
        (F.told files.old) (F.failed files.old) (F.failed files.new) result }
    ensures same { F.told files.new ≡ F.told files.old }
    ensures cause { Caused FileAnswer.Failed (F.faults files.old) (F.faults files.new) result }
{
    let (old_bytes, new_bytes) = read_two(alloc, old, new, files)?;
    let old = TextFile {
        name: old,
        bytes: &old_bytes,
    };
    let new = TextFile {
        name: new,
        bytes: &new_bytes,
    };
    Ok(compare_plans(alloc, medium, old, new)?)
}

/// The comparison of two plans with their range files.
fn answer_pairs<F: Files>(
    alloc: Global,
    medium: Medium,
    old: &str,
    old_limits: &str,
    new: &str,
    new_limits: &str,
    files: &mut F,
) -> Result<Answer, FileAnswer>
    ensures made { Makes (compared (medium_of medium)
        (with_limits old.now old_limits.now new.now new_limits.now))
        (F.told files.old) (F.failed files.old) (F.failed files.new) result }
    ensures same { F.told files.new ≡ F.told files.old }
    ensures cause { Caused FileAnswer.Failed (F.faults files.old) (F.faults files.new) result }
{
    let read = read_four(alloc, old, old_limits, new, new_limits, files)?;
    let old = PlanPair {
        plan: TextFile {
            name: old,
            bytes: &read.old,
        },
        limits: TextFile {
            name: old_limits,
            bytes: &read.old_limits,
        },
    };
    let new = PlanPair {
        plan: TextFile {
            name: new,
            bytes: &read.new,
        },
        limits: TextFile {
            name: new_limits,
            bytes: &read.new_limits,
        },
    };
    Ok(compare_pairs(alloc, medium, old, new)?)
}

/// The text of a run.
fn answer_traced<F: Files>(
    alloc: Global,
    plan: &str,
    limits: &str,
    values: Values,
    files: &mut F,
) -> Result<Answer, FileAnswer>
    ensures made { Makes (traced plan.now limits.now values)
        (F.told files.old) (F.failed files.old) (F.failed files.new) result }
    ensures same { F.told files.new ≡ F.told files.old }
    ensures cause { Caused FileAnswer.Failed (F.faults files.old) (F.faults files.new) result }
{
    let (plan_bytes, limits_bytes) = read_both(alloc, plan, limits, files)?;
    let plan = TextFile {
        name: plan,
        bytes: &plan_bytes,
    };
    let limits = TextFile {
        name: limits,
        bytes: &limits_bytes,
    };
    Ok(trace_plan(alloc, plan, limits, values)?)
}

/// The page of a run.
fn answer_drawn<F: Files>(
    alloc: Global,
    plan: &str,
    limits: &str,
    values: Values,
    files: &mut F,
) -> Result<Answer, FileAnswer>
    ensures made { Makes (drawn plan.now limits.now values)
        (F.told files.old) (F.failed files.old) (F.failed files.new) result }
    ensures same { F.told files.new ≡ F.told files.old }
    ensures cause { Caused FileAnswer.Failed (F.faults files.old) (F.faults files.new) result }
{
    let (plan_bytes, limits_bytes) = read_both(alloc, plan, limits, files)?;
    let plan = TextFile {
        name: plan,
        bytes: &plan_bytes,
    };
    let limits = TextFile {
        name: limits,
        bytes: &limits_bytes,
    };
    Ok(draw_trace(alloc, plan, limits, values)?)
}

/// Inputs on which a run of a plan fails, or why it is safe after all.
fn answer_example<F: Files>(
    alloc: Global,
    plan: &str,
    limits: &str,
    files: &mut F,
) -> Result<Answer, FileAnswer>
    ensures made { Makes (example plan.now limits.now)
        (F.told files.old) (F.failed files.old) (F.failed files.new) result }
    ensures same { F.told files.new ≡ F.told files.old }
    ensures cause { Caused FileAnswer.Failed (F.faults files.old) (F.faults files.new) result }
{
    let (plan_bytes, limits_bytes) = read_both(alloc, plan, limits, files)?;
    let plan = TextFile {
        name: plan,
        bytes: &plan_bytes,
    };
    let limits = TextFile {
        name: limits,
        bytes: &limits_bytes,
    };
    Ok(seek_example(alloc, plan, limits)?)
}

/// What a plan has in vain within the ranges of its inputs.
fn answer_linted<F: Files>(
    alloc: Global,
    plan: &str,
    limits: &str,
    files: &mut F,
) -> Result<Answer, FileAnswer>
    ensures made { Makes (linted plan.now limits.now)
        (F.told files.old) (F.failed files.old) (F.failed files.new) result }
    ensures same { F.told files.new ≡ F.told files.old }
    ensures cause { Caused FileAnswer.Failed (F.faults files.old) (F.faults files.new) result }
{
    let (plan_bytes, limits_bytes) = read_both(alloc, plan, limits, files)?;
    let plan = TextFile {
        name: plan,
        bytes: &plan_bytes,
    };
    let limits = TextFile {
        name: limits,
        bytes: &limits_bytes,
    };
    Ok(lint_plan(alloc, plan, limits)?)
}

/// To what the runs of a table come.
fn answer_covered<F: Files>(
    alloc: Global,
    medium: Medium,
    plan: &str,
    limits: &str,
    table: &str,
    least: Option<u8>,
    files: &mut F,
) -> Result<Answer, FileAnswer>
    ensures made { Makes (covered (medium_of medium) plan.now limits.now table.now least)
        (F.told files.old) (F.failed files.old) (F.failed files.new) result }
    ensures same { F.told files.new ≡ F.told files.old }
    ensures cause { Caused FileAnswer.Failed (F.faults files.old) (F.faults files.new) result }
{
    let read = read_three(alloc, plan, limits, table, files)?;
    let plan = TextFile {
        name: plan,
        bytes: &read.plan,
    };
    let limits = TextFile {
        name: limits,
        bytes: &read.limits,
    };
    let table = TextFile {
        name: table,
        bytes: &read.table,
    };
    Ok(cover_plan(alloc, medium, plan, limits, table, least)?)
}

/// The range file that begins with a plan's inputs, or the line of its refusal where the bytes aren't read as a plan.
fn ranges_of(alloc: Global, plan: TextFile<'_>) -> Result<Answer, AllocError>
    ensures { IfOk result (λ answer. IsRanges (named_text plan.entry) (answer_of answer)) }
{
    let tokens = read_tokens(alloc, plan.bytes)?;
    let answer = ranges_of_tokens(alloc, plan, &tokens)?;
    Ok(answer)
}

/// The same of a plan whose tokens are read.
#[tactic(auto, using(crate::proofs::UnreadLemmas::few_inputs))]
fn ranges_of_tokens(
    alloc: Global,
    plan: TextFile<'_>,
    tokens: &Tokens<'_>,
) -> Result<Answer, AllocError>
    requires { AreRead plan.bytes.now tokens.now }
    ensures { IfOk result (λ answer. IsRanges (named_text plan.entry) (answer_of answer)) }
{
    match elements_of(alloc, plan.bytes, tokens) {
        Ok(elements) => {
            let notes = notes_of(alloc, tokens)?;
            let draft = draft_ranges(alloc, &elements, &notes)?;
            Ok(Answer {
                text: draft.into_bytes(),
                reason: None,
            })
        }
        Err(ReadFault::Memory) => Err(AllocError),
        Err(fault) => answer_unread(alloc, plan, fault),
    }
}

/// The line of a file that isn't read as a plan, as `papcalc check` writes it.
#[tactic(auto, using(crate::proofs::UnreadLemmas::unread))]
fn answer_unread(alloc: Global, plan: TextFile<'_>, fault: ReadFault) -> Result<Answer, AllocError>
    requires { IsFault plan.bytes.now fault }
    ensures { IfOk result (λ answer. IsUnread (named_text plan.entry) (answer_of answer)) }
{
    let refusal = PlanRefusal::Read(fault);
    let reply = refused(alloc, plan.bytes, &refusal)?;
    let ranges = TextFile {
        name: "",
        bytes: &[],
    };
    let reason = plan_words(alloc, plan, ranges, &refusal)?;
    Ok(Answer {
        text: reply.text,
        reason: Some(reason),
    })
}
