//! The page of a run.
ghost use Rattle.std.specs.Prelude.{◌≡◌, ◌≢◌, IfOk, Some, string_bytes};
ghost use Rattle.payroll_records.specs.declared.day.Day.{Day as Date};
ghost use Rattle.pap_plan.specs.Plans.{Admits, flowchart};
ghost use Rattle.plain_words.specs.Places.{named_text};
ghost use Rattle.flowchart_page.specs.declared.verdict.Verdict.TheVariants.{Refused};
ghost use Rattle.flowchart_page.specs.Findings.{IsFound};
ghost use Rattle.flowchart_page.specs.Judged.{finding_of, words_of as verdict_words, HasLine};
ghost use Rattle.flowchart_page.specs.Verdicts.{IsJudged};
ghost use Rattle.carry_bindings.specs.declared.filling.Filled.TheVariants.{State};
ghost use Rattle.pay_run.specs.Accepted.{accepted};
ghost use Rattle.author_cli.specs.Given.{filled_given};
ghost use Rattle.author_cli.specs.Drawn.{IsDrawn, IsDrawnRefused, blocked_line};
ghost use Rattle.author_cli.specs.Ends.{words_of};
ghost use Rattle.author_cli.specs.private.DrawnViews.{IsOfFiles, DrawsRun, DrawsBlocked};

use crate::answer::Answer;
use crate::given::{fill_given, given_words};
use crate::traced::{record_of, state_detail};
use carry_bindings::{Blocked, Filled};
use flowchart_page::{Marking, Reason, RunShown, Subject, Verdict, draw_judged, judge};
use pap_plan::Plan;
use payroll_records::Values;
use plain_words::TextFile;
use plan_notes::read_notes;
use run_trace::{blocked_part, run_on_page};
use scaled_decimal::Dec;
use source_lines::source_lines;
use std::alloc::{AllocError, Global};

/// An accepted plan with its files and the verdict on it.
#[derive(Clone, Copy)]
struct Judged<'a> {
    plan: TextFile<'a>,
    limits: TextFile<'a>,
    verdict: &'a Verdict,
    accepted: &'a Plan,
}

/// The page of the run of a plan's bytes and a range file's on some values. Where the plan is accepted and there is no such run, the
/// page says why; of a refused plan it is the page that says why it is refused.
pub(crate) fn draw_trace(
    alloc: Global,
    plan: TextFile<'_>,
    limits: TextFile<'_>,
    values: Values,
) -> Result<Answer, AllocError>
    ensures { IfOk result (λ answer. IsDrawn values
        (named_text plan.entry) (named_text limits.entry) answer.text.items (words_of answer.reason)) }
{
    let verdict = judge(alloc, plan, Some(limits))?;
    match &verdict {
        Verdict::Accepted(accepted) => {
            let judged = Judged {
                plan,
                limits,
                verdict: &verdict,
                accepted,
            };
            draw_accepted(alloc, judged, values)
        }
        Verdict::InOrder => unreachable!(),
        Verdict::Refused(reason) => draw_refused(alloc, plan, limits, &verdict, reason),
    }
}

/// The page of a plan that is refused.
fn draw_refused(
    alloc: Global,
    plan: TextFile<'_>,
    limits: TextFile<'_>,
    verdict: &Verdict,
    reason: &Reason,
) -> Result<Answer, AllocError>
    requires found { IsFound plan.bytes.now (Some limits.bytes.now) (finding_of verdict.now) }
    requires line { HasLine plan.bytes.now verdict.now }
    requires judged { IsJudged (named_text plan) (Some (named_text limits))
        (verdict_words verdict.now) }
    requires refused { verdict.now ≡ Refused reason.now }
    ensures { IfOk result (λ answer. IsDrawnRefused (named_text plan.entry)
        (named_text limits.entry) answer.text.items (words_of answer.reason)) }
{
    let page = draw_judged(alloc, plan, Some(limits), verdict, None)?;
    let words = reason.words.clone()?;
    Ok(Answer {
        text: page,
        reason: Some(words),
    })
}

/// The page of an accepted plan's run, or why that has no inputs.
fn draw_accepted(alloc: Global, judged: Judged<'_>, values: Values) -> Result<Answer, AllocError>
    requires { IsOfFiles judged }
    ensures { IfOk result (λ answer. IsDrawn values (named_text judged.entry.plan)
        (named_text judged.entry.limits) answer.text.items (words_of answer.reason)) }
{
    let record = record_of(values);
    match fill_given(alloc, judged.accepted, &record)? {
        Filled::Inputs(inputs) => draw_run(alloc, judged, &record.values, inputs.as_slice()),
        Filled::State(state) => draw_blocked(alloc, judged, &record.values, &state),
    }
}

/// The page of a run on inputs that its plan admits.
fn draw_run(
    alloc: Global,
    judged: Judged<'_>,
    given: &Values,
    inputs: &[Dec],
) -> Result<Answer, AllocError>
    requires files { IsOfFiles judged }
    requires admitted { Admits judged.accepted.now inputs.now }
    ensures { IfOk result (λ answer. DrawsRun judged.entry (flowchart judged.entry.accepted.now)
        given.now inputs.now answer.text.items (words_of answer.reason)) }
{
    let Judged { plan, limits, .. } = judged;
    let notes = read_notes(alloc, plan.bytes)?;
    let lines = source_lines(alloc, plan.bytes, &notes.marks)?;
    let run = run_on_page(alloc, judged.accepted, &lines, given, inputs)?;
    let shown = RunShown {
        subject: Subject::Run,
        part: &run.part,
        marks: &run.marks,
        marking: Marking::Run,
        internals: &[],
    };
    let page = draw_judged(alloc, plan, Some(limits), judged.verdict, Some(shown))?;
    Ok(Answer {
        text: page,
        reason: None,
    })
}

/// The page of a plan whose run has no inputs.
fn draw_blocked(
    alloc: Global,
    judged: Judged<'_>,
    values: &Values,
    state: &Blocked,
) -> Result<Answer, AllocError>
    requires files { IsOfFiles judged }
    requires alone { (day : Date) → state.now ≢ Blocked.Waits day }
    requires blocked { filled_given (accepted judged.accepted.now) values.now ≡ State state.now }
    ensures { IfOk result (λ answer. DrawsBlocked judged.entry values.now state.now
        answer.text.items (words_of answer.reason)) }
{
    let Judged {
        plan,
        limits,
        accepted,
        ..
    } = judged;
    let words = given_words(alloc, plan, limits, accepted, values, state)?;
    let line = blocked_line(alloc, state)?;
    let part = blocked_part(alloc, words.as_str(), line.as_bytes())?;
    let run = RunShown {
        subject: Subject::Run,
        part: &part,
        marks: &[],
        marking: Marking::Nothing,
        internals: &[],
    };
    let page = draw_judged(alloc, plan, Some(limits), judged.verdict, Some(run))?;
    Ok(Answer {
        text: page,
        reason: Some(words),
    })
}

/// The line that `papcalc once` has for a run without inputs.
fn blocked_line(alloc: Global, state: &Blocked) -> Result<String, AllocError>
    requires { (day : Date) → state.now ≢ Blocked.Waits day }
    ensures { IfOk result (λ line. string_bytes line ≡ blocked_line state.now) }
{
    let detail = state_detail(alloc, state)?;
    format!(in alloc; "refused {detail}")
}
