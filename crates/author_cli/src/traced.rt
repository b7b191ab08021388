//! The text of a run.
ghost use Rattle.std.specs.Prelude.{◌≡◌, ◌≢◌, IfOk, string_bytes};
ghost use Rattle.payroll_records.specs.declared.day.Day.{Day as Date};
ghost use Rattle.pap_plan.specs.Acceptance.{IsRefusedOrMemory};
ghost use Rattle.pap_plan.specs.AcceptanceClauses.{IsAcceptedAs};
ghost use Rattle.pap_plan.specs.Plans.{Admits, flowchart};
ghost use Rattle.carry_bindings.specs.declared.filling.Filled.TheVariants.{State};
ghost use Rattle.pay_run.specs.Accepted.{accepted};
ghost use Rattle.plain_words.specs.Places.{files_of, named_text};
ghost use Rattle.author_cli.specs.Given.{filled_given};
ghost use Rattle.author_cli.specs.Traced.{IsTraced, IsRefusedAs, state_detail};
ghost use Rattle.author_cli.specs.Ends.{words_of};
ghost use Rattle.author_cli.specs.private.TracedViews.{IsRunOf, SaysBlocked};

use crate::answer::Answer;
use crate::given::{fill_given, given_words};
use carry_bindings::{Blocked, Filled};
use pap_plan::{Plan, PlanRefusal, accept};
use payroll_records::{Day, Employee, Record, Values};
use plain_words::{TextFile, plan_words};
use plan_answers::{refusal, refused};
use plan_notes::read_notes;
use run_trace::run_text;
use scaled_decimal::Dec;
use source_lines::source_lines;
use std::alloc::{AllocError, Global};

/// The text of the run of a plan's bytes and a range file's on some values, or why there is none.
pub(crate) fn trace_plan(
    alloc: Global,
    plan: TextFile<'_>,
    limits: TextFile<'_>,
    values: Values,
) -> Result<Answer, AllocError>
    ensures { IfOk result (λ answer. IsTraced values
        (named_text plan.entry) (named_text limits.entry) answer.text.items (words_of answer.reason)) }
{
    match accept(alloc, plan.bytes, limits.bytes) {
        Ok(accepted) => trace_accepted(alloc, plan, limits, &accepted, values),
        Err(PlanRefusal::Memory) => Err(AllocError),
        Err(fault) => answer_refused(alloc, plan, limits, &fault),
    }
}

/// The text of an accepted plan's run, or why that has no inputs.
fn trace_accepted(
    alloc: Global,
    plan: TextFile<'_>,
    limits: TextFile<'_>,
    judged: &Plan,
    values: Values,
) -> Result<Answer, AllocError>
    requires { IsAcceptedAs plan.bytes.now limits.bytes.now judged.now }
    ensures { IfOk result (λ answer. IsTraced values
        (named_text plan.entry) (named_text limits.entry) answer.text.items (words_of answer.reason)) }
{
    let record = record_of(values);
    match fill_given(alloc, judged, &record)? {
        Filled::Inputs(inputs) => {
            tell_run(alloc, plan.bytes, judged, &record.values, inputs.as_slice())
        }
        Filled::State(state) => {
            answer_blocked(alloc, plan, limits, judged, &record.values, &state)
        }
    }
}

/// The record of a run that stands alone: its employee and its day play no part.
pub(crate) fn record_of(values: Values) -> Record
    ensures { result.values ≡ values }
{
    Record {
        employee: Employee::read(b"X").unwrap(),
        day: Day::new(1900, 1, 1).unwrap(),
        values,
    }
}

/// The text of a run on inputs that its plan admits.
fn tell_run(
    alloc: Global,
    file: &[u8],
    judged: &Plan,
    given: &Values,
    inputs: &[Dec],
) -> Result<Answer, AllocError>
    requires { Admits judged.now inputs.now }
    ensures { IfOk result (λ answer. IsRunOf file.now (flowchart judged.now) given.now inputs.now
        answer.text.items (words_of answer.reason)) }
{
    let notes = read_notes(alloc, file)?;
    let lines = source_lines(alloc, file, &notes.marks)?;
    let text = run_text(alloc, judged, &lines, given, inputs)?;
    Ok(Answer { text, reason: None })
}

/// The line of a run that has no inputs, as `papcalc once` writes it, and why.
fn answer_blocked(
    alloc: Global,
    plan: TextFile<'_>,
    limits: TextFile<'_>,
    judged: &Plan,
    values: &Values,
    state: &Blocked,
) -> Result<Answer, AllocError>
    requires alone { (day : Date) → state.now ≢ Blocked.Waits day }
    requires blocked { filled_given (accepted judged.now) values.now ≡ State state.now }
    ensures { IfOk result (λ answer. SaysBlocked (accepted judged.now) values.now
        (files_of plan.entry limits.entry) state.now answer.text.items (words_of answer.reason)) }
{
    let detail = state_detail(alloc, state)?;
    let reply = refusal(alloc, detail.as_bytes())?;
    let reason = given_words(alloc, plan, limits, judged, values, state)?;
    Ok(Answer {
        text: reply.text,
        reason: Some(reason),
    })
}

/// Why a run has no inputs, in the words of its refusal. A run without earlier ones waits for none.
pub(crate) fn state_detail(alloc: Global, state: &Blocked) -> Result<String, AllocError>
    requires { (day : Date) → state.now ≢ Blocked.Waits day }
    ensures { IfOk result (λ detail. string_bytes detail ≡ state_detail state.now) }
{
    match state {
        Blocked::Waits(_) => unreachable!(),
        Blocked::Unknown(name) => format!(in alloc; "state unknown {name}"),
        Blocked::Missing(name) => format!(in alloc; "state missing {name}"),
        Blocked::Range(name) => format!(in alloc; "state range {name}"),
    }
}

/// The line of a refused plan, as `papcalc check` writes it, and why it is refused.
#[tactic(auto, using(crate::proofs::TracedLemmas::refused_run))]
pub(crate) fn answer_refused(
    alloc: Global,
    plan: TextFile<'_>,
    limits: TextFile<'_>,
    fault: &PlanRefusal,
) -> Result<Answer, AllocError>
    requires { IsRefusedOrMemory plan.bytes.now limits.bytes.now fault.now }
    ensures { IfOk result (λ answer. IsRefusedAs fault.now
        (named_text plan.entry) (named_text limits.entry) answer.text.items (words_of answer.reason)) }
{
    let reply = refused(alloc, plan.bytes, fault)?;
    let reason = plan_words(alloc, plan, limits, fault)?;
    Ok(Answer {
        text: reply.text,
        reason: Some(reason),
    })
}
