//! The answer of `once` on an accepted plan.
ghost use Rattle.std.specs.Prelude.{◌≡◌, ◌≢◌, ◌+◌, ◌++◌, None, IfOk, IfSome, OnOk, OnErr, string_bytes};
ghost use Rattle.pap_plan.specs.Plans.{Admits, flowchart};
ghost use Rattle.pay_run.specs.Accepted.{accepted};
ghost use Rattle.plain_words.specs.Places.{files_of};
ghost use Rattle.pap_cli.specs.private.RunViews.{named_lines};
ghost use Rattle.pap_cli.specs.RunAnswers.{IsRunOn};
ghost use Rattle.pap_cli.specs.private.AnswerViews.{answer_of, IsRunWith};
ghost use Rattle.pap_cli.specs.Reasons.{TellsReasons};
ghost use Rattle.diagnostics.specs.FaultLines.{IsStateLine, TellsEach};
ghost use Rattle.diagnostics.specs.RunReasons.{run_reasons};
ghost use Rattle.plan_answers.specs.Replies.{reply_of};
ghost use Rattle.pap_cli.specs.FileClauses.{IsCounted};
ghost use Rattle.carry_bindings.specs.declared.filling.Filled.TheVariants.{Inputs, State};
ghost use Rattle.payroll_records.specs.declared.day.Day.{Day as Date};
ghost use Rattle.pap_tree.specs.Flowchart.{Flowchart};

use crate::reply::FileReply;
use carry_bindings::{Blocked, Filled};
use diagnostics::{run_reasons, state_lines};
use pap_plan::Plan;
use pay_run::{filled, run};
use payroll_records::{Day, Employee, NamedValue, Record, Values};
use plain_words::TextFile;
use plan_answers::{Reply, refusal};
use scaled_decimal::Dec;
use std::alloc::{AllocError, Global};
use std::sync::ledger::Ledger;
use steps::Steps;

/// The answer of `once` on an accepted plan: its run on the values of a record without earlier runs.
pub(crate) fn run_reply<L: Ledger>(
    alloc: Global,
    plan: TextFile<'_>,
    limits: TextFile<'_>,
    judged: &Plan,
    values: Values,
    steps: &mut Steps<L>,
) -> Result<FileReply, AllocError>
    ensures answer { IfOk result (λ reply. IsRunWith values judged.now (answer_of reply)) }
    ensures reason { IfOk result (λ reply. IfSome reply.reason (λ text.
        TellsReasons values (accepted judged.now) (files_of plan.entry limits.entry)
        (string_bytes text))) }
    ensures counted { IfOk result (λ reply. steps.new ≡ steps.old + reply.steps) }
    ensures memory { OnErr result
        (IsCounted (IsRunWith values judged.now) steps.old steps.new) }
{
    let record = record_of(values);
    match filled(alloc, judged, &record, &[])? {
        Filled::Inputs(inputs) => finished(alloc, judged, inputs.as_slice(), steps),
        Filled::State(state) => state_reply(alloc, plan, limits, judged, &record.values, &state),
    }
}

/// The refusal of a run that has no inputs, with all reasons. A run without earlier ones waits for none.
fn state_reply(
    alloc: Global,
    plan: TextFile<'_>,
    limits: TextFile<'_>,
    judged: &Plan,
    values: &Values,
    state: &Blocked,
) -> Result<FileReply, AllocError>
    requires { (day : Date) → state.now ≢ Blocked.Waits day }
    ensures answer { (f : Flowchart) → IfOk result
        (λ reply. IsRunOn f (State state.now) (answer_of reply)) }
    ensures reason { IfOk result (λ reply. IfSome reply.reason (λ text.
        TellsEach (IsStateLine (files_of plan.entry limits.entry))
        (run_reasons (accepted judged.now) values.now) (string_bytes text))) }
{
    let reply = state_refusal(alloc, state)?;
    let reasons = run_reasons(alloc, judged, values)?;
    let reason = state_lines(alloc, plan, limits, reasons.as_slice())?;
    Ok(FileReply {
        text: reply.text,
        reason: Some(reason),
        steps: reply.steps,
    })
}

/// The refusal of a run that has no inputs.
fn state_refusal(alloc: Global, state: &Blocked) -> Result<Reply, AllocError>
    requires { (day : Date) → state.now ≢ Blocked.Waits day }
    ensures { (f : Flowchart) → IfOk result
        (λ reply. IsRunOn f (State state.now) (reply_of reply)) }
{
    let detail = match state {
        Blocked::Waits(_) => unreachable!(),
        Blocked::Unknown(name) => format!(in alloc; "state unknown {name}")?,
        Blocked::Missing(name) => format!(in alloc; "state missing {name}")?,
        Blocked::Range(name) => format!(in alloc; "state range {name}")?,
    };
    refusal(alloc, detail.as_bytes())
}

/// The record of a run that stands alone: its employee and its day play no part.
fn record_of(values: Values) -> Record
    ensures { result.values ≡ values }
{
    Record {
        employee: Employee::read(b"X").unwrap(),
        day: Day::new(1900, 1, 1).unwrap(),
        values,
    }
}

/// The run of a plan on inputs that it admits.
fn finished<L: Ledger>(
    alloc: Global,
    plan: &Plan,
    inputs: &[Dec],
    steps: &mut Steps<L>,
) -> Result<FileReply, AllocError>
    requires { Admits plan.now inputs.now }
    ensures answer { IfOk result
        (λ reply. IsRunOn (flowchart plan.now) (Inputs inputs.now) (answer_of reply)) }
    ensures silent { IfOk result (λ reply. reply.reason ≡ None) }
    ensures counted { IfOk result (λ reply. steps.new ≡ steps.old + reply.steps) }
    ensures memory { OnErr result
        (IsCounted (IsRunOn (flowchart plan.now) (Inputs inputs.now)) steps.old steps.new) }
{
    let ran = run(alloc, plan, inputs, steps)?;
    let cost = ran.cost;
    let mut text = String::new(alloc);
    write_values(&mut text, ran.outputs.as_slice())?;
    write!(text, "steps {cost}\n")?;
    Ok(FileReply {
        text: text.into_bytes(),
        reason: None,
        steps: cost,
    })
}

/// Appends a line for each output: its name and its value.
fn write_values(text: &mut String, outputs: &[NamedValue]) -> Result<(), AllocError>
    ensures { OnOk result
        (string_bytes text.new ≡ string_bytes text.old ++ named_lines outputs.now) }
{
    for output in outputs {
        let name = output.name;
        let value = output.value;
        write!(text, "{name} {value}\n")?;
    }
    Ok(())
}
