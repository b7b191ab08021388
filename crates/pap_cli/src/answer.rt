//! The answer on two files.
ghost use Rattle.std.specs.Prelude.{◌≡◌, ◌≢◌, ◌+◌, true, None, Ok, IfOk, IfSome, OnErr, is_some, string_bytes};
ghost use Rattle.outside.specs.Causes.{Caused};
ghost use Rattle.pap_plan.specs.Judgements.{IsRefusedPlan};
ghost use Rattle.plain_words.specs.Places.{files_of};
ghost use Rattle.plan_answers.specs.Answers.{IsRefusal};
ghost use Rattle.script_steps.specs.Shown.{shown};
ghost use Rattle.pap_cli.specs.FileClauses.{IsCounted, LeavesOnFiles};
ghost use Rattle.script_run.specs.Notes.{AreNoted, notes_shown};
ghost use Rattle.pap_cli.specs.Reasons.{IsReasonOn};
ghost use Rattle.diagnostics.specs.FurtherFaults.{TellsFaults};
ghost use Rattle.pap_cli.specs.Statuses.{status_of};
ghost use Rattle.pap_cli.specs.private.AnswerViews.{answer_of, answers_of, refused_of};
ghost use Rattle.pap_cli.specs.private.ReasonViews.{HasReasonOn, TellsOn};

use crate::check::check_reply;
use crate::once::run_reply;
use crate::reply::FileReply;
use crate::words::{Command, FileRequest};
use diagnostics::refusal_lines;
use outside::{Files, Sink, put_all};
use pap_plan::{Judgement, RefusedPlan, judge_plan};
use plain_words::TextFile;
use plan_answers::{Reply, read_both, refused};
use script_run::Stop;
use std::alloc::{AllocError, Global};
use std::sync::ledger::Ledger;
use steps::Steps;

/// The answer on the bytes of a plan and of a range file. Where memory runs out a run may have been counted.
fn reply_on_bytes<L: Ledger>(
    alloc: Global,
    command: Command,
    plan: TextFile<'_>,
    limits: TextFile<'_>,
    steps: &mut Steps<L>,
) -> Result<FileReply, AllocError>
    ensures answer { IfOk result (λ reply.
        answers_of command plan.entry.bytes.now limits.entry.bytes.now (answer_of reply)) }
    ensures reason { IfOk result (λ reply. IfSome reply.reason (λ text.
        TellsOn command (files_of plan.entry limits.entry) (string_bytes text))) }
    ensures counted { IfOk result (λ reply. steps.new ≡ steps.old + reply.steps) }
    ensures memory { OnErr result (IsCounted
        (answers_of command plan.entry.bytes.now limits.entry.bytes.now) steps.old steps.new) }
    ensures check { command ≡ Command.Check → steps.new ≡ steps.old }
{
    match judge_plan(alloc, plan.bytes, limits.bytes)? {
        Judgement::Accepted(accepted) => match command {
            Command::Check => check_reply(alloc, &accepted),
            Command::Once(values) => run_reply(alloc, plan, limits, &accepted, values, steps),
        },
        Judgement::Refused(refused) => refused_reply(alloc, plan, limits, &refused),
    }
}

/// The refusal of a plan and its range file, with its reason and further faults.
fn refused_reply(
    alloc: Global,
    plan: TextFile<'_>,
    limits: TextFile<'_>,
    told: &RefusedPlan,
) -> Result<FileReply, AllocError>
    requires { IsRefusedPlan plan.bytes.now limits.bytes.now told.now }
    ensures answer { IfOk result
        (λ reply. IsRefusal plan.entry.bytes.now told.now.refusal (answer_of reply)) }
    ensures reason { IfOk result (λ reply. IfSome reply.reason (λ text.
        TellsFaults (files_of plan.entry limits.entry) told.now.refusal (string_bytes text))) }
{
    let Reply { text, steps, .. } = refused(alloc, plan.bytes, &told.refusal)?;
    let reason = refusal_lines(alloc, plan, limits, told)?;
    Ok(FileReply {
        text,
        reason: Some(reason),
        steps,
    })
}

/// Writes the answer that is asked for. `Ok` has its reason where it is a refusal: lines of plain words.
fn write_answer<F: Files, W: Sink, L: Ledger>(
    alloc: Global,
    request: FileRequest<'_>,
    files: &mut F,
    sink: &mut W,
    steps: &mut Steps<L>,
) -> Result<Option<String>, Stop>
    ensures leaves { LeavesOnFiles (answers_of request.entry.command)
        request.entry.plan.now request.entry.limits.now
        (shown (F.told files.old) (F.failed files.old) (W.written sink.old) steps.old)
        (shown (F.told files.new) (F.failed files.new) (W.written sink.new) steps.new)
        (status_of (refused_of result)) }
    ensures reason { IfOk result (λ reason. IfSome reason (λ text.
        IsReasonOn (TellsOn request.entry.command) request.entry.plan.now
        request.entry.limits.now (F.told files.old) (string_bytes text))) }
    ensures check { request.entry.command ≡ Command.Check → steps.new ≡ steps.old }
    ensures same { F.told files.new ≡ F.told files.old }
    ensures file { Caused Stop.File (F.faults files.old) (F.faults files.new) result }
    ensures write { Caused Stop.Write (W.faults sink.old) (W.faults sink.new) result }
{
    let FileRequest {
        plan: plan_name,
        limits: limits_name,
        command,
    } = request;
    let (plan_bytes, limits_bytes) = read_both(alloc, plan_name, limits_name, files)?;
    let plan = TextFile {
        name: plan_name,
        bytes: &plan_bytes,
    };
    let limits = TextFile {
        name: limits_name,
        bytes: &limits_bytes,
    };
    let reply = reply_on_bytes(alloc, command, plan, limits, steps)?;
    match put_all(sink, &reply.text) {
        Ok(()) => Ok(reply.reason),
        Err(_) => Err(Stop::Write),
    }
}

/// Puts the reason of a refusal to the notes, where there is one, and says whether there is. That a call of the notes may fail
/// changes nothing.
fn put_reason<N: Sink>(notes: &mut N, reason: Option<String>) -> bool
    ensures marked { result ≡ is_some reason }
    ensures silent { reason ≡ None → notes.new ≡ notes.old }
    ensures put { IfSome reason (λ text. AreNoted
        (notes_shown N.Sink notes.old) (notes_shown N.Sink notes.new) (string_bytes text)) }
{
    match reason {
        Some(text) => {
            let _ = put_all(notes, text.as_bytes());
            true
        }
        None => false,
    }
}

/// Writes the answer that is asked for, and then puts its reason to the notes where it is a refusal, which `Ok` says.
pub(crate) fn answer<F: Files, W: Sink, N: Sink, L: Ledger>(
    alloc: Global,
    request: FileRequest<'_>,
    files: &mut F,
    sink: &mut W,
    notes: &mut N,
    steps: &mut Steps<L>,
) -> Result<bool, Stop>
    ensures leaves { LeavesOnFiles (answers_of request.entry.command)
        request.entry.plan.now request.entry.limits.now
        (shown (F.told files.old) (F.failed files.old) (W.written sink.old) steps.old)
        (shown (F.told files.new) (F.failed files.new) (W.written sink.new) steps.new)
        (status_of result) }
    ensures reason { result ≡ Ok true → HasReasonOn request.entry.command
        request.entry.plan.now request.entry.limits.now (F.told files.old)
        (notes_shown N.Sink notes.old) (notes_shown N.Sink notes.new) }
    ensures silent { result ≢ Ok true → notes.new ≡ notes.old }
    ensures check { request.entry.command ≡ Command.Check → steps.new ≡ steps.old }
    ensures same { F.told files.new ≡ F.told files.old }
    ensures file { Caused Stop.File (F.faults files.old) (F.faults files.new) result }
    ensures write { Caused Stop.Write (W.faults sink.old) (W.faults sink.new) result }
{
    match write_answer(alloc, request, files, sink, steps) {
        Ok(reason) => Ok(put_reason(notes, reason)),
        Err(stop) => Err(stop),
    }
}
