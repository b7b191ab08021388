//! What a line asks for, done and answered.
ghost use Rattle.std.specs.Prelude.{◌≡◌, ◌≢◌, ℕ, List, IfOk, OnErr, Ok, Err, is_some};
ghost use Rattle.std.specs.Result.{ForErr};
ghost use Rattle.outside.specs.Causes.{Caused};
ghost use Rattle.script_steps.specs.private.Replies.{reply_of};
ghost use Rattle.script_lang.specs.Commands.{asked_of};
ghost use Rattle.script_lang.specs.Lines.{IsLine};
ghost use Rattle.script_steps.specs.LineTexts.{work_line};
ghost use Rattle.script_steps.specs.Standings.{StaysOrSteps, answered};
ghost use Rattle.script_steps.specs.Shown.{shown_by};
ghost use Rattle.script_steps.specs.StepClauses.{IsAnswered, IsBroken};
ghost use Rattle.script_steps.specs.private.StepViews.{IsMade, IsUnmade, ToldDoes};

use crate::edits::{add, change, drop_plan, withdraw};
use crate::filings::{file, owed};
use crate::load::load;
use crate::open::open;
use crate::plan::{plan, trial};
use crate::reply::{LineReply, answered, write_reply};
use crate::report::report;
use crate::script::Script;
use crate::stop::LineStop;
use crate::trace::trace;
use outside::{Files, Sink};
use recalc_engine::{Book, Work};
use script_lang::Command;
use std::alloc::{AllocError, Global};
use std::sync::ledger::Ledger;
use steps::Steps;

/// Does what a line asks for, and writes its answer. `Ok` has what is wrong with the line, in plain words, where that is a refusal.
pub(crate) fn answer_command<F: Files, W: Sink, L: Ledger>(
    alloc: Global,
    script: &mut Script,
    command: Command,
    files: &mut F,
    sink: &mut W,
    steps: &mut Steps<L>,
) -> Result<Option<String>, LineStop>
    ensures answered { (line : List ℕ) → IsLine line (asked_of command)
        → IfOk result (λ wrong. IsAnswered
        (shown_by F.Files W.Sink files.old sink.old steps.old)
        (shown_by F.Files W.Sink files.new sink.new steps.new)
        script.old script.new line (is_some wrong)) }
    ensures broken { (line : List ℕ) → IsLine line (asked_of command)
        → ForErr result (λ stop. IsBroken
        (shown_by F.Files W.Sink files.old sink.old steps.old)
        (shown_by F.Files W.Sink files.new sink.new steps.new)
        script.old script.new line stop) }
    ensures same { F.told files.new ≡ F.told files.old }
    ensures file { Caused LineStop.File (F.faults files.old) (F.faults files.new) result }
    ensures write { Caused LineStop.Write (W.faults sink.old) (W.faults sink.new) result }
    ensures kept { result ≢ Err LineStop.File → F.failed files.new ≡ F.failed files.old }
{
    match command {
        Command::Report => report(alloc, &script.book, sink),
        command => {
            let reply = make_reply(alloc, script, command, files, steps)?;
            write_reply(reply, sink)
        }
    }
}

/// Does what a line asks for that isn't the report.
pub(crate) fn make_reply<F: Files, L: Ledger>(
    alloc: Global,
    script: &mut Script,
    command: Command,
    files: &mut F,
    steps: &mut Steps<L>,
) -> Result<LineReply, LineStop>
    requires { command ≢ Command.Report }
    ensures made { IfOk result (λ reply. IsMade
        (ToldDoes (F.told files.old) script.old (Ok (asked_of command)))
        script.new steps.old steps.new (reply_of reply)) }
    ensures unmade { ForErr result (IsUnmade (F.told files.old)
        (ToldDoes (F.told files.old) script.old (Ok (asked_of command)))
        (asked_of command) steps.old steps.new (F.failed files.new)) }
    ensures left { OnErr result (StaysOrSteps
        (ToldDoes (F.told files.old) script.old (Ok (asked_of command)))
        script.old script.new) }
    ensures unchanged { result ≡ Err LineStop.File → script.new ≡ script.old }
    ensures same { F.told files.new ≡ F.told files.old }
    ensures file { Caused LineStop.File (F.faults files.old) (F.faults files.new) result }
    ensures kept { result ≢ Err LineStop.File → F.failed files.new ≡ F.failed files.old }
{
    match command {
        Command::Nothing => Ok(answered(Vec::new(alloc), 0)),
        Command::Plan {
            day,
            plan: file,
            limits,
        } => { plan(alloc, script, day, &file, &limits, files, steps) }
        Command::Drop { day } => Ok(drop_plan(alloc, script, day, steps)?),
        Command::Add(run) => Ok(add(alloc, script, run, steps)?),
        Command::Change(run) => Ok(change(alloc, script, run, steps)?),
        Command::Withdraw { employee, when } => {
            Ok(withdraw(alloc, script, employee, when, steps)?)
        }
        Command::Load { file } => load(alloc, script, &file, files, steps),
        Command::Report => unreachable!(),
        Command::Work => Ok(work(alloc, &script.book)?),
        Command::Trace { employee, when } => Ok(trace(alloc, &script.book, employee, when)?),
        Command::File { month } => Ok(file(alloc, script, month)?),
        Command::Owed => Ok(owed(alloc, script)?),
        Command::Open { file } => open(alloc, script, &file, files, steps),
        Command::Try {
            day,
            plan: file,
            limits,
        } => { trial(alloc, script, day, &file, &limits, files, steps) }
    }
}

/// The line `work`: the runs and the steps of the last edit that was accepted.
fn work(alloc: Global, book: &Book) -> Result<LineReply, AllocError>
    ensures { IfOk result (λ reply. reply_of reply ≡ answered (work_line book.now.last) 0) }
{
    let Work { runs, steps } = book.last_work();
    let line = format!(in alloc; "work {runs} {steps}\n")?;
    Ok(answered(line.into_bytes(), 0))
}
