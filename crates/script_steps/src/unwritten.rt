//! A line of a script, answered where no answer is written.
ghost use Rattle.std.specs.Prelude.{◌≡◌, ◌≢◌, ℕ, List, [], IfOk, None, Err, is_some, if◌then◌else◌};
ghost use Rattle.std.specs.Result.{ForErr};
ghost use Rattle.outside.specs.Causes.{Caused};
ghost use Rattle.script_lang.specs.Commands.{asked_of};
ghost use Rattle.script_lang.specs.Lines.{IsLine};
ghost use Rattle.script_steps.specs.Shown.{shown};
ghost use Rattle.script_steps.specs.StepClauses.{IsBroken};
ghost use Rattle.script_steps.specs.Unwritten.{IsAnsweredUnwritten, refusal_text};

use crate::command::make_reply;
use crate::refusals::line_refusal;
use crate::reply::LineReply;
use crate::script::Script;
use crate::stop::LineStop;
use outside::Files;
use script_lang::{Command, LineFault, read_next_line};
use std::alloc::Global;
use std::sync::ledger::Ledger;
use steps::Steps;

/// The answer to a line that is refused.
#[derive(Drop)]
pub struct Refusal {
    /// The answer: a line with its line feed.
    pub text: Vec<u8>,
    /// What is wrong with the line, in plain words.
    pub wrong: String,
}

/// Does what [`answer_line`](crate::answer_line) does, and writes nothing. `Ok` has the answer where it is a refusal; any
/// other answer is dropped, and no report is made.
pub fn answer_unwritten<F: Files, L: Ledger>(
    alloc: Global,
    script: &mut Script,
    line: &[u8],
    files: &mut F,
    steps: &mut Steps<L>,
) -> Result<Option<Refusal>, LineStop>
    ensures answered { IfOk result (IsAnsweredUnwritten
        (shown (F.told files.old) (F.failed files.old) None steps.old)
        (shown (F.told files.new) (F.failed files.new) None steps.new)
        script.old script.new line.now) }
    ensures broken { ForErr result (IsBroken
        (shown (F.told files.old) (F.failed files.old) None steps.old)
        (shown (F.told files.new) (F.failed files.new) None steps.new)
        script.old script.new line.now) }
    ensures same { F.told files.new ≡ F.told files.old }
    ensures file { Caused LineStop.File (F.faults files.old) (F.faults files.new) result }
    ensures never { result ≢ Err LineStop.Write }
    ensures kept { result ≢ Err LineStop.File → F.failed files.new ≡ F.failed files.old }
{
    match read_next_line(alloc, line, &mut script.order) {
        Ok(command) => refusal_of(alloc, script, command, files, steps),
        Err(LineFault::Memory(_)) => Err(LineStop::Memory),
        Err(fault) => Ok(refusal_in(line_refusal(alloc, line, &fault)?)),
    }
}

/// Does what a line asks for. The report changes nothing, and is never a refusal.
fn refusal_of<F: Files, L: Ledger>(
    alloc: Global,
    script: &mut Script,
    command: Command,
    files: &mut F,
    steps: &mut Steps<L>,
) -> Result<Option<Refusal>, LineStop>
    ensures answered { (line : List ℕ) → IsLine line (asked_of command)
        → IfOk result (IsAnsweredUnwritten
        (shown (F.told files.old) (F.failed files.old) None steps.old)
        (shown (F.told files.new) (F.failed files.new) None steps.new)
        script.old script.new line) }
    ensures broken { (line : List ℕ) → IsLine line (asked_of command)
        → ForErr result (IsBroken
        (shown (F.told files.old) (F.failed files.old) None steps.old)
        (shown (F.told files.new) (F.failed files.new) None steps.new)
        script.old script.new line) }
    ensures same { F.told files.new ≡ F.told files.old }
    ensures file { Caused LineStop.File (F.faults files.old) (F.faults files.new) result }
    ensures never { result ≢ Err LineStop.Write }
    ensures kept { result ≢ Err LineStop.File → F.failed files.new ≡ F.failed files.old }
{
    match command {
        Command::Report => Ok(None),
        command => Ok(refusal_in(make_reply(alloc, script, command, files, steps)?)),
    }
}

/// The answer, where it is a refusal.
fn refusal_in(reply: LineReply) -> Option<Refusal>
    ensures mark { is_some result ≡ is_some reply.wrong }
    ensures text { refusal_text result ≡ (if is_some reply.wrong then reply.text.items else []) }
{
    let LineReply { text, wrong, .. } = reply;
    match wrong {
        Some(wrong) => Some(Refusal { text, wrong }),
        None => None,
    }
}
