//! A line of a script, answered.
ghost use Rattle.std.specs.Prelude.{◌≡◌, ◌≢◌, IfOk, Err, is_some};
ghost use Rattle.std.specs.Result.{ForErr};
ghost use Rattle.outside.specs.Causes.{Caused};
ghost use Rattle.script_steps.specs.Shown.{shown_by};
ghost use Rattle.script_steps.specs.StepClauses.{IsAnswered, IsBroken};
ghost use Rattle.script_steps.specs.StepLaws.{LinesHaveAStep, LinesHaveOneStep, FilesAreTold};
ghost use Rattle.script_steps.specs.StepLaws.{LongLinesAreOne, LongLinesNameNoFile};
ghost use Rattle.script_steps.specs.StepLaws.{PutPlansHold, RefusedLinesChangeNothing};
ghost use Rattle.script_steps.specs.private.StepViews.{IsRefusalUnwritten, IsRefusalWritten};

use crate::command::answer_command;
use crate::refusals::line_refusal;
use crate::reply::write_reply;
use crate::script::Script;
use crate::stop::LineStop;
use outside::{Files, Sink};
use script_lang::{LineFault, read_next_line};
use std::alloc::Global;
use std::sync::ledger::Ledger;
use steps::Steps;

/// Answers a line of a script, which stands without its line end. `Ok` has what is wrong with the line, in plain words,
/// where the answer is a refusal. The counter rises by the steps of the answer: of an accepted edit, `try` or `open`. Where
/// a file could not be read the script is as it was, and where the sink failed it is what the line makes of it. Where
/// memory ran out it is the one or the other.
pub fn answer_line<F: Files, W: Sink, L: Ledger>(
    alloc: Global,
    script: &mut Script,
    line: &[u8],
    files: &mut F,
    sink: &mut W,
    steps: &mut Steps<L>,
) -> Result<Option<String>, LineStop>
    ensures answered { IfOk result (λ wrong. IsAnswered
        (shown_by F.Files W.Sink files.old sink.old steps.old)
        (shown_by F.Files W.Sink files.new sink.new steps.new)
        script.old script.new line.now (is_some wrong)) }
    ensures broken { ForErr result (λ stop. IsBroken
        (shown_by F.Files W.Sink files.old sink.old steps.old)
        (shown_by F.Files W.Sink files.new sink.new steps.new)
        script.old script.new line.now stop) }
    ensures same { F.told files.new ≡ F.told files.old }
    ensures file { Caused LineStop.File (F.faults files.old) (F.faults files.new) result }
    ensures write { Caused LineStop.Write (W.faults sink.old) (W.faults sink.new) result }
    ensures kept { result ≢ Err LineStop.File → F.failed files.new ≡ F.failed files.old }
{
    match read_next_line(alloc, line, &mut script.order) {
        Ok(command) => answer_command(alloc, script, command, files, sink, steps),
        Err(LineFault::Memory(_)) => Err(LineStop::Memory),
        Err(fault) => answer_fault(alloc, line, &fault, sink),
    }
}

/// Answers a line that is refused.
fn answer_fault<W: Sink>(
    alloc: Global,
    line: &[u8],
    fault: &LineFault,
    sink: &mut W,
) -> Result<Option<String>, LineStop>
    ensures ok { IfOk result (λ wrong.
        IsRefusalWritten (W.written sink.old) (W.written sink.new) fault.now (is_some wrong)) }
    ensures err { ForErr result
        (IsRefusalUnwritten (W.written sink.old) (W.written sink.new) fault.now) }
    ensures write { Caused LineStop.Write (W.faults sink.old) (W.faults sink.new) result }
{
    let reply = line_refusal(alloc, line, fault)?;
    write_reply(reply, sink)
}

/// Every line whose files are there has one step. A line of more than 65,536 bytes is answered whatever its bytes
/// are. A line that is refused changes nothing. No run of a plan that is put fails within its ranges, and none
/// takes more steps than were answered.
pub fn step_laws()
    ensures some { LinesHaveAStep }
    ensures one { LinesHaveOneStep }
    ensures told { FilesAreTold }
    ensures long { LongLinesAreOne }
    ensures long_alone { LongLinesNameNoFile }
    ensures refused { RefusedLinesChangeNothing }
    ensures plans { PutPlansHold }
{}
