//! A line's answer, written or kept.
ghost use Rattle.std.specs.Prelude.{◌≡◌, ◌≢◌, is_some, None, Some, IfOk, Err};
ghost use Rattle.std.specs.Result.{ForErr};
ghost use Rattle.outside.specs.Causes.{Caused};
ghost use Rattle.script_steps.specs.StepClauses.{IsBroken};
ghost use Rattle.script_steps.specs.Shown.{shown};
ghost use Rattle.script_run.specs.private.RunClauses.{shown_beside};
ghost use Rattle.script_run.specs.private.RunViews.{IsDelivered};

use outside::{Files, Sink};
use script_steps::{LineStop, Script, answer_line, answer_unwritten};
use std::alloc::Global;
use std::sync::ledger::Ledger;
use steps::Steps;

/// Answers a line. Its answer is written; but where refusals are kept, it is put to them where it is one, and not written. `Ok` has
/// what is wrong with the line, in plain words, where its answer is a refusal.
pub(crate) fn deliver<F: Files, W: Sink, L: Ledger>(
    alloc: Global,
    kept: &mut Option<Vec<u8>>,
    script: &mut Script,
    line: &[u8],
    files: &mut F,
    sink: &mut W,
    steps: &mut Steps<L>,
) -> Result<Option<String>, LineStop>
    ensures delivered { IfOk result (λ wrong. IsDelivered
        (shown_beside kept.old F.Files W.Sink files.old sink.old steps.old)
        (shown_beside kept.new F.Files W.Sink files.new sink.new steps.new)
        script.old script.new kept.old kept.new line.now (is_some wrong)) }
    ensures broken { ForErr result (λ stop. IsBroken
        (shown_beside kept.old F.Files W.Sink files.old sink.old steps.old)
        (shown_beside kept.new F.Files W.Sink files.new sink.new steps.new)
        script.old script.new line.now stop) }
    ensures mode { is_some kept.new ≡ is_some kept.old }
    ensures same { F.told files.new ≡ F.told files.old }
    ensures file { Caused LineStop.File (F.faults files.old) (F.faults files.new) result }
    ensures write { Caused LineStop.Write (W.faults sink.old) (W.faults sink.new) result }
    ensures kept { result ≢ Err LineStop.File → F.failed files.new ≡ F.failed files.old }
{
    match kept {
        None => answer_line(alloc, script, line, files, sink, steps),
        Some(refusals) => keep_answer(alloc, refusals, script, line, files, steps),
    }
}

/// Answers a line, and puts its answer to the refusals where it is one. Any other answer is dropped, and no report is made.
fn keep_answer<F: Files, L: Ledger>(
    alloc: Global,
    refusals: &mut Vec<u8>,
    script: &mut Script,
    line: &[u8],
    files: &mut F,
    steps: &mut Steps<L>,
) -> Result<Option<String>, LineStop>
    ensures delivered { IfOk result (λ wrong. IsDelivered
        (shown (F.told files.old) (F.failed files.old) None steps.old)
        (shown (F.told files.new) (F.failed files.new) None steps.new)
        script.old script.new (Some refusals.old) (Some refusals.new) line.now (is_some wrong)) }
    ensures broken { ForErr result (λ stop. IsBroken
        (shown (F.told files.old) (F.failed files.old) None steps.old)
        (shown (F.told files.new) (F.failed files.new) None steps.new)
        script.old script.new line.now stop) }
    ensures same { F.told files.new ≡ F.told files.old }
    ensures file { Caused LineStop.File (F.faults files.old) (F.faults files.new) result }
    ensures never { result ≢ Err LineStop.Write }
    ensures kept { result ≢ Err LineStop.File → F.failed files.new ≡ F.failed files.old }
{
    match answer_unwritten(alloc, script, line, files, steps) {
        Ok(Some(refusal)) => {
            refusals.extend_from_slice(&refusal.text)?;
            Ok(Some(refusal.wrong))
        }
        Ok(None) => Ok(None),
        Err(stop) => Err(stop),
    }
}
