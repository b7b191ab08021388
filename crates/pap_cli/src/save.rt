//! The answer of `save`: the last book of a script as a text.
ghost use Rattle.std.specs.Prelude.{◌≡◌, IfOk};
ghost use Rattle.outside.specs.Causes.{Caused};
ghost use Rattle.pap_cli.specs.GoingOn.{SavedScriptsAreSaved, SavedScriptsGoOn};
ghost use Rattle.pap_cli.specs.Laws.{ScriptsHaveOneSave};
ghost use Rattle.pap_cli.specs.Notes.{telling};
ghost use Rattle.pap_cli.specs.Outside.{objects, outside_of};
ghost use Rattle.pap_cli.specs.SaveAnswers.{IsSave, was_filed};
ghost use Rattle.pap_cli.specs.SaveClauses.{LeavesOnSave};
ghost use Rattle.pap_cli.specs.private.SaveViews.{written_of};
ghost use Rattle.pap_cli.specs.Statuses.{status_of};

use crate::summary::sum_up;
use book_file::{SaveRefusal, saving_laws, write_book};
use outside::{Files, Sink, Source, put_all};
use plan_answers::{Reply, refusal};
use script_run::{LineCounts, Stop, run_unwritten};
use script_steps::Script;
use std::alloc::{AllocError, Global};
use std::sync::ledger::Ledger;
use steps::Steps;

/// Runs the script that the source gives, writes none of its answers, and then writes the text of the last book, or why there
/// is none. `Ok` says whether that is a refusal. It is told how many lines were answered and refused, also where the script stops.
pub(crate) fn save<F: Files, R: Source, W: Sink, N: Sink, L: Ledger>(
    alloc: Global,
    files: &mut F,
    source: &mut R,
    sink: &mut W,
    notes: &mut N,
    counts: &mut LineCounts,
    steps: &mut Steps<L>,
) -> Result<bool, Stop>
    ensures leaves { LeavesOnSave
        (outside_of F.Files R.Source W.Sink (objects files.old source.old sink.old steps.old))
        (outside_of F.Files R.Source W.Sink (objects files.new source.new sink.new steps.new))
        (telling N.Sink counts.new notes.old notes.new) (status_of result) }
    ensures same { F.told files.new ≡ F.told files.old }
    ensures file { Caused Stop.File (F.faults files.old) (F.faults files.new) result }
    ensures read { Caused Stop.Read (R.faults source.old) (R.faults source.new) result }
    ensures write { Caused Stop.Write (W.faults sink.old) (W.faults sink.new) result }
{
    let ended = match run_unwritten(alloc, files, source, notes, steps) {
        Ok(ended) => ended,
        Err(stopped) => {
            *counts = stopped.counts;
            return Err(stopped.stop);
        }
    };
    *counts = ended.counts;
    sum_up(alloc, ended.counts, ended.script.book(), notes)?;
    let reply = saved(alloc, ended.counts.any(), ended.refusals, &ended.script)?;
    match put_all(sink, &reply.text) {
        Ok(()) => Ok(reply.refused),
        Err(_) => Err(Stop::Write),
    }
}

/// What is written of a script that was answered to its end: its refusals alone, where it has some; that a month was filed; or the
/// text of the last book.
fn saved(
    alloc: Global,
    refused: bool,
    refusals: Vec<u8>,
    script: &Script,
) -> Result<Reply, AllocError>
    ensures { IfOk result (λ reply. IsSave refused (was_filed script.now)
        refusals.items script.now.book (written_of reply)) }
{
    if refused {
        return Ok(Reply {
            text: refusals,
            refused: true,
            steps: 0,
        });
    }
    if script.ledger().last().is_some() {
        return refusal(alloc, b"book Filed");
    }
    match write_book(alloc, script.book()) {
        Ok(text) => Ok(Reply {
            text,
            refused: false,
            steps: 0,
        }),
        Err(SaveRefusal::Long) => refusal(alloc, b"book Long"),
        Err(SaveRefusal::Memory(error)) => Err(error),
    }
}

/// A script whose lines name files that are there has one answer of `save`. Where this is a book's text, a script that opens it
/// goes on as the script whose book it is, and is saved as that script would be.
pub fn save_laws()
    ensures one { ScriptsHaveOneSave }
    ensures on { SavedScriptsGoOn }
    ensures again { SavedScriptsAreSaved }
{
    saving_laws();
}
