//! The top call.
ghost use Rattle.std.specs.Prelude.{◌≡◌};
ghost use Rattle.pap_cli.specs.Words.{texts};
ghost use Rattle.pap_cli.specs.Outside.{objects};
ghost use Rattle.pap_cli.specs.CallClauses.{CallMeets, CallTells};
ghost use Rattle.pap_cli.specs.Notes.{NotesTell, telling};
ghost use Rattle.pap_cli.specs.ScriptWords.{AskForScript};
ghost use Rattle.pap_cli.specs.Statuses.{status_of};
ghost use Rattle.plan_answers.specs.Laws.{CheckHasOneAnswer};
ghost use Rattle.pap_cli.specs.Laws.{HaveOneForm, OnceHasOneAnswer};
ghost use Rattle.pap_cli.specs.Laws.{PrintedAcceptanceHolds, WordsGiveKeptValues};

use crate::Status;
use crate::answer::answer;
use crate::sample::sample;
use crate::save::save;
use crate::script::carry_out;
use crate::words::{Request, read_words};
use outside::{Files, Sink, Source, SureSink};
use script_run::{LineCounts, Stop};
use std::alloc::Global;
use std::sync::ledger::Ledger;
use steps::Steps;

/// The status of a call that ended so: whether what was written is a refusal, or why it stopped.
fn status(ended: Result<bool, Stop>) -> Status
    ensures { result ≡ status_of ended }
{
    match ended {
        Ok(false) => Status::Done,
        Ok(true) => Status::Refused,
        Err(Stop::File) => Status::FileFault,
        Err(Stop::Read) => Status::ReadFault,
        Err(Stop::Write) => Status::WriteFault,
        Err(Stop::Memory) => Status::NoMemory,
        Err(Stop::Long) => Status::ScriptLong,
    }
}

/// Does all that the program does: carries out the words over the files, the source and the sink, and counts the steps of
/// runs.
///
/// The forms of the words are `check PLAN LIMITS`, which says whether the flowchart of the file PLAN is accepted with the
/// ranges of the file LIMITS, `once PLAN LIMITS NAME=VALUE ..`, which runs it once on these inputs, `run`, which carries out
/// the script that the source gives, line by line, `sample N`, which runs a generated script of N employees in memory and
/// writes what came of it, and `save`, which carries out a script as `run` does, writes none of its answers, and then writes its
/// last book as a text. All other words are [`Status::BadWords`]. Running out of memory is [`Status::NoMemory`], whatever the
/// words are.
pub fn papcalc<F: Files, R: Source, W: Sink, L: Ledger>(
    alloc: Global,
    words: &[String],
    files: &mut F,
    source: &mut R,
    sink: &mut W,
    steps: &mut Steps<L>,
) -> Status
    ensures meets { CallMeets F.Files R.Source W.Sink (texts words.now)
        (objects files.old source.old sink.old steps.old)
        (objects files.new source.new sink.new steps.new) result }
{
    let mut notes = SureSink::new();
    let mut untold = LineCounts::new();
    papcalc_told(
        alloc,
        words,
        files,
        source,
        sink,
        &mut notes,
        &mut untold,
        steps,
    )
}

/// Does what [`papcalc`] does, and says why something is refused. Where the answer on two files is a refusal, its reason is put to
/// the notes behind it: a line of plain words, which begins with the file and the place in it, and then lines of further faults. That
/// a call of the notes may fail changes nothing else. Of the script that `run` or `save` carries out the reason of each refused line is put to them right behind
/// its answer, a line `stdin:NUMBER: WHY`, and at the script's end how many lines were refused. It counts the lines that were answered
/// and refused, also where the script stops before its end. Under all other words these counts stay as they were.
pub fn papcalc_told<F: Files, R: Source, W: Sink, N: Sink, L: Ledger>(
    alloc: Global,
    words: &[String],
    files: &mut F,
    source: &mut R,
    sink: &mut W,
    notes: &mut N,
    counts: &mut LineCounts,
    steps: &mut Steps<L>,
) -> Status
    ensures meets { CallTells F.Files R.Source W.Sink (texts words.now)
        (objects files.old source.old sink.old steps.old)
        (objects files.new source.new sink.new steps.new)
        (telling N.Sink counts.new notes.old notes.new) result }
    ensures notes { NotesTell N.Sink (texts words.now) (F.told files.old) notes.old notes.new result }
    ensures untold { ¬ (AskForScript (texts words.now)) → counts.new ≡ counts.old }
{
    match read_words(alloc, words) {
        Ok(Some(Request::Files(request))) => {
            status(answer(alloc, request, files, sink, notes, steps))
        },
        Ok(Some(Request::Run)) => {
            status(carry_out(alloc, files, source, sink, notes, counts, steps))
        },
        Ok(Some(Request::Sample(employees))) => status(sample(alloc, employees, sink, steps)),
        Ok(Some(Request::Save)) => {
            status(save(alloc, files, source, sink, notes, counts, steps))
        },
        Ok(None) => Status::BadWords,
        Err(_) => Status::NoMemory,
    }
}

/// Words have at most one form.
pub fn word_laws()
    ensures { HaveOneForm }
{}

/// Every two texts have an answer of each command, and no other. Where `check` prints `accepted steps N`, no run
/// within the ranges fails, and none takes more than N steps.
pub fn answer_laws()
    ensures check { CheckHasOneAnswer }
    ensures accepted { PrintedAcceptanceHolds }
    ensures once { OnceHasOneAnswer }
    ensures values { WordsGiveKeptValues }
{}
