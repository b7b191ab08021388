//! A script, run over a source.
ghost use Rattle.std.specs.Prelude.{◌≡◌, ◌≢◌, ◌+◌, ◌≤◌, nat_lt, [], length, is_some, None, Err, IfOk, OnOk};
ghost use Rattle.std.specs.Option.{ForSome};
ghost use Rattle.std.specs.Result.{ForErr};
ghost use Rattle.outside.specs.Causes.{Caused, HasCause};
ghost use Rattle.outside.specs.Told.{ReadConsumes};
ghost use Rattle.script_run.specs.Limits.{most_script, most_turn};
ghost use Rattle.script_run.specs.Notes.{notes_shown, run_shown, with_notes};
ghost use Rattle.script_run.specs.RunClauses.{RunMeets, EndsUnwritten, EndsWritten};
ghost use Rattle.script_run.specs.private.RunClauses.{KeepsRefusals, EndsAt};
ghost use Rattle.script_steps.specs.Shown.{shown};
ghost use Rattle.script_run.specs.RunClauses.{by_stop, run_result};
ghost use Rattle.script_run.specs.private.RunClauses.{beside};
ghost use Rattle.script_run.specs.private.RunViews.{IsAtStart, TakesAll, read_result, stopped_at};

use crate::line_counts::LineCounts;
use crate::reading::Reading;
use crate::stop::{Stop, Stopped};
use crate::{MOST_SCRIPT, MOST_TURN};
use outside::{Failed, Files, Sink, Source, SureSink};
use script_steps::Script;
use std::alloc::{AllocError, Global};
use std::sync::ledger::Ledger;
use steps::Steps;

/// Takes the next turn's bytes, and no byte past the limit of scripts but for one where so many were taken.
fn next_turn<R: Source>(source: &mut R, buf: &mut [u8], taken: usize) -> Result<usize, Failed>
    requires room { length buf.old ≡ most_turn }
    requires within { taken ≤ most_script }
    ensures short { IfOk result (λ count. count ≤ most_turn) }
    ensures limit { IfOk result (λ count. taken + count ≤ most_script + 1) }
    ensures past { IfOk result (λ count. taken + count ≡ most_script + 1 → taken ≡ most_script) }
    ensures bytes { ReadConsumes (R.left source.old) (R.left source.new) result buf.new }
    ensures cause { HasCause (R.faults source.old) (R.faults source.new) result }
{
    let ask = if taken < MOST_SCRIPT {
        MOST_TURN.min(MOST_SCRIPT - taken)
    } else {
        1
    };
    source.take(&mut buf[..ask])
}

/// Whether so many bytes are more than a script may have.
fn is_too_long(taken: usize) -> bool
    ensures { result ≡ nat_lt most_script taken }
{
    taken > MOST_SCRIPT
}

/// So many bytes to take a turn's bytes into.
fn turn_buffer(alloc: Global, size: usize) -> Result<Vec<u8>, AllocError>
    ensures { IfOk result (λ buf. length buf.items ≡ size) }
{
    vec![in alloc; 0; size]
}

/// Takes the script to its end, and answers each line that ends in a turn's bytes before it takes the next turn's.
fn take_turns<F: Files, R: Source, W: Sink, N: Sink, L: Ledger>(
    alloc: Global,
    buf: &mut [u8],
    reading: &mut Reading,
    files: &mut F,
    source: &mut R,
    sink: &mut W,
    notes: &mut N,
    steps: &mut Steps<L>,
) -> Result<(), Stop>
    requires room { length buf.old ≡ most_turn }
    requires start { IsAtStart reading.old }
    ensures ok { OnOk result (TakesAll
        (beside reading.old.refusals F.Files W.Sink N.Sink files.old sink.old notes.old steps.old)
        (beside reading.new.refusals F.Files W.Sink N.Sink files.new sink.new notes.new steps.new)
        (R.left source.old) (R.left source.new) reading.new) }
    ensures err { ForErr result (λ stop. ForSome (R.left source.old) (λ script. RunMeets
        (beside reading.old.refusals F.Files W.Sink N.Sink files.old sink.old notes.old steps.old)
        (beside reading.new.refusals F.Files W.Sink N.Sink files.new sink.new notes.new steps.new)
        script (R.left source.new) (stopped_at stop reading.new.counts))) }
    ensures mode { is_some reading.new.refusals ≡ is_some reading.old.refusals }
    ensures same { F.told files.new ≡ F.told files.old }
    ensures kept { result ≢ Err Stop.File → F.failed files.new ≡ F.failed files.old }
    ensures file { Caused Stop.File (F.faults files.old) (F.faults files.new) result }
    ensures read { Caused Stop.Read (R.faults source.old) (R.faults source.new) result }
    ensures write { Caused Stop.Write (W.faults sink.old) (W.faults sink.new) result }
{
    let mut taken = 0;
    'turns: loop {
        let count = match next_turn(source, buf, taken) {
            Ok(count) => count,
            Err(_) => return Err(Stop::Read),
        };
        if count == 0 {
            return Ok(());
        }
        taken += count;
        if is_too_long(taken) {
            return Err(Stop::Long);
        }
        reading.feed(alloc, &buf[..count], files, sink, notes, steps)?;
    }
}

/// Reads a script from its start to its end, and answers its lines. What they have made is in the reading, also where it stops.
fn read_to_end<F: Files, R: Source, W: Sink, N: Sink, L: Ledger>(
    alloc: Global,
    reading: &mut Reading,
    files: &mut F,
    source: &mut R,
    sink: &mut W,
    notes: &mut N,
    steps: &mut Steps<L>,
) -> Result<(), Stop>
    requires start { IsAtStart reading.old }
    ensures script { ForSome (R.left source.old) (λ script. RunMeets
        (beside reading.old.refusals F.Files W.Sink N.Sink files.old sink.old notes.old steps.old)
        (beside reading.new.refusals F.Files W.Sink N.Sink files.new sink.new notes.new steps.new)
        script (R.left source.new) (read_result result reading.new.counts)) }
    ensures standing { OnOk result (ForSome (R.left source.old) (λ script.
        ForSome (F.told files.old) (λ files.
        EndsAt files script reading.new.script reading.new.refusals reading.new.counts))) }
    ensures mode { is_some reading.new.refusals ≡ is_some reading.old.refusals }
    ensures same { F.told files.new ≡ F.told files.old }
    ensures kept { result ≢ Err Stop.File → F.failed files.new ≡ F.failed files.old }
    ensures file { Caused Stop.File (F.faults files.old) (F.faults files.new) result }
    ensures read { Caused Stop.Read (R.faults source.old) (R.faults source.new) result }
    ensures write { Caused Stop.Write (W.faults sink.old) (W.faults sink.new) result }
{
    let mut buf = turn_buffer(alloc, MOST_TURN)?;
    take_turns(alloc, &mut buf, reading, files, source, sink, notes, steps)?;
    reading.last_line(alloc, files, sink, notes, steps)?;
    Ok(())
}

/// What a script has made that was read and answered to its end.
#[derive(Drop)]
pub struct Ended {
    /// How many lines were answered and refused.
    pub counts: LineCounts,
    /// What its lines have made.
    pub script: Script,
}

/// The same, and the answers that are refusals, where these were kept and no answer was written.
#[derive(Drop)]
pub(crate) struct EndedWithRefusals {
    /// What the script has made.
    pub(crate) ended: Ended,
    /// The refusals, one after another.
    pub(crate) refusals: Option<Vec<u8>>,
}

/// Runs a script as [`run`] does, and gives what its lines have made. Where refusals are to be kept the answers that are
/// refusals are put to them, and no answer is written.
pub(crate) fn run_to_end<F: Files, R: Source, W: Sink, N: Sink, L: Ledger>(
    alloc: Global,
    refusals: Option<Vec<u8>>,
    files: &mut F,
    source: &mut R,
    sink: &mut W,
    notes: &mut N,
    steps: &mut Steps<L>,
) -> Result<EndedWithRefusals, Stopped>
    requires { KeepsRefusals refusals [] }
    ensures script { ForSome (R.left source.old) (λ script. RunMeets
        (beside refusals F.Files W.Sink N.Sink files.old sink.old notes.old steps.old)
        (beside refusals F.Files W.Sink N.Sink files.new sink.new notes.new steps.new)
        script (R.left source.new) (run_result (λ made. made.ended.counts) result)) }
    ensures standing { IfOk result (λ made. ForSome (R.left source.old) (λ script.
        ForSome (F.told files.old) (λ files.
        EndsAt files script made.ended.script made.refusals made.ended.counts))) }
    ensures mode { IfOk result (λ made. is_some made.refusals ≡ is_some refusals) }
    ensures same { F.told files.new ≡ F.told files.old }
    ensures kept { by_stop result ≢ Err Stop.File → F.failed files.new ≡ F.failed files.old }
    ensures file { Caused Stop.File (F.faults files.old) (F.faults files.new) (by_stop result) }
    ensures read { Caused Stop.Read (R.faults source.old) (R.faults source.new) (by_stop result) }
    ensures write { Caused Stop.Write (W.faults sink.old) (W.faults sink.new) (by_stop result) }
{
    let mut reading = Reading::new(alloc, refusals);
    match read_to_end(alloc, &mut reading, files, source, sink, notes, steps) {
        Ok(()) => Ok(EndedWithRefusals {
            ended: Ended {
                counts: reading.counts,
                script: reading.script,
            },
            refusals: reading.refusals,
        }),
        Err(stop) => Err(Stopped {
            stop,
            counts: reading.counts,
        }),
    }
}

/// Runs a script: takes it from the source turn by turn, and answers each line before bytes past its turn are taken. The reason
/// of each refused line is put to the notes behind its answer; that a call of theirs may fail changes nothing. The counter
/// rises by the steps of the answers: of accepted edits, `try` and `open`.
///
/// A script has at most [`MOST_SCRIPT`] bytes. A line of more than [`MOST_LINE`](crate::MOST_LINE) bytes is
/// answered once, and of its bytes no more than that many and one are kept.
pub fn run<F: Files, R: Source, W: Sink, N: Sink, L: Ledger>(
    alloc: Global,
    files: &mut F,
    source: &mut R,
    sink: &mut W,
    notes: &mut N,
    steps: &mut Steps<L>,
) -> Result<Ended, Stopped>
    ensures script { ForSome (R.left source.old) (λ script. RunMeets
        (run_shown F.Files W.Sink N.Sink files.old sink.old notes.old steps.old)
        (run_shown F.Files W.Sink N.Sink files.new sink.new notes.new steps.new)
        script (R.left source.new) (run_result (λ ended. ended.counts) result)) }
    ensures standing { IfOk result (λ ended. ForSome (R.left source.old) (λ script.
        ForSome (F.told files.old) (λ files. EndsWritten files script ended))) }
    ensures same { F.told files.new ≡ F.told files.old }
    ensures kept { by_stop result ≢ Err Stop.File → F.failed files.new ≡ F.failed files.old }
    ensures file { Caused Stop.File (F.faults files.old) (F.faults files.new) (by_stop result) }
    ensures read { Caused Stop.Read (R.faults source.old) (R.faults source.new) (by_stop result) }
    ensures write { Caused Stop.Write (W.faults sink.old) (W.faults sink.new) (by_stop result) }
{
    let made = run_to_end(alloc, None, files, source, sink, notes, steps)?;
    Ok(made.ended)
}

/// What a script has made none of whose answers was written.
#[derive(Drop)]
pub struct Unwritten {
    /// How many lines were answered and refused.
    pub counts: LineCounts,
    /// The answers that are refusals, one after another.
    pub refusals: Vec<u8>,
    /// What its lines have made.
    pub script: Script,
}

/// Runs a script as [`run`] does, but writes none of its answers, and gives what its lines have made, with the answers that are
/// refusals.
pub fn run_unwritten<F: Files, R: Source, N: Sink, L: Ledger>(
    alloc: Global,
    files: &mut F,
    source: &mut R,
    notes: &mut N,
    steps: &mut Steps<L>,
) -> Result<Unwritten, Stopped>
    ensures script { ForSome (R.left source.old) (λ script. RunMeets
        (with_notes (shown (F.told files.old) (F.failed files.old) None steps.old)
        (notes_shown N.Sink notes.old))
        (with_notes (shown (F.told files.new) (F.failed files.new) None steps.new)
        (notes_shown N.Sink notes.new))
        script (R.left source.new) (run_result (λ ended. ended.counts) result)) }
    ensures standing { IfOk result (λ ended. ForSome (R.left source.old) (λ script.
        ForSome (F.told files.old) (λ files. EndsUnwritten files script ended))) }
    ensures same { F.told files.new ≡ F.told files.old }
    ensures kept { by_stop result ≢ Err Stop.File → F.failed files.new ≡ F.failed files.old }
    ensures file { Caused Stop.File (F.faults files.old) (F.faults files.new) (by_stop result) }
    ensures read { Caused Stop.Read (R.faults source.old) (R.faults source.new) (by_stop result) }
    ensures no_write { by_stop result ≢ Err Stop.Write }
{
    let mut sink = SureSink::new();
    let kept = Some(Vec::new(alloc));
    let EndedWithRefusals { ended, refusals } = run_to_end(
        alloc, kept, files, source, &mut sink, notes, steps,
    )?;
    match refusals {
        Some(refusals) => Ok(Unwritten {
            counts: ended.counts,
            refusals,
            script: ended.script,
        }),
        None => unreachable!(),
    }
}
