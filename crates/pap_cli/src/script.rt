//! The answer of `run`: the transcript of a script.
ghost use Rattle.outside.specs.Causes.{Caused};
ghost use Rattle.pap_cli.specs.Notes.{telling};
ghost use Rattle.pap_cli.specs.Outside.{objects, outside_of};
ghost use Rattle.pap_cli.specs.ScriptClauses.{LeavesOnScript};
ghost use Rattle.pap_cli.specs.Statuses.{status_of};
ghost use Rattle.std.specs.Prelude.{◌≡◌};

use crate::summary::sum_up;
use outside::{Files, Sink, Source};
use script_run::{LineCounts, Stop, run};
use std::alloc::Global;
use std::sync::ledger::Ledger;
use steps::Steps;

/// Carries out the script that the source gives, and sums it up at its end. `Ok` says whether a line was refused. It is told
/// how many lines were answered and refused, also where the script stops.
pub(crate) fn carry_out<F: Files, R: Source, W: Sink, N: Sink, L: Ledger>(
    alloc: Global,
    files: &mut F,
    source: &mut R,
    sink: &mut W,
    notes: &mut N,
    counts: &mut LineCounts,
    steps: &mut Steps<L>,
) -> Result<bool, Stop>
    ensures leaves { LeavesOnScript
        (outside_of F.Files R.Source W.Sink (objects files.old source.old sink.old steps.old))
        (outside_of F.Files R.Source W.Sink (objects files.new source.new sink.new steps.new))
        (telling N.Sink counts.new notes.old notes.new) (status_of result) }
    ensures same { F.told files.new ≡ F.told files.old }
    ensures file { Caused Stop.File (F.faults files.old) (F.faults files.new) result }
    ensures read { Caused Stop.Read (R.faults source.old) (R.faults source.new) result }
    ensures write { Caused Stop.Write (W.faults sink.old) (W.faults sink.new) result }
{
    match run(alloc, files, source, sink, notes, steps) {
        Ok(ended) => {
            *counts = ended.counts;
            sum_up(alloc, ended.counts, ended.script.book(), notes)?;
            Ok(ended.counts.any())
        }
        Err(stopped) => {
            *counts = stopped.counts;
            Err(stopped.stop)
        }
    }
}
