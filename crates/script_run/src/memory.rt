//! A script run in memory, by the code that runs a script over the outside.
ghost use Rattle.std.specs.Prelude.{◌≢◌, ◌≤◌, length, All, AllPairs, IfOk, OnErr};
ghost use Rattle.outside.specs.Memory.{named_files, file_named};
ghost use Rattle.script_steps.specs.Steps.{AreThere};
ghost use Rattle.script_run.specs.Limits.{most_script};
ghost use Rattle.script_run.specs.Transcripts.{lines_of};
ghost use Rattle.script_run.specs.RunClauses.{IsFinished, IsSpentWithin};

use crate::MOST_TURN;
use crate::stop::Stop;
use crate::turns::{Ended, run_to_end};
use outside::{SureFiles, SureSink, SureSource};
use std::alloc::{AllocError, Global};
use std::sync::ledger::Ledger;
use steps::Steps;

/// Runs a script over files in memory, and writes its answers nowhere. Nothing can fail but memory, since
/// each line names files that are there. The counter rises by the script's steps; where memory runs out, by at most these.
pub(crate) fn run_in_memory<L: Ledger>(
    alloc: Global,
    files: Vec<(String, Vec<u8>)>,
    script: Vec<u8>,
    steps: &mut Steps<L>,
) -> Result<Ended, AllocError>
    requires distinct { AllPairs (λ a b. a.0 ≢ b.0) (named_files files.items) }
    requires there { All (λ line. AreThere (file_named (named_files files.items)) line)
        (lines_of script.items) }
    requires short { length script.items ≤ most_script }
    ensures ok { IfOk result (λ ended. IsFinished (file_named (named_files files.items))
        script.items steps.old steps.new ended) }
    ensures memory { OnErr result (IsSpentWithin (file_named (named_files files.items))
        script.items steps.old steps.new) }
{
    let mut files = SureFiles::new(files);
    let mut source = SureSource::new(script, MOST_TURN);
    let mut sink = SureSink::new();
    let mut notes = SureSink::new();
    match run_to_end(
        alloc,
        None,
        &mut files,
        &mut source,
        &mut sink,
        &mut notes,
        steps,
    ) {
        Ok(made) => Ok(made.ended),
        Err(stopped) => match stopped.stop {
            Stop::Memory => Err(AllocError),
            Stop::File => unreachable!(),
            Stop::Read => unreachable!(),
            Stop::Write => unreachable!(),
            Stop::Long => unreachable!(),
        },
    }
}
