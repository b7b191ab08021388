//! Why a run stops before its script is answered to the end.
ghost use Rattle.std.specs.Prelude.{◌≡◌};
ghost use Rattle.script_run.specs.declared.stop.Stop.TheVariants.{Memory};
ghost use Rattle.script_run.specs.Stops.{stop_of, stop_of_file};

use crate::line_counts::LineCounts;
use outside::FileAnswer;
use script_steps::LineStop;
use std::alloc::AllocError;

/// Why a run stops before its script is answered to the end, or a call that runs no script before its answer is written.
#[derive(Clone, Copy, Debug, PartialEq, Eq, Drop)]
pub enum Stop {
    /// A file that a line names could not be read.
    File,
    /// The source failed.
    Read,
    /// The sink failed.
    Write,
    /// Memory ran out.
    Memory,
    /// The script is too long.
    Long,
}

/// A run that stopped before its script was answered to the end.
#[derive(Debug, Drop)]
pub struct Stopped {
    /// Why it stopped.
    pub stop: Stop,
    /// How many lines were answered before, and refused: of a stop at a line, those before it. Where memory ran out it may be
    /// any of them.
    pub counts: LineCounts,
}

impl From<LineStop> for Stop {
    ghost from_gives = { λ line stop. stop ≡ stop_of line };

    fn from(line: LineStop) -> Self {
        match line {
            LineStop::File => Stop::File,
            LineStop::Write => Stop::Write,
            LineStop::Memory => Stop::Memory,
        }
    }
}

impl From<FileAnswer> for Stop {
    ghost from_gives = { λ answer stop. stop ≡ stop_of_file answer };

    fn from(answer: FileAnswer) -> Self {
        match answer {
            FileAnswer::Failed => Stop::File,
            FileAnswer::Memory => Stop::Memory,
        }
    }
}

impl From<AllocError> for Stop {
    ghost from_gives = { λ _ stop. stop ≡ Memory };

    fn from(_: AllocError) -> Self {
        Stop::Memory
    }
}
