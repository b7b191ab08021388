//! How a call ends.
ghost use Rattle.std.specs.Prelude.{◌≡◌};
ghost use Rattle.author_cli.specs.Ends.{exit_number};

use outside::{Failed, FileAnswer};
use std::alloc::AllocError;

/// Why a call of [`pap_author`](crate::pap_author) stopped before its answer was written whole.
#[derive(Clone, Copy, Debug, PartialEq, Eq, Drop)]
pub enum Stop {
    /// The words are none of the forms; nothing was written.
    Words,
    /// A file that the words name could not be read; nothing was written.
    File,
    /// The sink failed.
    Write,
    /// Memory ran out; nothing was written.
    Memory,
}

impl From<FileAnswer> for Stop {
    ghost use Rattle.author_cli.specs.Stops.{stop_of_file};

    ghost from_gives = { λ answer stop. stop ≡ stop_of_file answer };

    fn from(answer: FileAnswer) -> Self {
        match answer {
            FileAnswer::Failed => Stop::File,
            FileAnswer::Memory => Stop::Memory,
        }
    }
}

impl From<AllocError> for Stop {
    ghost use Rattle.author_cli.specs.declared.stop.Stop.TheVariants.{Memory};

    ghost from_gives = { λ _ stop. stop ≡ Memory };

    fn from(_: AllocError) -> Self {
        Stop::Memory
    }
}

/// The number with which the program ends, as those of `papcalc`: 0 where all was written, 1 where that is of a
/// refused plan or table, of a run without inputs, of two flowcharts that differ, of a search that didn't show a plan safe, of
/// findings, or of runs that come to less than the share asked for, and else why the call stopped.
pub fn exit_number(ended: &Result<Option<String>, Stop>) -> u8
    ensures { result ≡ exit_number ended.now }
{
    match ended {
        Ok(None) => 0,
        Ok(Some(_)) => 1,
        Err(Stop::Words) => 2,
        Err(Stop::File) => 3,
        Err(Stop::Write) => 5,
        Err(Stop::Memory) => 6,
    }
}
