//! Why a line isn't answered.
ghost use Rattle.std.specs.Prelude.{◌≡◌};
ghost use Rattle.script_steps.specs.declared.stop.LineStop.TheVariants.{Memory};
ghost use Rattle.script_steps.specs.Stops.{stop_of};

use outside::FileAnswer;
use std::alloc::AllocError;

/// Why a line isn't answered, or not to its end.
#[derive(Clone, Copy, Debug)]
pub enum LineStop {
    /// A file that it names could not be read.
    File,
    /// The sink failed.
    Write,
    /// Memory ran out.
    Memory,
}

impl From<FileAnswer> for LineStop {
    ghost from_gives = { λ answer stop. stop ≡ stop_of answer };

    fn from(answer: FileAnswer) -> Self {
        match answer {
            FileAnswer::Failed => LineStop::File,
            FileAnswer::Memory => LineStop::Memory,
        }
    }
}

impl From<AllocError> for LineStop {
    ghost from_gives = { λ _ stop. stop ≡ Memory };

    fn from(_: AllocError) -> Self {
        LineStop::Memory
    }
}
