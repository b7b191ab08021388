//! Why a book isn't saved, and what is wrong with a saved one.
ghost use Rattle.std.specs.Prelude.{◌≡◌};

use payroll_records::Day;
use std::alloc::AllocError;
use thiserror::Error;

/// Why a book isn't saved.
#[derive(Debug, Drop, Error)]
pub enum SaveRefusal {
    #[error("the text would have more than 268435456 bytes")]
    Long,
    #[error("out of memory")]
    Memory(AllocError),
}

impl From<AllocError> for SaveRefusal {
    ghost use Rattle.book_file.specs.declared.refusal.SaveRefusal.TheVariants.{Memory};

    ghost from_gives = { λ error refusal. refusal ≡ Memory error };

    fn from(error: AllocError) -> SaveRefusal {
        SaveRefusal::Memory(error)
    }
}

/// What is wrong with the text of a saved book.
#[derive(Debug, Drop, Error)]
pub enum BookFault {
    #[error("the text has more than 268435456 bytes")]
    Long,
    /// Items count from 1: the first three lines, each plan, the line `runs`, each run, the last line with nothing after it.
    #[error("item {item} is not of its form")]
    Form { item: u32 },
    #[error("the plan of {day} is refused")]
    Plan { day: Day },
    #[error("out of memory")]
    Memory(AllocError),
}

impl From<AllocError> for BookFault {
    ghost use Rattle.book_file.specs.declared.refusal.BookFault.TheVariants.{Memory};

    ghost from_gives = { λ error fault. fault ≡ Memory error };

    fn from(error: AllocError) -> BookFault {
        BookFault::Memory(error)
    }
}
