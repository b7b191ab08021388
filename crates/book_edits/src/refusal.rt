//! Why an edit is refused.
ghost use Rattle.std.specs.Prelude.{◌≡◌};
ghost use Rattle.book_edits.specs.declared.refusal.EditRefusal.TheVariants.{Memory};

use payroll_records::{Day, Employee, Key, Month, When};
use std::alloc::AllocError;
use thiserror::Error;

/// Why an edit of the book is refused.
#[derive(Debug, Drop, Error)]
pub enum EditRefusal {
    #[error("{} has a run on {} already; `change` replaces it", key.employee, key.day)]
    Present { key: Key },
    /// The run that is to be changed or taken away isn't there.
    #[error("{employee} has no run in or on {when}")]
    Absent { employee: Employee, when: When },
    /// None of the runs stands on the day, or no day is given, and the month has several.
    #[error("{employee} has several runs in {month}; name the day of one of them")]
    Several { employee: Employee, month: Month },
    #[error("there would be more than 50000 runs; split them by employee into several books (docs/SCALE.md shows how)")]
    Records,
    #[error("there would be more than 64 plans")]
    Plans,
    #[error("no plan of the book was put on {day}; name the day on which one was put")]
    NoPlanThere { day: Day },
    #[error("out of memory")]
    Memory(AllocError),
}

impl From<AllocError> for EditRefusal {
    ghost from_gives = { λ error refusal. refusal ≡ Memory error };

    fn from(error: AllocError) -> EditRefusal {
        EditRefusal::Memory(error)
    }
}
