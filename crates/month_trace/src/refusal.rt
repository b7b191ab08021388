//! Why a book tells no trace.
ghost use Rattle.std.specs.Prelude.{◌≡◌};
ghost use Rattle.month_trace.specs.declared.refusal.TraceRefusal.TheVariants.{Memory};

use payroll_records::{Employee, Key, Month, When};
use std::alloc::AllocError;
use thiserror::Error;

/// Why a book tells no trace of a run.
#[derive(Debug, Drop, Error)]
pub enum TraceRefusal {
    #[error("{employee} has no run in or on {when}")]
    Absent { employee: Employee, when: When },
    /// No day is given, and the month has more than one run.
    #[error("{employee} has several runs in {month}; name the day of one of them")]
    Several { employee: Employee, month: Month },
    /// The run has no plan, or no inputs.
    #[error("the run of {} on {} is not ok, so it has no trace; `report` says why", key.employee, key.day)]
    NotDone { key: Key },
    #[error("out of memory")]
    Memory(AllocError),
}

impl From<AllocError> for TraceRefusal {
    ghost from_gives = { λ error refusal. refusal ≡ Memory error };

    fn from(error: AllocError) -> TraceRefusal {
        TraceRefusal::Memory(error)
    }
}
