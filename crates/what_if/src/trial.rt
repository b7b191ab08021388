//! What a trial of a plan shows.
ghost use Rattle.std.specs.Prelude.{◌≡◌, [], ◌∷◌, ◌++◌, OnOk};
ghost use Rattle.what_if.specs.declared.trial.TrialRow.TheVariants.{Changed};
ghost use Rattle.what_if.specs.declared.trial.TryRefusal.TheVariants.{Memory};

use book_year::Work;
use limits_file::Items;
use pap_tree::Name;
use payroll_records::Key;
use scaled_decimal::Dec;
use std::alloc::AllocError;
use thiserror::Error;

/// What is shown of a run's state, without its values.
#[derive(Clone, Copy, Debug, PartialEq, Eq)]
pub enum Shown {
    /// No plan serves the run's day.
    NoPlan,
    /// An earlier run that an input carries from isn't ok.
    Waits,
    /// A value is given that names no input.
    Unknown,
    /// An input has no value.
    Missing,
    /// A value is outside its range.
    Range,
    /// The run has outputs.
    Done,
}

/// What a plan would change: a run, or a value of such a run.
#[derive(Debug, Drop)]
pub enum TrialRow {
    /// The run would come to another state.
    Changed {
        key: Key,
        before: Shown,
        after: Shown,
    },
    /// An output of the run would have another value, come, or go.
    Value {
        key: Key,
        name: Name,
        before: Option<Dec>,
        after: Option<Dec>,
    },
}

/// What a plan would change of a book, and the work that putting it would be.
#[derive(Drop)]
pub struct Trial {
    /// In order of key. The row of a run comes before those of its values, which stand in order of their names' bytes.
    pub rows: Items<TrialRow>,
    /// How many runs would run, and the steps that they would take.
    pub work: Work,
}

/// Why a plan is not tried.
#[derive(Debug, Drop, Error)]
pub enum TryRefusal {
    #[error("there would be more than 64 plans")]
    Plans,
    #[error("out of memory")]
    Memory(AllocError),
}

impl From<AllocError> for TryRefusal {
    ghost from_gives = { λ error refusal. refusal ≡ Memory error };

    fn from(error: AllocError) -> TryRefusal {
        TryRefusal::Memory(error)
    }
}

/// Appends the row of a run that would come to another state.
pub(crate) fn push_changed(
    rows: &mut Vec<TrialRow>,
    key: &Key,
    before: Shown,
    after: Shown,
) -> Result<(), AllocError>
    ensures { OnOk result (rows.new.items ≡ rows.old.items ++ Changed key.now before after ∷ []) }
{
    // The check of a pushed row looks for the types of all variants among those that the function names.
    let _none: Option<Dec> = None;
    rows.reserve(1)?;
    rows.push_reserved(TrialRow::Changed {
        key: *key,
        before,
        after,
    });
    Ok(())
}
