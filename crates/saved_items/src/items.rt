//! What the items of a saved book say.
use payroll_records::{Day, Record};
use std::alloc::AllocError;
use thiserror::Error;

/// A plan that holds from a day on.
#[derive(Clone, Copy, Debug)]
pub struct PlanItem<'a> {
    /// The day from which it holds.
    pub day: Day,
    /// The text of the plan.
    pub plan: &'a [u8],
    /// The text of its range file.
    pub limits: &'a [u8],
}

/// A saved book.
#[derive(Debug, Drop)]
pub struct SavedBook<'a> {
    /// How many runs the last work ran.
    pub runs: u64,
    /// How many steps the last work took.
    pub steps: u64,
    /// The plans in order of their days, at most 64.
    pub plans: Vec<PlanItem<'a>>,
    /// The runs in order of their keys, at most 50,000.
    pub records: Vec<Record>,
}

/// Why a text is no saved book.
#[derive(Debug, Drop, Error)]
pub enum ItemFault<'a> {
    /// An item isn't of its form after the earlier ones. Items are counted from 1: the first three lines, each plan, the
    /// line before the runs, each run, and the last line with nothing after it.
    #[error("item {item} is not of its form")]
    Form {
        /// The number of the item, from 1 to 50069.
        item: u32,
        /// The byte at which it would begin: how many bytes the items before it have.
        at: usize,
        /// The plans of the items before it.
        plans: Vec<PlanItem<'a>>,
    },
    /// There was no memory for the items.
    #[error("out of memory")]
    Memory(AllocError),
}

impl<'a> From<AllocError> for ItemFault<'a> {
    ghost use Rattle.std.specs.Prelude.{◌≡◌};
    ghost use Rattle.saved_items.specs.declared.items.ItemFault.TheVariants.{Memory};

    ghost from_gives = { λ error fault. fault ≡ Memory error };

    fn from(error: AllocError) -> ItemFault<'a> {
        ItemFault::Memory(error)
    }
}
