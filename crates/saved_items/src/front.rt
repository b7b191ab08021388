//! What was read of a saved book so far.
ghost use Rattle.std.specs.Prelude.{◌≡◌, OnOk};
ghost use Rattle.saved_items.specs.Fronts.{nothing};
ghost use Rattle.saved_items.specs.private.ItemDecisions.{Fits, with_item};
ghost use Rattle.saved_items.specs.private.ItemViews.{IsKnown, front_in, item_in};

use crate::SavedBook;
use crate::item::Item;
use std::alloc::{AllocError, Global};

/// Which item comes next.
#[derive(Clone, Copy)]
pub(crate) enum Stage {
    /// The title.
    Title,
    /// The last work.
    Work,
    /// The line before the plans.
    PlanCount,
    /// A plan, of so many, or behind the last one the line before the runs.
    Plans { count: u64 },
    /// A run, of so many, or behind the last one the last line.
    Runs { count: u64 },
}

/// The first items of a saved book.
#[derive(Drop)]
pub(crate) struct Front<'a> {
    /// Which item comes next.
    pub(crate) stage: Stage,
    /// What the items say.
    pub(crate) items: SavedBook<'a>,
}

impl<'a> Front<'a> {
    /// No items.
    pub(crate) fn new(alloc: Global) -> Front<'a>
        ensures none { front_in result ≡ nothing }
        ensures known { IsKnown result }
    {
        Front {
            stage: Stage::Title,
            items: SavedBook {
                runs: 0,
                steps: 0,
                plans: Vec::new(alloc),
                records: Vec::new(alloc),
            },
        }
    }

    /// The items with one more, which is of its form behind them.
    pub(crate) fn add(&mut self, item: Item<'a>) -> Result<(), AllocError>
        requires fits { Fits (front_in self.old) (item_in item) }
        requires known { IsKnown self.old }
        ensures more { OnOk result
            (front_in self.new ≡ with_item (front_in self.old) (item_in item.entry)) }
        ensures known { OnOk result (IsKnown self.new) }
    {
        match item {
            Item::Title => self.stage = Stage::Work,
            Item::Work { runs, steps } => {
                self.items.runs = runs;
                self.items.steps = steps;
                self.stage = Stage::PlanCount;
            }
            Item::PlanCount(count) => self.stage = Stage::Plans { count },
            Item::Plan(plan) => self.items.plans.push(plan)?,
            Item::RunCount(count) => self.stage = Stage::Runs { count },
            Item::Run(run) => self.items.records.push(run)?,
        }
        Ok(())
    }
}
