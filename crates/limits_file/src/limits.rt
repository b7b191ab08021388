//! The limits of a plan's inputs.
ghost use Rattle.std.specs.Prelude.{◌≡◌, ◌↔◌, IsTrue};
ghost use Rattle.std.specs.Option.{option_map};
ghost use Rattle.limits_file.specs.Limits.{Fits, FitsNamed, limit_named};

use crate::Items;
use pap_tree::Name;
use scaled_decimal::Dec;
use std::cmp::Ordering;

/// The range of an input.
#[derive(Clone, Copy)]
pub struct InputLimit {
    /// The input.
    pub name: Name,
    /// The least value.
    pub low: Dec,
    /// The greatest value.
    pub high: Dec,
    /// The most digits that a value has after its point, 0 to 30.
    pub places: u8,
}

/// What an input carries over from the employee's earlier runs of the calendar year.
#[derive(Clone, Copy)]
pub enum Carry {
    /// The sum of an output.
    Sum(Name),
    /// The last value of an output.
    Last(Name),
    /// The number of runs.
    Count,
}

/// An input that takes its value from earlier runs.
#[derive(Clone, Copy)]
pub struct Binding {
    /// The input.
    pub input: Name,
    /// What it carries over.
    pub carry: Carry,
}

/// What a range file says. Both lists are in byte order of the inputs' names.
#[derive(Drop)]
pub struct Limits {
    /// The ranges of the inputs.
    pub inputs: Items<InputLimit>,
    /// What inputs carry over from earlier runs.
    pub bindings: Items<Binding>,
}

impl InputLimit {
    /// Whether a value has no more places than the limit, and lies from its low to its high bound.
    #[inline(always)]
    pub fn fits(&self, value: Dec) -> bool
        ensures { IsTrue result ↔ Fits self.now value }
    {
        value.scale() <= self.places
            && self.low.compare(value) != Ordering::Greater
            && value.compare(self.high) != Ordering::Greater
    }
}

impl Limits {
    /// The limit of a name, if there is one. It takes time linear in the number of limits, and no memory.
    pub fn limit_of(&self, name: &Name) -> Option<&InputLimit>
        ensures { option_map (λ limit. limit.now) result ≡ limit_named self.now name.now }
    {
        self.inputs
            .as_slice()
            .iter()
            .find(|limit| limit.name == *name)
    }

    /// Whether there is a limit of that name which the value fits. It takes no memory.
    pub fn fits(&self, name: &Name, value: Dec) -> bool
        ensures { IsTrue result ↔ FitsNamed self.now.inputs name.now value }
    {
        self.inputs
            .as_slice()
            .iter()
            .any(|limit| limit.name == *name && limit.fits(value))
    }
}
