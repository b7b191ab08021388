//! What the analysis answers.
ghost use Rattle.std.specs.Prelude.{◌≡◌, [], alloc_error};
ghost use Rattle.interval_analysis.specs.declared.fault.RangeFault.TheVariants.{Memory};

use crate::fault::RangeFault;
use crate::value_range::ValueRange;
use interval_num::Abs;
use pap_tree::Name;
use std::alloc::{AllocError, Global};
use std::collections::{BTreeMap, BTreeSet};

/// An output with the range in which its values lie.
#[derive(Clone, Copy)]
pub struct OutputRange {
    /// The output's name.
    pub name: Name,
    /// The range of its values behind MAIN.
    pub range: Abs,
}

/// What holds of every run of a plan on inputs that its limits admit.
#[derive(Drop)]
pub struct Verdict {
    /// The most that a run costs, 1 to 10^9.
    pub bound: u64,
    /// The ranges of the outputs, in declared order.
    pub outputs: Vec<OutputRange>,
}

/// Why a plan has no verdict, with the ranges that its walk has where it stops.
#[derive(Drop)]
pub struct RefusedRanges {
    /// Why its ranges are refused.
    pub fault: RangeFault,
    /// Of a fault at a node the ranges of the values that its operands have there, from the left: one of an item's index or of the
    /// only operand, two of both operands, of the sides of a comparison or of the parts of a conditional. Empty where a leaf fails
    /// or two branches of an IF don't meet, and where memory runs out. Of an output beyond its bound the range that it has at the end.
    pub operands: Vec<ValueRange>,
}

impl RefusedRanges {
    /// That memory ran out; nothing is known.
    pub(crate) fn without_memory(alloc: Global) -> RefusedRanges
        ensures fault { result.fault ≡ Memory alloc_error }
        ensures operands { result.operands.items ≡ [] }
    {
        RefusedRanges {
            fault: RangeFault::Memory(AllocError),
            operands: Vec::new(alloc),
        }
    }
}

/// What is known of a plan whose walk passes.
#[derive(Drop)]
pub struct Survey {
    /// What `analyse` answers.
    pub verdict: Verdict,
    /// The statements to which the walk comes, each by its method and its number there, from 0.
    pub reached: BTreeSet<(Name, u32)>,
    /// The least range of what each EVAL among them puts at all visits, as its variable keeps it.
    pub values: BTreeMap<(Name, u32), ValueRange>,
    /// The exits of IFs that are open at some visit, each by the IF's method, its number there, and whether the test holds.
    pub exits: BTreeSet<(Name, u32, bool)>,
}

/// Why a plan has no survey, and what is known of it up to where its walk stops. Where an output may be beyond its bound that is all
/// of the plan, and nothing where memory runs out.
#[derive(Drop)]
pub struct RefusedSurvey {
    /// Why its ranges are refused; `Memory` also where memory runs out for what follows.
    pub fault: RangeFault,
    /// The ranges that the walk has there, as in [`RefusedRanges`].
    pub operands: Vec<ValueRange>,
    /// The statements to which the walk comes, as in [`Survey`]. It comes to both lists of an IF that can be reached, also where the
    /// first one stops, and to nothing behind a statement that stops.
    pub reached: BTreeSet<(Name, u32)>,
    /// The least range of what each EVAL among them puts at all visits at which it can't fail.
    pub values: BTreeMap<(Name, u32), ValueRange>,
    /// The exits of IFs that are open at some visit at which the test can't fail.
    pub exits: BTreeSet<(Name, u32, bool)>,
}

impl RefusedSurvey {
    /// That memory ran out; nothing is known.
    pub(crate) fn without_memory(alloc: Global) -> RefusedSurvey
        ensures fault { result.fault ≡ Memory alloc_error }
        ensures operands { result.operands.items ≡ [] }
    {
        RefusedSurvey {
            fault: RangeFault::Memory(AllocError),
            operands: Vec::new(alloc),
            reached: BTreeSet::new(alloc),
            values: BTreeMap::new(alloc),
            exits: BTreeSet::new(alloc),
        }
    }
}
