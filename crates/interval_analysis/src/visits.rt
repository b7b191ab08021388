//! What is kept of the statements to which a walk comes.
ghost use Rattle.std.specs.Prelude.{IsNone, OnOk};
ghost use Rattle.interval_analysis.specs.private.VisitViews.{AddsEval, AddsExit, AddsIf, AddsPlace, AddsRange, IsNothingKnown, KeepsEval, KeepsPlace, KeepsIf, PutsInPlace};

use crate::branches::Branches;
use crate::statements::Spot;
use crate::value_range::ValueRange;
use interval_num::Abs;
use pap_tree::Name;
use std::alloc::{AllocError, Global};
use std::collections::{BTreeMap, BTreeSet};

/// What is known of the statements to which a walk has come, each by its method and its number there.
#[derive(Drop)]
pub(crate) struct Known {
    pub reached: BTreeSet<(Name, u32)>,
    /// The least range of what each EVAL puts.
    pub values: BTreeMap<(Name, u32), ValueRange>,
    /// The exits of IFs that are open at some visit, each by whether its test holds there.
    pub exits: BTreeSet<(Name, u32, bool)>,
}

impl Known {
    fn add_eval(&mut self, spot: &Spot, range: Abs) -> Result<(), AllocError>
        ensures { OnOk result (AddsEval spot.now range self.old self.new) }
    {
        self.add_place(spot)?;
        self.add_range(spot, &ValueRange::of(range))
    }

    fn add_if(&mut self, spot: &Spot, branches: &Branches) -> Result<(), AllocError>
        ensures { OnOk result (AddsIf spot.now branches.now self.old self.new) }
    {
        self.add_place(spot)?;
        self.add_exit(spot, true, branches.holds.is_some())?;
        self.add_exit(spot, false, branches.fails.is_some())
    }

    fn add_place(&mut self, spot: &Spot) -> Result<(), AllocError>
        ensures { OnOk result (AddsPlace spot.now self.old self.new) }
    {
        self.reached.insert((spot.method, spot.at))?;
        Ok(())
    }

    /// Joins the range of an EVAL with another.
    fn add_range(&mut self, spot: &Spot, range: &ValueRange) -> Result<(), AllocError>
        ensures { OnOk result (AddsRange spot.now range.now self.old self.new) }
    {
        put_range(&mut self.values, (spot.method, spot.at), range)
    }

    /// Adds an exit of an IF, if it is open.
    fn add_exit(&mut self, spot: &Spot, holds: bool, is_open: bool) -> Result<(), AllocError>
        ensures { OnOk result (AddsExit spot.now holds is_open self.old self.new) }
    {
        if !is_open {
            return Ok(());
        }
        self.exits.insert((spot.method, spot.at, holds))?;
        Ok(())
    }
}

/// Puts a range at a statement, joined with that which is known of it.
fn put_range(
    values: &mut BTreeMap<(Name, u32), ValueRange>,
    place: (Name, u32),
    range: &ValueRange,
) -> Result<(), AllocError>
    ensures { OnOk result (PutsInPlace place range.now values.old values.new) }
{
    if let Some(known) = values.get_mut(&place) {
        *known = known.joined(range);
        return Ok(());
    }
    values.insert(place, *range)?;
    Ok(())
}

/// The statements to which a walk has come, where that is asked for.
#[derive(Drop)]
pub(crate) struct Visits {
    pub known: Option<Known>,
}

// What the walk calls is out of line, and takes references, so that the walk, which is as deep as statements are nested, needs less
// of the stack.
impl Visits {
    /// Nothing is kept.
    pub fn unasked() -> Visits
        ensures { IsNone result.known }
    {
        Visits { known: None }
    }

    /// What is kept of a walk that has come nowhere yet.
    pub fn new(alloc: Global) -> Visits
        ensures { IsNothingKnown result }
    {
        Visits {
            known: Some(Known {
                reached: BTreeSet::new(alloc),
                values: BTreeMap::new(alloc),
                exits: BTreeSet::new(alloc),
            }),
        }
    }

    /// Keeps that the walk has come to an EVAL, and the range that this puts, as its variable keeps it.
    #[inline(never)]
    pub fn keep_eval(&mut self, spot: &Spot, range: Abs) -> Result<(), AllocError>
        ensures { OnOk result (KeepsEval spot.now range self.old self.new) }
    {
        match &mut self.known {
            Some(known) => known.add_eval(spot, range),
            None => Ok(()),
        }
    }

    /// Keeps that the walk has come to an IF, and which of its exits the branches of its test leave open.
    #[inline(never)]
    pub fn keep_if(&mut self, spot: &Spot, branches: &Branches) -> Result<(), AllocError>
        ensures { OnOk result (KeepsIf spot.now branches.now self.old self.new) }
    {
        match &mut self.known {
            Some(known) => known.add_if(spot, branches),
            None => Ok(()),
        }
    }

    /// Keeps that the walk has come to a statement, of which it finds nothing else: an EXECUTE, or one whose expression may fail.
    #[inline(never)]
    pub fn keep_place(&mut self, spot: &Spot) -> Result<(), AllocError>
        ensures { OnOk result (KeepsPlace spot.now self.old self.new) }
    {
        match &mut self.known {
            Some(known) => known.add_place(spot),
            None => Ok(()),
        }
    }
}
