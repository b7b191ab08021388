//! The ranges of the variables, with notes of what was changed, so that a branch can be left as it was entered.
ghost use Rattle.std.specs.Prelude.{◌≡◌, ◌≤◌, length, take, drop, slice_set, IfOk, OnOk, OnErr};
ghost use Rattle.interval_num.specs.Intervals.{IsKeptInterval};
ghost use Rattle.interval_analysis.specs.private.Changes.{AreKept, after_both, after_change, changed};
ghost use Rattle.interval_analysis.specs.private.Notes.{AreDistinct, IsNoted, IsTold, TakesBackAs, taken_back, own_ranges, numbered};
ghost use Rattle.interval_analysis.specs.private.VariableViews.{IsLeft};

use crate::branches::{Change, Narrowed};
use crate::repeats::first_notes;
use interval_num::Abs;
use std::alloc::{AllocError, Global};

/// The ranges of the variables by their numbers.
#[derive(Drop)]
pub(crate) struct Variables {
    pub ranges: Vec<Abs>,
    /// For each change so far the variable's number and the range that it had before.
    pub notes: Vec<Change>,
    /// Where the first note of a variable stood when repeated ones were last dropped.
    places: Vec<usize>,
}

impl Variables {
    /// Variables of these ranges, none of which was changed.
    pub fn new(alloc: Global, ranges: Vec<Abs>) -> Variables
        ensures ranges { result.ranges.items ≡ ranges.items }
        ensures kept { AreKept result.ranges.items }
    {
        are_kept(&ranges);
        Variables {
            ranges,
            notes: Vec::new(alloc),
            places: Vec::new(alloc),
        }
    }

    /// Gives a variable a new range, if that is another. There isn't a variable of a number past the last one.
    pub fn put(&mut self, number: usize, range: Abs) -> Result<(), AllocError>
        requires { AreKept self.old.ranges.items }
        ensures value { OnOk result
            (self.new.ranges.items ≡ slice_set self.old.ranges.items number range) }
        ensures noted { IsNoted self.old self.new }
        ensures kept { AreKept self.new.ranges.items }
    {
        is_kept(range);
        if number < self.ranges.len() && self.ranges[number] != range {
            self.notes.push(Change {
                number,
                range: self.ranges[number],
            })?;
            self.ranges[number] = range;
        }
        Ok(())
    }

    /// Gives variables their new ranges.
    pub fn apply(&mut self, changes: &[Change]) -> Result<(), AllocError>
        requires { AreKept self.old.ranges.items }
        ensures value { OnOk result
            (self.new.ranges.items ≡ changed self.old.ranges.items changes.now) }
        ensures noted { IsNoted self.old self.new }
        ensures kept { AreKept self.new.ranges.items }
    {
        for change in changes {
            self.put(change.number, change.range)?;
        }
        Ok(())
    }

    /// Gives the variables of a comparison's sides their new ranges.
    pub fn narrow(&mut self, narrowed: &Narrowed) -> Result<(), AllocError>
        requires { AreKept self.old.ranges.items }
        ensures value { OnOk result
            (self.new.ranges.items ≡ after_both self.old.ranges.items narrowed.now) }
        ensures noted { IsNoted self.old self.new }
        ensures kept { AreKept self.new.ranges.items }
    {
        self.change(&narrowed.left)?;
        self.change(&narrowed.right)
    }

    /// Gives a variable its new range, if there is one.
    fn change(&mut self, change: &Option<Change>) -> Result<(), AllocError>
        requires { AreKept self.old.ranges.items }
        ensures value { OnOk result
            (self.new.ranges.items ≡ after_change self.old.ranges.items change.now) }
        ensures noted { IsNoted self.old self.new }
        ensures kept { AreKept self.new.ranges.items }
    {
        match change {
            Some(change) => self.put(change.number, change.range),
            None => Ok(()),
        }
    }

    /// Gives the variables back the ranges that they had when there were so many notes.
    pub fn take_back(&mut self, mark: usize)
        requires mark { mark ≤ length self.old.notes.items }
        ensures ranges { self.new.ranges.items
            ≡ taken_back self.old.ranges.items (drop mark self.old.notes.items) }
        ensures notes { self.new.notes.items ≡ take mark self.old.notes.items }
    {
        while self.notes.len() > mark {
            if let Some(note) = self.notes.pop() {
                self.put_back(note);
            }
        }
    }

    /// Gives the variables back the ranges that they had when there were so many notes, by changes that are noted too.
    pub fn return_to(&mut self, mark: usize) -> Result<(), AllocError>
        requires kept { AreKept self.old.ranges.items }
        requires mark { mark ≤ length self.old.notes.items }
        ensures ranges { OnOk result (self.new.ranges.items
            ≡ taken_back self.old.ranges.items (drop mark self.old.notes.items)) }
        ensures noted { IsNoted self.old self.new }
        ensures kept { AreKept self.new.ranges.items }
    {
        let mut left = self.notes.len();
        while left > mark {
            left -= 1;
            let note = self.notes[left];
            self.put(note.number, note.range)?;
        }
        Ok(())
    }

    /// Drops the notes behind so many that repeat a variable, once they are more than twice as many as the variables.
    pub fn trim(&mut self, mark: usize) -> Result<(), AllocError>
        requires { mark ≤ length self.old.notes.items }
        ensures ranges { self.new.ranges.items ≡ self.old.ranges.items }
        ensures back { TakesBackAs mark self.old self.new }
    {
        if (self.notes.len() - mark) / 2 > self.ranges.len() {
            self.drop_repeats(mark)?;
        }
        Ok(())
    }

    /// Drops the notes behind so many that repeat a variable.
    pub fn drop_repeats(&mut self, mark: usize) -> Result<(), AllocError>
        requires { mark ≤ length self.old.notes.items }
        ensures ranges { self.new.ranges.items ≡ self.old.ranges.items }
        ensures back { TakesBackAs mark self.old self.new }
        ensures distinct { OnOk result (AreDistinct (drop mark self.new.notes.items)) }
    {
        if self.places.len() < self.ranges.len() {
            self.places.resize(self.ranges.len(), 0)?;
        }
        let count = first_notes(&mut self.notes[mark..], &mut self.places);
        self.notes.truncate(mark + count);
        Ok(())
    }

    /// Gives a variable back the range that it had.
    fn put_back(&mut self, note: Change)
        ensures ranges { self.new.ranges.items
            ≡ slice_set self.old.ranges.items note.number note.range }
        ensures notes { self.new.notes.items ≡ self.old.notes.items }
    {
        if note.number < self.ranges.len() {
            self.ranges[note.number] = note.range;
        }
    }
}

/// Each range is as `IsKeptInterval` says. Does nothing at run time: reading an end tells the proof that it is kept.
pub(crate) fn is_kept(range: Abs)
    ensures { IsKeptInterval range }
{
    let _low = range.lo();
}

/// So is each of these. Does nothing at run time.
fn are_kept(ranges: &[Abs])
    ensures { AreKept ranges.now }
{
    for range in ranges {
        is_kept(*range);
    }
}

/// The ranges that variables have which were changed.
pub(crate) fn own_ranges(
    alloc: Global,
    ranges: &[Abs],
    changes: &[Change],
) -> Result<Vec<Change>, AllocError>
    ensures { IfOk result (λ own. own.items ≡ own_ranges ranges.now changes.now) }
{
    let mut own = Vec::new(alloc);
    for change in changes {
        let number = change.number;
        if number < ranges.len() {
            let range = ranges[number];
            own.push(Change { number, range })?;
        }
    }
    Ok(own)
}

/// The ranges of all variables, each with its number.
fn all_ranges(alloc: Global, ranges: &[Abs]) -> Result<Vec<Change>, AllocError>
    ensures { IfOk result (λ all. all.items ≡ numbered 0 ranges.now) }
{
    let mut all = Vec::new(alloc);
    for number in 0..ranges.len() {
        let range = ranges[number];
        all.push(Change { number, range })?;
    }
    Ok(all)
}

/// What has become of the ranges since these notes: of all variables, where there are more notes than variables.
fn told(alloc: Global, ranges: &[Abs], notes: &[Change]) -> Result<Vec<Change>, AllocError>
    ensures { IfOk result (λ told. IsTold (taken_back ranges.now notes.now) ranges.now told.items) }
{
    if notes.len() <= ranges.len() {
        own_ranges(alloc, ranges, notes)
    } else {
        all_ranges(alloc, ranges)
    }
}

/// Takes back what was changed since there were so many notes, and tells what it was.
pub(crate) fn taken_back(
    alloc: Global,
    variables: &mut Variables,
    mark: usize,
) -> Result<Vec<Change>, AllocError>
    requires kept { AreKept variables.old.ranges.items }
    requires mark { mark ≤ length variables.old.notes.items }
    ensures told { IfOk result (λ told. IsTold
        (taken_back variables.old.ranges.items (drop mark variables.old.notes.items))
        variables.old.ranges.items told.items) }
    ensures ranges { OnOk result (variables.new.ranges.items
        ≡ taken_back variables.old.ranges.items (drop mark variables.old.notes.items)) }
    ensures notes { OnOk result
        (variables.new.notes.items ≡ take mark variables.old.notes.items) }
    ensures left { OnErr result (IsLeft variables.old variables.new) }
{
    let told = told(alloc, &variables.ranges, &variables.notes[mark..])?;
    variables.take_back(mark);
    Ok(told)
}
