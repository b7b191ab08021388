//! The outputs of a run in two books, side by side.
ghost use Rattle.std.specs.Prelude.{◌≡◌, ◌++◌, IfOk, OnOk};
ghost use Rattle.std.specs.Iterator.{YieldsFirst, item_count};
ghost use Rattle.std.specs.List.{filter_map};
ghost use Rattle.std.specs.List.Sorted.{IsPermutation, IsSortedByKey};
ghost use Rattle.payroll_records.specs.NamedValues.{name_cmp, name_of};
ghost use Rattle.recalc_engine.specs.RowLaws.{HaveNames};
ghost use Rattle.what_if.specs.private.SideViews.{AreOrdered, both_sides, left_only, right_only, side_row, sides_of};

use crate::trial::TrialRow;
use pap_tree::Name;
use payroll_records::{Key, NamedValue};
use scaled_decimal::Dec;
use std::alloc::{AllocError, Global};
use std::cmp::Ordering;
use std::marker::Model;

/// An output's value in two states, where they have it.
#[derive(Clone, Copy)]
pub(crate) struct Side {
    pub(crate) name: Name,
    pub(crate) before: Option<Dec>,
    pub(crate) after: Option<Dec>,
}

impl Side {
    /// An output that the second state doesn't have.
    fn left(before: &NamedValue) -> Side
        ensures { result ≡ left_only before.now }
    {
        Side {
            name: before.name,
            before: Some(before.value),
            after: None,
        }
    }

    /// An output that the first state doesn't have.
    fn right(after: &NamedValue) -> Side
        ensures { result ≡ right_only after.now }
    {
        Side {
            name: after.name,
            before: None,
            after: Some(after.value),
        }
    }

    /// An output of both states.
    fn both(before: &NamedValue, after: &NamedValue) -> Side
        ensures { result ≡ both_sides before.now after.now }
    {
        Side {
            name: before.name,
            before: Some(before.value),
            after: Some(after.value),
        }
    }
}

/// The outputs of two lists in order of name. Contracts see an iterator as the list of those that are left.
#[derive(Drop)]
pub(crate) struct Sides<'a> {
    before: &'a [NamedValue],
    after: &'a [NamedValue],
}

impl<'a> Model for Sides<'a> {
    ghost use Rattle.std.specs.Prelude.{List};
    ghost use Rattle.what_if.specs.declared.sides.Side.{Side};
    ghost use Rattle.what_if.specs.private.SideViews.{sides_of};

    ghost Value = { List Side };

    ghost view = { λ s. sides_of s.before.now s.after.now };
}

impl<'a> Sides<'a> {
    /// The outputs of two states, each in order of name.
    pub(crate) fn of(before: &'a [NamedValue], after: &'a [NamedValue]) -> Sides<'a>
        ensures { result ≡ sides_of before.now after.now }
    {
        Sides { before, after }
    }
}

impl<'a> Iterator for Sides<'a> {
    type Item = Side;

    ghost next_gives = { YieldsFirst (λ rest. rest) };

    ghost remaining = { item_count (λ rest. rest) };

    fn next(&mut self) -> Option<Side> {
        let Some((before, more_before)) = self.before.split_first() else {
            let (after, more_after) = self.after.split_first()?;
            self.after = more_after;
            return Some(Side::right(after));
        };
        let Some((after, more_after)) = self.after.split_first() else {
            self.before = more_before;
            return Some(Side::left(before));
        };
        match order(before, after) {
            Ordering::Less => {
                self.before = more_before;
                Some(Side::left(before))
            }
            Ordering::Equal => {
                self.before = more_before;
                self.after = more_after;
                Some(Side::both(before, after))
            }
            Ordering::Greater => {
                self.after = more_after;
                Some(Side::right(after))
            }
        }
    }
}

/// The order of two outputs by name.
fn order(a: &NamedValue, b: &NamedValue) -> Ordering
    ensures { result ≡ name_cmp a.now.name b.now.name }
{
    a.name.cmp(&b.name)
}

/// The outputs of a run in order of their names.
pub(crate) fn ordered(alloc: Global, outputs: &[NamedValue]) -> Result<Vec<NamedValue>, AllocError>
    requires { HaveNames outputs.now }
    ensures { IfOk result (λ list. AreOrdered outputs.now list.items) }
{
    let mut list = Vec::from_slice(alloc, outputs)?;
    sort(&mut list);
    Ok(list)
}

/// Puts outputs in order of their names.
fn sort(list: &mut Vec<NamedValue>)
    ensures same { IsPermutation list.old.items list.new.items }
    ensures sorted { IsSortedByKey name_of name_cmp list.new.items }
{
    list.sort_unstable_by_key(|output| output.name);
}

/// Appends the rows of outputs that stand side by side.
pub(crate) fn push_sides(
    rows: &mut Vec<TrialRow>,
    key: &Key,
    sides: Sides,
) -> Result<(), AllocError>
    ensures { OnOk result
        (rows.new.items ≡ rows.old.items ++ filter_map (side_row key.now) sides.entry) }
{
    for side in sides {
        rows.reserve(1)?;
        if side.before != side.after {
            rows.push_reserved(TrialRow::Value {
                key: *key,
                name: side.name,
                before: side.before,
                after: side.after,
            });
        }
    }
    Ok(())
}
