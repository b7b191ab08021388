//! What a comparison leaves of the ranges of its sides.
ghost use Rattle.std.specs.Prelude.{◌≡◌, ◌<◌, ◌&&◌, Some, is_some, IfOk, OnOk, List, length, slice_get};
ghost use Rattle.std.specs.Bool.{OnTrue};
ghost use Rattle.std.specs.Option.{option_map};
ghost use Rattle.interval_num.specs.Intervals.{Interval};
ghost use Rattle.interval_num.specs.Signs.{signs_of};
ghost use Rattle.pap_types.specs.Kinds.{is_whole};
ghost use Rattle.pap_types.specs.Operations.{holds_of};
ghost use Rattle.interval_walk.specs.Branches.{signs_where, others, exchanged, can_have};
ghost use Rattle.interval_analysis.specs.private.Changes.{after_both, after_change, changed, ranges_left};
ghost use Rattle.interval_analysis.specs.private.ComparisonViews.{AreApart, CanCompare, CanNarrow, against, branch_by, branches_by, narrowed, sides_of, ways_in};

use crate::branches::{Branches, Change, Narrowed};
use crate::expressions::{Operands, Ranged};
use interval_num::{Abs, SignSet, refine, signs};
use pap_tree::Binary;
use pap_types::NodeKind;
use std::alloc::{AllocError, Global};
use std::cmp::Ordering;

/// The two sides of a comparison.
#[derive(Clone, Copy)]
pub(crate) struct Sides {
    pub left: Ranged,
    pub right: Ranged,
    /// Whether both are whole numbers.
    pub whole: bool,
}

impl Sides {
    /// Two operands as sides.
    pub fn of(operands: Operands, whole: bool) -> Sides
        ensures { result ≡ sides_of operands whole }
    {
        Sides {
            left: operands.first,
            right: operands.second,
            whole,
        }
    }
}

/// What a side of a comparison stands against: the range of the other, and the signs that it may have against that.
#[derive(Clone, Copy)]
struct Against {
    range: Abs,
    allowed: SignSet,
    /// Whether both are whole numbers.
    whole: bool,
}

impl Against {
    /// That the other side stands against a side.
    fn of(side: &Ranged, allowed: SignSet, whole: bool) -> Against
        ensures { result ≡ against side.now.range allowed whole }
    {
        Against {
            range: side.range,
            allowed,
            whole,
        }
    }
}

/// The signs, as -1, 0 and 1, for which a comparison with a number holds.
pub(crate) fn signs_where(op: Binary, number: i32) -> SignSet
    ensures { result ≡ signs_where op number }
{
    SignSet {
        minus: holds(op, (-1).cmp(&number)),
        zero: holds(op, 0.cmp(&number)),
        plus: holds(op, 1.cmp(&number)),
    }
}

/// Whether a comparison holds of values in an order.
fn holds(op: Binary, order: Ordering) -> bool
    ensures { result ≡ holds_of op order }
{
    match op {
        Binary::Less => order.is_lt(),
        Binary::LessEq => !order.is_gt(),
        Binary::More => order.is_gt(),
        Binary::MoreEq => !order.is_lt(),
        Binary::Same => !(order.is_lt() || order.is_gt()),
        Binary::Differs => order.is_lt() || order.is_gt(),
        _ => false,
    }
}

pub(crate) fn others(signs: SignSet) -> SignSet
    ensures { result ≡ others signs }
{
    SignSet {
        minus: !signs.minus,
        zero: !signs.zero,
        plus: !signs.plus,
    }
}

/// The signs of the right side against the left one.
fn exchanged(signs: SignSet) -> SignSet
    ensures { result ≡ exchanged signs }
{
    SignSet {
        minus: signs.plus,
        zero: signs.zero,
        plus: signs.minus,
    }
}

/// Whether one of the allowed signs is among some.
fn can_have(allowed: SignSet, signs: SignSet) -> bool
    ensures { result ≡ can_have allowed signs }
{
    (allowed.minus && signs.minus) || ((allowed.zero && signs.zero) || (allowed.plus && signs.plus))
}

/// Whether both kinds are those of whole numbers.
pub(crate) fn are_whole(left: NodeKind, right: NodeKind) -> bool
    ensures { result ≡ (is_whole left && is_whole right) }
{
    left.is_whole() && right.is_whole()
}

/// A comparison whose sides can't fail.
#[derive(Clone, Copy)]
pub(crate) struct Compared {
    pub sides: Sides,
    /// The signs for which it holds.
    pub allowed: SignSet,
    /// The number that follows its nodes'.
    pub next: u32,
}

/// The branches of a comparison.
pub(crate) fn branches_of(
    alloc: Global,
    compared: &Compared,
    ranges: &[Abs],
) -> Result<Branches, AllocError>
    requires { CanCompare compared.now.sides ranges.now }
    ensures { IfOk result (λ b. ways_in ranges.now b
        ≡ branches_by compared.now.sides compared.now.allowed ranges.now) }
{
    let Compared { sides, allowed, .. } = compared;
    let between = signs(sides.left.range, sides.right.range);
    let held = branch_of(sides, between, *allowed, ranges);
    let failed = branch_of(sides, between, others(*allowed), ranges);
    let holds = listed(alloc, held)?;
    let fails = listed(alloc, failed)?;
    Ok(Branches { holds, fails })
}

/// The changes of both sides as a list.
fn listed(alloc: Global, narrowed: Option<Narrowed>) -> Result<Option<Vec<Change>>, AllocError>
    ensures { IfOk result (λ o. (ranges : List Interval)
        → ranges_left ranges o ≡ option_map (after_both ranges) narrowed) }
{
    let Some(Narrowed { left, right }) = narrowed else {
        return Ok(None);
    };
    let mut changes = Vec::new(alloc);
    add(&mut changes, left)?;
    add(&mut changes, right)?;
    Ok(Some(changes))
}

/// Adds a change, if there is one.
fn add(changes: &mut Vec<Change>, change: Option<Change>) -> Result<(), AllocError>
    ensures { OnOk result ((ranges : List Interval)
        → changed ranges changes.new.items ≡ after_change (changed ranges changes.old.items) change) }
{
    if let Some(change) = change {
        changes.push(change)?;
    }
    Ok(())
}

/// The changes where a comparison has an allowed sign of those between its sides: of the left side by the right one's range,
/// then of the right side by the range that the left one had.
pub(crate) fn branch_of(
    sides: &Sides,
    between: SignSet,
    allowed: SignSet,
    ranges: &[Abs],
) -> Option<Narrowed>
    requires can { CanCompare sides.now ranges.now }
    requires between { between ≡ signs_of sides.now.left.range sides.now.right.range }
    ensures { option_map (after_both ranges.now) result ≡ branch_by sides.now allowed ranges.now }
{
    if !can_have(allowed, between) {
        return None;
    }
    let by_right = Against::of(&sides.right, allowed, sides.whole);
    let Some(left) = narrow(sides.left.variable, by_right, ranges, &None) else {
        return None;
    };
    let by_left = Against::of(&sides.left, exchanged(allowed), sides.whole);
    let Some(right) = narrow(sides.right.variable, by_left, ranges, &left) else {
        return None;
    };
    Some(Narrowed { left, right })
}

/// Whether a branch can be reached: there is an allowed sign, and something is left of both sides' ranges. Where the sides are
/// apart an allowed sign always leaves something of both.
pub(crate) fn can_lead(sides: &Sides, between: SignSet, allowed: SignSet, ranges: &[Abs]) -> bool
    requires can { CanCompare sides.now ranges.now }
    requires between { between ≡ signs_of sides.now.left.range sides.now.right.range }
    ensures { result ≡ is_some (branch_by sides.now allowed ranges.now) }
{
    if are_apart(sides) {
        return can_have(allowed, between);
    }
    branch_of(sides, between, allowed, ranges).is_some()
}

/// Whether the sides have one greatest scale, and aren't one variable.
fn are_apart(sides: &Sides) -> bool
    ensures { OnTrue result (AreApart sides.now) }
{
    sides.left.range.s_hi() == sides.right.range.s_hi()
        && sides.left.variable != sides.right.variable
}

/// The change of a side, if it is a variable, after an earlier one; None where nothing is left of its range.
fn narrow(
    variable: Option<usize>,
    against: Against,
    ranges: &[Abs],
    earlier: &Option<Change>,
) -> Option<Option<Change>>
    requires { CanNarrow variable against (after_change ranges.now earlier.now) }
    ensures { option_map (after_change (after_change ranges.now earlier.now)) result
        ≡ narrowed variable against (after_change ranges.now earlier.now) }
{
    let Some(number) = variable else {
        return Some(None);
    };
    let Against {
        range: other,
        allowed,
        whole,
    } = against;
    let now = range_now(ranges, earlier, number);
    match refine(now, other, allowed, whole) {
        None => None,
        Some(range) => Some(Some(Change { number, range })),
    }
}

/// The range of a variable after a change.
fn range_now(ranges: &[Abs], change: &Option<Change>, number: usize) -> Abs
    requires { number < length ranges.now }
    ensures { slice_get (after_change ranges.now change.now) number ≡ Some result }
{
    match change {
        Some(change) => {
            if change.number == number {
                change.range
            } else {
                ranges[number]
            }
        }
        None => ranges[number],
    }
}
