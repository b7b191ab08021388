//! The ranges of single nodes, whose operands can't fail.
ghost use Rattle.std.specs.Prelude.{◌≡◌, ◌+◌, ◌<◌, ◌^◌, [], ◌∷◌, Some, None};
ghost use Rattle.pap_tree.specs.Term.{term_of};
ghost use Rattle.pap_tree.specs.Shapes.{one_meant, two_meant};
ghost use Rattle.pap_types.specs.Kinds.{kind_of_one, kind_of_two, wider};
ghost use Rattle.interval_num.specs.Intervals.{IsWhole};
ghost use Rattle.interval_walk.specs.Failures.{at_node};
ghost use Rattle.interval_walk.specs.Ranges.{single};
ghost use Rattle.interval_walk.specs.NodeRanges.{read_range, item_range};
ghost use Rattle.pap_types.specs.private.ScopeViews.{scope_in};
ghost use Rattle.interval_analysis.specs.private.ShapeViews.{TakesOne, TakesTwo};
ghost use Rattle.interval_analysis.specs.private.ExpressionViews.{NodeAnswer, OwnAnswer, OneAnswer, TwoAnswer, either_range};
ghost use Rattle.interval_analysis.specs.private.StopViews.{range_list};

use crate::expressions::{Operands, Part, Ranged, Stop};
use crate::names::single;
use crate::operations::{item_range, one_range, read, two_range};
use interval_num::{Abs, ItemRanges, RangeCause, join};
use pap_tree::{Expr, One, Two};
use pap_types::{NodeKind, Outline, Typed, kind_of_one, kind_of_two};
use scaled_decimal::Dec;

/// The answer of a node that has no operands, or whose operands leave its range to one of them.
pub(crate) fn own(range: Result<Abs, RangeCause>, kind: NodeKind, at: u32) -> Result<Ranged, Stop>
    requires { at + 1 < 2 ^ 32 }
    ensures { OwnAnswer (at_node at [] range) kind at result }
{
    named(None, range, kind, at)
}

/// The answer of a node whose operand, which can't fail, has this range.
pub(crate) fn own_one(
    operand: Abs,
    range: Result<Abs, RangeCause>,
    kind: NodeKind,
    at: u32,
) -> Result<Ranged, Stop>
    requires { at + 1 < 2 ^ 32 }
    ensures { OwnAnswer (at_node at (operand ∷ []) range) kind at result }
{
    match range {
        Ok(range) => Ok(Ranged {
            range,
            kind,
            next: at + 1,
            variable: None,
        }),
        Err(cause) => Err(Stop::AtOne {
            node: at,
            cause,
            operand,
        }),
    }
}

/// The answer of a node whose operands, which can't fail, have these ranges.
pub(crate) fn own_two(
    first: Abs,
    second: Abs,
    range: Result<Abs, RangeCause>,
    kind: NodeKind,
    at: u32,
) -> Result<Ranged, Stop>
    requires { at + 1 < 2 ^ 32 }
    ensures { OwnAnswer (at_node at (first ∷ second ∷ []) range) kind at result }
{
    match range {
        Ok(range) => Ok(Ranged {
            range,
            kind,
            next: at + 1,
            variable: None,
        }),
        Err(cause) => Err(Stop::AtTwo {
            node: at,
            cause,
            first,
            second,
        }),
    }
}

/// That of a name, which is that of the variable of this number.
pub(crate) fn named(
    variable: Option<usize>,
    range: Result<Abs, RangeCause>,
    kind: NodeKind,
    at: u32,
) -> Result<Ranged, Stop>
    requires { at + 1 < 2 ^ 32 }
    ensures { NodeAnswer variable (at_node at [] range) kind at result }
{
    match range {
        Ok(range) => Ok(Ranged {
            range,
            kind,
            next: at + 1,
            variable,
        }),
        Err(cause) => Err(Stop::At { node: at, cause }),
    }
}

/// The answer of a literal.
pub(crate) fn literal(value: Dec, kind: NodeKind, at: u32) -> Result<Ranged, Stop>
    requires { at + 1 < 2 ^ 32 }
    ensures { OwnAnswer (at_node at [] (read_range kind (single value))) kind at result }
{
    own(read(kind, single(value)), kind, at)
}

/// The items of a table that an index may choose.
pub(crate) fn item(items: &ItemRanges, index: Ranged) -> Result<Ranged, Stop>
    requires room { index.next + 1 < 2 ^ 32 }
    requires whole { IsWhole index.range }
    ensures { OwnAnswer
        (at_node index.next (index.range ∷ []) (item_range items.now index.range))
        NodeKind.Big index.next result }
{
    let range = item_range(items, index.range);
    own_one(index.range, range, NodeKind::Big, index.next)
}

/// An operation on one operand.
pub(crate) fn one(op: One, operand: &Expr, a: Ranged) -> Result<Ranged, Stop>
    requires room { a.next + 1 < 2 ^ 32 }
    requires takes { TakesOne op (kind_of_one (one_meant op) a.kind) a.range }
    ensures { OneAnswer (one_meant op) (term_of operand.now) a result }
{
    let kind = kind_of_one(op, a.kind);
    let range = one_range(op, kind, operand, a.range);
    own_one(a.range, range, kind, a.next)
}

/// An operation on two operands, of which `right` is the second.
pub(crate) fn two(plan: &Typed, op: Two, right: &Expr, operands: Operands) -> Result<Ranged, Stop>
    requires room { operands.second.next + 1 < 2 ^ 32 }
    requires takes { TakesTwo (scope_in plan.now) op
        (kind_of_two (two_meant op) operands.first.kind operands.second.kind) (term_of right.now)
        operands.first.range operands.second.range }
    ensures { TwoAnswer (scope_in plan.now) (two_meant op) (term_of right.now) operands result }
{
    let Operands { first, second } = operands;
    let kind = kind_of_two(op, first.kind, second.kind);
    let range = two_range(plan, op, kind, right, first.range, second.range);
    own_two(first.range, second.range, range, kind, second.next)
}

/// A conditional with these parts.
pub(crate) fn either(one: Part, other: Part) -> Result<Ranged, Stop>
    requires { other.next + 1 < 2 ^ 32 }
    ensures { OwnAnswer
        (at_node other.next (range_list one.range other.range)
        (either_range one.range other.range))
        (wider one.kind other.kind) other.next result }
{
    let kind = one.kind.wider(other.kind);
    match (one.range, other.range) {
        (Some(a), Some(b)) => own_two(a, b, join(a, b), kind, other.next),
        (Some(a), None) | (None, Some(a)) => own(Ok(a), kind, other.next),
        (None, None) => own(Err(RangeCause::Wide), kind, other.next),
    }
}

/// A part that can be reached.
pub(crate) fn reached(ranged: Ranged) -> Part
    ensures { result ≡ record { range = Some ranged.range; kind = ranged.kind; next = ranged.next } }
{
    Part {
        range: Some(ranged.range),
        kind: ranged.kind,
        next: ranged.next,
    }
}

/// A part that can't be reached.
pub(crate) fn unreached(outline: Outline) -> Part
    ensures { result ≡ record { range = None; kind = outline.kind; next = outline.next } }
{
    Part {
        range: None,
        kind: outline.kind,
        next: outline.next,
    }
}
