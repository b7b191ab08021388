//! What tests leave of the ranges of the variables.
ghost use Rattle.std.specs.Prelude.{◌≡◌, ◌+◌, ◌<◌, ◌^◌, MatchOption, IfOk, OnOk};
ghost use Rattle.pap_tree.specs.Term.{term_of, unary, operator};
ghost use Rattle.interval_num.specs.declared.cause.RangeCause.TheVariants.{Wide};
ghost use Rattle.interval_analysis.specs.private.VariableViews.{AreHeld, GoesOn, IsLeft};
ghost use Rattle.pap_tree.specs.private.TreeViews.{one_of, two_of};
ghost use Rattle.interval_analysis.specs.private.ExpressionViews.{CanWalk};
ghost use Rattle.interval_analysis.specs.private.TestViews.{ComparedAnswer, ComparesAs, ComparisonAnswer, HaveShapes, IsInner, IsPlainComparison, OrderAnswer, TestAnswer, comparison_of, order_compared, sides_compared};
ghost use Rattle.interval_analysis.specs.private.Changes.{AreKept};
ghost use Rattle.interval_analysis.specs.private.Notes.{IsNoted};
ghost use Rattle.interval_analysis.specs.private.ComparisonViews.{CanCompare};
ghost use Rattle.interval_analysis.specs.private.Connectives.{FollowAnswer, BehindAnswer, ComparisonFollowed, IsFollowedBy, IsRole, behind_both, connected, directions_of};

use crate::branches::{Branches, Connective, opposite, turned, unchanged_if};
use crate::comparisons::{
    Compared, Sides, are_whole, branch_of, branches_of, can_lead, others, signs_where,
};
use crate::expressions::{Operands, Stop, Walk};
use crate::nodes::{literal, own_two};
use crate::operations::comparison_range;
use crate::variables::{Variables, taken_back};
use interval_num::{Abs, RangeCause, SignSet, abs_cmp, signs};
use pap_tree::{Binary, Call, Expr, Unary};
use pap_types::{NodeKind, outline_of};
use scaled_decimal::Dec;
use std::alloc::AllocError;

/// What is known of a test whose nodes can't fail: its branches, and the number that follows its nodes'.
#[derive(Drop)]
pub(crate) struct Tested {
    pub branches: Branches,
    pub next: u32,
}

/// What is known behind the parts of a connective, which were tested in turn.
#[derive(Clone, Copy)]
struct Followed {
    /// Whether a value leads behind all of them; the variables then have their ranges there.
    is_through: bool,
    /// Whether a value leads out of one of them.
    can_leave: bool,
    next: u32,
}

impl Walk<'_> {
    /// The branches of a test whose nodes are numbered from `at`, or its first node that may fail.
    #[cycle(walk)]
    pub fn test(&self, e: &Expr, at: u32, variables: &mut Variables) -> Result<Tested, Stop>
        requires walk { CanWalk self.now (term_of e.now) at }
        requires held { AreHeld self.now.plan.now variables.old }
        ensures answer { TestAnswer self.now (term_of e.now) at variables.old.ranges.items result }
        ensures left { OnOk result (IsLeft variables.old variables.new) }
        ensures on { GoesOn self.now.plan.now variables.old variables.new }
    {
        match e {
            Expr::Unary(op, operand) => self.test_unary(*op, operand, at, variables),
            Expr::Binary(op, left, right) => self.test_operator(*op, left, right, at, variables),
            Expr::Int(_)
            | Expr::Long(_)
            | Expr::Point(_)
            | Expr::Text(_)
            | Expr::Known(_)
            | Expr::Var(_)
            | Expr::Item(_, _)
            | Expr::ValueOf(_)
            | Expr::ValueOfScaled(_, _)
            | Expr::NewInt(_)
            | Expr::Call(_, _, _)
            | Expr::Divide(_, _, _, _)
            | Expr::SetScale(_, _, _)
            | Expr::Choose(_, _, _) => Err(no_test(at)),
        }
    }

    #[cycle(walk)]
    fn test_unary(
        &self,
        op: Unary,
        operand: &Expr,
        at: u32,
        variables: &mut Variables,
    ) -> Result<Tested, Stop>
        requires walk { CanWalk self.now (one_of (unary op) operand.now) at }
        requires held { AreHeld self.now.plan.now variables.old }
        ensures answer { TestAnswer self.now (one_of (unary op) operand.now) at
            variables.old.ranges.items result }
        ensures left { OnOk result (IsLeft variables.old variables.new) }
        ensures on { GoesOn self.now.plan.now variables.old variables.new }
    {
        match op {
            Unary::Not => Ok(opposed(self.test(operand, at, variables)?)),
            Unary::Minus | Unary::Negate | Unary::Abs => Err(no_test(at)),
        }
    }

    #[cycle(walk)]
    fn test_operator(
        &self,
        op: Binary,
        left: &Expr,
        right: &Expr,
        at: u32,
        variables: &mut Variables,
    ) -> Result<Tested, Stop>
        requires walk { CanWalk self.now (two_of (operator op) left.now right.now) at }
        requires held { AreHeld self.now.plan.now variables.old }
        ensures answer { TestAnswer self.now (two_of (operator op) left.now right.now) at
            variables.old.ranges.items result }
        ensures left { OnOk result (IsLeft variables.old variables.new) }
        ensures on { GoesOn self.now.plan.now variables.old variables.new }
    {
        match op {
            Binary::And => self.test_sequence(Connective::And, left, right, at, variables),
            Binary::Or => self.test_sequence(Connective::Or, left, right, at, variables),
            _ => self.test_comparison(op, left, right, at, variables),
        }
    }

    /// The branches of a connective: behind all its parts, or before them where one of them decides.
    #[cycle(walk)]
    fn test_sequence(
        &self,
        connective: Connective,
        left: &Expr,
        right: &Expr,
        at: u32,
        variables: &mut Variables,
    ) -> Result<Tested, Stop>
        requires walk { CanWalk self.now (connected connective left.now right.now) at }
        requires held { AreHeld self.now.plan.now variables.old }
        ensures answer { TestAnswer self.now (connected connective left.now right.now) at
            variables.old.ranges.items result }
        ensures left { OnOk result (IsLeft variables.old variables.new) }
        ensures on { GoesOn self.now.plan.now variables.old variables.new }
    {
        let mark = variables.notes.len();
        let followed = self.follow_both(connective, left, right, at, variables)?;
        let changes = taken_back(self.alloc, variables, mark)?;
        let branches = Branches {
            holds: followed.is_through.then_some(changes),
            fails: unchanged_if(self.alloc, followed.can_leave),
        };
        Ok(Tested {
            branches: turned(connective, branches),
            next: followed.next,
        })
    }

    /// Follows the parts of a connective through an expression, which is one part where it is of no such connective. A
    /// comparison narrows its variables in place.
    #[cycle(walk)]
    fn follow(
        &self,
        connective: Connective,
        e: &Expr,
        at: u32,
        variables: &mut Variables,
    ) -> Result<Followed, Stop>
        requires walk { CanWalk self.now (term_of e.now) at }
        requires held { AreHeld self.now.plan.now variables.old }
        ensures answer { FollowAnswer self.now connective (term_of e.now) at
            variables.old.ranges.items variables.new.ranges.items result }
        ensures on { GoesOn self.now.plan.now variables.old variables.new }
    {
        match role_of(connective, e) {
            Role::Same(sides) => {
                self.follow_both(connective, sides.left, sides.right, at, variables)
            }
            Role::Compared(found) => {
                self.follow_comparison(connective, found.op, found.left, found.right, at, variables)
            }
            Role::Other => self.follow_part(connective, e, at, variables),
        }
    }

    #[cycle(walk)]
    fn follow_both(
        &self,
        connective: Connective,
        left: &Expr,
        right: &Expr,
        at: u32,
        variables: &mut Variables,
    ) -> Result<Followed, Stop>
        requires walk { CanWalk self.now (connected connective left.now right.now) at }
        requires held { AreHeld self.now.plan.now variables.old }
        ensures answer { FollowAnswer self.now connective (connected connective left.now right.now)
            at variables.old.ranges.items variables.new.ranges.items result }
        ensures on { GoesOn self.now.plan.now variables.old variables.new }
    {
        let first = self.follow(connective, left, at, variables)?;
        let second = self.follow_behind(connective, first, right, variables)?;
        Ok(behind_both(first, second))
    }

    /// Follows a right side, where the left one leads there.
    #[cycle(walk)]
    fn follow_behind(
        &self,
        connective: Connective,
        first: Followed,
        e: &Expr,
        variables: &mut Variables,
    ) -> Result<Followed, Stop>
        requires walk { CanWalk self.now (term_of e.now) first.next }
        requires held { AreHeld self.now.plan.now variables.old }
        ensures answer { BehindAnswer self.now connective (term_of e.now) first
            variables.old.ranges.items variables.new.ranges.items result }
        ensures on { GoesOn self.now.plan.now variables.old variables.new }
    {
        if first.is_through {
            return self.follow(connective, e, first.next, variables);
        }
        Ok(Followed {
            is_through: false,
            can_leave: false,
            next: outline_of(self.plan.typed(), e, first.next).next,
        })
    }

    /// Tests a part, and gives the variables the ranges with which the next part is walked.
    #[cycle(walk)]
    fn follow_part(
        &self,
        connective: Connective,
        e: &Expr,
        at: u32,
        variables: &mut Variables,
    ) -> Result<Followed, Stop>
        requires walk { CanWalk self.now (term_of e.now) at }
        requires held { AreHeld self.now.plan.now variables.old }
        ensures answer { FollowAnswer self.now connective (term_of e.now) at
            variables.old.ranges.items variables.new.ranges.items result }
        ensures on { GoesOn self.now.plan.now variables.old variables.new }
    {
        let Tested { branches, next } = self.test(e, at, variables)?;
        let Branches { holds, fails } = turned(connective, branches);
        let can_leave = fails.is_some();
        match holds {
            None => Ok(Followed {
                is_through: false,
                can_leave,
                next,
            }),
            Some(changes) => {
                variables.apply(&changes)?;
                Ok(Followed {
                    is_through: true,
                    can_leave,
                    next,
                })
            }
        }
    }

    /// Goes on from a comparison as `follow_part` does.
    #[cycle(walk)]
    fn follow_comparison(
        &self,
        connective: Connective,
        op: Binary,
        left: &Expr,
        right: &Expr,
        at: u32,
        variables: &mut Variables,
    ) -> Result<Followed, Stop>
        requires walk { CanWalk self.now (two_of (operator op) left.now right.now) at }
        requires held { AreHeld self.now.plan.now variables.old }
        ensures answer { ComparisonFollowed self.now connective
            (comparison_of op left.now right.now) at variables.old.ranges.items
            variables.new.ranges.items result }
        ensures on { GoesOn self.now.plan.now variables.old variables.new }
    {
        let compared = self.compare(op, left, right, at, variables)?;
        let followed = follow_compared(connective, &compared, variables)?;
        Ok(followed)
    }

    #[cycle(walk)]
    fn test_comparison(
        &self,
        op: Binary,
        left: &Expr,
        right: &Expr,
        at: u32,
        variables: &mut Variables,
    ) -> Result<Tested, Stop>
        requires walk { CanWalk self.now (two_of (operator op) left.now right.now) at }
        requires held { AreHeld self.now.plan.now variables.old }
        ensures answer { ComparisonAnswer self.now (comparison_of op left.now right.now) at
            variables.old.ranges.items result }
        ensures left { OnOk result (IsLeft variables.old variables.new) }
        ensures on { GoesOn self.now.plan.now variables.old variables.new }
    {
        let compared = self.compare(op, left, right, at, variables)?;
        let branches = branches_of(self.alloc, &compared, &variables.ranges)?;
        Ok(Tested {
            branches,
            next: compared.next,
        })
    }

    /// What is compared, if it can't fail: that of a `compareTo` with an `int` literal compares the sides of the `compareTo`.
    #[cycle(walk)]
    fn compare(
        &self,
        op: Binary,
        left: &Expr,
        right: &Expr,
        at: u32,
        variables: &mut Variables,
    ) -> Result<Compared, Stop>
        requires walk { CanWalk self.now (two_of (operator op) left.now right.now) at }
        requires held { AreHeld self.now.plan.now variables.old }
        ensures answer { ComparedAnswer self.now (comparison_of op left.now right.now) at
            variables.old.ranges.items result }
        ensures left { OnOk result (IsLeft variables.old variables.new) }
        ensures on { GoesOn self.now.plan.now variables.old variables.new }
    {
        match compared_sides(left, right) {
            Some(inner) => {
                let operands = self.operands(inner.left, inner.right, at, variables)?;
                compare_order(op, inner.number, operands)
            }
            None => {
                let operands = self.operands(left, right, at, variables)?;
                compare_sides(op, operands)
            }
        }
    }
}

/// A comparison of sides that can't fail.
fn compare_sides(op: Binary, operands: Operands) -> Result<Compared, Stop>
    requires shapes { HaveShapes operands }
    requires room { operands.second.next + 1 < 2 ^ 32 }
    ensures { ComparesAs (sides_compared op operands) (operands.second.next + 1) operands result }
{
    let Operands { first, second } = operands;
    let compared = comparison_range(op, first.range, second.range);
    let compared = own_two(
        first.range,
        second.range,
        compared,
        NodeKind::Truth,
        second.next,
    )?;
    let whole = are_whole(first.kind, second.kind);
    Ok(Compared {
        sides: Sides::of(operands, whole),
        allowed: signs_where(op, 0),
        next: compared.next,
    })
}

/// A `compareTo` of sides that can't fail, which is compared with an `int` literal.
fn compare_order(op: Binary, number: i32, operands: Operands) -> Result<Compared, Stop>
    requires room { operands.second.next + 3 < 2 ^ 32 }
    ensures { ComparesAs (order_compared op number operands) (operands.second.next + 3)
        operands result }
{
    let Operands { first, second } = operands;
    let next = behind_order(op, number, first.range, second.range, second.next)?;
    Ok(Compared {
        sides: Sides::of(operands, false),
        allowed: signs_where(op, number),
        next,
    })
}

/// The signs for which a comparison leads on through a connective, and those for which it leads out of it.
#[derive(Clone, Copy)]
struct Directions {
    onward: SignSet,
    outward: SignSet,
}

/// `||` goes on where its parts fail.
fn directions_of(connective: Connective, allowed: SignSet) -> Directions
    ensures { result ≡ directions_of connective allowed }
{
    let other = others(allowed);
    match connective {
        Connective::And => Directions {
            onward: allowed,
            outward: other,
        },
        Connective::Or => Directions {
            onward: other,
            outward: allowed,
        },
    }
}

/// Gives the variables the ranges with which the part behind a comparison is walked.
fn follow_compared(
    connective: Connective,
    compared: &Compared,
    variables: &mut Variables,
) -> Result<Followed, AllocError>
    requires can { CanCompare compared.now.sides variables.old.ranges.items }
    requires kept { AreKept variables.old.ranges.items }
    ensures follows { IfOk result (IsFollowedBy (directions_of connective compared.now.allowed)
        compared.now variables.old.ranges.items variables.new.ranges.items) }
    ensures noted { IsNoted variables.old variables.new }
    ensures kept { AreKept variables.new.ranges.items }
{
    let Compared {
        sides,
        allowed,
        next,
    } = compared;
    let next = *next;
    let directions = directions_of(connective, *allowed);
    let between = signs(sides.left.range, sides.right.range);
    let can_leave = can_lead(sides, between, directions.outward, &variables.ranges);
    let onward = branch_of(sides, between, directions.onward, &variables.ranges);
    match onward {
        None => Ok(Followed {
            is_through: false,
            can_leave,
            next,
        }),
        Some(narrowed) => {
            variables.narrow(&narrowed)?;
            Ok(Followed {
                is_through: true,
                can_leave,
                next,
            })
        }
    }
}

/// The number behind the nodes of a `compareTo` and of its comparison with an `int` literal, the first of which is `at`.
fn behind_order(op: Binary, number: i32, left: Abs, right: Abs, at: u32) -> Result<u32, Stop>
    requires { at + 3 < 2 ^ 32 }
    ensures { OrderAnswer op number left right at result }
{
    let order = own_two(left, right, abs_cmp(left, right), NodeKind::Int, at)?;
    let literal = literal(Dec::new(number as i128, 0), NodeKind::Int, order.next)?;
    let compared = comparison_range(op, order.range, literal.range);
    let compared = own_two(
        order.range,
        literal.range,
        compared,
        NodeKind::Truth,
        literal.next,
    )?;
    Ok(compared.next)
}

/// The opposite of a test.
fn opposed(tested: Tested) -> Tested
    requires { tested.next + 1 < 2 ^ 32 }
    ensures holds { result.branches.holds ≡ tested.branches.fails }
    ensures fails { result.branches.fails ≡ tested.branches.holds }
    ensures next { result.next ≡ tested.next + 1 }
{
    let Tested { branches, next } = tested;
    Tested {
        branches: opposite(branches),
        next: next + 1,
    }
}

/// What is known behind two parts, the second of which was tested behind the first.
fn behind_both(first: Followed, second: Followed) -> Followed
    requires { second.next + 1 < 2 ^ 32 }
    ensures { result ≡ behind_both first second }
{
    Followed {
        is_through: second.is_through,
        can_leave: first.can_leave || second.can_leave,
        next: second.next + 1,
    }
}

/// The sides of a connective.
#[derive(Clone, Copy)]
struct Connected<'a> {
    left: &'a Expr,
    right: &'a Expr,
}

/// An operator that isn't a connective, with its sides.
#[derive(Clone, Copy)]
struct Comparison<'a> {
    op: Binary,
    left: &'a Expr,
    right: &'a Expr,
}

/// What an expression is to a connective that it is a part of.
#[derive(Clone, Copy)]
enum Role<'a> {
    /// The same connective, whose sides are parts too.
    Same(Connected<'a>),
    Compared(Comparison<'a>),
    Other,
}

fn role_of<'a>(connective: Connective, e: &'a Expr) -> Role<'a>
    ensures { IsRole connective (term_of e.now) result }
{
    let Expr::Binary(op, left, right) = e else {
        return Role::Other;
    };
    match (connective, *op) {
        (Connective::And, Binary::And) | (Connective::Or, Binary::Or) => {
            Role::Same(Connected { left, right })
        }
        (_, Binary::And | Binary::Or) => Role::Other,
        (_, op) => Role::Compared(Comparison { op, left, right }),
    }
}

/// The sides of a `compareTo` that is compared with an `int` literal.
#[derive(Clone, Copy)]
struct Inner<'a> {
    left: &'a Expr,
    right: &'a Expr,
    number: i32,
}

/// The sides of `x.compareTo(y)`, where it is compared with an `int` literal.
fn compared_sides<'a>(left: &'a Expr, right: &'a Expr) -> Option<Inner<'a>>
    ensures { MatchOption result
        (IsPlainComparison (term_of left.now) (term_of right.now))
        (IsInner (term_of left.now) (term_of right.now)) }
{
    match left {
        Expr::Call(Call::CompareTo, x, y) => match right {
            Expr::Int(number) => Some(Inner {
                left: x,
                right: y,
                number: *number,
            }),
            _ => None,
        },
        _ => None,
    }
}

/// An expression that isn't a test; no well-typed plan has one where a test stands.
fn no_test(at: u32) -> Stop
    ensures { result ≡ Stop.At at Wide }
{
    Stop::At {
        node: at,
        cause: RangeCause::Wide,
    }
}
