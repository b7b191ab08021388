//! The kinds of expressions, and how many nodes they have.
ghost use Rattle.std.specs.Prelude.{◌≡◌, ◌+◌, ◌<◌, ◌^◌};
ghost use Rattle.pap_tree.specs.Term.{term_of, choice};
ghost use Rattle.pap_tree.specs.Numbering.{nodes};
ghost use Rattle.pap_types.specs.Outlines.{IsOutline};
ghost use Rattle.pap_types.specs.private.OutlineViews.{AreOutlines};

use crate::kinds::{NodeKind, kind_of_call, kind_of_operator, kind_of_unary};
use crate::typed::Typed;
use pap_tree::Expr;

/// The kind of an expression, and the number that follows its nodes'.
#[derive(Clone, Copy)]
pub struct Outline {
    pub kind: NodeKind,
    pub next: u32,
}

/// The same of two operands, the second of which is numbered behind the first.
#[derive(Clone, Copy)]
pub(crate) struct Outlines {
    pub first: Outline,
    pub second: Outline,
}

/// The outline of an expression whose nodes are numbered from `at`. Time is linear in its nodes.
#[cycle(outline)]
pub fn outline_of(plan: &Typed, e: &Expr, at: u32) -> Outline
    requires { at + nodes (term_of e.now) < 2 ^ 32 }
    ensures { IsOutline plan.now (term_of e.now) at result }
{
    match e {
        Expr::Int(_) => outlined(NodeKind::Int, at),
        Expr::Long(_) => outlined(NodeKind::Long, at),
        Expr::Point(_) => outlined(NodeKind::Fraction, at),
        Expr::Text(_) | Expr::Known(_) => outlined(NodeKind::Big, at),
        Expr::Var(name) => outlined(plan.kind_of_name(name), at),
        Expr::Item(_, operand)
        | Expr::ValueOf(operand)
        | Expr::ValueOfScaled(operand, _)
        | Expr::NewInt(operand)
        | Expr::SetScale(operand, _, _) => outlined(
            NodeKind::Big,
            outline_of(plan, operand, at).next,
        ),
        Expr::Unary(op, operand) => {
            let inner = outline_of(plan, operand, at);
            outlined(kind_of_unary(*op, inner.kind), inner.next)
        }
        Expr::Binary(op, left, right) => {
            let both = outlines_of(plan, left, right, at);
            outlined(
                kind_of_operator(*op, both.first.kind, both.second.kind),
                both.second.next,
            )
        }
        Expr::Call(call, left, right) => {
            let both = outlines_of(plan, left, right, at);
            outlined(kind_of_call(*call), both.second.next)
        }
        Expr::Divide(left, right, _, _) => {
            let both = outlines_of(plan, left, right, at);
            outlined(NodeKind::Big, both.second.next)
        }
        Expr::Choose(test, first, second) => outline_of_choice(plan, test, first, second, at),
    }
}

/// The outline of a conditional.
#[cycle(outline)]
fn outline_of_choice(plan: &Typed, test: &Expr, first: &Expr, second: &Expr, at: u32) -> Outline
    requires { at + nodes (choice (term_of test.now) (term_of first.now) (term_of second.now))
        < 2 ^ 32 }
    ensures { IsOutline plan.now
        (choice (term_of test.now) (term_of first.now) (term_of second.now)) at result }
{
    let tested = outline_of(plan, test, at);
    let both = outlines_of(plan, first, second, tested.next);
    outlined(both.first.kind.wider(both.second.kind), both.second.next)
}

/// The outlines of two operands.
#[cycle(outline)]
fn outlines_of(plan: &Typed, left: &Expr, right: &Expr, at: u32) -> Outlines
    requires { at + nodes (term_of left.now) + nodes (term_of right.now) < 2 ^ 32 }
    ensures { AreOutlines plan.now (term_of left.now) (term_of right.now) at result }
{
    let first = outline_of(plan, left, at);
    let second = outline_of(plan, right, first.next);
    Outlines { first, second }
}

fn outlined(kind: NodeKind, at: u32) -> Outline
    requires { at + 1 < 2 ^ 32 }
    ensures kind { result.kind ≡ kind }
    ensures next { result.next ≡ at + 1 }
{
    Outline { kind, next: at + 1 }
}
