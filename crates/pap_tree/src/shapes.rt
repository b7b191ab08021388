//! An expression by what its node does: a walk over it has five cases.
ghost use Rattle.pap_tree.specs.Term.{term_of};
ghost use Rattle.pap_tree.specs.Shapes.{IsShape};

use crate::{Binary, Call, Expr, Known, Name, Unary};
use scaled_decimal::{Dec, Mode};

/// What has no operand.
#[derive(Clone, Copy)]
pub enum Leaf<'a> {
    Int(i32),
    Long(i64),
    Point(Dec),
    Text(Dec),
    Known(Known),
    Var(&'a Name),
}

/// What is done with one operand.
#[derive(Clone, Copy)]
pub enum One {
    Unary(Unary),
    ValueOf,
    ValueOfScaled(u8),
    NewInt,
    SetScale(u8, Mode),
}

/// What is done with two operands.
#[derive(Clone, Copy)]
pub enum Two {
    Operator(Binary),
    Method(Call),
    Divide(u8, Mode),
}

/// What the node of an expression does, with its operands.
#[derive(Clone, Copy)]
pub enum Shape<'a> {
    Leaf(Leaf<'a>),
    Item(&'a Name, &'a Expr),
    One(One, &'a Expr),
    Two(Two, &'a Expr, &'a Expr),
    Choice(&'a Expr, &'a Expr, &'a Expr),
}

/// The shape of an expression.
pub fn shape_of(e: &Expr) -> Shape<'_>
    ensures { IsShape (term_of e.now) result }
{
    match e {
        Expr::Int(number) => Shape::Leaf(Leaf::Int(*number)),
        Expr::Long(number) => Shape::Leaf(Leaf::Long(*number)),
        Expr::Point(number) => Shape::Leaf(Leaf::Point(*number)),
        Expr::Text(number) => Shape::Leaf(Leaf::Text(*number)),
        Expr::Known(known) => Shape::Leaf(Leaf::Known(*known)),
        Expr::Var(name) => Shape::Leaf(Leaf::Var(name)),
        Expr::Item(name, index) => Shape::Item(name, index),
        Expr::ValueOf(operand) => Shape::One(One::ValueOf, operand),
        Expr::ValueOfScaled(operand, scale) => Shape::One(One::ValueOfScaled(*scale), operand),
        Expr::NewInt(operand) => Shape::One(One::NewInt, operand),
        Expr::Unary(op, operand) => Shape::One(One::Unary(*op), operand),
        Expr::SetScale(operand, scale, mode) => {
            Shape::One(One::SetScale(*scale, *mode), operand)
        }
        Expr::Binary(op, left, right) => Shape::Two(Two::Operator(*op), left, right),
        Expr::Call(call, left, right) => Shape::Two(Two::Method(*call), left, right),
        Expr::Divide(left, right, scale, mode) => {
            Shape::Two(Two::Divide(*scale, *mode), left, right)
        }
        Expr::Choose(test, first, second) => Shape::Choice(test, first, second),
    }
}
