//! The values of expressions.
ghost use Rattle.std.specs.Prelude.{◌≡◌, Some};
ghost use Rattle.pap_tree.specs.Shapes.{one_meant, two_meant};
ghost use Rattle.pap_tree.specs.Term.{term_of, item};
ghost use Rattle.pap_tree.specs.private.TreeViews.{one_of, two_of, choice_of};
ghost use Rattle.run_values.specs.private.ValueViews.{value_in};
ghost use Rattle.month_trace.specs.private.ValueViews.{CanEvaluate};

use crate::operations::{one_value, two_value};
use pap_tree::{Expr, Name, One, Two};
use pap_types::Typed;
use run_values::{goes_right, is_zero, item, table, value_of_name};
use scaled_decimal::Dec;

/// The value of an expression.
#[cycle(value)]
pub(crate) fn value_of(plan: &Typed, e: &Expr, values: &[Dec]) -> Dec
    requires { CanEvaluate plan.now (term_of e.now) values.now }
    ensures { value_in plan.now (term_of e.now) values.now ≡ Some result }
{
    match e {
        Expr::Int(number) => Dec::new(*number as i128, 0),
        Expr::Long(number) => Dec::new(*number as i128, 0),
        Expr::Point(number) | Expr::Text(number) => *number,
        Expr::Known(known) => known.value(),
        Expr::Var(name) => value_of_name(plan, name, values),
        Expr::Item(name, index) => value_of_item(plan, name, index, values),
        Expr::ValueOf(operand) => value_of_one(plan, One::ValueOf, operand, values),
        Expr::ValueOfScaled(operand, scale) => {
            value_of_one(plan, One::ValueOfScaled(*scale), operand, values)
        }
        Expr::NewInt(operand) => value_of_one(plan, One::NewInt, operand, values),
        Expr::Unary(op, operand) => value_of_one(plan, One::Unary(*op), operand, values),
        Expr::SetScale(operand, scale, mode) => {
            value_of_one(plan, One::SetScale(*scale, *mode), operand, values)
        }
        Expr::Binary(op, left, right) => {
            value_of_two(plan, Two::Operator(*op), left, right, values)
        }
        Expr::Call(call, left, right) => {
            value_of_two(plan, Two::Method(*call), left, right, values)
        }
        Expr::Divide(left, right, scale, mode) => {
            value_of_two(plan, Two::Divide(*scale, *mode), left, right, values)
        }
        Expr::Choose(test, first, second) => value_of_choice(plan, test, first, second, values),
    }
}

/// An item of a table, by an index.
#[cycle(value)]
fn value_of_item(plan: &Typed, name: &Name, index: &Expr, values: &[Dec]) -> Dec
    requires { CanEvaluate plan.now (item name.now (term_of index.now)) values.now }
    ensures { value_in plan.now (item name.now (term_of index.now)) values.now ≡ Some result }
{
    let index = value_of(plan, index, values);
    match item(table(plan, name), index) {
        Some(value) => value,
        None => unreachable!(),
    }
}

/// What is done with one operand.
#[cycle(value)]
fn value_of_one(plan: &Typed, op: One, operand: &Expr, values: &[Dec]) -> Dec
    requires { CanEvaluate plan.now (one_of (one_meant op) operand.now) values.now }
    ensures { value_in plan.now (one_of (one_meant op) operand.now) values.now ≡ Some result }
{
    let a = value_of(plan, operand, values);
    one_value(op, operand, a)
}

/// What is done with two operands, the second of which is evaluated where the first one doesn't decide.
#[cycle(value)]
fn value_of_two(plan: &Typed, op: Two, left: &Expr, right: &Expr, values: &[Dec]) -> Dec
    requires { CanEvaluate plan.now (two_of (two_meant op) left.now right.now) values.now }
    ensures { value_in plan.now (two_of (two_meant op) left.now right.now) values.now
        ≡ Some result }
{
    let a = value_of(plan, left, values);
    if !goes_right(op, a) {
        return a;
    }
    let b = value_of(plan, right, values);
    two_value(op, a, b)
}

/// A conditional: the part that its test chooses.
#[cycle(value)]
fn value_of_choice(plan: &Typed, test: &Expr, first: &Expr, second: &Expr, values: &[Dec]) -> Dec
    requires { CanEvaluate plan.now (choice_of test.now first.now second.now) values.now }
    ensures { value_in plan.now (choice_of test.now first.now second.now) values.now
        ≡ Some result }
{
    let holds = value_of(plan, test, values);
    if is_zero(holds) {
        value_of(plan, second, values)
    } else {
        value_of(plan, first, values)
    }
}
