//! The values of expressions, or the first node that fails.
ghost use Rattle.std.specs.Prelude.{◌≡◌, ◌<◌, ◌+◌, ◌^◌};
ghost use Rattle.pap_tree.specs.Shapes.{one_meant, two_meant};
ghost use Rattle.pap_tree.specs.Term.{term_of, leaf, named, item, one, two};
ghost use Rattle.pap_tree.specs.private.TreeViews.{choice_of};
ghost use Rattle.checked_run.specs.private.ValueViews.{CanEvaluate, IsEvaluated, EvaluationAnswer, OwnAnswer};

use crate::FailureCause;
use crate::failure::NodeFailure;
use crate::operations::{one_value, two_value};
use pap_tree::{Expr, Name, One, Two};
use pap_types::{NodeKind, Typed, kind_of_one, kind_of_two, outline_of};
use run_values::{goes_right, is_zero, item, table, value_of_name};
use scaled_decimal::Dec;

/// The value of an expression, its kind, and the number that follows its nodes'.
#[derive(Clone, Copy)]
pub(crate) struct Evaluated {
    pub value: Dec,
    pub kind: NodeKind,
    pub next: u32,
}

/// The value of an expression whose nodes are numbered from `at`, or its first node that fails. Each node is evaluated or
/// counted once.
#[cycle(evaluate)]
pub(crate) fn evaluate(
    plan: &Typed,
    e: &Expr,
    at: u32,
    values: &[Dec],
) -> Result<Evaluated, NodeFailure>
    requires { CanEvaluate plan.now (term_of e.now) at values.now }
    ensures { EvaluationAnswer plan.now (term_of e.now) at values.now result }
{
    match e {
        Expr::Int(number) => Ok(found(Dec::new(*number as i128, 0), NodeKind::Int, at)),
        Expr::Long(number) => Ok(found(Dec::new(*number as i128, 0), NodeKind::Long, at)),
        Expr::Point(number) => Ok(found(*number, NodeKind::Fraction, at)),
        Expr::Text(number) => Ok(found(*number, NodeKind::Big, at)),
        Expr::Known(known) => Ok(found(known.value(), NodeKind::Big, at)),
        Expr::Var(name) => Ok(evaluate_name(plan, name, at, values)),
        Expr::Item(name, index) => evaluate_item(plan, name, index, at, values),
        Expr::ValueOf(operand) => evaluate_one(plan, One::ValueOf, operand, at, values),
        Expr::ValueOfScaled(operand, scale) => {
            evaluate_one(plan, One::ValueOfScaled(*scale), operand, at, values)
        }
        Expr::NewInt(operand) => evaluate_one(plan, One::NewInt, operand, at, values),
        Expr::Unary(op, operand) => evaluate_one(plan, One::Unary(*op), operand, at, values),
        Expr::SetScale(operand, scale, mode) => {
            evaluate_one(plan, One::SetScale(*scale, *mode), operand, at, values)
        }
        Expr::Binary(op, left, right) => {
            evaluate_two(plan, Two::Operator(*op), left, right, at, values)
        }
        Expr::Call(call, left, right) => {
            evaluate_two(plan, Two::Method(*call), left, right, at, values)
        }
        Expr::Divide(left, right, scale, mode) => {
            evaluate_two(plan, Two::Divide(*scale, *mode), left, right, at, values)
        }
        Expr::Choose(test, first, second) => {
            evaluate_choice(plan, test, first, second, at, values)
        }
    }
}

/// The value of a name.
fn evaluate_name(plan: &Typed, name: &Name, at: u32, values: &[Dec]) -> Evaluated
    requires { CanEvaluate plan.now (leaf (named name.now)) at values.now }
    ensures { IsEvaluated plan.now (leaf (named name.now)) at values.now result }
{
    found(
        value_of_name(plan, name, values),
        plan.kind_of_name(name),
        at,
    )
}

/// An item of a table, by an index.
#[cycle(evaluate)]
fn evaluate_item(
    plan: &Typed,
    name: &Name,
    index: &Expr,
    at: u32,
    values: &[Dec],
) -> Result<Evaluated, NodeFailure>
    requires { CanEvaluate plan.now (item name.now (term_of index.now)) at values.now }
    ensures { EvaluationAnswer plan.now (item name.now (term_of index.now)) at values.now result }
{
    let index = evaluate(plan, index, at, values)?;
    match item(table(plan, name), index.value) {
        Some(value) => Ok(found(value, NodeKind::Big, index.next)),
        None => Err(NodeFailure {
            node: index.next,
            cause: FailureCause::Index,
        }),
    }
}

/// What is done with one operand.
#[cycle(evaluate)]
fn evaluate_one(
    plan: &Typed,
    op: One,
    operand: &Expr,
    at: u32,
    values: &[Dec],
) -> Result<Evaluated, NodeFailure>
    requires { CanEvaluate plan.now (one (one_meant op) (term_of operand.now)) at values.now }
    ensures { EvaluationAnswer plan.now (one (one_meant op) (term_of operand.now)) at
        values.now result }
{
    let a = evaluate(plan, operand, at, values)?;
    let kind = kind_of_one(op, a.kind);
    own(one_value(op, kind, operand, a.value), kind, a.next)
}

/// What is done with two operands, the second of which is evaluated where the first one doesn't decide.
#[cycle(evaluate)]
fn evaluate_two(
    plan: &Typed,
    op: Two,
    left: &Expr,
    right: &Expr,
    at: u32,
    values: &[Dec],
) -> Result<Evaluated, NodeFailure>
    requires { CanEvaluate plan.now (two (two_meant op) (term_of left.now) (term_of right.now)) at
        values.now }
    ensures { EvaluationAnswer plan.now (two (two_meant op) (term_of left.now) (term_of right.now))
        at values.now result }
{
    let a = evaluate(plan, left, at, values)?;
    if !goes_right(op, a.value) {
        let passed = outline_of(plan, right, a.next);
        let decided = kind_of_two(op, a.kind, passed.kind);
        return Ok(found(a.value, decided, passed.next));
    }
    let b = evaluate(plan, right, a.next, values)?;
    let kind = kind_of_two(op, a.kind, b.kind);
    own(two_value(op, kind, a.value, b.value), kind, b.next)
}

/// A conditional: the part that its test chooses.
#[cycle(evaluate)]
fn evaluate_choice(
    plan: &Typed,
    test: &Expr,
    first: &Expr,
    second: &Expr,
    at: u32,
    values: &[Dec],
) -> Result<Evaluated, NodeFailure>
    requires { CanEvaluate plan.now (choice_of test.now first.now second.now) at values.now }
    ensures { EvaluationAnswer plan.now (choice_of test.now first.now second.now) at
        values.now result }
{
    let tested = evaluate(plan, test, at, values)?;
    if is_zero(tested.value) {
        let passed = outline_of(plan, first, tested.next);
        let chosen = evaluate(plan, second, passed.next, values)?;
        let kind = passed.kind.wider(chosen.kind);
        return Ok(found(chosen.value, kind, chosen.next));
    }
    let chosen = evaluate(plan, first, tested.next, values)?;
    let passed = outline_of(plan, second, chosen.next);
    let kind = chosen.kind.wider(passed.kind);
    Ok(found(chosen.value, kind, passed.next))
}

/// The value of the node of this number.
fn found(value: Dec, kind: NodeKind, node: u32) -> Evaluated
    requires { node + 1 < 2 ^ 32 }
    ensures value { result.value ≡ value }
    ensures kind { result.kind ≡ kind }
    ensures next { result.next ≡ node + 1 }
{
    Evaluated {
        value,
        kind,
        next: node + 1,
    }
}

/// What comes of the node of this number.
fn own(
    value: Result<Dec, FailureCause>,
    kind: NodeKind,
    node: u32,
) -> Result<Evaluated, NodeFailure>
    requires { node + 1 < 2 ^ 32 }
    ensures { OwnAnswer value kind node result }
{
    match value {
        Ok(value) => Ok(found(value, kind, node)),
        Err(cause) => Err(NodeFailure { node, cause }),
    }
}
