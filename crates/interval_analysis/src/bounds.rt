//! The most that a run may cost. Sums stop at the greatest number of 64 bits; the bound of an ordered plan is far below.
ghost use Rattle.std.specs.Prelude.{◌≡◌, ◌*◌, ◌<◌, ◌≤◌, ◌^◌, IfOk, length};
ghost use Rattle.pap_tree.specs.Term.{term_of};
ghost use Rattle.pap_tree.specs.Numbering.{nodes};
ghost use Rattle.pap_tree.specs.Flowchart.{flowchart_of, body_of, stmt_then, done};
ghost use Rattle.pap_types.specs.Bounds.{term_bound};
ghost use Rattle.pap_types.specs.Counts.{AreSmallTerms};
ghost use Rattle.pap_types.specs.Meaning.{bound_of};
ghost use Rattle.call_order.specs.Orders.{IsOrdered};
ghost use Rattle.interval_analysis.specs.private.BoundViews.{AreBounds, bound_at, stopped_bound};

use pap_tree::{Expr, Name, Stmt};
use pap_types::Typed;
use std::alloc::{AllocError, Global};

/// The most that a run of a plan costs, given its methods in an order in which each stands after all that it executes.
pub(crate) fn bound_of(alloc: Global, plan: &Typed, order: &[u32]) -> Result<u64, AllocError>
    requires { IsOrdered (flowchart_of plan.now) order.now }
    ensures { IfOk result (λ bound. bound ≡ bound_of (flowchart_of plan.now)) }
{
    let bounds = bounds_of(alloc, plan, order)?;
    Ok(body_bound(plan, plan.plan().main.as_slice(), &bounds) + 1)
}

/// The bounds of the methods by number, computed in that order.
fn bounds_of(alloc: Global, plan: &Typed, order: &[u32]) -> Result<Vec<u64>, AllocError>
    requires { IsOrdered (flowchart_of plan.now) order.now }
    ensures { IfOk result (λ bounds. AreBounds (flowchart_of plan.now) order.now bounds.items) }
{
    let methods = plan.plan().methods.as_slice();
    let mut bounds = vec![in alloc; 0u64; methods.len()]?;
    for method in order {
        let number = *method as usize;
        bounds[number] = body_bound(plan, methods[number].body.as_slice(), &bounds);
    }
    Ok(bounds)
}

/// The bound of a list of statements, given those of the methods.
#[cycle(bound)]
fn body_bound(plan: &Typed, body: &[Stmt], bounds: &[u64]) -> u64
    requires small { AreSmallTerms (body_of body.now) }
    requires all { length bounds.now ≡ length (flowchart_of plan.now).methods }
    ensures { result ≡ stopped_bound (flowchart_of plan.now) bounds.now (body_of body.now) }
{
    let mut bound = 0u64;
    for stmt in body {
        bound = bound.saturating_add(stmt_bound(plan, stmt, bounds));
    }
    bound
}

/// The bound of a statement: for an IF that of its test and the larger one of its two lists'.
#[cycle(bound)]
fn stmt_bound(plan: &Typed, stmt: &Stmt, bounds: &[u64]) -> u64
    requires small { AreSmallTerms (stmt_then stmt.now done) }
    requires all { length bounds.now ≡ length (flowchart_of plan.now).methods }
    ensures { result
        ≡ stopped_bound (flowchart_of plan.now) bounds.now (stmt_then stmt.now done) }
{
    match stmt {
        Stmt::Eval { value, .. } => term_bound(value) + 1,
        Stmt::If { test, yes, no } => {
            let first = body_bound(plan, yes, bounds).saturating_add(1);
            let second = body_bound(plan, no, bounds);
            first.max(second).saturating_add(term_bound(test) + 1)
        }
        Stmt::Execute { method } => bound_at(plan, method, bounds).saturating_add(2),
    }
}

/// The bound of a method by its name. No well-typed plan executes one that isn't there.
fn bound_at(plan: &Typed, name: &Name, bounds: &[u64]) -> u64
    requires { length bounds.now ≡ length (flowchart_of plan.now).methods }
    ensures { result ≡ bound_at (flowchart_of plan.now) bounds.now name.now }
{
    match plan.method(name) {
        Some(number) => bounds[number],
        None => 0,
    }
}

/// The bound of an expression: for a conditional that of its test and the larger one of its two parts'.
#[cycle(terms)]
fn term_bound(e: &Expr) -> u64
    requires { nodes (term_of e.now) < 2 ^ 32 }
    ensures value { result ≡ term_bound (term_of e.now) }
    ensures small { result ≤ 2 * nodes (term_of e.now) }
{
    match e {
        Expr::Int(_)
        | Expr::Long(_)
        | Expr::Point(_)
        | Expr::Text(_)
        | Expr::Known(_)
        | Expr::Var(_) => 1,
        Expr::Item(_, operand)
        | Expr::ValueOf(operand)
        | Expr::ValueOfScaled(operand, _)
        | Expr::NewInt(operand)
        | Expr::Unary(_, operand)
        | Expr::SetScale(operand, _, _) => term_bound(operand) + 1,
        Expr::Binary(_, left, right)
        | Expr::Call(_, left, right)
        | Expr::Divide(left, right, _, _) => term_bound(left) + term_bound(right) + 1,
        Expr::Choose(test, first, second) => {
            let first = term_bound(first) + 1;
            let second = term_bound(second);
            term_bound(test) + first.max(second) + 1
        }
    }
}
