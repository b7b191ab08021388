//! The run of statements.
ghost use Rattle.pap_tree.specs.Flowchart.{body_of, stmt_then, done, eval, execute};
ghost use Rattle.pap_tree.specs.Term.{term_of};
ghost use Rattle.pap_tree.specs.private.TreeViews.{if_of};
ghost use Rattle.checked_run.specs.private.WalkViews.{CanRun, CanExecute, CanEvaluateThere, StatementAnswer, BodyAnswer, CallAnswer};

use crate::RunFailure;
use crate::expressions::evaluate;
use pap_tree::{Expr, Name, Place, Stmt, written};
use pap_types::Typed;
use run_values::{is_zero, method_body, put};
use scaled_decimal::Dec;

/// Where the run stands.
#[derive(Clone, Copy)]
pub(crate) struct Spot {
    pub method: Name,
    /// The number of the statement.
    pub at: u32,
    /// How many methods a chain may still have.
    pub chain: u32,
}

/// Runs statements of a method, the first of which stands there. Answers the number behind them, or where they fail.
#[cycle(statements)]
pub(crate) fn run_body(
    plan: &Typed,
    spot: Spot,
    body: &[Stmt],
    values: &mut [Dec],
) -> Result<u32, RunFailure>
    requires { CanRun plan.now spot (body_of body.now) values.old }
    ensures { BodyAnswer plan.now spot (body_of body.now) values.old values.new result }
{
    let mut next = spot.at;
    for stmt in body {
        next = run_statement(plan, Spot { at: next, ..spot }, stmt, values)?;
    }
    Ok(next)
}

/// Runs a statement.
#[cycle(statements)]
fn run_statement(
    plan: &Typed,
    spot: Spot,
    stmt: &Stmt,
    values: &mut [Dec],
) -> Result<u32, RunFailure>
    requires { CanRun plan.now spot (stmt_then stmt.now done) values.old }
    ensures { BodyAnswer plan.now spot (stmt_then stmt.now done) values.old values.new result }
{
    match stmt {
        Stmt::Eval { target, value } => run_eval(plan, spot, target, value, values),
        Stmt::If { test, yes, no } => run_if(plan, spot, test, yes, no, values),
        Stmt::Execute { method } => run_execute(plan, spot, method, values),
    }
}

/// Runs an assignment.
fn run_eval(
    plan: &Typed,
    spot: Spot,
    target: &Name,
    value: &Expr,
    values: &mut [Dec],
) -> Result<u32, RunFailure>
    requires { CanRun plan.now spot (eval target.now (term_of value.now) done) values.old }
    ensures { BodyAnswer plan.now spot (eval target.now (term_of value.now) done)
        values.old values.new result }
{
    let Spot { method, at, .. } = spot;
    let given = evaluate_there(plan, method, at, value, values)?;
    put(plan, target, value, given, values);
    Ok(at + 1)
}

/// Runs an IF: the list that its test chooses.
#[cycle(statements)]
fn run_if(
    plan: &Typed,
    spot: Spot,
    test: &Expr,
    yes: &[Stmt],
    no: &[Stmt],
    values: &mut [Dec],
) -> Result<u32, RunFailure>
    requires { CanRun plan.now spot (if_of test.now yes.now no.now) values.old }
    ensures { BodyAnswer plan.now spot (if_of test.now yes.now no.now)
        values.old values.new result }
{
    let Spot { method, at, .. } = spot;
    let tested = evaluate_there(plan, method, at, test, values)?;
    let holds = !is_zero(tested);
    let first = Spot { at: at + 1, ..spot };
    if holds {
        let next = run_body(plan, first, yes, values)?;
        return Ok(next + written(no));
    }
    let second = Spot {
        at: at + 1 + written(yes),
        ..spot
    };
    run_body(plan, second, no, values)
}

/// Runs an EXECUTE: the body of its method.
#[cycle(statements)]
fn run_execute(
    plan: &Typed,
    spot: Spot,
    method: &Name,
    values: &mut [Dec],
) -> Result<u32, RunFailure>
    requires { CanRun plan.now spot (execute method.now done) values.old }
    ensures { BodyAnswer plan.now spot (execute method.now done) values.old values.new result }
{
    run_method(plan, method, spot.chain, values)?;
    Ok(spot.at + 1)
}

/// Runs the body of a method.
#[cycle(statements)]
fn run_method(plan: &Typed, name: &Name, chain: u32, values: &mut [Dec]) -> Result<(), RunFailure>
    requires { CanExecute plan.now name.now values.old }
    ensures { CallAnswer plan.now chain name.now values.old values.new result }
{
    if chain == 0 {
        return Err(RunFailure::Chain { method: *name });
    }
    let Some(body) = method_body(plan, name) else {
        unreachable!()
    };
    let spot = Spot {
        method: *name,
        at: 0,
        chain: chain - 1,
    };
    run_body(plan, spot, body, values)?;
    Ok(())
}

/// The value of an expression of the statement that stands there, or where it fails.
fn evaluate_there(
    plan: &Typed,
    method: Name,
    at: u32,
    e: &Expr,
    values: &[Dec],
) -> Result<Dec, RunFailure>
    requires { CanEvaluateThere plan.now (term_of e.now) values.now }
    ensures { StatementAnswer plan.now method at (term_of e.now) values.now result }
{
    match evaluate(plan, e, 0, values) {
        Ok(found) => Ok(found.value),
        Err(failure) => Err(RunFailure::At {
            place: Place {
                method,
                stmt: at,
                node: failure.node,
            },
            cause: failure.cause,
        }),
    }
}
