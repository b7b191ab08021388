//! The walk of a run, statement by statement.
ghost use Rattle.pap_tree.specs.Flowchart.{body_of, stmt_then, done, eval, execute};
ghost use Rattle.pap_tree.specs.Term.{term_of};
ghost use Rattle.pap_tree.specs.private.TreeViews.{if_of};
ghost use Rattle.month_trace.specs.private.WalkViews.{CanRun, CanExecute, GoesTo, GoesInside, progress};

use crate::expressions::value_of;
use crate::step::TraceStep;
use pap_tree::{Expr, Name, Stmt, written};
use pap_types::Typed;
use run_values::{is_zero, method_body, put};
use scaled_decimal::Dec;
use std::alloc::AllocError;

/// Where the walk stands.
#[derive(Clone, Copy)]
pub(crate) struct Spot {
    pub method: Name,
    /// The number of the statement.
    pub at: u32,
    /// How many methods a chain may still have.
    pub chain: u32,
}

/// Runs statements of a method, the first of which stands there, and appends their trace. Answers the number behind them.
#[cycle(statements)]
pub(crate) fn run_body(
    plan: &Typed,
    spot: Spot,
    body: &[Stmt],
    values: &mut [Dec],
    steps: &mut Vec<TraceStep>,
) -> Result<u32, AllocError>
    requires { CanRun plan.now spot (body_of body.now) values.old }
    ensures { GoesTo plan.now spot (body_of body.now)
        (progress values.old steps.old.items) (progress values.new steps.new.items) result }
{
    let mut next = spot.at;
    for stmt in body {
        next = run_statement(plan, Spot { at: next, ..spot }, stmt, values, steps)?;
    }
    Ok(next)
}

/// Runs a statement, and appends its trace.
#[cycle(statements)]
fn run_statement(
    plan: &Typed,
    spot: Spot,
    stmt: &Stmt,
    values: &mut [Dec],
    steps: &mut Vec<TraceStep>,
) -> Result<u32, AllocError>
    requires { CanRun plan.now spot (stmt_then stmt.now done) values.old }
    ensures { GoesTo plan.now spot (stmt_then stmt.now done)
        (progress values.old steps.old.items) (progress values.new steps.new.items) result }
{
    match stmt {
        Stmt::Eval { target, value } => run_eval(plan, spot, target, value, values, steps),
        Stmt::If { test, yes, no } => run_if(plan, spot, test, yes, no, values, steps),
        Stmt::Execute { method } => run_execute(plan, spot, method, values, steps),
    }
}

/// Runs an assignment.
fn run_eval(
    plan: &Typed,
    spot: Spot,
    target: &Name,
    value: &Expr,
    values: &mut [Dec],
    steps: &mut Vec<TraceStep>,
) -> Result<u32, AllocError>
    requires { CanRun plan.now spot (eval target.now (term_of value.now) done) values.old }
    ensures { GoesTo plan.now spot (eval target.now (term_of value.now) done)
        (progress values.old steps.old.items) (progress values.new steps.new.items) result }
{
    let given = value_of(plan, value, values);
    let kept = put(plan, target, value, given, values);
    steps.push(TraceStep::Set {
        method: spot.method,
        stmt: spot.at,
        target: *target,
        value: kept,
    })?;
    Ok(spot.at + 1)
}

/// Runs an IF: the list that its test chooses.
#[cycle(statements)]
fn run_if(
    plan: &Typed,
    spot: Spot,
    test: &Expr,
    yes: &[Stmt],
    no: &[Stmt],
    values: &mut [Dec],
    steps: &mut Vec<TraceStep>,
) -> Result<u32, AllocError>
    requires { CanRun plan.now spot (if_of test.now yes.now no.now) values.old }
    ensures { GoesTo plan.now spot (if_of test.now yes.now no.now)
        (progress values.old steps.old.items) (progress values.new steps.new.items) result }
{
    let holds = !is_zero(value_of(plan, test, values));
    let Spot { method, at, .. } = spot;
    steps.push(TraceStep::Test {
        method,
        stmt: at,
        yes: holds,
    })?;
    let first = Spot { at: at + 1, ..spot };
    if holds {
        let next = run_body(plan, first, yes, values, steps)?;
        return Ok(next + written(no));
    }
    let second = Spot {
        at: at + 1 + written(yes),
        ..spot
    };
    run_body(plan, second, no, values, steps)
}

/// Runs an EXECUTE: the body of its method.
#[cycle(statements)]
fn run_execute(
    plan: &Typed,
    spot: Spot,
    method: &Name,
    values: &mut [Dec],
    steps: &mut Vec<TraceStep>,
) -> Result<u32, AllocError>
    requires { CanRun plan.now spot (execute method.now done) values.old }
    ensures { GoesTo plan.now spot (execute method.now done)
        (progress values.old steps.old.items) (progress values.new steps.new.items) result }
{
    steps.push(TraceStep::Enter {
        method: spot.method,
        stmt: spot.at,
        callee: *method,
    })?;
    run_method(plan, method, spot.chain, values, steps)?;
    Ok(spot.at + 1)
}

/// Runs the body of a method.
#[cycle(statements)]
fn run_method(
    plan: &Typed,
    name: &Name,
    chain: u32,
    values: &mut [Dec],
    steps: &mut Vec<TraceStep>,
) -> Result<(), AllocError>
    requires { CanExecute plan.now name.now chain values.old }
    ensures { GoesInside plan.now name.now chain
        (progress values.old steps.old.items) (progress values.new steps.new.items) result }
{
    let Some(body) = method_body(plan, name) else {
        unreachable!()
    };
    let spot = Spot {
        method: *name,
        at: 0,
        chain: chain - 1,
    };
    run_body(plan, spot, body, values, steps)?;
    Ok(())
}
