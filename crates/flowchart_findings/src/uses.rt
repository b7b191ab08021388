//! The names that the statements of a flowchart read and assign.
ghost use Rattle.std.specs.Prelude.{◌≡◌, ◌++◌, IfOk, OnOk, map};
ghost use Rattle.std.specs.List.{flat_map};
ghost use Rattle.pap_tree.specs.Flowchart.{body_of, routine_of, flowchart_of, stmt_then, done};
ghost use Rattle.pap_tree.specs.Term.{term_of};
ghost use Rattle.flowchart_findings.specs.Uses.{named_in, read_names, assigned_names};
ghost use Rattle.flowchart_findings.specs.private.UseViews.{AddsUses, AddsMethodUses};

use pap_tree::{Expr, Method, Name, PlanText, Stmt};
use std::alloc::{AllocError, Global};

/// The names that are read and those that are assigned, as often as they are, in the order of the text.
#[derive(Drop)]
pub(crate) struct Uses {
    pub read: Vec<Name>,
    pub assigned: Vec<Name>,
}

/// The names that a flowchart reads and assigns.
pub(crate) fn uses_of(alloc: Global, plan: &PlanText) -> Result<Uses, AllocError>
    ensures read { IfOk result (λ uses.
        uses.read.items ≡ read_names (flowchart_of plan.now)) }
    ensures assigned { IfOk result (λ uses.
        uses.assigned.items ≡ assigned_names (flowchart_of plan.now)) }
{
    let mut uses = Uses {
        read: Vec::new(alloc),
        assigned: Vec::new(alloc),
    };
    add_body(&mut uses, &plan.main)?;
    add_methods(&mut uses, &plan.methods)?;
    Ok(uses)
}

/// Appends the names that methods read and assign.
fn add_methods(uses: &mut Uses, methods: &[Method]) -> Result<(), AllocError>
    ensures { OnOk result (AddsMethodUses (map routine_of methods.now) uses.old uses.new) }
{
    for method in methods {
        add_body(uses, &method.body)?;
    }
    Ok(())
}

/// Appends the names that a list of statements reads and assigns.
#[cycle(uses)]
fn add_body(uses: &mut Uses, body: &[Stmt]) -> Result<(), AllocError>
    ensures { OnOk result (AddsUses (body_of body.now) uses.old uses.new) }
{
    for stmt in body {
        add_statement(uses, stmt)?;
    }
    Ok(())
}

/// Appends the names that a statement reads and assigns, and those inside it.
#[cycle(uses)]
fn add_statement(uses: &mut Uses, stmt: &Stmt) -> Result<(), AllocError>
    ensures { OnOk result (AddsUses (stmt_then stmt.now done) uses.old uses.new) }
{
    match stmt {
        Stmt::Eval { target, value } => {
            add_names(&mut uses.read, value)?;
            uses.assigned.push(*target)?;
            Ok(())
        }
        Stmt::If { test, yes, no } => {
            add_names(&mut uses.read, test)?;
            add_body(uses, yes)?;
            add_body(uses, no)
        }
        Stmt::Execute { .. } => Ok(()),
    }
}

/// Appends the names in an expression, those of tables among them.
#[cycle(names)]
fn add_names(names: &mut Vec<Name>, e: &Expr) -> Result<(), AllocError>
    ensures { OnOk result (names.new.items ≡ names.old.items ++ named_in (term_of e.now)) }
{
    match e {
        Expr::Int(_) | Expr::Long(_) | Expr::Point(_) | Expr::Text(_) | Expr::Known(_) => Ok(()),
        Expr::Var(name) => {
            names.push(*name)?;
            Ok(())
        }
        Expr::Item(table, index) => {
            names.push(*table)?;
            add_names(names, index)
        }
        Expr::ValueOf(operand)
        | Expr::ValueOfScaled(operand, _)
        | Expr::NewInt(operand)
        | Expr::Unary(_, operand)
        | Expr::SetScale(operand, _, _) => add_names(names, operand),
        Expr::Binary(_, left, right)
        | Expr::Call(_, left, right)
        | Expr::Divide(left, right, _, _) => {
            add_names(names, left)?;
            add_names(names, right)
        }
        Expr::Choose(test, first, second) => {
            add_names(names, test)?;
            add_names(names, first)?;
            add_names(names, second)
        }
    }
}
