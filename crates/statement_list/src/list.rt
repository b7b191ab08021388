//! The statements of a flowchart.
ghost use Rattle.std.specs.Prelude.{◌≡◌, ◌∷◌, IfOk, OnOk, map};
ghost use Rattle.pap_tree.specs.Flowchart.{body_of, routine_of, flowchart_of, stmt_then, done};
ghost use Rattle.pap_tree.specs.Term.{term_of};
ghost use Rattle.statement_list.specs.Statements.{listed_body, listed_assignment, listed_test, listed_call, listed_methods};
ghost use Rattle.statement_list.specs.private.StatementViews.{AddsStatements};

use crate::reads::names_read;
use crate::statement::{Form, ListedStatement};
use pap_tree::{Expr, Method, Name, PlanText, Stmt, print_expr};
use std::alloc::{AllocError, Global};
use std::marker::Model;

/// A method as its statements.
#[derive(Drop)]
pub struct ListedMethod {
    statements: Vec<ListedStatement>,
}

impl Model for ListedMethod {
    ghost use Rattle.std.specs.Prelude.{List};
    ghost use Rattle.statement_list.specs.Statements.{Listed};

    ghost Value = { List Listed };

    ghost view = { λ m. m.statements.items };
}

impl ListedMethod {
    /// The statements by their numbers: in the order of the text, an IF before its THEN and this before its ELSE.
    pub fn statements(&self) -> &[ListedStatement]
        ensures { result.now ≡ self.now }
    {
        &self.statements
    }
}

/// The statements of a flowchart, by method: MAIN first, and then the others in the order of the text. Takes time linear in the
/// flowchart, but for the names of one expression, each of which is compared with those before it. Fails only for lack of memory.
pub fn list_statements(alloc: Global, plan: &PlanText) -> Result<Vec<ListedMethod>, AllocError>
    ensures { IfOk result (λ methods. methods.items ≡ listed_methods (flowchart_of plan.now)) }
{
    list_methods(alloc, &plan.main, &plan.methods)
}

/// The statements of MAIN and of the other methods.
fn list_methods(
    alloc: Global,
    main: &[Stmt],
    others: &[Method],
) -> Result<Vec<ListedMethod>, AllocError>
    ensures { IfOk result (λ methods. methods.items ≡ listed_body (body_of main.now)
        ∷ map (λ m. listed_body m.body) (map routine_of others.now)) }
{
    let mut methods = Vec::with_capacity(alloc, others.len() + 1)?;
    methods.push(list_method(alloc, main)?)?;
    for method in others {
        methods.push(list_method(alloc, &method.body)?)?;
    }
    Ok(methods)
}

/// The statements of a method.
fn list_method(alloc: Global, body: &[Stmt]) -> Result<ListedMethod, AllocError>
    ensures { IfOk result (λ m. m ≡ listed_body (body_of body.now)) }
{
    let mut statements = Vec::new(alloc);
    add_body(alloc, &mut statements, body)?;
    Ok(ListedMethod { statements })
}

/// Appends the statements of a list.
#[cycle(statements)]
fn add_body(
    alloc: Global,
    statements: &mut Vec<ListedStatement>,
    body: &[Stmt],
) -> Result<(), AllocError>
    ensures { OnOk result (AddsStatements (body_of body.now)
        statements.old.items statements.new.items) }
{
    for stmt in body {
        add_statement(alloc, statements, stmt)?;
    }
    Ok(())
}

/// Appends a statement, and those inside it.
#[cycle(statements)]
fn add_statement(
    alloc: Global,
    statements: &mut Vec<ListedStatement>,
    stmt: &Stmt,
) -> Result<(), AllocError>
    ensures { OnOk result (AddsStatements (stmt_then stmt.now done)
        statements.old.items statements.new.items) }
{
    match stmt {
        Stmt::Eval { target, value } => {
            statements.push(list_assignment(alloc, target, value)?)?;
            Ok(())
        }
        Stmt::If { test, yes, no } => {
            statements.push(list_test(alloc, test)?)?;
            add_body(alloc, statements, yes)?;
            add_body(alloc, statements, no)
        }
        Stmt::Execute { method } => {
            statements.push(list_call(alloc, method))?;
            Ok(())
        }
    }
}

/// An assignment.
fn list_assignment(
    alloc: Global,
    target: &Name,
    value: &Expr,
) -> Result<ListedStatement, AllocError>
    ensures { IfOk result
        (λ s. s ≡ listed_assignment target.now (term_of value.now)) }
{
    let text = print_expr(alloc, value)?;
    let reads = names_read(alloc, value)?;
    Ok(ListedStatement::new(Form::Set(*target), text, reads))
}

/// The test of an IF.
fn list_test(alloc: Global, test: &Expr) -> Result<ListedStatement, AllocError>
    ensures { IfOk result (λ s. s ≡ listed_test (term_of test.now)) }
{
    let text = print_expr(alloc, test)?;
    let reads = names_read(alloc, test)?;
    Ok(ListedStatement::new(Form::Test, text, reads))
}

/// An EXECUTE.
fn list_call(alloc: Global, method: &Name) -> ListedStatement
    ensures { result ≡ listed_call method.now }
{
    ListedStatement::new(Form::Enter(*method), Vec::new(alloc), Vec::new(alloc))
}
