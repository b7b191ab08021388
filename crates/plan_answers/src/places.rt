//! The nodes of a plan by their places.
ghost use Rattle.std.specs.Prelude.{◌≡◌, IfOk, MatchOption, Some, None, option_map};
ghost use Rattle.std.specs.List.{find};
ghost use Rattle.std.specs.Str.{bytes_eq};
ghost use Rattle.pap_tree.specs.Term.{term_of};
ghost use Rattle.pap_tree.specs.Flowchart.{flowchart_of, body_of};
ghost use Rattle.pap_tree.specs.Statements.{term_at};
ghost use Rattle.plan_answers.specs.Refusals.{body_in, node_at, spelling_at};
ghost use Rattle.plan_answers.specs.private.PlaceViews.{IsSearched, IsSearchedIn};

use pap_tree::{Expr, Method, Name, Place, PlanText, Stmt, find_node, print_expr};
use std::alloc::{AllocError, Global};

/// The canonical spelling of the node of a place. A place that has no node has an empty one.
pub(crate) fn spelling_at(
    alloc: Global,
    plan: &PlanText,
    place: &Place,
) -> Result<Vec<u8>, AllocError>
    ensures { IfOk result (λ text. text.items ≡ spelling_at (flowchart_of plan.now) place.now) }
{
    match node_at(plan, place) {
        Some(node) => print_expr(alloc, node),
        None => Ok(Vec::new(alloc)),
    }
}

/// The node of a place.
fn node_at<'a>(plan: &'a PlanText, place: &Place) -> Option<&'a Expr>
    ensures { MatchOption result (node_at (flowchart_of plan.now) place.now ≡ None)
        (λ node. node_at (flowchart_of plan.now) place.now ≡ Some (term_of node.now)) }
{
    let body = body_in(plan, &place.method)?;
    let expression = expression_at(body, place.stmt)?;
    find_node(expression, place.node)
}

/// The statements of a method.
fn body_in<'a>(plan: &'a PlanText, method: &Name) -> Option<&'a [Stmt]>
    ensures { MatchOption result (body_in (flowchart_of plan.now) method.now ≡ None)
        (λ body. body_in (flowchart_of plan.now) method.now ≡ Some (body_of body.now)) }
{
    if *method == Name::main() {
        return Some(&plan.main);
    }
    let methods = plan.methods.as_slice();
    let routine = method_named(methods, method)?;
    Some(routine.body.as_slice())
}

/// The method of a name other than MAIN's.
fn method_named<'a>(methods: &'a [Method], name: &Name) -> Option<&'a Method>
    ensures { option_map (λ m. m.now) result ≡ find (λ m. bytes_eq name.now m.name) methods.now }
{
    methods.iter().find(|method| *name == method.name)
}

/// The expression of the statement of a number: the value of an EVAL or the test of an IF. An EXECUTE has none.
fn expression_at(body: &[Stmt], number: u32) -> Option<&Expr>
    ensures { MatchOption result (term_at (body_of body.now) number ≡ None)
        (λ e. term_at (body_of body.now) number ≡ Some (term_of e.now)) }
{
    match search_body(body, number) {
        Search::Found(e) => Some(e),
        Search::Executes => None,
        Search::Left(_) => None,
    }
}

/// What came of a search for the statement of a number: its expression, that it is an EXECUTE, or how many numbers are left
/// behind those of the statements.
enum Search<'a> {
    Found(&'a Expr),
    Executes,
    Left(u32),
}

/// Searches a list of statements and those inside them.
#[cycle(search_body)]
fn search_body(body: &[Stmt], number: u32) -> Search<'_>
    ensures { IsSearched (body_of body.now) number result }
{
    let mut left = number;
    for statement in body {
        match search_statement(statement, left) {
            Search::Left(behind) => left = behind,
            found => return found,
        }
    }
    Search::Left(left)
}

/// Searches a statement and those inside it.
#[cycle(search_body)]
fn search_statement(statement: &Stmt, number: u32) -> Search<'_>
    ensures { IsSearchedIn statement.now number result }
{
    match statement {
        Stmt::Eval { value, .. } => {
            if number == 0 {
                return Search::Found(value);
            }
            Search::Left(number - 1)
        }
        Stmt::Execute { .. } => {
            if number == 0 {
                return Search::Executes;
            }
            Search::Left(number - 1)
        }
        Stmt::If { test, yes, no } => {
            if number == 0 {
                return Search::Found(test);
            }
            match search_body(yes, number - 1) {
                Search::Left(left) => search_body(no, left),
                found => found,
            }
        }
    }
}
