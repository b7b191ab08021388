//! How many nodes an expression has.
ghost use Rattle.std.specs.Prelude.{◌≡◌, ◌+◌, ◌<◌, ◌^◌};
ghost use Rattle.pap_tree.specs.Term.{term_of};
ghost use Rattle.pap_tree.specs.Numbering.{nodes};

use pap_tree::Expr;

/// The number of nodes of an expression.
#[cycle(count)]
pub(crate) fn node_count(e: &Expr) -> u32
    requires { nodes (term_of e.now) < 2 ^ 32 }
    ensures { result ≡ nodes (term_of e.now) }
{
    match e {
        Expr::Int(_)
        | Expr::Long(_)
        | Expr::Point(_)
        | Expr::Text(_)
        | Expr::Known(_)
        | Expr::Var(_) => 1,
        Expr::Item(_, operand)
        | Expr::ValueOf(operand)
        | Expr::ValueOfScaled(operand, _)
        | Expr::NewInt(operand)
        | Expr::Unary(_, operand)
        | Expr::SetScale(operand, _, _) => node_count(operand) + 1,
        Expr::Binary(_, left, right)
        | Expr::Call(_, left, right)
        | Expr::Divide(left, right, _, _) => node_count(left) + node_count(right) + 1,
        Expr::Choose(test, first, second) => node_count(test)
            + node_count(first)
            + node_count(second)
            + 1,
    }
}
