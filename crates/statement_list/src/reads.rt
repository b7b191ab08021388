//! The names that an expression reads.
ghost use Rattle.std.specs.Prelude.{◌≡◌, OnOk, IfOk};
ghost use Rattle.std.specs.List.{list_any};
ghost use Rattle.std.specs.Str.{bytes_eq};
ghost use Rattle.pap_tree.specs.Term.{term_of};
ghost use Rattle.statement_list.specs.Statements.{with_name, with_names, names_read};

use pap_tree::{Expr, Name};
use std::alloc::{AllocError, Global};

/// The names of variables and constants that an expression reads, each once, in the order of the text.
pub(crate) fn names_read(alloc: Global, e: &Expr) -> Result<Vec<Name>, AllocError>
    ensures { IfOk result (λ names. names.items ≡ names_read (term_of e.now)) }
{
    let mut names = Vec::new(alloc);
    add_names(&mut names, e)?;
    Ok(names)
}

/// Appends the names that an expression reads and that aren't there yet.
#[cycle(names)]
fn add_names(names: &mut Vec<Name>, e: &Expr) -> Result<(), AllocError>
    ensures { OnOk result (names.new.items ≡ with_names names.old.items (term_of e.now)) }
{
    match e {
        Expr::Int(_) | Expr::Long(_) | Expr::Point(_) | Expr::Text(_) | Expr::Known(_) => Ok(()),
        Expr::Var(name) => add_name(names, name),
        Expr::Item(_, operand)
        | Expr::ValueOf(operand)
        | Expr::ValueOfScaled(operand, _)
        | Expr::NewInt(operand)
        | Expr::Unary(_, operand)
        | Expr::SetScale(operand, _, _) => add_names(names, operand),
        Expr::Binary(_, left, right)
        | Expr::Call(_, left, right)
        | Expr::Divide(left, right, _, _) => {
            add_names(names, left)?;
            add_names(names, right)
        }
        Expr::Choose(test, first, second) => {
            add_names(names, test)?;
            add_names(names, first)?;
            add_names(names, second)
        }
    }
}

/// Appends a name, unless it is there.
fn add_name(names: &mut Vec<Name>, name: &Name) -> Result<(), AllocError>
    ensures { OnOk result (names.new.items ≡ with_name names.old.items name.now) }
{
    if has_name(names, name) {
        return Ok(());
    }
    names.push(*name)?;
    Ok(())
}

/// Whether a name is among others.
fn has_name(names: &[Name], name: &Name) -> bool
    ensures { result ≡ list_any (bytes_eq name.now) names.now }
{
    names.iter().any(|n| *name == *n)
}
