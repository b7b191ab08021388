//! What is written in place of an expression whose type doesn't go with its statement.
use crate::misfits::{is_number, write_misfit, write_operands};
use crate::operand_kinds::{is_comparison, is_convertible, is_logical, kind_of, takes_operands};
use crate::quotes::write_quoted;
use crate::sites::{Source, declaration_of};
use crate::whole_calls::is_whole_call;
use pap_reader::RawDeclared;
use pap_tree::{Call, Expr, Kind, Name, print_expr};
use pap_types::NodeKind;
use std::alloc::AllocError;

/// What an expression is in its statement.
#[derive(Clone, Copy)]
pub(crate) enum Role {
    /// The value that a target is given.
    Value(Name),
    /// The test of an IF.
    Test,
}

/// Appends what is written in place of the whole expression of a statement or its operands, where that is known.
pub(crate) fn write_remedy(
    out: &mut String,
    source: Source<'_>,
    role: Role,
    node: &Expr,
) -> Result<(), AllocError> {
    let target = match role {
        Role::Test => return write_test(out, source, node),
        Role::Value(target) => target,
    };
    match declaration_of(source, &target) {
        Some(site) if takes_operands(source, node) => write_value(out, source, site.declared, node),
        Some(site) => write_operation(out, source, site.declared, node),
        None => write_misfit(out, source, node),
    }
}

/// Appends what is written in place of the text of an IF or its operands.
fn write_test(out: &mut String, source: Source<'_>, node: &Expr) -> Result<(), AllocError> {
    if takes_operands(source, node) {
        write_comparison(out, source, node)
    } else {
        write_misfit(out, source, node)
    }
}

/// Appends what is written in place of operands that a target's whole expression doesn't take, and of which type the target is
/// declared for it.
fn write_operation(
    out: &mut String,
    source: Source<'_>,
    target: &RawDeclared,
    node: &Expr,
) -> Result<(), AllocError> {
    if target.kind == Kind::Big {
        return write_operands(out, source, node);
    }
    write_misfit(out, source, node)?;
    if matches!(target.kind, Kind::Int | Kind::Long) && becomes_decimal(source, node) {
        let name = target.name;
        return write!(out, "; declare {name} as a BigDecimal for it");
    }
    Ok(())
}

/// Whether an operation on numbers becomes one on decimals, as it is written.
fn becomes_decimal(source: Source<'_>, node: &Expr) -> bool {
    match node {
        Expr::Binary(op, left, right) => {
            !is_logical(*op) && !is_comparison(*op) && are_numbers(source, left, right)
        }
        Expr::Call(Call::CompareTo | Call::DivideExact, _, _) => false,
        Expr::Call(_, left, right) => {
            !is_whole_call(source, node) && are_numbers(source, left, right)
        }
        Expr::Divide(left, right, _, _) => are_numbers(source, left, right),
        _ => false,
    }
}

/// Whether two operands are numbers.
fn are_numbers(source: Source<'_>, left: &Expr, right: &Expr) -> bool {
    match (kind_of(source, left), kind_of(source, right)) {
        (Some(first), Some(second)) => is_number(first) && is_number(second),
        _ => false,
    }
}

/// Appends a comparison with a name, where that is the text of an IF.
fn write_comparison(out: &mut String, source: Source<'_>, node: &Expr) -> Result<(), AllocError> {
    let Expr::Var(name) = node else {
        return Ok(());
    };
    match kind_of(source, node) {
        Some(NodeKind::Int | NodeKind::Long | NodeKind::Factor) => {
            write!(out, "; write a comparison, as `{name} == 1`")
        }
        Some(NodeKind::Big) => {
            write!(
                out,
                "; write a comparison, as `{name}.compareTo(BigDecimal.ZERO) > 0`"
            )
        }
        _ => Ok(()),
    }
}

/// Appends how a target is given a value of its type.
fn write_value(
    out: &mut String,
    source: Source<'_>,
    target: &RawDeclared,
    node: &Expr,
) -> Result<(), AllocError> {
    let name = target.name;
    match target.kind {
        Kind::Big if is_convertible(kind_of(source, node)) => {
            write_valued(out, &print_expr(*out.allocator(), node)?)
        }
        Kind::Int if kind_of(source, node) == Some(NodeKind::Long) => {
            write_long(out, source, target, node)
        }
        Kind::Int | Kind::Long => match valued_number(source, target.kind, node) {
            Some(number) => {
                let number = print_expr(*out.allocator(), number)?;
                let number = String::from_utf8_lossy(*out.allocator(), &number)?;
                write!(out, "; write `{name} = {number}`")
            }
            None => Ok(()),
        },
        _ => Ok(()),
    }
}

/// Appends which part of a value makes it a long, and what is declared or written for a target that is an int.
fn write_long(
    out: &mut String,
    source: Source<'_>,
    target: &RawDeclared,
    node: &Expr,
) -> Result<(), AllocError> {
    let name = target.name;
    if let Expr::Long(number) = node
        && *number <= i64::from(i32::MAX)
    {
        return write!(out, "; write `{name} = {number}`");
    }
    match long_part(source, node) {
        Some(part) => {
            out.push_str("; ")?;
            write_quoted(out, &print_expr(*out.allocator(), part)?, 0)?;
            write!(out, " is a long: declare {name} as a long, too")
        }
        None => write!(out, "; declare {name} as a long"),
    }
}

/// The first name or literal of a whole number that is a long.
fn long_part<'a>(source: Source<'_>, node: &'a Expr) -> Option<&'a Expr> {
    match node {
        Expr::Unary(_, operand) => long_part(source, operand),
        Expr::Binary(_, left, right) | Expr::Choose(_, left, right) => {
            match long_part(source, left) {
                Some(part) => Some(part),
                None => long_part(source, right),
            }
        }
        _ if kind_of(source, node) == Some(NodeKind::Long) => Some(node),
        _ => None,
    }
}

/// Appends that `BigDecimal.valueOf` is written round a number.
pub(crate) fn write_valued(out: &mut String, number: &[u8]) -> Result<(), AllocError> {
    let number = String::from_utf8_lossy(*out.allocator(), number)?;
    let valued = format!(in *out.allocator(); "BigDecimal.valueOf({number})")?;
    out.push_str("; write ")?;
    write_quoted(out, valued.as_bytes(), 0)
}

/// The whole number of which an expression is the value of BigDecimal, where a target of a type takes it.
fn valued_number<'a>(source: Source<'_>, target: Kind, node: &'a Expr) -> Option<&'a Expr> {
    let number: &Expr = match node {
        Expr::ValueOf(number) | Expr::NewInt(number) => number,
        _ => return None,
    };
    match (target, kind_of(source, number)) {
        (_, Some(NodeKind::Int)) | (Kind::Long, Some(NodeKind::Long)) => Some(number),
        _ => None,
    }
}
