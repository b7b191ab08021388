//! Which operands a node doesn't take, and what is written in their place.
use crate::operand_kinds::{
    are_parts, is_big, is_comparison, is_logical, is_whole, kind_of, kind_of_name, kind_words,
    takes_operands,
};
use crate::quotes::write_quoted;
use crate::sites::Source;
use crate::whole_calls::{is_whole_call, write_whole_call};
use pap_tree::{Binary, Expr, Name, Unary, print_expr};
use pap_types::NodeKind;
use std::alloc::{AllocError, Global};

/// Appends which operands a node doesn't take, and what is written in their place, where that can be spelled. Nothing where it
/// takes them.
pub(crate) fn write_misfit(
    out: &mut String,
    source: Source<'_>,
    node: &Expr,
) -> Result<(), AllocError> {
    if takes_operands(source, node) {
        Ok(())
    } else if is_whole_call(source, node) {
        write_whole_call(out, node)
    } else {
        write_operands(out, source, node)
    }
}

/// Appends which operands of a node aren't of the kinds that it takes, and what is written in their place.
pub(crate) fn write_operands(
    out: &mut String,
    source: Source<'_>,
    node: &Expr,
) -> Result<(), AllocError> {
    match node {
        Expr::Item(table, index) => write_item(out, source, table, index),
        Expr::Binary(op, left, right) => write_operation(out, source, *op, left, right),
        Expr::Call(_, left, right) | Expr::Divide(left, right, _, _) => {
            write_decimal(out, source, left)?;
            write_decimal(out, source, right)
        }
        Expr::SetScale(operand, _, _) | Expr::Unary(Unary::Negate | Unary::Abs, operand) => {
            write_decimal(out, source, operand)
        }
        Expr::Unary(Unary::Minus | Unary::Not, operand)
        | Expr::ValueOf(operand)
        | Expr::ValueOfScaled(operand, _)
        | Expr::NewInt(operand) => write_told(out, source, operand),
        Expr::Choose(test, left, right) => write_choice(out, source, test, left, right),
        _ => Ok(()),
    }
}

/// Appends of which kind an operand is.
fn write_told(out: &mut String, source: Source<'_>, node: &Expr) -> Result<(), AllocError> {
    let Some(kind) = kind_of(source, node) else {
        return Ok(());
    };
    out.push_str("; ")?;
    write_quoted(out, &print_expr(*out.allocator(), node)?, 0)?;
    let words = kind_words(kind);
    write!(out, " is {words}")
}

/// Appends of which kind an operand is that has to be a decimal, and what is written in its place. Nothing where it is one.
fn write_decimal(out: &mut String, source: Source<'_>, node: &Expr) -> Result<(), AllocError> {
    let Some(kind) = kind_of(source, node) else {
        return Ok(());
    };
    if kind.is_big() {
        return Ok(());
    }
    write_told(out, source, node)?;
    if kind.is_truth() {
        return Ok(());
    }
    out.push_str(": write ")?;
    let written = decimal_of(*out.allocator(), node, kind)?;
    write_quoted(out, written.as_bytes(), 0)
}

/// An operand of a kind as a decimal: itself, an item of it, or what `BigDecimal.valueOf` makes of it.
fn decimal_of(alloc: Global, node: &Expr, kind: NodeKind) -> Result<String, AllocError> {
    let text = String::from_utf8_lossy(alloc, &print_expr(alloc, node)?)?;
    match (kind, node) {
        (_, Expr::Int(0)) => String::from_str(alloc, "BigDecimal.ZERO"),
        (NodeKind::Big, Expr::Choose(..)) => format!(in alloc; "({text})"),
        (NodeKind::Big, _) => Ok(text),
        (NodeKind::Table, _) => format!(in alloc; "{text}[..]"),
        _ => format!(in alloc; "BigDecimal.valueOf({text})"),
    }
}

/// Appends what of an item's table and index isn't taken.
fn write_item(
    out: &mut String,
    source: Source<'_>,
    table: &Name,
    index: &Expr,
) -> Result<(), AllocError> {
    if let Some(kind) = kind_of_name(source, table)
        && !kind.is_table()
    {
        let words = kind_words(kind);
        write!(out, "; {table} is {words}, which has no items")?;
    }
    let Some(kind) = kind_of(source, index) else {
        return Ok(());
    };
    if kind.is_int() {
        return Ok(());
    }
    out.push_str("; the index ")?;
    write_quoted(out, &print_expr(*out.allocator(), index)?, 0)?;
    let words = kind_words(kind);
    write!(out, " is {words}")
}

/// Appends what of a conditional isn't taken.
fn write_choice(
    out: &mut String,
    source: Source<'_>,
    test: &Expr,
    left: &Expr,
    right: &Expr,
) -> Result<(), AllocError> {
    if kind_of(source, test) != Some(NodeKind::Truth) {
        write_told(out, source, test)?;
    }
    let first = kind_of(source, left);
    let second = kind_of(source, right);
    if are_parts(first, second) {
        return Ok(());
    }
    if is_big(second) || !is_whole(first) {
        write_decimal(out, source, left)?;
    }
    if is_big(first) || !is_whole(second) {
        write_decimal(out, source, right)?;
    }
    Ok(())
}

/// Appends what an operator doesn't take, and what is written in its place.
fn write_operation(
    out: &mut String,
    source: Source<'_>,
    op: Binary,
    left: &Expr,
    right: &Expr,
) -> Result<(), AllocError> {
    let (Some(first), Some(second)) = (kind_of(source, left), kind_of(source, right)) else {
        return Ok(());
    };
    if is_comparison(op) && !second.is_truth() && is_compared(left) {
        return write_chain(out, op, left, right);
    }
    if is_logical(op) || !is_number(first) || !is_number(second) {
        if is_logical(op) != first.is_truth() {
            write_told(out, source, left)?;
        }
        if is_logical(op) != second.is_truth() {
            write_told(out, source, right)?;
        }
        return Ok(());
    }
    if first != second {
        write_told(out, source, left)?;
        write_told(out, source, right)?;
    }
    let alloc = *out.allocator();
    let left = decimal_of(alloc, left, first)?;
    let right = decimal_of(alloc, right, second)?;
    write_decimals(out, op, &left, &right)
}

/// Whether a kind is that of a number.
pub(crate) fn is_number(kind: NodeKind) -> bool {
    kind.is_big() || kind.is_convertible()
}

/// Whether an expression is a comparison.
fn is_compared(node: &Expr) -> bool {
    match node {
        Expr::Binary(op, _, _) => is_comparison(*op),
        _ => false,
    }
}

/// Appends an operation on two decimals as it is written.
fn write_decimals(out: &mut String, op: Binary, left: &str, right: &str) -> Result<(), AllocError> {
    let alloc = *out.allocator();
    let sign = sign_of(op);
    let written = match op {
        Binary::Plus => format!(in alloc; "{left}.add({right})")?,
        Binary::Sub => format!(in alloc; "{left}.subtract({right})")?,
        Binary::Mul => format!(in alloc; "{left}.multiply({right})")?,
        Binary::Div => format!(in alloc; "{left}.divide({right}, 2, BigDecimal.ROUND_DOWN)")?,
        _ if is_comparison(op) => format!(in alloc; "{left}.compareTo({right}) {sign} 0")?,
        _ => return Ok(()),
    };
    out.push_str(match op {
        Binary::Div => "; write, for example, ",
        _ => "; write ",
    })?;
    write_quoted(out, written.as_bytes(), 0)
}

/// Appends two comparisons in place of `0 < J < 30`, where the value between is a name or a literal.
fn write_chain(out: &mut String, op: Binary, left: &Expr, right: &Expr) -> Result<(), AllocError> {
    let alloc = *out.allocator();
    let middle: &Expr = match left {
        Expr::Binary(_, _, middle) => middle,
        _ => return Ok(()),
    };
    if !matches!(
        middle,
        Expr::Var(_) | Expr::Int(_) | Expr::Long(_) | Expr::Point(_)
    ) {
        return Ok(());
    }
    let first = String::from_utf8_lossy(alloc, &print_expr(alloc, left)?)?;
    let middle = String::from_utf8_lossy(alloc, &print_expr(alloc, middle)?)?;
    let last = String::from_utf8_lossy(alloc, &print_expr(alloc, right)?)?;
    let sign = sign_of(op);
    let written = format!(in alloc; "{first} && {middle} {sign} {last}")?;
    out.push_str("; write ")?;
    write_quoted(out, written.as_bytes(), 0)
}

/// The sign of a comparison.
fn sign_of(op: Binary) -> &'static str {
    match op {
        Binary::Less => "<",
        Binary::LessEq => "<=",
        Binary::More => ">",
        Binary::MoreEq => ">=",
        Binary::Same => "==",
        Binary::Differs => "!=",
        _ => "",
    }
}
