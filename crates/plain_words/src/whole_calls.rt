//! Methods of BigDecimal that are called of whole numbers.
use crate::operand_kinds::{is_whole, kind_of};
use crate::quotes::write_quoted;
use crate::sites::Source;
use pap_tree::{Call, Expr, print_expr};
use std::alloc::{AllocError, Global};

/// Whether a method is called of a whole number with another.
pub(crate) fn is_whole_call(source: Source<'_>, node: &Expr) -> bool {
    match node {
        Expr::Call(Call::DivideExact, _, _) => false,
        Expr::Call(_, left, right) => {
            is_whole(kind_of(source, left)) && is_whole(kind_of(source, right))
        }
        _ => false,
    }
}

/// Appends what is written in place of a method that is called of a whole number with another.
pub(crate) fn write_whole_call(out: &mut String, node: &Expr) -> Result<(), AllocError> {
    let Expr::Call(call, left, right) = node else {
        return Ok(());
    };
    let alloc = *out.allocator();
    let first = operand_text(alloc, left)?;
    let second = operand_text(alloc, right)?;
    let written = match call {
        Call::Add => format!(in alloc; "{first} + {second}")?,
        Call::Subtract => format!(in alloc; "{first} - {second}")?,
        Call::Multiply => format!(in alloc; "{first} * {second}")?,
        Call::Min => format!(in alloc; "({first} > {second} ? {second} : {first})")?,
        Call::Max => format!(in alloc; "({first} > {second} ? {first} : {second})")?,
        Call::CompareTo => format!(in alloc; "{first} > {second}")?,
        Call::DivideExact => return Ok(()),
    };
    out.push_str(match call {
        Call::CompareTo => "; write a comparison, as ",
        _ => "; write ",
    })?;
    write_quoted(out, written.as_bytes(), 0)
}

/// An operand as it is written beside an operator.
fn operand_text(alloc: Global, node: &Expr) -> Result<String, AllocError> {
    let text = String::from_utf8_lossy(alloc, &print_expr(alloc, node)?)?;
    match node {
        Expr::Binary(..) | Expr::Choose(..) => format!(in alloc; "({text})"),
        _ => Ok(text),
    }
}

/// What helps where a method is called of a whole number with another.
pub(crate) const WHOLE: &str =
    "the method takes two values of BigDecimal; whole numbers (int, long) have + - * / and comparisons";
