//! Names that are called as functions.
use crate::operand_kinds::kind_of_name;
use crate::quotes::write_quoted;
use crate::sites::{Source, is_method, write_method};
use crate::tokens::{Stop, is_mark, name_at};
use expr_tokens::Sign;
use pap_tree::Name;
use pap_types::NodeKind;
use std::alloc::AllocError;

/// A name with a bracket behind it, as `RATES(J)`.
#[derive(Clone, Copy)]
pub(crate) struct Called<'a> {
    name: Name,
    /// What stands in the bracket; two points where that has brackets itself, or no end.
    inside: &'a [u8],
}

/// The call of a name at whose bracket a text isn't read on.
pub(crate) fn called_at<'a>(stop: &Stop<'a>) -> Option<Called<'a>> {
    if !is_mark(stop.tokens, stop.number, Sign::Open) {
        return None;
    }
    let before = stop.number.checked_sub(1)?;
    let name = name_at(stop.tokens, before)?;
    Some(Called {
        name,
        inside: bracketed(stop).unwrap_or(b"..".as_slice()),
    })
}

/// What stands in the bracket that begins there. `None` where another begins in it, or it has no end.
fn bracketed<'a>(stop: &Stop<'a>) -> Option<&'a [u8]> {
    let first = stop.number.checked_add(1)?;
    for number in first..stop.tokens.len() {
        if is_mark(stop.tokens, number, Sign::Open) {
            return None;
        }
        if is_mark(stop.tokens, number, Sign::Close) {
            let end = stop.tokens.get(number)?;
            return stop.text.get(stop.at.checked_add(1)?..end.at);
        }
    }
    None
}

/// Appends what a called name is, where it is declared, and what is written in place of the call.
pub(crate) fn write_called(
    out: &mut String,
    source: Source<'_>,
    called: &Called<'_>,
) -> Result<(), AllocError> {
    let name = called.name;
    if is_method(source, &name) {
        return write_method(out, &name);
    }
    if kind_of_name(source, &name) != Some(NodeKind::Table) {
        return Ok(());
    }
    let alloc = *out.allocator();
    let inside = String::from_utf8_lossy(alloc, called.inside)?;
    let item = format!(in alloc; "{name}[{inside}]")?;
    write!(out, "; {name} is a table: write ")?;
    write_quoted(out, item.as_bytes(), 0)
}

/// What helps where a name is called.
pub(crate) fn called_help(source: Source<'_>, called: &Called<'_>) -> &'static str {
    match kind_of_name(source, &called.name) {
        Some(NodeKind::Table) => "an item of a table has [ ] round its index",
        Some(_) => "an operator is missing before it",
        None => {
            "there are no functions: a method stands behind a value, as in A.max(B), and an EXECUTE executes a METHOD"
        }
    }
}
