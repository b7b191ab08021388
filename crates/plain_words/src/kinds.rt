//! Where the names and kinds of a plan are refused.
ghost use Rattle.std.specs.Prelude.{IfOk};
ghost use Rattle.plain_words.specs.private.FoundViews.{IsOfPlan};

use crate::comments::write_open_comment;
use crate::found::Found;
use crate::hidden::{hiding_comment, write_hidden};
use crate::nodes::write_node;
use crate::place::place_text;
use crate::quotes::write_quoted;
use crate::sites::{
    Source, declaration_of, is_method, literal_byte, repeated_bytes, statement_byte, statement_of,
    write_method, write_statement,
};
use crate::statements::statement_text;
use crate::tokens::name_byte;
use pap_reader::RawStmt;
use pap_tree::{Kind, Name, Place, is_white};
use pap_types::TypeFault;
use std::alloc::AllocError;

/// Where the names and kinds of a plan are refused; what stands there is appended.
pub(crate) fn find_kind(
    source: Source<'_>,
    fault: &TypeFault,
    quote: &mut String,
) -> Result<Found, AllocError>
    ensures { IfOk result (λ found. IsOfPlan found) }
{
    match fault {
        TypeFault::Twice { name } => find_repeated(source, name, quote),
        TypeFault::Unknown { name, place } => find_unknown(source, name, place, quote),
        TypeFault::Kind { place } => find_mismatch(source, place, quote),
        TypeFault::ConstantWritten { place } => find_front(source, place, quote),
        TypeFault::NoMethod { place } => find_lost(source, place, quote),
        TypeFault::Value { name } => find_value(source, name, quote),
        TypeFault::Memory(_) => Err(AllocError),
    }
}

/// Where the text of a statement begins, behind its white space; the statement is appended.
fn find_front(source: Source<'_>, place: &Place, quote: &mut String) -> Result<Found, AllocError>
    ensures { IfOk result (λ found. IsOfPlan found) }
{
    let text = match statement_of(source, &place.method, place.stmt) {
        Some(statement) => statement_text(statement),
        None => &[],
    };
    let white = text.iter().take_while(|byte| is_white(**byte)).count();
    quote.push_str(", in ")?;
    write_statement(quote, source, &place.method, place.stmt, white)?;
    let at = statement_byte(source, &place.method, place.stmt, white);
    Ok(Found::in_plan(at))
}

/// Where the name of a method stands that isn't there, or the comment that hides it; the statement is appended, and the comment
/// that may hide it.
fn find_lost(source: Source<'_>, place: &Place, quote: &mut String) -> Result<Found, AllocError>
    ensures { IfOk result (λ found. IsOfPlan found) }
{
    if let Some(RawStmt::Execute { method }) = statement_of(source, &place.method, place.stmt)
        && let Some(at) = hiding_comment(source, method)
    {
        return find_hidden(source, method, place, 0, at, quote);
    }
    let found = find_front(source, place, quote)?;
    write_open_comment(quote, source.file.bytes)?;
    Ok(found)
}

/// Where the comment begins that hides a name which a statement has at a byte of its text; the statement and its place are appended.
fn find_hidden(
    source: Source<'_>,
    name: &Name,
    place: &Place,
    at: usize,
    comment: usize,
    quote: &mut String,
) -> Result<Found, AllocError>
    ensures { IfOk result (λ found. IsOfPlan found) }
{
    quote.push_str(", in ")?;
    write_statement(quote, source, &place.method, place.stmt, at)?;
    let used = statement_byte(source, &place.method, place.stmt, at);
    write_hidden(quote, source, name, used)?;
    Ok(Found::in_plan(Some(comment)))
}

/// Where a name is declared for the second time; where it is for the first time is appended.
fn find_repeated(source: Source<'_>, name: &Name, quote: &mut String) -> Result<Found, AllocError>
    ensures { IfOk result (λ found. IsOfPlan found) }
{
    match repeated_bytes(source, name) {
        Some((first, second)) => {
            quote.push_str(", first at ")?;
            quote.push_str(&place_text(*quote.allocator(), source.file, first)?)?;
            Ok(Found::in_plan(second))
        }
        None => Ok(Found::in_plan(None)),
    }
}

/// Where a name stands that isn't declared, or the comment that hides its declaration; its statement is appended.
fn find_unknown(
    source: Source<'_>,
    name: &Name,
    place: &Place,
    quote: &mut String,
) -> Result<Found, AllocError>
    ensures { IfOk result (λ found. IsOfPlan found) }
{
    let found = match statement_of(source, &place.method, place.stmt) {
        Some(statement) => name_byte(*quote.allocator(), statement_text(statement), name)?,
        None => None,
    };
    let at = found.unwrap_or(0);
    if let Some(comment) = hiding_comment(source, name) {
        return find_hidden(source, name, place, at, comment, quote);
    }
    quote.push_str(", in ")?;
    write_statement(quote, source, &place.method, place.stmt, at)?;
    write_known(quote, source, name)?;
    write_open_comment(quote, source.file.bytes)?;
    let at = statement_byte(source, &place.method, place.stmt, at);
    Ok(Found::in_plan(at))
}

/// Appends what a name is that isn't declared, where that is known.
fn write_known(quote: &mut String, source: Source<'_>, name: &Name) -> Result<(), AllocError> {
    match name.bytes() {
        b"ZERO" | b"ONE" | b"TEN" => write!(quote, "; write `BigDecimal.{name}`"),
        b"true" | b"false" => {
            quote.push_str("; there is no true or false: a test compares, as J == 1")
        }
        _ if is_method(source, name) => write_method(quote, name),
        _ => Ok(()),
    }
}

/// Where a node stands whose operands or whose value are of a wrong kind; its spelling and its statement are appended.
fn find_mismatch(source: Source<'_>, place: &Place, quote: &mut String) -> Result<Found, AllocError>
    ensures { IfOk result (λ found. IsOfPlan found) }
{
    let node = write_node(quote, source, place)?;
    quote.push_str(&node.remedy)?;
    let at = statement_byte(source, &place.method, place.stmt, node.at);
    let mut found = Found::in_plan(at).with_help(node.takes);
    found.also = node.also;
    Ok(found)
}

/// Where a declared literal stands that isn't of its type; it is appended.
fn find_value(source: Source<'_>, name: &Name, quote: &mut String) -> Result<Found, AllocError>
    ensures { IfOk result (λ found. IsOfPlan found) }
{
    let Some(found) = declaration_of(source, name) else {
        return Ok(Found::in_plan(None).with_help("see its type"));
    };
    if let Some(text) = &found.declared.value {
        quote.push_str(", at ")?;
        write_quoted(quote, text, 0)?;
    }
    let at = literal_byte(source, found, 0);
    Ok(Found::in_plan(at).with_help(literal_rule(found.declared.kind)))
}

/// Which literals are of a type.
fn literal_rule(kind: Kind) -> &'static str {
    match kind {
        Kind::Int => "an int takes a whole number without L, such as 5",
        Kind::Long => "a long takes a whole number, such as 5 or 5L",
        Kind::Factor =>
            "a double takes a number of at most three digits after the point, such as 1.5",
        Kind::Big => {
            "a BigDecimal takes BigDecimal.ZERO, BigDecimal.valueOf(5) or new BigDecimal(\"1.5\")"
        }
        Kind::Table => "a table takes values of BigDecimal, with commas between, in { }",
    }
}
