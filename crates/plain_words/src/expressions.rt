//! Where the text of an expression is refused.
ghost use Rattle.std.specs.Prelude.{IfOk};
ghost use Rattle.plain_words.specs.private.FoundViews.{IsOfPlan};

use crate::found::{CHANGED, Found};
use crate::help::expression_help;
use crate::nodes::is_read;
use crate::quotes::{token_at, write_quoted, write_token};
use crate::sites::{
    DeclaredSite, Source, declaration_of, literal_byte, statement_byte, statement_of,
    write_statement,
};
use crate::slips::{Slip, comma_slip, slip_at};
use crate::statements::statement_text;
use crate::tokens::{Form, Stop, name_at};
use expr_tokens::{Keyword, Sign, Token, read_tokens};
use pap_expr::{ExprFault, parse_constant};
use pap_plan::Spot;
use pap_reader::RawStmt;
use pap_tree::{Binary, Name};
use std::alloc::{AllocError, Global};

/// Where the text of an expression is refused; the word or sign there and its statement or literal are appended.
pub(crate) fn find_expression(
    source: Source<'_>,
    spot: &Spot,
    fault: &ExprFault,
    quote: &mut String,
) -> Result<Found, AllocError>
    ensures { IfOk result (λ found. IsOfPlan found) }
{
    let Some(at) = place_of(fault) else {
        return Err(AllocError);
    };
    match spot {
        Spot::Statement { method, stmt } => {
            let text = faulty_statement(*quote.allocator(), source, method, *stmt)?;
            write_token(quote, token_at(text, at))?;
            write_statement(quote, source, method, *stmt, at)?;
            let form = form_of(source, method, *stmt);
            let help = write_slip(quote, source, fault, form, text, at)?;
            let at = statement_byte(source, method, *stmt, at);
            Ok(Found::in_plan(at).with_help(help))
        }
        Spot::Declared { name } => match declaration_of(source, name) {
            Some(found) => find_literal(source, found, fault, at, quote),
            None => Ok(Found::in_plan(None)),
        },
    }
}

/// The byte of the attribute's text that a fault names.
fn place_of(fault: &ExprFault) -> Option<usize> {
    match fault {
        ExprFault::Syntax { at }
        | ExprFault::Unsupported { at }
        | ExprFault::BinaryFraction { at }
        | ExprFault::Number { at }
        | ExprFault::Deep { at } => Some(*at),
        ExprFault::Memory => None,
    }
}

/// As what the text of a statement is read.
fn form_of(source: Source<'_>, method: &Name, number: u32) -> Form {
    match statement_of(source, method, number) {
        Some(RawStmt::Eval { .. }) => Form::Assignment,
        _ => Form::Test,
    }
}

/// The text of a statement that isn't read. Nothing where the statement found is read, as it may be where two methods have one
/// name.
fn faulty_statement<'a>(
    alloc: Global,
    source: Source<'a>,
    method: &Name,
    number: u32,
) -> Result<&'a [u8], AllocError> {
    match statement_of(source, method, number) {
        Some(statement) if !is_read(alloc, statement)? => Ok(statement_text(statement)),
        _ => Ok(&[]),
    }
}

/// Where the literal of a declared name is refused; the word or sign there and the literal are appended.
fn find_literal(
    source: Source<'_>,
    found: DeclaredSite<'_>,
    fault: &ExprFault,
    at: usize,
    quote: &mut String,
) -> Result<Found, AllocError>
    ensures { IfOk result (λ found. IsOfPlan found) }
{
    let text = faulty_literal(*quote.allocator(), found)?;
    write_token(quote, token_at(text, at))?;
    quote.push_str("the literal ")?;
    write_quoted(quote, text, at)?;
    let element = found.group.name();
    let name = found.declared.name;
    write!(quote, " of the {element} {name}")?;
    let help = write_slip(quote, source, fault, Form::Literal, text, at)?;
    let at = literal_byte(source, found, at);
    Ok(Found::in_plan(at).with_help(help))
}

/// A declaration's literal that isn't read. Nothing where it is read.
fn faulty_literal(alloc: Global, found: DeclaredSite<'_>) -> Result<&[u8], AllocError> {
    let Some(text) = &found.declared.value else {
        return Ok(&[]);
    };
    match parse_constant(alloc, text) {
        Ok(_) => Ok(&[]),
        Err(ExprFault::Memory) => Err(AllocError),
        Err(_) => Ok(text.as_slice()),
    }
}

/// Appends what is written in place of what isn't read on at a byte, where that can be spelled. Gives what helps.
fn write_slip(
    quote: &mut String,
    source: Source<'_>,
    fault: &ExprFault,
    form: Form,
    text: &[u8],
    at: usize,
) -> Result<&'static str, AllocError> {
    let tokens = read_tokens(*quote.allocator(), text)?;
    let stop = Stop::new(form, text, &tokens, at);
    match slip_of(fault, &stop) {
        Some(slip) => {
            slip.write(quote, source)?;
            Ok(slip.help(source))
        }
        None => Ok(token_help(fault, &stop)),
    }
}

/// What the writer may have meant, where that is known.
fn slip_of<'a>(fault: &ExprFault, stop: &Stop<'a>) -> Option<Slip<'a>> {
    match fault {
        ExprFault::Syntax { .. } | ExprFault::Unsupported { .. } => slip_at(stop),
        ExprFault::Number { .. } => comma_slip(stop),
        ExprFault::BinaryFraction { .. } | ExprFault::Deep { .. } | ExprFault::Memory => None,
    }
}

/// What helps where it isn't known what the writer meant.
fn token_help(fault: &ExprFault, stop: &Stop<'_>) -> &'static str {
    match fault {
        ExprFault::Syntax { .. } => syntax_help(stop),
        ExprFault::Unsupported { .. } => profile_help(stop),
        _ => expression_help(fault).unwrap_or(CHANGED),
    }
}

fn syntax_help(stop: &Stop<'_>) -> &'static str {
    match stop.token() {
        None => "the text ends too early: an operand, a bracket or a part of it is missing",
        Some(Token::Mark(Sign::Equals)) => {
            "an = may stand once, behind the target of an EVAL; a comparison is written =="
        }
        Some(Token::Operator(Binary::Same)) => {
            "an == compares two values; in an EVAL a single = stands behind the target"
        }
        Some(_) => "see what stands before it, its brackets and its commas",
    }
}

fn profile_help(stop: &Stop<'_>) -> &'static str {
    match stop.token() {
        Some(Token::Mark(Sign::Close)) => {
            "setScale lacks its rounding mode: write it behind the scale, as in A.setScale(2, BigDecimal.ROUND_DOWN)"
        }
        Some(Token::Keyword(Keyword::BigDecimal | Keyword::RoundingMode)) => {
            "divide lacks its scale: write it before the rounding mode, as in A.divide(B, 2, BigDecimal.ROUND_DOWN)"
        }
        _ if is_whole_part(stop) => {
            "the whole part of a BigDecimal A is A.setScale(0, BigDecimal.ROUND_DOWN), and needs no BigDecimal.valueOf(..) round it"
        }
        _ if is_behind_class(stop) => "of BigDecimal there are valueOf, ZERO, ONE and TEN",
        _ => {
            "there are add, subtract, multiply, divide, setScale, compareTo, min, max, negate and abs, and of BigDecimal valueOf, ZERO, ONE, TEN and the modes ROUND_.."
        }
    }
}

/// Whether it stands behind `BigDecimal` and a point.
fn is_behind_class(stop: &Stop<'_>) -> bool {
    match stop.token_before(2) {
        Some(Token::Keyword(keyword)) => keyword == Keyword::BigDecimal,
        _ => false,
    }
}

/// Whether a call of Java's stands there that gives the whole part of a BigDecimal.
fn is_whole_part(stop: &Stop<'_>) -> bool {
    match name_at(stop.tokens, stop.number) {
        Some(name) => matches!(name.bytes(), b"longValue" | b"intValue" | b"toBigInteger"),
        None => false,
    }
}
