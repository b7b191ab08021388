//! Assignments that aren't written as an EVAL has them.
use crate::quotes::write_quoted;
use crate::sites::{Source, declaration_of};
use crate::tokens::{Form, Stop, goes_on_with_word, is_mark, name_at, token_of};
use expr_tokens::{Keyword, Placed, Sign, Token};
use pap_tree::{Binary, Kind, Name, is_word};
use std::alloc::{AllocError, Global};

/// A change of a variable by an operator.
#[derive(Clone, Copy)]
pub(crate) struct Change<'a> {
    target: Name,
    operator: Operator,
    /// What stands behind the operator; nothing where it is doubled.
    operand: &'a [u8],
}

/// An operator that changes a variable.
#[derive(Clone, Copy, PartialEq, Eq)]
enum Operator {
    Plus,
    Minus,
    Times,
    Over,
}

/// A change of a variable as Java has it: `J++`, `++J` or `J += K`.
pub(crate) fn change_at<'a>(stop: &Stop<'a>) -> Option<Change<'a>> {
    if stop.form != Form::Assignment {
        return None;
    }
    if stop.number == 0 {
        return step_before(stop.tokens);
    }
    if stop.number != 1 {
        return None;
    }
    let target = name_at(stop.tokens, 0)?;
    let operator = operator_at(stop.tokens, 1)?;
    if is_step(operator) && operator_at(stop.tokens, 2) == Some(operator) {
        return Some(Change {
            target,
            operator,
            operand: &[],
        });
    }
    if !is_mark(stop.tokens, 2, Sign::Equals) {
        return None;
    }
    let first = stop.tokens.get(3)?;
    Some(Change {
        target,
        operator,
        operand: before_end(stop.text.get(first.at..)?),
    })
}

/// The change of an EVAL that is `++J` alone.
fn step_before<'a>(tokens: &[Placed]) -> Option<Change<'a>> {
    let operator = operator_at(tokens, 0)?;
    if !is_step(operator) || operator_at(tokens, 1) != Some(operator) || !ends_at(tokens, 3) {
        return None;
    }
    Some(Change {
        target: name_at(tokens, 2)?,
        operator,
        operand: &[],
    })
}

/// Whether an EVAL ends before the token of a number, but for its semicolon.
fn ends_at(tokens: &[Placed], number: usize) -> bool {
    match tokens.get(number..) {
        Some([]) => true,
        Some([_]) => is_mark(tokens, number, Sign::Semicolon),
        _ => false,
    }
}

/// Whether an operator may be doubled, as in `J++`.
fn is_step(operator: Operator) -> bool {
    operator == Operator::Plus || operator == Operator::Minus
}

/// An assigned text without the semicolon and the white space at its end.
fn before_end(text: &[u8]) -> &[u8] {
    let text = text.trim_ascii_end();
    match text.strip_suffix(b";") {
        Some(front) => front.trim_ascii_end(),
        None => text,
    }
}

/// The operator that the token of a number is, where it may change a variable.
fn operator_at(tokens: &[Placed], number: usize) -> Option<Operator> {
    match token_of(tokens, number)? {
        Token::Operator(Binary::Plus) => Some(Operator::Plus),
        Token::Operator(Binary::Sub) => Some(Operator::Minus),
        Token::Operator(Binary::Mul) => Some(Operator::Times),
        Token::Operator(Binary::Div) => Some(Operator::Over),
        _ => None,
    }
}

/// Appends the assignment that is written for a change.
pub(crate) fn write_change(
    out: &mut String,
    source: Source<'_>,
    change: &Change<'_>,
) -> Result<(), AllocError> {
    let alloc = *out.allocator();
    let is_big = match declaration_of(source, &change.target) {
        Some(site) => site.declared.kind == Kind::Big,
        None => false,
    };
    let assignment = if is_big {
        decimal_assignment(alloc, change)?
    } else {
        whole_assignment(alloc, change)?
    };
    out.push_str(if is_big && change.operator == Operator::Over {
        "; write, for example, "
    } else {
        "; write "
    })?;
    write_quoted(out, assignment.as_bytes(), 0)
}

/// The assignment for a change of a whole number: `J = J + 1`.
fn whole_assignment(alloc: Global, change: &Change<'_>) -> Result<String, AllocError> {
    let target = change.target;
    let sign = match change.operator {
        Operator::Plus => "+",
        Operator::Minus => "-",
        Operator::Times => "*",
        Operator::Over => "/",
    };
    let operand = String::from_utf8_lossy(alloc, change.operand)?;
    if change.operand.is_empty() {
        format!(in alloc; "{target} = {target} {sign} 1")
    } else if change.operand.iter().all(|byte| is_word(*byte)) {
        format!(in alloc; "{target} = {target} {sign} {operand}")
    } else {
        format!(in alloc; "{target} = {target} {sign} ({operand})")
    }
}

/// The assignment for a change of a value of BigDecimal: `A = A.add(B)`.
fn decimal_assignment(alloc: Global, change: &Change<'_>) -> Result<String, AllocError> {
    let target = change.target;
    let (method, behind) = match change.operator {
        Operator::Plus => ("add", ""),
        Operator::Minus => ("subtract", ""),
        Operator::Times => ("multiply", ""),
        Operator::Over => ("divide", ", 2, BigDecimal.ROUND_DOWN"),
    };
    if change.operand.is_empty() {
        return format!(in alloc; "{target} = {target}.{method}(BigDecimal.ONE{behind})");
    }
    let operand = String::from_utf8_lossy(alloc, change.operand)?;
    format!(in alloc; "{target} = {target}.{method}({operand}{behind})")
}

/// A name, and the text of the value that it seems to be given.
#[derive(Clone, Copy)]
pub(crate) struct Given<'a> {
    target: Name,
    value: &'a [u8],
}

/// `J := 3`, with another sign for the `=` of an EVAL.
pub(crate) fn given_at<'a>(stop: &Stop<'a>) -> Option<Given<'a>> {
    if stop.form != Form::Assignment || stop.number != 1 {
        return None;
    }
    if !is_mark(stop.tokens, 1, Sign::Colon) || !is_mark(stop.tokens, 2, Sign::Equals) {
        return None;
    }
    let target = name_at(stop.tokens, 0)?;
    let first = stop.tokens.get(3)?;
    Some(Given {
        target,
        value: before_end(stop.text.get(first.at..)?),
    })
}

/// `A.setScale(2, BigDecimal.ROUND_DOWN)`, a value that an EVAL gives to no name.
pub(crate) fn lost_at<'a>(stop: &Stop<'a>) -> Option<Given<'a>> {
    if stop.form != Form::Assignment || stop.number != 1 || !goes_on_with_value(stop.token()?) {
        return None;
    }
    Some(Given {
        target: name_at(stop.tokens, 0)?,
        value: before_end(stop.text.trim_ascii_start()),
    })
}

/// Whether a value goes on with a token, behind a name.
fn goes_on_with_value(token: Token) -> bool {
    match token {
        Token::Mark(Sign::Dot) => true,
        Token::Operator(Binary::Plus | Binary::Sub | Binary::Mul | Binary::Div | Binary::Rem) =>
            true,
        _ => false,
    }
}

/// Appends the assignment of a value to a name, where that is declared.
pub(crate) fn write_given(
    out: &mut String,
    source: Source<'_>,
    words: &str,
    given: &Given<'_>,
) -> Result<(), AllocError> {
    let target = given.target;
    if declaration_of(source, &target).is_none() {
        return Ok(());
    }
    let alloc = *out.allocator();
    let value = String::from_utf8_lossy(alloc, given.value)?;
    let assignment = format!(in alloc; "{target} = {value}")?;
    out.push_str(words)?;
    write_quoted(out, assignment.as_bytes(), 0)
}

/// How an EVAL is written.
pub(crate) const EVAL: &str = "an EVAL gives a value to a name, as J = 3";

/// What helps where an EVAL doesn't begin with a name and a `=`.
pub(crate) fn assignment_help(stop: &Stop<'_>) -> Option<&'static str> {
    if stop.form != Form::Assignment || goes_on_with_word(stop) {
        return None;
    }
    match (stop.number, stop.token()) {
        (0, Some(Token::Keyword(Keyword::BigDecimal))) => Some(TYPED),
        (0, None) => None,
        (0, _) => Some(EVAL),
        (1, Some(Token::Name(_))) if begins_with_type(stop.tokens) => Some(TYPED),
        (1, Some(Token::Mark(Sign::OpenItem))) => Some(
            "an item of a table is given no value: a table is a CONSTANT, with all its items in { }",
        ),
        (1, Some(Token::Operator(Binary::Same))) => None,
        (1, _) => Some(EVAL),
        _ if stop.has_mark_before(1, Sign::Semicolon) => {
            Some("an EVAL has one assignment: write the next in an EVAL of its own")
        }
        _ => None,
    }
}

/// What helps where a type stands in an EVAL.
const TYPED: &str =
    "an EVAL has no type before the name: declare the name as an INTERNAL, and write J = 3 alone";

/// Whether a text begins with a type of Java's.
fn begins_with_type(tokens: &[Placed]) -> bool {
    match name_at(tokens, 0) {
        Some(name) => matches!(
            name.bytes(),
            b"int" | b"long" | b"double" | b"float" | b"var" | b"final"
        ),
        None => false,
    }
}
