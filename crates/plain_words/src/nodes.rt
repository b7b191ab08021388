//! The nodes of a statement's expression by their numbers.
use crate::misfits::write_misfit;
use crate::operand_kinds::{is_comparison, is_logical, kind_of, takes_operands};
use crate::quotes::write_quoted;
use crate::remedies::{Role, write_remedy};
use crate::sites::{Source, declaration_of, statement_of, write_statement};
use crate::whole_calls::{WHOLE, is_whole_call};
use pap_expr::{ExprFault, Stretch, parse_assign_placed, parse_expr_placed};
use pap_reader::RawStmt;
use pap_tree::{Binary, Call, Expr, Kind, Name, Place, Unary, find_node, print_expr};
use pap_types::NodeKind;
use std::alloc::{AllocError, Global};

/// What is said of a node of an expression.
#[derive(Drop)]
pub(crate) struct Node {
    /// The byte of the statement's text at which it begins.
    pub at: usize,
    /// What is written in its place, as ``; write `J = 3` ``, where that is known; else nothing.
    pub remedy: String,
    /// Which operands it takes, where the node is known.
    pub takes: &'static str,
    /// What has to come of it, where it is the whole expression.
    pub also: &'static str,
    /// The table of which it is an item.
    pub table: Option<Name>,
}

/// The expression of a statement.
#[derive(Drop)]
struct ReadExpression {
    role: Role,
    expression: Expr,
    /// The bytes of its nodes in the statement's text, by number.
    nodes: Vec<Stretch>,
}

/// Appends where a node stands: its canonical spelling, and its statement.
pub(crate) fn write_node(
    out: &mut String,
    source: Source<'_>,
    place: &Place,
) -> Result<Node, AllocError> {
    let found = match statement_of(source, &place.method, place.stmt) {
        Some(statement) => write_spelling(out, source, statement, place.node)?,
        None => None,
    };
    out.push_str(if found.is_some() { " in " } else { ", in " })?;
    let node = match found {
        Some(node) => node,
        None => Node {
            at: 0,
            remedy: String::new(*out.allocator()),
            takes: "see their types",
            also: "",
            table: None,
        },
    };
    write_statement(out, source, &place.method, place.stmt, node.at)?;
    Ok(node)
}

/// Appends a node as it is spelled. `None` where there is no such node, and nothing is appended.
fn write_spelling(
    out: &mut String,
    source: Source<'_>,
    statement: &RawStmt,
    number: u32,
) -> Result<Option<Node>, AllocError> {
    let alloc = *out.allocator();
    let Some(read) = expression_of(alloc, statement)? else {
        return Ok(None);
    };
    let Some(node) = find_node(&read.expression, number) else {
        return Ok(None);
    };
    out.push_str(", at ")?;
    write_quoted(out, &print_expr(alloc, node)?, 0)?;
    let is_part = find_node(&read.expression, number.saturating_add(1)).is_some();
    let stretch = read.nodes.get(number as usize);
    let mut remedy = String::new(alloc);
    if is_part {
        write_misfit(&mut remedy, source, node)?;
    } else {
        write_remedy(&mut remedy, source, read.role, node)?;
    }
    Ok(Some(Node {
        at: stretch.map(|bytes| bytes.first).unwrap_or(0),
        remedy,
        takes: taken_here(source, read.role, is_part, node),
        also: if is_part {
            ""
        } else {
            whole_words(source, read.role)
        },
        table: table_of(node),
    }))
}

/// The table of which a node is an item.
fn table_of(node: &Expr) -> Option<Name> {
    match node {
        Expr::Item(table, _) => Some(*table),
        _ => None,
    }
}

/// The expression of a statement, where it has one and it is read.
fn expression_of(alloc: Global, statement: &RawStmt) -> Result<Option<ReadExpression>, AllocError> {
    let read = match statement {
        RawStmt::Eval { exec } => match parse_assign_placed(alloc, exec) {
            Ok((target, expression, nodes)) => Ok(ReadExpression {
                role: Role::Value(target),
                expression,
                nodes,
            }),
            Err(fault) => Err(fault),
        },
        RawStmt::If { test, .. } => match parse_expr_placed(alloc, test) {
            Ok((expression, nodes)) => Ok(ReadExpression {
                role: Role::Test,
                expression,
                nodes,
            }),
            Err(fault) => Err(fault),
        },
        RawStmt::Execute { .. } => return Ok(None),
    };
    match read {
        Ok(read) => Ok(Some(read)),
        Err(ExprFault::Memory) => Err(AllocError),
        Err(_) => Ok(None),
    }
}

/// Whether the expression of a statement is read.
pub(crate) fn is_read(alloc: Global, statement: &RawStmt) -> Result<bool, AllocError> {
    Ok(expression_of(alloc, statement)?.is_some())
}

/// What has to come of an expression, where a node is the whole of it.
fn whole_words(source: Source<'_>, role: Role) -> &'static str {
    match role {
        Role::Test => "; and the text of an IF is a test",
        Role::Value(target) => match declaration_of(source, &target) {
            Some(site) => target_words(site.declared.kind),
            None => "",
        },
    }
}

/// Of which type a target is.
fn target_words(kind: Kind) -> &'static str {
    match kind {
        Kind::Int => "; and the target is an int",
        Kind::Long => "; and the target is a long, which takes an int or a long",
        Kind::Big => "; and the target is a BigDecimal",
        Kind::Factor => {
            "; and the target is a double, which takes a literal of at most three digits after the point"
        }
        Kind::Table => "; and the target is a table",
    }
}

/// Which operands a node takes, or what it is, where that is what doesn't go together.
fn taken_here(source: Source<'_>, role: Role, is_part: bool, node: &Expr) -> &'static str {
    match (node, role) {
        (Expr::Call(Call::CompareTo, _, _), Role::Test) if !is_part => {
            "compareTo takes two values of BigDecimal and gives -1, 0 or 1, which isn't a test yet: compare it with 0, as in A.compareTo(B) > 0"
        }
        _ if !takes_operands(source, node) => taken_kinds(source, node),
        _ => match kind_of(source, node) {
            Some(kind) => own_words(kind),
            None => taken_kinds(source, node),
        },
    }
}

/// Of which kind a name or another expression is.
fn own_words(kind: NodeKind) -> &'static str {
    match kind {
        NodeKind::Int => "it is an int",
        NodeKind::Long => "it is a long",
        NodeKind::Big => "it is a BigDecimal",
        NodeKind::Truth => "it is a test",
        NodeKind::Fraction => "it is a number with a point",
        NodeKind::Factor => "it is a double, which stands within BigDecimal.valueOf(..) alone",
        NodeKind::Table => "it is a table, of which an item is taken as T[I]",
    }
}

/// Which operands a node takes.
fn taken_kinds(source: Source<'_>, node: &Expr) -> &'static str {
    match node {
        Expr::Int(_)
        | Expr::Long(_)
        | Expr::Point(_)
        | Expr::Text(_)
        | Expr::Known(_)
        | Expr::Var(_) => "it is of a type that isn't taken here",
        Expr::Item(..) => "an item needs a table (BigDecimal[]) and an int as index",
        Expr::ValueOf(_) => {
            "valueOf takes an int, a long, a double name or a literal with a point"
        }
        Expr::ValueOfScaled(..) | Expr::NewInt(_) => "it takes an int or a long",
        Expr::Unary(op, _) => taken_by_unary(*op),
        Expr::Binary(op, left, right) => {
            taken_by_operator(*op, kind_of(source, left), kind_of(source, right))
        }
        Expr::Call(Call::DivideExact, _, _) => {
            "divide with no scale takes a BigDecimal and a CONSTANT, or BigDecimal.valueOf(n) of an int literal, that divides a power of ten; else write the scale and the rounding mode, as in A.divide(B, 2, BigDecimal.ROUND_DOWN)"
        }
        Expr::Call(..) if is_whole_call(source, node) => WHOLE,
        Expr::Call(..) | Expr::Divide(..) => {
            "it takes two values of BigDecimal; write BigDecimal.valueOf(..) round a whole number"
        }
        Expr::SetScale(..) => "setScale takes a BigDecimal",
        Expr::Choose(..) => {
            "it takes a test, and behind ? and : two values of BigDecimal or two whole numbers"
        }
    }
}

fn taken_by_unary(op: Unary) -> &'static str {
    match op {
        Unary::Minus => "- takes an int or a long; of a BigDecimal write A.negate()",
        Unary::Not => "! takes a test",
        Unary::Negate | Unary::Abs => "it takes a BigDecimal",
    }
}

/// Which operands an operator takes, where these are of such kinds.
fn taken_by_operator(
    op: Binary,
    first: Option<NodeKind>,
    second: Option<NodeKind>,
) -> &'static str {
    if is_logical(op) {
        "&& and || take tests on both sides"
    } else if !is_comparison(op)
        && (is_either(NodeKind::Factor, first, second)
            || is_either(NodeKind::Fraction, first, second))
    {
        "the operator takes whole numbers (int, long); a double or a number with a point stands within BigDecimal.valueOf(..)"
    } else if !is_comparison(op) {
        "the operator takes whole numbers (int, long); of values of BigDecimal write A.add(B), subtract, multiply or divide"
    } else if is_either(NodeKind::Truth, first, second) {
        "a comparison takes values and no tests; tests are joined by &&, which is &amp;&amp; in the file, or by ||"
    } else if is_either(NodeKind::Factor, first, second) {
        "a double is compared with a literal of at most three digits after its point"
    } else if is_either(NodeKind::Fraction, first, second) {
        "a number with a point is compared with the name of a double, and an int or a long with a whole number"
    } else {
        "the comparison takes whole numbers (int, long); of values of BigDecimal write A.compareTo(B) and compare that with 0"
    }
}

/// Whether one of two kinds is this.
fn is_either(kind: NodeKind, first: Option<NodeKind>, second: Option<NodeKind>) -> bool {
    first == Some(kind) || second == Some(kind)
}
