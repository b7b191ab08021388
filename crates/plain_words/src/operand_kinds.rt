//! The kinds of expressions, and which nodes take their operands.
use crate::sites::{Source, declaration_of};
use pap_tree::{Binary, Call, Expr, Name, One, Two, Unary};
use pap_types::{NodeKind, has_few_places, kind_of_one, kind_of_two};

/// The kind of an expression whose nodes take their operands. `None` where a name in it isn't declared.
pub(crate) fn kind_of(source: Source<'_>, node: &Expr) -> Option<NodeKind> {
    match node {
        Expr::Int(_) => Some(NodeKind::Int),
        Expr::Long(_) => Some(NodeKind::Long),
        Expr::Point(_) => Some(NodeKind::Fraction),
        Expr::Var(name) => kind_of_name(source, name),
        Expr::Unary(op, operand) => {
            let kind = kind_of(source, operand)?;
            Some(kind_of_one(One::Unary(*op), kind))
        }
        Expr::Binary(op, left, right) => {
            let first = kind_of(source, left)?;
            let second = kind_of(source, right)?;
            Some(kind_of_two(Two::Operator(*op), first, second))
        }
        Expr::Choose(_, left, right) => {
            let first = kind_of(source, left)?;
            let second = kind_of(source, right)?;
            Some(first.wider(second))
        }
        Expr::Call(Call::CompareTo, _, _) => Some(NodeKind::Int),
        _ => Some(NodeKind::Big),
    }
}

/// The kind of a declared name.
pub(crate) fn kind_of_name(source: Source<'_>, name: &Name) -> Option<NodeKind> {
    let site = declaration_of(source, name)?;
    Some(NodeKind::of_declared(site.declared.kind))
}

/// Whether a node takes its operands. That of a `divide` with no scale isn't known.
pub(crate) fn takes_operands(source: Source<'_>, node: &Expr) -> bool {
    match node {
        Expr::Int(_)
        | Expr::Long(_)
        | Expr::Point(_)
        | Expr::Text(_)
        | Expr::Known(_)
        | Expr::Var(_) => true,
        Expr::Item(table, index) => {
            kind_of_name(source, table) == Some(NodeKind::Table)
                && kind_of(source, index) == Some(NodeKind::Int)
        }
        Expr::ValueOf(operand) => is_convertible(kind_of(source, operand)),
        Expr::ValueOfScaled(operand, _)
        | Expr::NewInt(operand)
        | Expr::Unary(Unary::Minus, operand) => is_whole(kind_of(source, operand)),
        Expr::Unary(Unary::Not, operand) => kind_of(source, operand) == Some(NodeKind::Truth),
        Expr::Unary(Unary::Negate | Unary::Abs, operand) | Expr::SetScale(operand, _, _) => {
            is_big(kind_of(source, operand))
        }
        Expr::Binary(op, left, right) => takes_operator(source, *op, left, right),
        Expr::Call(Call::DivideExact, _, _) => false,
        Expr::Call(_, left, right) | Expr::Divide(left, right, _, _) => {
            is_big(kind_of(source, left)) && is_big(kind_of(source, right))
        }
        Expr::Choose(test, left, right) => {
            kind_of(source, test) == Some(NodeKind::Truth)
                && are_parts(kind_of(source, left), kind_of(source, right))
        }
    }
}

/// Whether an operator takes its operands.
fn takes_operator(source: Source<'_>, op: Binary, left: &Expr, right: &Expr) -> bool {
    let first = kind_of(source, left);
    let second = kind_of(source, right);
    if is_logical(op) {
        return first == Some(NodeKind::Truth) && second == Some(NodeKind::Truth);
    }
    if is_whole(first) && is_whole(second) {
        return true;
    }
    is_comparison(op)
        && (first == Some(NodeKind::Factor) && is_short(right)
            || second == Some(NodeKind::Factor) && is_short(left))
}

/// Whether an expression is a literal with which a `double` is compared.
fn is_short(node: &Expr) -> bool {
    match node {
        Expr::Int(_) => true,
        Expr::Point(number) => has_few_places(*number),
        _ => false,
    }
}

/// Whether an operator joins two tests.
pub(crate) fn is_logical(op: Binary) -> bool {
    matches!(op, Binary::And | Binary::Or)
}

/// Whether an operator compares two values.
pub(crate) fn is_comparison(op: Binary) -> bool {
    matches!(
        op,
        Binary::Less
            | Binary::LessEq
            | Binary::More
            | Binary::MoreEq
            | Binary::Same
            | Binary::Differs
    )
}

/// Whether the values of a conditional go together: two decimals or two whole numbers.
pub(crate) fn are_parts(first: Option<NodeKind>, second: Option<NodeKind>) -> bool {
    is_big(first) && is_big(second) || is_whole(first) && is_whole(second)
}

/// Whether a kind is a decimal's.
pub(crate) fn is_big(kind: Option<NodeKind>) -> bool {
    kind == Some(NodeKind::Big)
}

/// Whether a kind is a whole number's.
pub(crate) fn is_whole(kind: Option<NodeKind>) -> bool {
    match kind {
        Some(kind) => kind.is_whole(),
        None => false,
    }
}

/// Whether `BigDecimal.valueOf` takes a kind.
pub(crate) fn is_convertible(kind: Option<NodeKind>) -> bool {
    match kind {
        Some(kind) => kind.is_convertible(),
        None => false,
    }
}

/// What a kind is called.
pub(crate) fn kind_words(kind: NodeKind) -> &'static str {
    match kind {
        NodeKind::Int => "an int",
        NodeKind::Long => "a long",
        NodeKind::Big => "a BigDecimal",
        NodeKind::Truth => "a test",
        NodeKind::Fraction => "a number with a point",
        NodeKind::Factor => "a double",
        NodeKind::Table => "a table",
    }
}
