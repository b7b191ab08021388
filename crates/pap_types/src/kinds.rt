//! The kinds of an expression's nodes, and which operands each operation takes.
ghost use Rattle.std.specs.Prelude.{◌≡◌, ◌&&◌};
ghost use Rattle.pap_tree.specs.Shapes.{one_meant, two_meant};
ghost use Rattle.pap_tree.specs.Term.{term_of, unary, method};
ghost use Rattle.pap_types.specs.Kinds.{declared_kind, wider, kind_of_one, kind_of_operator, kind_of_two, is_int, is_big, is_truth, is_table, is_whole, is_convertible, has_few_places, is_factor_literal, takes_one, takes_operator, are_comparable, are_parts, suits};

use crate::literals::FACTOR_PLACES;
use pap_tree::{Binary, Call, Expr, Kind, One, Two, Unary, is_kept_at};
use scaled_decimal::Dec;

/// The kind of a node: what its value is, or how its name or literal may be used (docs/PROFILE.md, "Kinds").
#[derive(Clone, Copy, Debug, PartialEq, Eq)]
pub enum NodeKind {
    /// A whole number of 32 bits.
    Int,
    /// A whole number of 64 bits.
    Long,
    /// A decimal.
    Big,
    /// A truth.
    Truth,
    /// A literal with a point.
    Fraction,
    /// The name of a `double`.
    Factor,
    /// The name of a table.
    Table,
}

impl NodeKind {
    /// The kind of a declared name.
    pub fn of_declared(kind: Kind) -> NodeKind
        ensures { result ≡ declared_kind kind }
    {
        match kind {
            Kind::Int => NodeKind::Int,
            Kind::Long => NodeKind::Long,
            Kind::Big => NodeKind::Big,
            Kind::Factor => NodeKind::Factor,
            Kind::Table => NodeKind::Table,
        }
    }

    /// Whether it is a whole number's.
    pub fn is_whole(self) -> bool
        ensures { result ≡ is_whole self }
    {
        matches!(self, NodeKind::Int | NodeKind::Long)
    }

    /// Whether it is that of a whole number of 32 bits.
    pub fn is_int(self) -> bool
        ensures { result ≡ is_int self }
    {
        self == NodeKind::Int
    }

    /// Whether it is a decimal's.
    pub fn is_big(self) -> bool
        ensures { result ≡ is_big self }
    {
        self == NodeKind::Big
    }

    /// Whether both are a decimal's.
    pub fn are_big(self, other: NodeKind) -> bool
        ensures { result ≡ (is_big self && is_big other) }
    {
        self.is_big() && other.is_big()
    }

    /// Whether it is a truth's.
    pub fn is_truth(self) -> bool
        ensures { result ≡ is_truth self }
    {
        self == NodeKind::Truth
    }

    /// Whether it is that of a table's name.
    pub fn is_table(self) -> bool
        ensures { result ≡ is_table self }
    {
        self == NodeKind::Table
    }

    /// Whether it is a table's, of which an index of a kind names an item.
    pub fn takes_index(self, index: NodeKind) -> bool
        ensures { result ≡ (is_table self && is_int index) }
    {
        self.is_table() && index.is_int()
    }

    /// Whether it is a truth's, which chooses between parts of two kinds.
    pub fn takes_parts(self, first: NodeKind, second: NodeKind) -> bool
        ensures { result ≡ (is_truth self && are_parts first second) }
    {
        self.is_truth() && first.are_parts(second)
    }

    /// Whether `BigDecimal.valueOf` takes it.
    pub fn is_convertible(self) -> bool
        ensures { result ≡ is_convertible self }
    {
        self.is_whole() || self == NodeKind::Factor || self == NodeKind::Fraction
    }

    /// The kind of what comes of two: `long` where the second is, else that of the first; so of two whole numbers `int`
    /// where both are, and of two decimals a decimal.
    pub fn wider(self, other: NodeKind) -> NodeKind
        ensures { result ≡ wider self other }
    {
        if other == NodeKind::Long { other } else { self }
    }

    /// Whether the parts of a conditional may have these kinds: both decimals, or both whole numbers.
    pub fn are_parts(self, other: NodeKind) -> bool
        ensures { result ≡ are_parts self other }
    {
        self.are_big(other) || (self.is_whole() && other.is_whole())
    }
}

/// Whether an operation takes an operand of a kind.
pub(crate) fn takes_unary(op: Unary, kind: NodeKind) -> bool
    ensures { result ≡ takes_one (unary op) kind }
{
    match op {
        Unary::Minus => kind.is_whole(),
        Unary::Not => kind.is_truth(),
        Unary::Negate | Unary::Abs => kind.is_big(),
    }
}

/// The kind of an operation on an operand of a kind.
pub fn kind_of_unary(op: Unary, kind: NodeKind) -> NodeKind
    ensures { result ≡ kind_of_one (unary op) kind }
{
    match op {
        Unary::Minus => kind,
        Unary::Not => NodeKind::Truth,
        Unary::Negate | Unary::Abs => NodeKind::Big,
    }
}

/// The kind of an operator between operands of two kinds.
pub fn kind_of_operator(op: Binary, left: NodeKind, right: NodeKind) -> NodeKind
    ensures { result ≡ kind_of_operator op left right }
{
    match op {
        Binary::Mul | Binary::Div | Binary::Rem | Binary::Plus | Binary::Sub => left.wider(right),
        _ => NodeKind::Truth,
    }
}

/// The kind of a method's result.
pub fn kind_of_call(call: Call) -> NodeKind
    ensures { (left right : NodeKind) → result ≡ kind_of_two (method call) left right }
{
    match call {
        Call::CompareTo => NodeKind::Int,
        _ => NodeKind::Big,
    }
}

/// Whether an operator takes its operands.
pub(crate) fn takes_operator(
    op: Binary,
    left: &Expr,
    left_kind: NodeKind,
    right: &Expr,
    right_kind: NodeKind,
) -> bool
    ensures { result
        ≡ takes_operator op (term_of left.now) left_kind (term_of right.now) right_kind }
{
    match op {
        Binary::And | Binary::Or => left_kind.is_truth() && right_kind.is_truth(),
        Binary::Mul | Binary::Div | Binary::Rem | Binary::Plus | Binary::Sub => {
            left_kind.is_whole() && right_kind.is_whole()
        }
        _ => are_comparable(left, left_kind, right, right_kind),
    }
}

/// Whole numbers are compared with whole numbers, and the name of a `double` with a literal.
fn are_comparable(left: &Expr, left_kind: NodeKind, right: &Expr, right_kind: NodeKind) -> bool
    ensures { result ≡ are_comparable (term_of left.now) left_kind (term_of right.now) right_kind }
{
    (left_kind.is_whole() && right_kind.is_whole())
        || (left_kind == NodeKind::Factor && is_factor_literal(right))
        || (is_factor_literal(left) && right_kind == NodeKind::Factor)
}

/// Whether an expression is a literal that may go to a `double` or be compared with one: an `int`, or a literal with a
/// point of at most three places.
fn is_factor_literal(e: &Expr) -> bool
    ensures { result ≡ is_factor_literal (term_of e.now) }
{
    match e {
        Expr::Int(_) => true,
        Expr::Point(number) => has_few_places(*number),
        _ => false,
    }
}

/// Whether a decimal has at most three places, and at three places a numerator within 10^37.
pub fn has_few_places(number: Dec) -> bool
    ensures { result ≡ has_few_places number }
{
    is_kept_at(number, FACTOR_PLACES)
}

/// Whether a variable of a type may get the value of an expression of a kind.
pub(crate) fn suits(target: Kind, e: &Expr, kind: NodeKind) -> bool
    ensures { result ≡ suits target (term_of e.now) kind }
{
    match target {
        Kind::Int => kind.is_int(),
        Kind::Long => kind.is_whole(),
        Kind::Big => kind.is_big(),
        Kind::Factor => is_factor_literal(e),
        Kind::Table => false,
    }
}

/// The kind of what is done with an operand of a kind.
pub fn kind_of_one(op: One, kind: NodeKind) -> NodeKind
    ensures { result ≡ kind_of_one (one_meant op) kind }
{
    match op {
        One::Unary(op) => kind_of_unary(op, kind),
        One::ValueOf | One::ValueOfScaled(_) | One::NewInt | One::SetScale(_, _) => NodeKind::Big,
    }
}

/// The same of two operands.
pub fn kind_of_two(op: Two, left: NodeKind, right: NodeKind) -> NodeKind
    ensures { result ≡ kind_of_two (two_meant op) left right }
{
    match op {
        Two::Operator(op) => kind_of_operator(op, left, right),
        Two::Method(call) => kind_of_call(call),
        Two::Divide(_, _) => NodeKind::Big,
    }
}
