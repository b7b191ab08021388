//! The ranges of single operations.
ghost use Rattle.std.specs.Prelude.{◌≡◌, ◌≤◌};
ghost use Rattle.scaled_decimal.specs.Limits.{most_places};
ghost use Rattle.scaled_decimal.specs.WholeNumbers.{int_bits, long_bits};
ghost use Rattle.interval_num.specs.Intervals.{interval, IsWhole, IsWholeOfBits};
ghost use Rattle.interval_num.specs.Rows.{whole_opposite_row};
ghost use Rattle.pap_tree.specs.Term.{Term, term_of, unary};
ghost use Rattle.pap_tree.specs.Shapes.{one_meant, two_meant};
ghost use Rattle.pap_types.specs.Safety.{bits_of};
ghost use Rattle.pap_types.specs.declared.kinds.NodeKind.{NodeKind};
ghost use Rattle.interval_walk.specs.NodeRanges.{read_range, operator_range, one_range, two_range, method_range, shown_range, comparison_range, item_range};
ghost use Rattle.pap_types.specs.private.ScopeViews.{scope_in};
ghost use Rattle.interval_analysis.specs.private.ShapeViews.{TakesOne, TakesTwo};
ghost use Rattle.interval_analysis.specs.private.OperationViews.{TakesWholes, TakesUnary, TakesShown, IsPlainShown, read_fitting};

use crate::names::as_big;
use interval_num::{
    Abs, ItemRanges, RangeCause, abs_abs, abs_add, abs_cmp, abs_div, abs_div_exact, abs_max,
    abs_min, abs_mul, abs_neg, abs_set_scale, abs_sub, int_add, int_div, int_mul, int_neg, int_rem,
    int_sub, long_add, long_div, long_mul, long_neg, long_rem, long_sub,
};
use pap_tree::{Binary, Call, Expr, One, Two, Unary};
use pap_types::{NodeKind, Typed};
use scaled_decimal::{Dec, is_int, is_long};

/// The range of what is read of a kind: that of a whole number has the bits of its kind.
pub(crate) fn read(kind: NodeKind, range: Abs) -> Result<Abs, RangeCause>
    ensures { result ≡ read_range kind range }
{
    match kind {
        NodeKind::Int => read_whole(is_int(range.lo()) && is_int(range.hi()), range),
        NodeKind::Long => read_whole(is_long(range.lo()) && is_long(range.hi()), range),
        _ => read_decimal(range),
    }
}

/// A range whose ends fit or not, which is that of whole numbers.
fn read_whole(fits: bool, range: Abs) -> Result<Abs, RangeCause>
    ensures { result ≡ read_fitting fits range }
{
    if range.s_lo() == 0 && range.s_hi() == 0 && fits {
        Ok(range)
    } else {
        Err(RangeCause::Wide)
    }
}

fn read_decimal(range: Abs) -> Result<Abs, RangeCause>
    ensures { result ≡ read_range NodeKind.Big range }
{
    // For the proof: no scale of a kept range is above 30.
    let _places = range.s_hi();
    Ok(range)
}

/// The range of an operation on one operand, whose result is of a kind.
pub(crate) fn one_range(op: One, kind: NodeKind, operand: &Expr, a: Abs) -> Result<Abs, RangeCause>
    requires { TakesOne op kind a }
    ensures { result ≡ one_range (one_meant op) kind (term_of operand.now) a }
{
    match op {
        One::Unary(op) => unary_range(op, kind, a),
        One::ValueOf => Ok(as_big(operand, a)),
        One::ValueOfScaled(scale) => Ok(at_places(a, scale)),
        One::NewInt => Ok(a),
        One::SetScale(scale, mode) => abs_set_scale(a, scale, mode),
    }
}

/// The range of an operation on two operands, whose result is of a kind.
pub(crate) fn two_range(
    plan: &Typed,
    op: Two,
    kind: NodeKind,
    right: &Expr,
    a: Abs,
    b: Abs,
) -> Result<Abs, RangeCause>
    requires { TakesTwo (scope_in plan.now) op kind (term_of right.now) a b }
    ensures { result ≡ two_range (scope_in plan.now) (two_meant op) kind (term_of right.now) a b }
{
    match op {
        Two::Operator(op) => operator_range(op, kind, a, b),
        Two::Method(call) => call_range(call, plan.shown_divisor(right), a, b),
        Two::Divide(scale, mode) => abs_div(a, b, scale, mode),
    }
}

/// The range of an operation on one operand, whose result is of a kind. A truth has none.
fn unary_range(op: Unary, kind: NodeKind, a: Abs) -> Result<Abs, RangeCause>
    requires { TakesUnary op (bits_of kind) a }
    ensures { (e : Term) → result ≡ one_range (unary op) kind e a }
{
    match op {
        Unary::Minus => whole_opposite(kind, a),
        Unary::Not => Err(RangeCause::Wide),
        Unary::Negate => Ok(abs_neg(a)),
        Unary::Abs => Ok(abs_abs(a)),
    }
}

fn whole_opposite(kind: NodeKind, a: Abs) -> Result<Abs, RangeCause>
    requires { IsWholeOfBits (bits_of kind) a }
    ensures { result ≡ whole_opposite_row (bits_of kind) a }
{
    match kind {
        NodeKind::Long => long_neg(a),
        _ => int_neg(a),
    }
}

/// The range of an operator between whole numbers, whose result is of a kind. A truth has none.
fn operator_range(op: Binary, kind: NodeKind, a: Abs, b: Abs) -> Result<Abs, RangeCause>
    requires { TakesWholes op (bits_of kind) a b }
    ensures { result ≡ operator_range op (bits_of kind) a b }
{
    match kind {
        NodeKind::Long => long_operator(op, a, b),
        _ => int_operator(op, a, b),
    }
}

fn int_operator(op: Binary, a: Abs, b: Abs) -> Result<Abs, RangeCause>
    requires { TakesWholes op int_bits a b }
    ensures { result ≡ operator_range op int_bits a b }
{
    match op {
        Binary::Mul => int_mul(a, b),
        Binary::Div => int_div(a, b),
        Binary::Rem => int_rem(a, b),
        Binary::Plus => int_add(a, b),
        Binary::Sub => int_sub(a, b),
        _ => Err(RangeCause::Wide),
    }
}

fn long_operator(op: Binary, a: Abs, b: Abs) -> Result<Abs, RangeCause>
    requires { TakesWholes op long_bits a b }
    ensures { result ≡ operator_range op long_bits a b }
{
    match op {
        Binary::Mul => long_mul(a, b),
        Binary::Div => long_div(a, b),
        Binary::Rem => long_rem(a, b),
        Binary::Plus => long_add(a, b),
        Binary::Sub => long_sub(a, b),
        _ => Err(RangeCause::Wide),
    }
}

/// The range of a method's result; `shown` is the divisor of `divide(d)` that the text shows.
fn call_range(call: Call, shown: Option<Dec>, a: Abs, b: Abs) -> Result<Abs, RangeCause>
    requires { TakesShown call shown }
    ensures { result ≡ method_range call shown a b }
{
    match call {
        Call::Add => abs_add(a, b),
        Call::Subtract => abs_sub(a, b),
        Call::Multiply => abs_mul(a, b),
        Call::DivideExact => shown_range(shown, a),
        Call::CompareTo => abs_cmp(a, b),
        Call::Min => abs_min(a, b),
        Call::Max => abs_max(a, b),
    }
}

fn shown_range(shown: Option<Dec>, a: Abs) -> Result<Abs, RangeCause>
    requires { IsPlainShown shown }
    ensures { result ≡ shown_range shown a }
{
    match shown {
        Some(divisor) => abs_div_exact(a, divisor.numerator()),
        None => Err(RangeCause::Divisor),
    }
}

/// The node of a comparison, whose sides are aligned. No other operator is one.
pub(crate) fn comparison_range(op: Binary, a: Abs, b: Abs) -> Result<Abs, RangeCause>
    ensures { result ≡ comparison_range op a b }
{
    match op {
        Binary::Less
        | Binary::LessEq
        | Binary::More
        | Binary::MoreEq
        | Binary::Same
        | Binary::Differs => abs_cmp(a, b),
        Binary::Mul
        | Binary::Div
        | Binary::Rem
        | Binary::Plus
        | Binary::Sub
        | Binary::And
        | Binary::Or => Err(RangeCause::Wide),
    }
}

/// The range of the items of a table that an index may choose.
pub(crate) fn item_range(items: &ItemRanges, index: Abs) -> Result<Abs, RangeCause>
    requires { IsWhole index }
    ensures { result ≡ item_range items.now index }
{
    match items.chosen_by(index) {
        Ok(range) => read(NodeKind::Big, range),
        Err(cause) => Err(cause),
    }
}

/// The range with its ends as numerators at another scale.
fn at_places(range: Abs, scale: u8) -> Abs
    requires { scale ≤ most_places }
    ensures { result ≡ interval range.lo range.hi scale scale }
{
    Abs::new(range.lo(), range.hi(), scale, scale)
}
