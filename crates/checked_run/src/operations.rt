//! The values of single operations, or why they fail.
ghost use Rattle.std.specs.Prelude.{◌≡◌, ◌≢◌, pos};
ghost use Rattle.scaled_decimal.specs.Decimals.{numerator_of};
ghost use Rattle.scaled_decimal.specs.ExactQuotients.{IsPlainDivisor};
ghost use Rattle.scaled_decimal.specs.WholeNumbers.{whole_sum, whole_difference, whole_quotient, whole_remainder};
ghost use Rattle.pap_tree.specs.Scales.{OneKeepsScale, TwoKeepsScale};
ghost use Rattle.pap_tree.specs.Shapes.{one_meant, two_meant};
ghost use Rattle.pap_tree.specs.Term.{Term, term_of, unary, set_scale, operator, method, divide};
ghost use Rattle.pap_types.specs.Safety.{bits_of};
ghost use Rattle.checked_run.specs.private.OperationViews.{WholeAnswer, OneAnswer, TwoAnswer, IsComparison, IsOrdering};
ghost use Rattle.run_values.specs.private.OperationViews.{IsPlainFor, IsPlainForTwo};

use crate::FailureCause;
use crate::fits::{
    comparison_fits, difference_fits, exact_quotient_fits, is_of_kind, places_of, product_of,
    quotient_fits, rescale_fits, sum_fits,
};
use pap_tree::{Binary, Call, Expr, One, Two, Unary};
use pap_types::NodeKind;
use run_values::{as_big, holds, is_zero, truth};
use scaled_decimal::{Dec, MOST_PLACES, Mode};

/// A whole number of a kind.
fn whole(kind: NodeKind, n: i128) -> Result<Dec, FailureCause>
    ensures { WholeAnswer (bits_of kind) n result }
{
    if is_of_kind(kind, n) {
        Ok(Dec::new(n, 0))
    } else {
        Err(FailureCause::Wide)
    }
}

/// What is done with one operand, where the result is of a kind.
pub(crate) fn one_value(
    op: One,
    kind: NodeKind,
    operand: &Expr,
    a: Dec,
) -> Result<Dec, FailureCause>
    requires { OneKeepsScale (one_meant op) }
    ensures { OneAnswer (one_meant op) kind (term_of operand.now) a result }
{
    match op {
        One::Unary(op) => unary_value(op, kind, a),
        One::ValueOf => Ok(as_big(operand, a)),
        One::ValueOfScaled(scale) => Ok(Dec::new(a.numerator(), scale)),
        One::NewInt => Ok(a),
        One::SetScale(scale, mode) => rescaled(a, scale, mode),
    }
}

/// An operation on one operand.
fn unary_value(op: Unary, kind: NodeKind, a: Dec) -> Result<Dec, FailureCause>
    ensures { (t : Term) → OneAnswer (unary op) kind t a result }
{
    match op {
        Unary::Minus => whole(kind, -a.numerator()),
        Unary::Not => Ok(truth(is_zero(a))),
        Unary::Negate => Ok(a.neg()),
        Unary::Abs => Ok(a.abs()),
    }
}

/// The value at another scale.
fn rescaled(a: Dec, scale: u8, mode: Mode) -> Result<Dec, FailureCause>
    requires { OneKeepsScale (set_scale scale mode) }
    ensures { (kind : NodeKind) (t : Term) → OneAnswer (set_scale scale mode) kind t a result }
{
    if rescale_fits(a, scale) {
        Ok(run_values::rescaled(a, scale, mode))
    } else {
        Err(FailureCause::Wide)
    }
}

/// What is done with two operands, where the result is of a kind.
pub(crate) fn two_value(op: Two, kind: NodeKind, a: Dec, b: Dec) -> Result<Dec, FailureCause>
    requires scale { TwoKeepsScale (two_meant op) }
    requires plain { IsPlainForTwo (two_meant op) b }
    ensures { TwoAnswer (two_meant op) kind a b result }
{
    match op {
        Two::Operator(op) => operator_value(op, kind, a, b),
        Two::Method(call) => method_value(call, a, b),
        Two::Divide(scale, mode) => quotient(a, b, scale, mode),
    }
}

/// An operator between its operands.
fn operator_value(op: Binary, kind: NodeKind, a: Dec, b: Dec) -> Result<Dec, FailureCause>
    ensures { TwoAnswer (operator op) kind a b result }
{
    match op {
        Binary::Mul => whole_product(kind, a, b),
        Binary::Div => whole_quotient(kind, a, b),
        Binary::Rem => whole_remainder(kind, a, b),
        Binary::Plus => whole_sum(kind, a, b),
        Binary::Sub => whole_difference(kind, a, b),
        Binary::And | Binary::Or => Ok(b),
        Binary::Less
        | Binary::LessEq
        | Binary::More
        | Binary::MoreEq
        | Binary::Same
        | Binary::Differs => compared(op, a, b),
    }
}

/// The sum of whole numbers.
fn whole_sum(kind: NodeKind, a: Dec, b: Dec) -> Result<Dec, FailureCause>
    ensures { TwoAnswer (operator Binary.Plus) kind a b result }
{
    whole(kind, sum_of(a, b))
}

/// The difference of whole numbers.
fn whole_difference(kind: NodeKind, a: Dec, b: Dec) -> Result<Dec, FailureCause>
    ensures { TwoAnswer (operator Binary.Sub) kind a b result }
{
    whole(kind, difference_of(a, b))
}

/// The product of whole numbers.
fn whole_product(kind: NodeKind, a: Dec, b: Dec) -> Result<Dec, FailureCause>
    ensures { TwoAnswer (operator Binary.Mul) kind a b result }
{
    match product_of(a.numerator(), b.numerator()) {
        Some(product) => whole(kind, product),
        None => Err(FailureCause::Wide),
    }
}

/// The quotient of whole numbers, cut towards zero.
fn whole_quotient(kind: NodeKind, a: Dec, b: Dec) -> Result<Dec, FailureCause>
    ensures { TwoAnswer (operator Binary.Div) kind a b result }
{
    if is_zero(b) {
        return Err(FailureCause::Divisor);
    }
    whole(kind, quotient_of(a, b))
}

/// What that quotient leaves.
fn whole_remainder(kind: NodeKind, a: Dec, b: Dec) -> Result<Dec, FailureCause>
    ensures { TwoAnswer (operator Binary.Rem) kind a b result }
{
    if is_zero(b) {
        return Err(FailureCause::Divisor);
    }
    whole(kind, remainder_of(a, b))
}

/// A whole number and another one.
fn sum_of(a: Dec, b: Dec) -> i128
    ensures { result ≡ whole_sum (numerator_of a) (numerator_of b) }
{
    a.numerator() + b.numerator()
}

/// A whole number less another one.
fn difference_of(a: Dec, b: Dec) -> i128
    ensures { result ≡ whole_difference (numerator_of a) (numerator_of b) }
{
    a.numerator() - b.numerator()
}

/// A whole number by another one, cut towards zero.
fn quotient_of(a: Dec, b: Dec) -> i128
    requires { numerator_of b ≢ pos 0 }
    ensures { result ≡ whole_quotient (numerator_of a) (numerator_of b) }
{
    a.numerator() / b.numerator()
}

/// What that quotient leaves.
fn remainder_of(a: Dec, b: Dec) -> i128
    requires { numerator_of b ≢ pos 0 }
    ensures { result ≡ whole_remainder (numerator_of a) (numerator_of b) }
{
    a.numerator() % b.numerator()
}

/// A comparison, as a truth. No other operator is one.
fn compared(op: Binary, a: Dec, b: Dec) -> Result<Dec, FailureCause>
    requires { IsComparison op }
    ensures { (kind : NodeKind) → TwoAnswer (operator op) kind a b result }
{
    if comparison_fits(a, b) {
        Ok(truth(holds(op, a.compare(b))))
    } else {
        Err(FailureCause::Wide)
    }
}

/// A method of a decimal with one argument.
fn method_value(call: Call, a: Dec, b: Dec) -> Result<Dec, FailureCause>
    requires { IsPlainFor call b }
    ensures { (kind : NodeKind) → TwoAnswer (method call) kind a b result }
{
    match call {
        Call::Add => sum(a, b),
        Call::Subtract => difference(a, b),
        Call::Multiply => product(a, b),
        Call::DivideExact => exact_quotient(a, b),
        Call::CompareTo | Call::Min | Call::Max => chosen(call, a, b),
    }
}

/// The sum.
fn sum(a: Dec, b: Dec) -> Result<Dec, FailureCause>
    ensures { (kind : NodeKind) → TwoAnswer (method Call.Add) kind a b result }
{
    if sum_fits(a, b) {
        Ok(a.add(b))
    } else {
        Err(FailureCause::Wide)
    }
}

/// The difference.
fn difference(a: Dec, b: Dec) -> Result<Dec, FailureCause>
    ensures { (kind : NodeKind) → TwoAnswer (method Call.Subtract) kind a b result }
{
    if difference_fits(a, b) {
        Ok(a.sub(b))
    } else {
        Err(FailureCause::Wide)
    }
}

/// The product.
fn product(a: Dec, b: Dec) -> Result<Dec, FailureCause>
    ensures { (kind : NodeKind) → TwoAnswer (method Call.Multiply) kind a b result }
{
    if a.scale() + b.scale() > MOST_PLACES {
        return Err(FailureCause::Scale);
    }
    if product_of(a.numerator(), b.numerator()).is_none() {
        return Err(FailureCause::Wide);
    }
    Ok(a.mul(b))
}

/// The exact quotient by a plain divisor.
fn exact_quotient(a: Dec, b: Dec) -> Result<Dec, FailureCause>
    requires { IsPlainDivisor (numerator_of b) }
    ensures { (kind : NodeKind) → TwoAnswer (method Call.DivideExact) kind a b result }
{
    let places = places_of(b);
    if a.scale() + places > MOST_PLACES {
        return Err(FailureCause::Scale);
    }
    if exact_quotient_fits(a, b, places) {
        Ok(run_values::exact_quotient(a, b))
    } else {
        Err(FailureCause::Wide)
    }
}

/// The order of two decimals as a number, or the lesser or the greater one.
fn chosen(call: Call, a: Dec, b: Dec) -> Result<Dec, FailureCause>
    requires { IsOrdering call }
    ensures { (kind : NodeKind) → TwoAnswer (method call) kind a b result }
{
    if !comparison_fits(a, b) {
        return Err(FailureCause::Wide);
    }
    match call {
        Call::Min => Ok(a.min(b)),
        Call::Max => Ok(a.max(b)),
        _ => Ok(Dec::new(a.cmp_value(b) as i128, 0)),
    }
}

/// A quotient with a scale.
fn quotient(a: Dec, b: Dec, scale: u8, mode: Mode) -> Result<Dec, FailureCause>
    requires { TwoKeepsScale (divide scale mode) }
    ensures { (kind : NodeKind) → TwoAnswer (divide scale mode) kind a b result }
{
    if is_zero(b) {
        return Err(FailureCause::Divisor);
    }
    if quotient_fits(a, b, scale) {
        Ok(run_values::quotient(a, b, scale, mode))
    } else {
        Err(FailureCause::Wide)
    }
}
