//! The values of single operations.
ghost use Rattle.std.specs.Prelude.{◌≡◌, ◌≢◌, Some, pos};
ghost use Rattle.scaled_decimal.specs.Decimals.{numerator_of};
ghost use Rattle.scaled_decimal.specs.WholeNumbers.{IsOfBits, long_bits, whole_quotient, whole_remainder, whole_difference, whole_decimal, of_wholes};
ghost use Rattle.pap_tree.specs.Shapes.{one_meant, two_meant};
ghost use Rattle.pap_tree.specs.Term.{Term, term_of, unary, operator, method, divide};
ghost use Rattle.pap_types.specs.Operations.{of_one, of_operator, of_method, of_two};
ghost use Rattle.month_trace.specs.private.OperationViews.{CanTakeOne, CanTakeTwo};

use pap_tree::{Binary, Call, Expr, One, Two, Unary};
use run_values::{as_big, exact_quotient, holds, is_zero, rescaled, truth};
use scaled_decimal::{Dec, Mode};

/// A whole number.
fn whole(number: i128) -> Dec
    requires { IsOfBits long_bits number }
    ensures { result ≡ whole_decimal number }
{
    Dec::new(number, 0)
}

/// What is done with one operand.
pub(crate) fn one_value(op: One, operand: &Expr, a: Dec) -> Dec
    requires { CanTakeOne (one_meant op) a }
    ensures { result ≡ of_one (one_meant op) (term_of operand.now) a }
{
    match op {
        One::Unary(op) => unary_value(op, a),
        One::ValueOf => as_big(operand, a),
        One::ValueOfScaled(scale) => Dec::new(a.numerator(), scale),
        One::NewInt => a,
        One::SetScale(scale, mode) => rescaled(a, scale, mode),
    }
}

/// An operation on one operand.
fn unary_value(op: Unary, a: Dec) -> Dec
    requires { CanTakeOne (unary op) a }
    ensures { (e : Term) → result ≡ of_one (unary op) e a }
{
    match op {
        Unary::Minus => whole(-a.numerator()),
        Unary::Not => truth(is_zero(a)),
        Unary::Negate => a.neg(),
        Unary::Abs => a.abs(),
    }
}

/// What is done with two operands.
pub(crate) fn two_value(op: Two, a: Dec, b: Dec) -> Dec
    requires { CanTakeTwo (two_meant op) a b }
    ensures { of_two (two_meant op) a b ≡ Some result }
{
    match op {
        Two::Operator(op) => operator_value(op, a, b),
        Two::Method(call) => method_value(call, a, b),
        Two::Divide(scale, mode) => quotient(a, b, scale, mode),
    }
}

/// The quotient of whole numbers, cut towards zero.
fn whole_quotient(a: Dec, b: Dec) -> Dec
    requires not_zero { numerator_of b ≢ pos 0 }
    requires fits { IsOfBits long_bits (whole_quotient (numerator_of a) (numerator_of b)) }
    ensures { result ≡ of_wholes whole_quotient a b }
{
    whole(a.numerator() / b.numerator())
}

/// What that quotient leaves.
fn whole_remainder(a: Dec, b: Dec) -> Dec
    requires not_zero { numerator_of b ≢ pos 0 }
    requires fits { IsOfBits long_bits (whole_remainder (numerator_of a) (numerator_of b)) }
    ensures { result ≡ of_wholes whole_remainder a b }
{
    whole(a.numerator() % b.numerator())
}

/// The difference of whole numbers.
fn whole_difference(a: Dec, b: Dec) -> Dec
    requires { IsOfBits long_bits (whole_difference (numerator_of a) (numerator_of b)) }
    ensures { result ≡ of_wholes whole_difference a b }
{
    whole(a.numerator() - b.numerator())
}

/// An operator between its operands.
fn operator_value(op: Binary, a: Dec, b: Dec) -> Dec
    requires { CanTakeTwo (operator op) a b }
    ensures { of_operator op a b ≡ Some result }
{
    match op {
        Binary::Mul => whole(a.numerator() * b.numerator()),
        Binary::Div => whole_quotient(a, b),
        Binary::Rem => whole_remainder(a, b),
        Binary::Plus => whole(a.numerator() + b.numerator()),
        Binary::Sub => whole_difference(a, b),
        Binary::And | Binary::Or => b,
        Binary::Less
        | Binary::LessEq
        | Binary::More
        | Binary::MoreEq
        | Binary::Same
        | Binary::Differs => truth(holds(op, a.compare(b))),
    }
}

/// A method of a decimal with one argument.
fn method_value(call: Call, a: Dec, b: Dec) -> Dec
    requires { CanTakeTwo (method call) a b }
    ensures { of_method call a b ≡ Some result }
{
    match call {
        Call::Add => a.add(b),
        Call::Subtract => a.sub(b),
        Call::Multiply => a.mul(b),
        Call::DivideExact => exact_quotient(a, b),
        Call::CompareTo => whole(a.cmp_value(b) as i128),
        Call::Min => a.min(b),
        Call::Max => a.max(b),
    }
}

/// A quotient with a scale.
fn quotient(a: Dec, b: Dec, scale: u8, mode: Mode) -> Dec
    requires { CanTakeTwo (divide scale mode) a b }
    ensures { of_two (divide scale mode) a b ≡ Some result }
{
    run_values::quotient(a, b, scale, mode)
}
