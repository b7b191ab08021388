//! Operations on values that fit.
ghost use Rattle.std.specs.Prelude.{◌≡◌, ◌≢◌, MatchOption, Some, None, pos};
ghost use Rattle.scaled_decimal.specs.Decimals.{numerator_of};
ghost use Rattle.scaled_decimal.specs.ExactQuotients.{IsPlainDivisor};
ghost use Rattle.scaled_decimal.specs.RoundedDecimals.{rescaled, quotient};
ghost use Rattle.scaled_decimal.specs.ShortenedDecimals.{exact_quotient};
ghost use Rattle.scaled_decimal.specs.WholeNumbers.{truth, item_at};
ghost use Rattle.scaled_decimal.specs.WorkingNumbers.{RescaleFits, QuotientFits, ExactQuotientFits};
ghost use Rattle.pap_tree.specs.Shapes.{two_meant};
ghost use Rattle.pap_tree.specs.Term.{term_of};
ghost use Rattle.pap_types.specs.Operations.{as_big, is_zero, holds_of};
ghost use Rattle.pap_types.specs.Values.{goes_right};

use pap_tree::{Binary, Expr, Two};
use pap_types::shortened;
use scaled_decimal::{Dec, Mode};
use std::cmp::Ordering;

/// A truth, which is 1 or 0.
pub fn truth(holds: bool) -> Dec
    ensures { result ≡ truth holds }
{
    Dec::new(holds as i128, 0)
}

/// Whether a value is zero, as a truth that doesn't hold.
pub fn is_zero(a: Dec) -> bool
    ensures { result ≡ is_zero a }
{
    a.numerator() == 0
}

/// Whether the right operand is evaluated, given the value of the left one.
pub fn goes_right(op: Two, left: Dec) -> bool
    ensures { result ≡ goes_right (two_meant op) left }
{
    match op {
        Two::Operator(Binary::And) => !is_zero(left),
        Two::Operator(Binary::Or) => is_zero(left),
        Two::Operator(_) | Two::Method(_) | Two::Divide(_, _) => true,
    }
}

/// An item of a table, where the index is within it.
pub fn item(items: &[Dec], index: Dec) -> Option<Dec>
    ensures { MatchOption result (item_at items.now (numerator_of index) ≡ None)
        (λ v. item_at items.now (numerator_of index) ≡ Some v) }
{
    match usize::try_from(index.numerator()) {
        Ok(number) => items.get(number).copied(),
        Err(_) => None,
    }
}

/// `BigDecimal.valueOf`: a literal with a point loses the zeros that end it but for one place, any other value is kept.
pub fn as_big(operand: &Expr, a: Dec) -> Dec
    ensures { result ≡ as_big (term_of operand.now) a }
{
    match operand {
        Expr::Point(number) => shortened(*number),
        _ => a,
    }
}

/// Whether a comparison holds of two values in this order. No other operator is one.
pub fn holds(op: Binary, order: Ordering) -> bool
    ensures { result ≡ holds_of op order }
{
    match op {
        Binary::Less => order.is_lt(),
        Binary::LessEq => order.is_le(),
        Binary::More => order.is_gt(),
        Binary::MoreEq => order.is_ge(),
        Binary::Same => order.is_eq(),
        Binary::Differs => order.is_ne(),
        _ => false,
    }
}

/// The value at another scale.
pub fn rescaled(a: Dec, scale: u8, mode: Mode) -> Dec
    requires { RescaleFits mode a scale }
    ensures { result ≡ rescaled mode scale a }
{
    a.set_scale(scale, mode)
}

/// The quotient with a scale.
pub fn quotient(a: Dec, b: Dec, scale: u8, mode: Mode) -> Dec
    requires not_zero { numerator_of b ≢ pos 0 }
    requires fits { QuotientFits mode a b scale }
    ensures { result ≡ quotient mode scale a b }
{
    a.div(b, scale, mode)
}

/// The exact quotient by a plain divisor.
pub fn exact_quotient(a: Dec, b: Dec) -> Dec
    requires plain { IsPlainDivisor (numerator_of b) }
    requires fits { ExactQuotientFits a (numerator_of b) }
    ensures { result ≡ exact_quotient a (numerator_of b) }
{
    a.div_exact(b.numerator())
}
