//! What literals stand for: what a declared name begins with, and what a `double` and `valueOf` make of a decimal.
ghost use Rattle.std.specs.Prelude.{◌≡◌, IsTrue};
ghost use Rattle.scaled_decimal.specs.Decimals.{decimal};
ghost use Rattle.scaled_decimal.specs.ShortenedDecimals.{shortened};
ghost use Rattle.pap_tree.specs.Declarations.{declaration_of};
ghost use Rattle.pap_types.specs.Scopes.{first_value, declared_table, kept_as, at_factor_scale};
ghost use Rattle.pap_types.specs.Operations.{fewest_places};
ghost use Rattle.pap_types.specs.Kinds.{has_few_places};
ghost use Rattle.pap_types.specs.Typing.{HasItsType};

use pap_tree::{Declared, Kind, Literal};
use scaled_decimal::Dec;

/// The places that a `double` is kept with.
pub const FACTOR_PLACES: u8 = 3;

/// The fewest places that `valueOf` of a literal with a point keeps.
const FEWEST_PLACES: u8 = 1;

/// What a declared name begins with: its written value or zero, that of a `double` with three places. A table has zero.
pub fn first_value(declared: &Declared) -> Dec
    requires { HasItsType (declaration_of declared.now) }
    ensures { result ≡ first_value (declaration_of declared.now) }
{
    match &declared.value {
        Some(Literal::Int(number)) => whole_value(declared.kind, *number),
        Some(Literal::Long(number)) => Dec::new(*number as i128, 0),
        Some(Literal::Point(number)) => at_factor_scale(*number),
        Some(Literal::Big(number)) => *number,
        Some(Literal::Table(_)) => Dec::new(0, 0),
        None => whole_value(declared.kind, 0),
    }
}

/// A whole number as a name of a type keeps it.
fn whole_value(kind: Kind, number: i32) -> Dec
    ensures { result ≡ kept_as kind (decimal number 0) }
{
    match kind {
        Kind::Factor => at_factor_scale(Dec::new(number as i128, 0)),
        _ => Dec::new(number as i128, 0),
    }
}

/// The items of a declared table; a name that isn't a table has none.
pub fn items_of(declared: &Declared) -> &[Dec]
    ensures { result.now ≡ declared_table (declaration_of declared.now).value }
{
    match &declared.value {
        Some(Literal::Table(items)) => items.as_slice(),
        _ => &[],
    }
}

/// A decimal of few places (`has_few_places`) with three of them, as a `double` keeps it.
pub fn at_factor_scale(number: Dec) -> Dec
    requires { IsTrue (has_few_places number) }
    ensures { result ≡ at_factor_scale number }
{
    Dec::new(number.numerator_at(FACTOR_PLACES), FACTOR_PLACES)
}

/// What `BigDecimal.valueOf` makes of a literal with a point: the same value without the zeros that end it, but with one
/// place at least.
pub fn shortened(number: Dec) -> Dec
    ensures { result ≡ shortened fewest_places number }
{
    number.shortened(FEWEST_PLACES)
}
