//! The widest bounds that make sense for a type.
ghost use Rattle.std.specs.Prelude.{◌≡◌};
ghost use Rattle.range_draft.specs.Bounds.{least_of_kind, greatest_of_kind, places_of_kind, advice};

use pap_tree::Kind;

/// The range of an input, as a range file spells it.
#[derive(Clone, Copy)]
pub struct Bounds {
    /// The least value.
    pub low: &'static str,
    /// The greatest value.
    pub high: &'static str,
    /// The most digits after the point.
    pub places: u8,
    /// What is to be narrowed.
    pub advice: &'static str,
}

/// The widest range that makes sense for an input of a type: all values of a whole number; amounts of less than a million
/// million with two digits after the point; factors of less than a million with three.
pub fn widest(kind: Kind) -> Bounds
    ensures low { result.low.now ≡ least_of_kind kind }
    ensures high { result.high.now ≡ greatest_of_kind kind }
    ensures places { result.places ≡ places_of_kind kind }
    ensures advice { result.advice.now ≡ advice kind }
{
    match kind {
        Kind::Int => Bounds {
            low: "-2147483648",
            high: "2147483647",
            places: 0,
            advice: "int: narrow low and high to the values that occur",
        },
        Kind::Long => Bounds {
            low: "-9223372036854775808",
            high: "9223372036854775807",
            places: 0,
            advice: "long: narrow low and high to the values that occur",
        },
        Kind::Factor => Bounds {
            low: "\"-999999.999\"",
            high: "\"999999.999\"",
            places: 3,
            advice: "double: narrow low and high to the factors that occur",
        },
        Kind::Big | Kind::Table => Bounds {
            low: "\"-999999999999.99\"",
            high: "\"999999999999.99\"",
            places: 2,
            advice: "BigDecimal: narrow low and high, and places to 0 for whole cents or euros",
        },
    }
}
