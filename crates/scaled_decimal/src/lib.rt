//! Decimals of 128 bits with the arithmetic of `java.math.BigDecimal`, and seven of its eight roundings: `UNNECESSARY` isn't one.
//!
//! A kept decimal has a numerator of at most 10^37 in magnitude and a scale of 0 to 30. No operation refuses, rounds
//! unasked or takes memory: each has the condition that the numbers it works with are within these limits.
#![tactic(auto)]

mod compare;
mod decimal;
mod exact;
mod limits;
mod powers;
mod reading;
mod rounding;
mod rounding_types;
mod whole_numbers;
mod writing;

pub use decimal::Dec;
pub use exact::{
    divisor_places, each_plain_divisor_has_one_quotient, each_value_is_shortened_in_one_way,
    is_plain_divisor,
};
pub use limits::{LIMIT, MOST_PLACES, MOST_POWER};
pub use powers::power_of_ten;
pub use reading::{NumFault, read_dec};
pub use rounding::{Mode, each_quotient_has_one_rounding, round_div};
pub use rounding_types::{RCeiling, RDown, RFloor, RHalfDown, RHalfEven, RHalfUp, RUp, Rounding};
pub use whole_numbers::{is_int, is_long};
pub use writing::{each_plain_text_spells_its_decimal, write_dec};
