//! Exact division by a plain divisor, and decimals without the zeros that end them.
ghost use Rattle.std.specs.Prelude.{◌≡◌, ◌≤◌, ◌↔◌, IsTrue, pos, ◌<ℤ◌};
ghost use Rattle.scaled_decimal.specs.Decimals.{scale_of};
ghost use Rattle.scaled_decimal.specs.ExactQuotients.{Divides, IsPlainDivisor, IsExactQuotient};
ghost use Rattle.scaled_decimal.specs.WorkingNumbers.{IsDivisorPlaces, ExactQuotientFits};
ghost use Rattle.scaled_decimal.specs.Shortening.{IsShortened};
ghost use Rattle.scaled_decimal.specs.ShortenedDecimals.{shortened, exact_quotient, EachPlainDivisorHasOneQuotient, EachValueIsShortenedInOneWay};
ghost use Rattle.scaled_decimal.specs.Limits.{most_places};

use crate::decimal::Dec;
use crate::limits::MOST_PLACES;
use crate::powers::power_of_ten;

impl Dec {
    /// The exact quotient by a divisor of 10^30, at the least scale that is at least this decimal's and holds it.
    pub fn div_exact(self, d: i128) -> Dec
        requires plain { IsPlainDivisor d }
        requires fits { ExactQuotientFits self d }
        ensures exact { IsExactQuotient self d result }
        ensures value { result ≡ exact_quotient self d }
    {
        let places = divisor_places(d);
        let numerator = self.numerator() * (power_of_ten(places) / d);
        Dec::new(numerator, self.scale() + places).shortened(self.scale())
    }

    /// The same value without the zeros that end it, but with `least` places or more; one of fewer places is kept.
    pub fn shortened(self, least: u8) -> Dec
        ensures short { least ≤ scale_of self → IsShortened self least result }
        ensures value { result ≡ shortened least self }
    {
        let mut numerator = self.numerator();
        let mut places = self.scale();
        while places > least && divides(10, numerator) {
            numerator /= 10;
            places -= 1;
        }
        Dec::new(numerator, places)
    }
}

/// Whether `d` is at least 1 and divides 10^30, as `div_exact` needs it.
pub fn is_plain_divisor(d: i128) -> bool
    ensures { IsTrue result ↔ IsPlainDivisor d }
{
    d >= 1 && divides(d, power_of_ten(MOST_PLACES))
}

/// The least k for which a divisor `d` of 10^30 divides 10^k.
pub fn divisor_places(d: i128) -> u8
    requires { IsPlainDivisor d }
    ensures places { IsDivisorPlaces d result }
    ensures few { result ≤ most_places }
{
    let mut places = 0;
    while !divides(d, power_of_ten(places)) {
        places += 1;
    }
    places
}

fn divides(d: i128, n: i128) -> bool
    requires { pos 0 <ℤ d }
    ensures { IsTrue result ↔ Divides d n }
{
    n % d == 0
}

/// A law, with nothing to run: by a plain divisor each decimal has one exact quotient, which is the function's value.
pub fn each_plain_divisor_has_one_quotient()
    ensures { EachPlainDivisorHasOneQuotient }
{}

/// A law, with nothing to run: each decimal of enough places is shortened to the one of its value with the fewest.
pub fn each_value_is_shortened_in_one_way()
    ensures { EachValueIsShortenedInOneWay }
{}
