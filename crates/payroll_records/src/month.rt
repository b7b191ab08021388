//! Months of the calendar.
ghost use Rattle.std.specs.Prelude.{◌≡◌, ◌≢◌, ◌↔◌, ◌<◌, ◌∷◌, [], ℕ, IsSome, IfSome, MatchOption, Some};
ghost use Rattle.payroll_records.specs.Days.{IsMonth, two_digits};

use crate::Day;
use std::fmt;

/// A month of a year from 1900 to 2999. Months are ordered by time.
#[derive(Clone, Copy, Debug, PartialEq, Eq, PartialOrd, Ord)]
pub struct Month {
    /// From 1900 to 2999.
    pub year: u16,
    /// From 1 to 12.
    pub month: u8,
    pub ghost exists: { IsMonth year month },
}

impl Month {
    ghost use Rattle.payroll_records.specs.Days.{IsMonthText, IsMonthSpelled};

    /// The month, if it is one of a year from 1900 to 2999.
    pub fn new(year: u16, month: u8) -> Option<Month>
        ensures exact { IsSome result ↔ IsMonth year month }
        ensures value { IfSome result (λ m. (m.year ≡ year) × (m.month ≡ month)) }
    {
        if year < 1900 || year > 2999 || month < 1 || month > 12 {
            return None;
        }
        Some(Month { year, month })
    }

    /// The month that is written as a text `YYYY-MM`. `None` exactly where none is so written in the years from 1900 to 2999.
    pub fn read(text: &[u8]) -> Option<Month>
        ensures exact { IsSome result ↔ IsMonthSpelled text.now }
        ensures value { IfSome result (λ m. IsMonthText text.now m.year m.month) }
    {
        let [a, b, c, d, b'-', e, f] = text else {
            return None;
        };
        let century = two_digits(*a, *b)?;
        let year = two_digits(*c, *d)?;
        let month = two_digits(*e, *f)?;
        Month::new(century as u16 * 100 + year as u16, month)
    }

    /// The month that a day lies in.
    pub fn of_day(day: Day) -> Month
        ensures { (result.year ≡ day.year) × (result.month ≡ day.month) }
    {
        Month {
            year: day.year,
            month: day.month,
        }
    }
}

/// The number below 100 that is written as these two digits.
pub(crate) fn two_digits(a: u8, b: u8) -> Option<u8>
    ensures { MatchOption result ((n : ℕ) → n < 100 → two_digits n ≢ a ∷ b ∷ [])
        (λ n. (n < 100) × (two_digits n ≡ a ∷ b ∷ [])) }
{
    if a.is_ascii_digit() && b.is_ascii_digit() {
        Some(10 * (a - b'0') + (b - b'0'))
    } else {
        None
    }
}

impl fmt::Display for Month {
    ghost use Rattle.std.specs.Prelude.{Some};
    ghost use Rattle.payroll_records.specs.Days.{month_text};

    ghost output = { λ m. Some (month_text m.year m.month) };

    /// `YYYY-MM`.
    fn fmt<W: fmt::Write>(&self, f: &mut fmt::Formatter<W>) -> fmt::Result {
        let year = self.year;
        let month = self.month;
        write!(f, "{year}-{month:02}")
    }
}
