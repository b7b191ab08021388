//! Days of the calendar.
ghost use Rattle.std.specs.Prelude.{◌≡◌, ◌↔◌, IsSome, IfSome};
ghost use Rattle.payroll_records.specs.Days.{IsDay};

use crate::month::two_digits;
use jiff::civil::Date;
use std::fmt;

/// A day that the calendar has, of a year from 1900 to 2999. Days are ordered by time.
#[derive(Clone, Copy, Debug, PartialEq, Eq, PartialOrd, Ord)]
pub struct Day {
    /// From 1900 to 2999.
    pub year: u16,
    /// From 1 to 12.
    pub month: u8,
    /// From 1 to 28, 29, 30 or 31, as the calendar has it in the month.
    pub day: u8,
    pub ghost exists: { IsDay year month day },
}

impl Day {
    ghost use Rattle.payroll_records.specs.Days.{IsDayText, IsDaySpelled};

    /// The day, if the calendar has it in a year from 1900 to 2999.
    pub fn new(year: u16, month: u8, day: u8) -> Option<Day>
        ensures exact { IsSome result ↔ IsDay year month day }
        ensures value { IfSome result (λ d. (d.year ≡ year) × (d.month ≡ month) × (d.day ≡ day)) }
    {
        if year < 1900 || year > 2999 || month > 12 || day > 31 {
            return None;
        }
        match Date::new(year as i16, month as i8, day as i8) {
            Ok(_) => Some(Day { year, month, day }),
            Err(_) => None,
        }
    }

    /// The day that is written as a text `YYYY-MM-DD`. `None` exactly where no day of the calendar is so written in the years
    /// from 1900 to 2999.
    pub fn read(text: &[u8]) -> Option<Day>
        ensures exact { IsSome result ↔ IsDaySpelled text.now }
        ensures value { IfSome result (λ d. IsDayText text.now d.year d.month d.day) }
    {
        let [a, b, c, d, b'-', e, f, b'-', g, h] = text else {
            return None;
        };
        let century = two_digits(*a, *b)?;
        let year = two_digits(*c, *d)?;
        let month = two_digits(*e, *f)?;
        let day = two_digits(*g, *h)?;
        Day::new(century as u16 * 100 + year as u16, month, day)
    }
}

impl fmt::Display for Day {
    ghost use Rattle.std.specs.Prelude.{Some};
    ghost use Rattle.payroll_records.specs.Days.{day_text};

    ghost output = { λ d. Some (day_text d.year d.month d.day) };

    /// `YYYY-MM-DD`.
    fn fmt<W: fmt::Write>(&self, f: &mut fmt::Formatter<W>) -> fmt::Result {
        let year = self.year;
        let month = self.month;
        let day = self.day;
        write!(f, "{year}-{month:02}-{day:02}")
    }
}
