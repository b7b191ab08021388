//! A month or a day, where either may be asked for.
ghost use Rattle.payroll_records.specs.Whens.{WhensAreKnownByTexts};

use crate::{Day, Month};
use std::fmt;

/// When a run was paid: in a month, where its employee has one run in it, or on a day.
#[derive(Clone, Copy, Debug)]
pub enum When {
    /// In this month, in which the employee has one run.
    Month(Month),
    /// On this day.
    Day(Day),
}

impl fmt::Display for When {
    ghost use Rattle.std.specs.Prelude.{Some};
    ghost use Rattle.payroll_records.specs.Whens.{when_text};

    ghost output = { λ when. Some (when_text when) };

    /// `YYYY-MM` or `YYYY-MM-DD`.
    fn fmt<W: fmt::Write>(&self, f: &mut fmt::Formatter<W>) -> fmt::Result {
        match self {
            When::Month(month) => write!(f, "{month}"),
            When::Day(day) => write!(f, "{day}"),
        }
    }
}

/// A law of written months and days; the function does nothing. What one is written as is its text, and that of no other.
pub fn when_laws()
    ensures { WhensAreKnownByTexts }
{}
