//! The values of a book's runs, which are decimals that 128 bits keep.
ghost use Rattle.std.specs.Prelude.{All};
ghost use Rattle.pay_run.specs.Runs.{IsKeptValue};
ghost use Rattle.recalc_engine.specs.BookLaws.{HasKeptValues};
ghost use Rattle.recalc_engine.specs.private.ValueViews.{IsYearKept};

use book_year::Year;
use pay_run::each_is_kept;
use payroll_records::{Record, Values};

/// Each value of these years is a kept decimal, as its type says.
pub(crate) fn each_year_is_kept(years: &[Year])
    ensures { All IsYearKept years.now }
{
    for year in years {
        each_run_is_kept(year.records.as_slice());
    }
}

/// Each value of these runs is a kept decimal.
fn each_run_is_kept(records: &[Record])
    ensures { All HasKeptValues records.now }
{
    for record in records {
        each_value_is_kept(&record.values);
    }
}

/// Each of these values is a kept decimal.
fn each_value_is_kept(values: &Values)
    ensures { All IsKeptValue values.now }
{
    each_is_kept(values.numbers());
}
