//! The jobs of a book's runs.
ghost use Rattle.std.specs.Prelude.{◌≡◌, length};
ghost use Rattle.std.specs.Option.{option_copied};
ghost use Rattle.rising_lists.specs.Keyed.{at_key, IsRising};
ghost use Rattle.payroll_records.specs.Orders.{day_cmp};
ghost use Rattle.book_year.specs.Records.{record_day};
ghost use Rattle.book_year.specs.Accepted.{accepted};
ghost use Rattle.book_edits.specs.Books.{year_cmp, year_of};
ghost use Rattle.book_edits.specs.Kept.{kept_key};
ghost use Rattle.recalc_engine.specs.private.JobViews.{AdmitsWhatItFills, HasInputsOf};

use book_edits::{place_year, year_of};
use book_year::{Year, place_run};
use pap_plan::Plan;
use pay_run::each_is_kept;
use payroll_records::{Day, Key};
use scaled_decimal::Dec;

/// What a run ran: its plan and its inputs.
#[derive(Clone, Copy)]
pub struct Job<'a> {
    /// The plan of the run's day.
    pub plan: &'a Plan,
    /// In declared order. The plan admits them.
    pub inputs: &'a [Dec],
}

/// The year in which a run stands.
pub(crate) fn year_at<'a>(years: &'a [Year], key: &Key) -> Option<&'a Year>
    requires { IsRising year_cmp kept_key years.now }
    ensures { option_copied result ≡ at_key year_cmp kept_key years.now (year_of key.now) }
{
    let at = place_year(years, &year_of(key)).ok()?;
    Some(&years[at])
}

/// The inputs of a year's run, where the run has any.
pub(crate) fn inputs_on(year: &Year, day: Day) -> Option<&[Dec]>
    requires rising { IsRising day_cmp record_day year.now.records.items }
    requires paired { length year.now.records.items ≡ length year.now.outcomes.items }
    ensures { HasInputsOf year.now day (option_copied result) }
{
    let Ok(at) = place_run(year.records.as_slice(), day) else {
        return None;
    };
    let inputs = year.outcomes[at].inputs.as_ref()?;
    Some(inputs.as_slice())
}

/// The job of a plan on inputs that it was filled with.
pub(crate) fn job_of<'a>(plan: &'a Plan, inputs: &'a [Dec]) -> Job<'a>
    ensures plan { result.plan.now ≡ plan.now }
    ensures inputs { result.inputs.now ≡ inputs.now }
    ensures admitted { AdmitsWhatItFills (accepted plan.now) inputs.now }
{
    plan.law();
    let _ = plan.spec();
    each_is_kept(inputs);
    Job { plan, inputs }
}
