//! What an input carries over from earlier runs.
ghost use Rattle.std.specs.Prelude.{◌≡◌, ◌≤◌, length};
ghost use Rattle.std.specs.List.{AllByRecursion};
ghost use Rattle.carry_bindings.specs.Carrying.{amounts, carried, latest, total};
ghost use Rattle.carry_bindings.specs.Conditions.{AreBounded};
ghost use Rattle.carry_bindings.specs.Limits.{most_runs};
ghost use Rattle.carry_bindings.specs.private.OutputViews.{AreAlike};

use crate::outputs::{amount_at, is_marked, place_in};
use limits_file::{Carry, Items};
use pap_tree::Name;
use payroll_records::{Day, NamedValue};
use scaled_decimal::Dec;

/// An earlier run of the employee in the calendar year, with its outputs where it is ok.
#[derive(Drop)]
pub struct Earlier {
    /// The day of the run, in the calendar year.
    pub day: Day,
    /// The outputs in declared order. `None` where the run isn't ok.
    pub outputs: Option<Items<NamedValue>>,
}

/// The value that an input carries over.
pub(crate) fn carried(carry: &Carry, earlier: &[Earlier], alike: &[bool]) -> Dec
    requires few { length earlier.now ≤ most_runs }
    requires bounded { AllByRecursion (λ e. AreBounded e.outputs) earlier.now }
    requires alike { AreAlike alike.now earlier.now }
    ensures { result ≡ carried carry.now earlier.now }
{
    match carry {
        Carry::Sum(name) => total(name, earlier, alike),
        Carry::Last(name) => latest(name, earlier, alike),
        Carry::Count => Dec::new(earlier.len() as i128, 0),
    }
}

/// The sum of an output over the runs that have it.
fn total(name: &Name, earlier: &[Earlier], alike: &[bool]) -> Dec
    requires few { length earlier.now ≤ most_runs }
    requires bounded { AllByRecursion (λ e. AreBounded e.outputs) earlier.now }
    requires alike { AreAlike alike.now earlier.now }
    ensures { result ≡ total (amounts name.now earlier.now) }
{
    let mut total = Dec::new(0, 0);
    let mut place = None;
    for (at, e) in earlier.iter().enumerate() {
        place = place_in(name, e, is_marked(alike, at), place);
        let Some(value) = amount_at(place, e) else {
            continue;
        };
        total = total.add(value);
    }
    total
}

/// An output of the latest run that has it.
fn latest(name: &Name, earlier: &[Earlier], alike: &[bool]) -> Dec
    requires { AreAlike alike.now earlier.now }
    ensures { result ≡ latest (amounts name.now earlier.now) }
{
    let mut latest = Dec::new(0, 0);
    let mut place = None;
    for (at, e) in earlier.iter().enumerate() {
        place = place_in(name, e, is_marked(alike, at), place);
        if let Some(value) = amount_at(place, e) {
            latest = value;
        }
    }
    latest
}
