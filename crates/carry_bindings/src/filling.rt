//! The inputs of a run.
ghost use Rattle.std.specs.Prelude.{◌≡◌, ◌≤◌, ◌∷◌, List, IfOk, OnOk, length};
ghost use Rattle.std.specs.Bool.{OnFalse};
ghost use Rattle.std.specs.List.{AllByRecursion};
ghost use Rattle.carry_bindings.specs.Conditions.{AreBounded, KeepsFactorLimit};
ghost use Rattle.carry_bindings.specs.Limits.{most_runs};
ghost use Rattle.carry_bindings.specs.Filling.{FitsIsTold, ReadsNothing, filled_by, given_or_default, has_carry};
ghost use Rattle.carry_bindings.specs.Filling.{value_of, waits};
ghost use Rattle.carry_bindings.specs.private.OutputViews.{AreAlike};
ghost use Rattle.carry_bindings.specs.private.Views.{IsFound, IsSofar};
ghost use Rattle.limits_file.specs.Limits.{Fits};
ghost use Rattle.limits_file.specs.declared.slots.Slot.{Slot as Input};
ghost use Rattle.payroll_records.specs.declared.values.NamedValue.{NamedValue};
ghost use Rattle.carry_bindings.specs.declared.carried.Earlier.{Earlier as Gone};
ghost use Rattle.pap_types.specs.Scopes.{kept_as};
ghost use Rattle.payroll_records.specs.NamedValues.{place_at};

use crate::carried::{Earlier, carried};
use crate::names::{mark, none_taken, unknown};
use crate::outputs::alike;
use limits_file::{Items, Slot, Spec};
use pap_tree::{Kind, Name};
use pap_types::at_factor_scale;
use payroll_records::{Day, Guess, Record, Values};
use scaled_decimal::Dec;
use std::alloc::{AllocError, Global};

/// So many searches of a run's outputs take about as long as one comparison of all their names.
const FEW_SEARCHES: usize = 4;

/// Why a run has no inputs.
#[derive(Clone, Copy, Debug)]
pub enum Blocked {
    /// An input carries, and the earlier run of this day isn't ok.
    Waits(Day),
    /// The record gives a value of this name, and there is no such input, or it carries.
    Unknown(Name),
    /// The input of this name has no value.
    Missing(Name),
    /// The value of this input doesn't fit its range.
    Range(Name),
}

/// The inputs of a run in declared order, or why it has none.
#[derive(Drop)]
pub enum Filled {
    /// A value for each input, which the range file admits.
    Inputs(Items<Dec>),
    /// Why there are none: the first reason that applies.
    State(Blocked),
}

/// What the inputs of a run are found to be, one after another.
#[derive(Drop)]
pub(crate) struct Found {
    /// Of each value of the record, whether some input takes it.
    taken: Vec<bool>,
    /// The first input without a value.
    missing: Option<Name>,
    /// The first input whose value doesn't fit its range.
    outside: Option<Name>,
    /// The inputs in declared order, where each has a value that fits its range.
    inputs: Vec<Dec>,
}

impl Found {
    /// Puts one more input, whose value this is.
    fn put(&mut self, slot: &Slot, value: Option<Dec>) -> Result<(), AllocError>
        requires { KeepsFactorLimit slot.now }
        ensures taken { self.new.taken.items ≡ self.old.taken.items }
        ensures more { OnOk result ((values : List NamedValue) (earlier : List Gone)
            (slots rest : List Input) → value_of values earlier slot.now ≡ value
            → IsSofar values earlier slots (slot.now ∷ rest) self.old
            → IsSofar values earlier slots rest self.new) }
    {
        let Some(value) = value else {
            self.missing = self.missing.or(Some(slot.name));
            return Ok(());
        };
        if !slot.limit.fits(value) {
            self.outside = self.outside.or(Some(slot.name));
            return Ok(());
        }
        self.inputs.push(kept_as(slot, value))?;
        Ok(())
    }
}

/// The inputs of a record's run. `earlier` are the employee's earlier runs of the calendar year, in order of day; each of
/// their outputs keeps the bound of outputs. The first answer that applies is given: `Waits`, `Unknown`, `Missing`,
/// `Range`, and otherwise the inputs, those of type `double` with three places.
pub fn fill(
    alloc: Global,
    spec: &Spec,
    item: &Record,
    earlier: &[Earlier],
) -> Result<Filled, AllocError>
    requires few { length earlier.now ≤ most_runs }
    requires bounded { AllByRecursion (λ e. AreBounded e.outputs) earlier.now }
    requires doubles { AllByRecursion KeepsFactorLimit spec.now.slots }
    ensures { IfOk result (λ f. f ≡ filled_by spec.now.slots item.now.values earlier.now) }
{
    let slots = spec.slots.as_slice();
    if let Some(day) = waits(slots, earlier) {
        return Ok(Filled::State(Blocked::Waits(day)));
    }
    let found = found_of(alloc, slots, &item.values, earlier)?;
    if let Some(name) = unknown(found.taken.as_slice(), slots, &item.values) {
        return Ok(Filled::State(Blocked::Unknown(name)));
    }
    if let Some(name) = found.missing {
        return Ok(Filled::State(Blocked::Missing(name)));
    }
    if let Some(name) = found.outside {
        return Ok(Filled::State(Blocked::Range(name)));
    }
    Ok(Filled::Inputs(Items::from_vec(found.inputs)))
}

/// Whether some input carries. Where none does, a run reads nothing of the earlier ones of its year.
pub fn reads_earlier(spec: &Spec) -> bool
    ensures exact { result ≡ has_carry spec.now.slots }
    ensures none { OnFalse result (ReadsNothing spec.now.slots) }
{
    has_carry(spec.slots.as_slice())
}

/// The day that the run waits for.
fn waits(slots: &[Slot], earlier: &[Earlier]) -> Option<Day>
    ensures { result ≡ waits slots.now earlier.now }
{
    if earlier.is_empty() || !has_carry(slots) {
        return None;
    }
    for e in earlier {
        if e.outputs.is_none() {
            return Some(e.day);
        }
    }
    None
}

/// Whether some input carries.
fn has_carry(slots: &[Slot]) -> bool
    ensures { result ≡ has_carry slots.now }
{
    slots.iter().any(|s| s.carry.is_some())
}

/// Whether so many inputs carry that comparing the names of the earlier runs' outputs takes less than searching each run
/// for each of these inputs.
fn many_carry(slots: &[Slot]) -> bool {
    slots.iter().filter(|s| s.carry.is_some()).count() > FEW_SEARCHES
}

/// The record's value of an input, which stands at a place of its values, or else the input's default.
fn given(values: &Values, place: Option<usize>, slot: &Slot) -> Option<Dec>
    requires { place ≡ place_at values.now slot.now.name }
    ensures { result ≡ given_or_default values.now slot.now }
{
    match place {
        Some(at) => Some(values.numbers()[at]),
        None => slot.value,
    }
}

/// The value of an input: what it carries, or else what is given.
fn value_of(
    values: &Values,
    place: Option<usize>,
    earlier: &[Earlier],
    alike: &[bool],
    slot: &Slot,
) -> Option<Dec>
    requires place { place ≡ place_at values.now slot.now.name }
    requires few { length earlier.now ≤ most_runs }
    requires bounded { AllByRecursion (λ e. AreBounded e.outputs) earlier.now }
    requires alike { AreAlike alike.now earlier.now }
    ensures { result ≡ value_of values.now earlier.now slot.now }
{
    match &slot.carry {
        Some(carry) => Some(carried(carry, earlier, alike)),
        None => given(values, place, slot),
    }
}

/// The value as a variable of the input's type keeps it.
fn kept_as(slot: &Slot, value: Dec) -> Dec
    requires suits { KeepsFactorLimit slot.now }
    requires fits { Fits slot.now.limit value }
    ensures { result ≡ kept_as slot.now.kind value }
{
    match slot.kind {
        Kind::Factor => at_factor_scale(value),
        _ => value,
    }
}

/// Goes over the inputs once, in declared order.
fn found_of(
    alloc: Global,
    slots: &[Slot],
    values: &Values,
    earlier: &[Earlier],
) -> Result<Found, AllocError>
    requires few { length earlier.now ≤ most_runs }
    requires bounded { AllByRecursion (λ e. AreBounded e.outputs) earlier.now }
    requires doubles { AllByRecursion KeepsFactorLimit slots.now }
    ensures { IfOk result (IsFound slots.now values.now earlier.now) }
{
    let alike = if !earlier.is_empty() && many_carry(slots) {
        alike(alloc, earlier)?
    } else {
        Vec::new(alloc)
    };
    let mut found = Found {
        taken: none_taken(alloc, values)?,
        missing: None,
        outside: None,
        inputs: Vec::with_capacity(alloc, slots.len())?,
    };
    let mut guess = Guess { place: 0, gap: 0 };
    for slot in slots {
        let (place, next) = values.look_up(&slot.name, guess);
        guess = next;
        mark(&mut found.taken, place, slot);
        let value = value_of(values, place, earlier, alike.as_slice(), slot);
        found.put(slot, value)?;
    }
    Ok(found)
}

/// A law, with nothing to run: the definitions' test is true exactly where a value fits its range.
pub fn fill_laws()
    ensures { FitsIsTold }
{}
