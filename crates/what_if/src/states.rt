//! The states of a run in two books.
ghost use Rattle.std.specs.Prelude.{◌≡◌};
ghost use Rattle.std.specs.Cmp.Lexicographic.{pointwise};
ghost use Rattle.what_if.specs.Changes.{state_outputs, same_cause, same_output, same_state};
ghost use Rattle.what_if.specs.Changes.{shown_cause, shown_state};

use crate::trial::Shown;
use carry_bindings::Blocked;
use payroll_records::NamedValue;
use recalc_engine::State;

/// Whether two states are the same: their names, days, values and scales.
pub(crate) fn same_state(a: &State, b: &State) -> bool
    ensures { result ≡ same_state a.now b.now }
{
    match (a, b) {
        (State::NoPlan, State::NoPlan) => true,
        (State::Blocked(a), State::Blocked(b)) => same_cause(a, b),
        (State::Done(a), State::Done(b)) => same_outputs(a.as_slice(), b.as_slice()),
        _ => false,
    }
}

/// Whether two runs have no inputs for the same cause, with the same day or name.
fn same_cause(a: &Blocked, b: &Blocked) -> bool
    ensures { result ≡ same_cause a.now b.now }
{
    match (a, b) {
        (Blocked::Waits(a), Blocked::Waits(b)) => a == b,
        (Blocked::Unknown(a), Blocked::Unknown(b)) => a == b,
        (Blocked::Missing(a), Blocked::Missing(b)) => a == b,
        (Blocked::Range(a), Blocked::Range(b)) => a == b,
        _ => false,
    }
}

/// Whether two runs have the same outputs in the same order.
fn same_outputs(a: &[NamedValue], b: &[NamedValue]) -> bool
    ensures { result ≡ pointwise same_output a.now b.now }
{
    a.len() == b.len() && a.iter().zip(b).all(|(v, w)| same_output(v, w))
}

/// Whether two outputs have the same name, number and scale.
fn same_output(a: &NamedValue, b: &NamedValue) -> bool
    ensures { result ≡ same_output a.now b.now }
{
    a.name == b.name && a.value == b.value
}

/// A state without its values.
pub(crate) fn shown(state: &State) -> Shown
    ensures { result ≡ shown_state state.now }
{
    match state {
        State::NoPlan => Shown::NoPlan,
        State::Blocked(cause) => shown_cause(cause),
        State::Done(_) => Shown::Done,
    }
}

/// A cause without its day or name.
fn shown_cause(cause: &Blocked) -> Shown
    ensures { result ≡ shown_cause cause.now }
{
    match cause {
        Blocked::Waits(_) => Shown::Waits,
        Blocked::Unknown(_) => Shown::Unknown,
        Blocked::Missing(_) => Shown::Missing,
        Blocked::Range(_) => Shown::Range,
    }
}

/// The outputs of a state, none where it has none.
pub(crate) fn state_outputs(state: &State) -> &[NamedValue]
    ensures { result.now ≡ state_outputs state.now }
{
    match state {
        State::Done(outputs) => outputs.as_slice(),
        _ => &[],
    }
}
