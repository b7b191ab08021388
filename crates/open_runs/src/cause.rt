//! Why a run has no amounts.
ghost use Rattle.std.specs.Prelude.{◌≡◌};
ghost use Rattle.open_runs.specs.OpenRuns.{cause_in, open_cause, same_reason};

use carry_bindings::Blocked;
use pap_tree::Name;
use recalc_engine::State;

/// Why a run has no amounts: its state in the report.
#[derive(Clone, Copy, Debug)]
pub enum Cause {
    /// No flowchart holds on its day.
    NoPlan,
    /// It waits for an earlier run.
    Waits,
    /// There is no input of this name, or it carries.
    Unknown(Name),
    /// The input of this name has no value.
    Missing(Name),
    /// The value of this input isn't within its range.
    Range(Name),
}

/// Whether two causes are the same, with the same name.
pub(crate) fn same_reason(a: &Cause, b: &Cause) -> bool
    ensures { result ≡ same_reason a.now b.now }
{
    match (a, b) {
        (Cause::NoPlan, Cause::NoPlan) => true,
        (Cause::Waits, Cause::Waits) => true,
        (Cause::Unknown(a), Cause::Unknown(b)) => a == b,
        (Cause::Missing(a), Cause::Missing(b)) => a == b,
        (Cause::Range(a), Cause::Range(b)) => a == b,
        _ => false,
    }
}

/// Why a run in this state has no amounts. `None` where it has them.
pub(crate) fn open_cause(state: &State) -> Option<Cause>
    ensures { result ≡ open_cause state.now }
{
    match state {
        State::NoPlan => Some(Cause::NoPlan),
        State::Blocked(blocked) => Some(cause_in(blocked)),
        State::Done(_) => None,
    }
}

/// Why a run has no inputs, without the day for which it waits.
fn cause_in(blocked: &Blocked) -> Cause
    ensures { result ≡ cause_in blocked.now }
{
    match blocked {
        Blocked::Waits(_) => Cause::Waits,
        Blocked::Unknown(name) => Cause::Unknown(*name),
        Blocked::Missing(name) => Cause::Missing(*name),
        Blocked::Range(name) => Cause::Range(*name),
    }
}
