//! The inputs of a run that stands alone.
ghost use Rattle.std.specs.Prelude.{◌≡◌, IfOk, map, string_bytes};
ghost use Rattle.carry_bindings.specs.declared.filling.Filled.TheVariants.{State};
ghost use Rattle.diagnostics.specs.RunReasons.{run_reasons};
ghost use Rattle.pay_run.specs.Accepted.{accepted};
ghost use Rattle.pay_run.specs.RunClauses.{Fills};
ghost use Rattle.plain_words.specs.Lines.{IsOneLine};
ghost use Rattle.plain_words.specs.Places.{files_of};
ghost use Rattle.author_cli.specs.Given.{filled_given, unbound_plan, SaysGiven};
ghost use Rattle.author_cli.specs.private.GivenViews.{unbound_slot};

use carry_bindings::{Blocked, Filled, fill};
use diagnostics::slot_reasons;
use limits_file::{Items, Slot, Spec};
use pap_plan::Plan;
use pay_run::each_is_kept;
use payroll_records::{Record, Values};
use plain_words::{RunReason, TextFile, state_words};
use std::alloc::{AllocError, Global};

/// The inputs of a run on a record's values, which the plan then admits, or why it has none. An input that the range file fills from
/// earlier runs takes the value that is given, like the others.
pub(crate) fn fill_given(alloc: Global, plan: &Plan, item: &Record) -> Result<Filled, AllocError>
    ensures { IfOk result (Fills (accepted plan.now)
        (filled_given (accepted plan.now) item.now.values)) }
{
    plan.law();
    let spec = unbound(alloc, plan.spec())?;
    match fill(alloc, &spec, item, &[])? {
        Filled::Inputs(inputs) => {
            each_is_kept(inputs.as_slice());
            Ok(Filled::Inputs(inputs))
        }
        Filled::State(why) => Ok(Filled::State(why)),
    }
}

/// Why a run on these values has no inputs, in one line of plain words: the first reason, of which the state is the answer. Fails only
/// for lack of memory.
pub(crate) fn given_words(
    alloc: Global,
    plan: TextFile<'_>,
    limits: TextFile<'_>,
    judged: &Plan,
    values: &Values,
    state: &Blocked,
) -> Result<String, AllocError>
    requires { filled_given (accepted judged.now) values.now ≡ State state.now }
    ensures line { IfOk result (λ words. IsOneLine (string_bytes words)) }
    ensures says { IfOk result (λ words. SaysGiven (accepted judged.now) values.now
        (files_of plan.entry limits.entry) state.now (string_bytes words)) }
{
    let reasons = given_reasons(alloc, judged, values)?;
    let Some(reason) = reasons.first() else {
        unreachable!()
    };
    state_words(alloc, plan, limits, reason)
}

/// All reasons why a run on these values has no inputs. None where it has.
fn given_reasons(alloc: Global, plan: &Plan, values: &Values) -> Result<Vec<RunReason>, AllocError>
    ensures { IfOk result (λ reasons. reasons.items
        ≡ run_reasons (unbound_plan (accepted plan.now)) values.now) }
{
    let spec = unbound(alloc, plan.spec())?;
    slot_reasons(alloc, spec.slots.as_slice(), values)
}

/// The same inputs, none of which is filled from earlier runs.
fn unbound(alloc: Global, spec: &Spec) -> Result<Spec, AllocError>
    ensures { IfOk result (λ alone. alone.slots ≡ map unbound_slot spec.now.slots) }
{
    let bound = spec.slots.as_slice();
    let mut slots = Vec::with_capacity(alloc, bound.len())?;
    for slot in bound {
        slots.push(Slot {
            name: slot.name,
            kind: slot.kind,
            limit: slot.limit,
            value: slot.value,
            carry: None,
        })?;
    }
    Ok(Spec {
        slots: Items::from_vec(slots),
    })
}
