//! The inputs of a run.
ghost use Rattle.std.specs.Prelude.{◌≤◌, All, IfOk, length};
ghost use Rattle.std.specs.Bool.{OnFalse};
ghost use Rattle.std.specs.List.{AllByRecursion};
ghost use Rattle.scaled_decimal.specs.Limits.{IsKept};
ghost use Rattle.carry_bindings.specs.Conditions.{AreBounded};
ghost use Rattle.carry_bindings.specs.Limits.{most_runs};
ghost use Rattle.pay_run.specs.Accepted.{accepted};
ghost use Rattle.pay_run.specs.RunClauses.{Fills};
ghost use Rattle.pay_run.specs.Runs.{filled, FilledRunsAreSafe, ReadsNothing};

use carry_bindings::{Earlier, Filled, fill};
use pap_plan::Plan;
use payroll_records::Record;
use scaled_decimal::Dec;
use std::alloc::{AllocError, Global};

/// The inputs of a record's run after the earlier ones of its year, which the plan then admits, or why it has none.
pub fn filled(
    alloc: Global,
    plan: &Plan,
    item: &Record,
    earlier: &[Earlier],
) -> Result<Filled, AllocError>
    requires few { length earlier.now ≤ most_runs }
    requires bounded { AllByRecursion (λ e. AreBounded e.outputs) earlier.now }
    ensures { IfOk result (Fills (accepted plan.now)
        (filled (accepted plan.now) item.now.values earlier.now)) }
{
    plan.law();
    match fill(alloc, plan.spec(), item, earlier)? {
        Filled::Inputs(inputs) => {
            each_is_kept(inputs.as_slice());
            Ok(Filled::Inputs(inputs))
        }
        Filled::State(why) => Ok(Filled::State(why)),
    }
}

/// Whether the plan's runs read what earlier ones of their year came to.
pub fn reads_earlier(plan: &Plan) -> bool
    ensures { OnFalse result (ReadsNothing (accepted plan.now)) }
{
    carry_bindings::reads_earlier(plan.spec())
}

/// Each decimal is within the limits of kept ones, as its type says.
pub fn each_is_kept(values: &[Dec])
    ensures { All IsKept values.now }
{
    for value in values {
        let _ = (value.numerator(), value.scale());
    }
}

/// A law of the definitions: each run that has inputs is defined.
pub fn run_laws()
    ensures { FilledRunsAreSafe }
{}
