//! The run of a plan.
ghost use Rattle.std.specs.Prelude.{IfOk, List};
ghost use Rattle.scaled_decimal.specs.Decimals.{Decimal};
ghost use Rattle.pap_tree.specs.Flowchart.{Flowchart, flowchart_of};
ghost use Rattle.pap_types.specs.Meaning.{AreInputs, IsSafeFor};
ghost use Rattle.checked_run.specs.declared.failure.RunFailure.{RunFailure};
ghost use Rattle.checked_run.specs.RunEnds.{IsRunEnd};
ghost use Rattle.checked_run.specs.RunFailures.{RunFails};

use crate::RunFailure;
use crate::statements::{Spot, run_body};
use pap_tree::Name;
use pap_types::{LONGEST_CHAIN, Typed};
use run_values::start_values;
use scaled_decimal::Dec;
use std::alloc::{AllocError, Global};

/// What comes of a run.
#[derive(Drop)]
pub enum RunEnd {
    /// The values of the variables at its end: inputs, outputs and internals in declared order.
    Ends(Vec<Dec>),
    /// Where it fails: no value stands there, or a number is beyond its limit.
    Fails(RunFailure),
}

/// Runs a plan on inputs of its types, whether or not they are safe. Time is linear in the evaluated nodes and the statements
/// of executed methods as they are written, memory in the variables; it is taken before the run.
pub fn checked_run(alloc: Global, plan: &Typed, inputs: &[Dec]) -> Result<RunEnd, AllocError>
    requires { AreInputs (flowchart_of plan.now).inputs inputs.now }
    ensures { IfOk result (IsRunEnd (flowchart_of plan.now) inputs.now) }
{
    let mut values = start_values(alloc, plan, inputs)?;
    let main = plan.plan().main.as_slice();
    let spot = Spot {
        method: Name::main(),
        at: 0,
        chain: LONGEST_CHAIN,
    };
    match run_body(plan, spot, main, &mut values) {
        Ok(_) => Ok(RunEnd::Ends(values)),
        Err(failure) => Ok(RunEnd::Fails(failure)),
    }
}

/// A law, with nothing to run: inputs on which a run fails aren't safe for the plan. So a run ends exactly where its inputs are
/// safe.
pub fn failures_are_unsafe()
    ensures { (f : Flowchart) (inputs : List Decimal) (x : RunFailure)
        → RunFails f inputs x → ¬ (IsSafeFor f inputs) }
{}
