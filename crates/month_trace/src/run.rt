//! The trace of a plan's run.
ghost use Rattle.std.specs.Prelude.{◌≡◌, List, Some, IsSome, IfOk};
ghost use Rattle.scaled_decimal.specs.Decimals.{Decimal};
ghost use Rattle.pap_tree.specs.Flowchart.{Flowchart, flowchart_of};
ghost use Rattle.pap_types.specs.Checks.{IsWellTyped};
ghost use Rattle.pap_types.specs.Meaning.{IsSafeFor};
ghost use Rattle.pap_plan.specs.Plans.{flowchart, Admits};
ghost use Rattle.month_trace.specs.Traces.{trace_of};
ghost use Rattle.month_trace.specs.TraceLaws.{HasOneTrace, TellsOutputs, TracesEndInReports};

use crate::statements::{Spot, run_body};
use crate::step::TraceStep;
use pap_plan::Plan;
use pap_tree::Name;
use pap_types::{LONGEST_CHAIN, Typed};
use run_values::start_values;
use scaled_decimal::Dec;
use std::alloc::{AllocError, Global};

/// The statements that a run of a plan on inputs that it admits executes, in their order, each with what it did. Time is
/// linear in the evaluated nodes and the statements of executed methods as they are written, memory in the trace and the
/// variables.
pub fn trace_run(alloc: Global, p: &Plan, inputs: &[Dec]) -> Result<Vec<TraceStep>, AllocError>
    requires { Admits p.now inputs.now }
    ensures ok { IfOk result
        (λ steps. trace_of (flowchart p.now) inputs.now ≡ Some steps.items) }
    ensures there { IsSome (trace_of (flowchart p.now) inputs.now) }
{
    trace_text(alloc, p.text(), inputs)
}

/// The same of a plan's text.
fn trace_text(alloc: Global, plan: &Typed, inputs: &[Dec]) -> Result<Vec<TraceStep>, AllocError>
    requires { IsSafeFor (flowchart_of plan.now) inputs.now }
    ensures { IfOk result
        (λ steps. trace_of (flowchart_of plan.now) inputs.now ≡ Some steps.items) }
{
    let mut values = start_values(alloc, plan, inputs)?;
    let mut steps = Vec::new(alloc);
    let main = plan.plan().main.as_slice();
    let spot = Spot {
        method: Name::main(),
        at: 0,
        chain: LONGEST_CHAIN,
    };
    run_body(plan, spot, main, &mut values, &mut steps)?;
    Ok(steps)
}

/// The laws of traces; the function does nothing. A run on inputs that are safe for a plan has exactly one trace. In a
/// well-typed plan each output is the last value that the trace puts there, and what it began with where there is none. Each
/// run of a book that has a job has a trace, which ends in the outputs that the book reports.
pub fn trace_laws()
    ensures one { (f : Flowchart) (inputs : List Decimal)
        → IsSafeFor f inputs → HasOneTrace f inputs }
    ensures outputs { (f : Flowchart) (inputs : List Decimal)
        → IsWellTyped f → IsSafeFor f inputs → TellsOutputs f inputs }
    ensures reports { TracesEndInReports }
{}
