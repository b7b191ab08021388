//! The text of a run.
ghost use Rattle.std.specs.Prelude.{◌≡◌, ◌++◌, IfOk, OnOk};
ghost use Rattle.pap_plan.specs.Plans.{Admits, flowchart};
ghost use Rattle.pay_run.specs.Accepted.{accepted};
ghost use Rattle.pay_run.specs.RunClauses.{HasRun};
ghost use Rattle.run_trace.specs.RunTexts.{TellsRun, cost_line};
ghost use Rattle.run_trace.specs.private.TextViews.{AddsHead, AddsSteps};

use crate::head::{write_inputs, write_outputs};
use crate::step_text::write_steps;
use crate::telling::Telling;
use crate::values::begin_values;
use month_trace::trace_run;
use pap_plan::Plan;
use pay_run::{Finished, run};
use payroll_records::Values;
use scaled_decimal::Dec;
use source_lines::SourceLines;
use statement_list::list_statements;
use std::alloc::{AllocError, Global};
use std::marker::Brand;
use std::sync::ledger::{Blank, Ledger};
use steps::Steps;

/// A run of a plan as a text: a line for each input, with its value and whether it was given, a line for each output, how many
/// steps the run took, and a line for each statement that it executes, in order. That has its place, its line in the plan's file,
/// and the value that it puts with its expression, how its test is answered, or the method that it executes; and behind these the
/// values of the variables that its expression reads. Takes time linear in the plan and in what the run executes.
pub fn run_text(
    alloc: Global,
    plan: &Plan,
    lines: &SourceLines,
    given: &Values,
    inputs: &[Dec],
) -> Result<Vec<u8>, AllocError>
    requires { Admits plan.now inputs.now }
    ensures { IfOk result (λ text.
        TellsRun (flowchart plan.now) lines.now given.now inputs.now text.items) }
{
    let mut out = Vec::new(alloc);
    write_head(alloc, &mut out, plan, given, inputs)?;
    write_trace(alloc, &mut out, plan, lines, inputs)?;
    Ok(out)
}

/// Appends what is told above the steps.
fn write_head(
    alloc: Global,
    out: &mut Vec<u8>,
    plan: &Plan,
    given: &Values,
    inputs: &[Dec],
) -> Result<(), AllocError>
    requires { Admits plan.now inputs.now }
    ensures { OnOk result (AddsHead (flowchart plan.now) given.now inputs.now
        out.old.items out.new.items) }
{
    let finished = finish::<Brand>(alloc, plan, inputs, Blank::new(1))?;
    let declared = plan.text().plan().inputs.as_slice();
    write_inputs(alloc, out, given, declared, inputs)?;
    write_outputs(alloc, out, finished.outputs.as_slice())?;
    write_cost(alloc, out, finished.cost, plan.bound())
}

/// The run of a plan, with a counter of its own.
pub(crate) fn finish<L: Ledger>(
    alloc: Global,
    plan: &Plan,
    inputs: &[Dec],
    blank: Blank,
) -> Result<Finished, AllocError>
    requires name { blank.name ≡ L.name }
    requires parts { blank.parts ≡ L.parts }
    requires one { blank.parts ≡ 1 }
    requires admitted { Admits plan.now inputs.now }
    ensures { IfOk result (HasRun (accepted plan.now) inputs.now) }
{
    let mut steps = Steps::<L>::new(blank);
    run(alloc, plan, inputs, &mut steps)
}

/// Appends how many steps a run took, and how many it may take at most.
fn write_cost(alloc: Global, out: &mut Vec<u8>, cost: u64, bound: u64) -> Result<(), AllocError>
    ensures { OnOk result (out.new.items ≡ out.old.items ++ cost_line cost bound) }
{
    let line = format!(in alloc; "steps {cost} of at most {bound}\n")?;
    out.extend_from_slice(line.as_bytes())
}

/// Appends a line for each statement that a run executes.
fn write_trace(
    alloc: Global,
    out: &mut Vec<u8>,
    plan: &Plan,
    lines: &SourceLines,
    inputs: &[Dec],
) -> Result<(), AllocError>
    requires { Admits plan.now inputs.now }
    ensures { OnOk result (AddsSteps (flowchart plan.now) lines.now inputs.now
        out.old.items out.new.items) }
{
    let text = plan.text();
    let steps = trace_run(alloc, plan, inputs)?;
    let methods = list_statements(alloc, text.plan())?;
    let mut values = begin_values(alloc, text, inputs)?;
    let telling = Telling {
        alloc,
        plan: text,
        methods: &methods,
        lines,
    };
    write_steps(telling, out, &mut values, &steps)
}
