//! The lines of a run's steps.
ghost use Rattle.std.specs.Prelude.{◌≡◌, ◌++◌, OnOk};
ghost use Rattle.pap_tree.specs.Flowchart.{flowchart_of};
ghost use Rattle.run_trace.specs.StepLines.{traced_line, traced_lines, values_behind, answer_words};
ghost use Rattle.run_trace.specs.private.TellingViews.{KnowsStatements};

use crate::telling::{Telling, Told};
use crate::values::put_value;
use month_trace::TraceStep;
use scaled_decimal::Dec;
use std::alloc::AllocError;

/// Appends a line for each step. The values are those before the first step, and in the end those behind the last.
pub(crate) fn write_steps(
    telling: Telling<'_>,
    out: &mut Vec<u8>,
    values: &mut [Dec],
    steps: &[TraceStep],
) -> Result<(), AllocError>
    requires { KnowsStatements telling }
    ensures { OnOk result (out.new.items ≡ out.old.items
        ++ traced_lines (flowchart_of telling.entry.plan.now) telling.entry.lines.now values.old steps.now) }
{
    for step in steps {
        write_step(telling, out, values, step)?;
        follow(telling, values, step);
    }
    Ok(())
}

/// Appends the line of a step.
fn write_step(
    telling: Telling<'_>,
    out: &mut Vec<u8>,
    values: &[Dec],
    step: &TraceStep,
) -> Result<(), AllocError>
    requires { KnowsStatements telling }
    ensures { OnOk result (out.new.items ≡ out.old.items
        ++ traced_line (flowchart_of telling.entry.plan.now) telling.entry.lines.now values.now step.now) }
{
    let alloc = telling.alloc;
    match step {
        TraceStep::Set {
            method,
            stmt,
            target,
            value,
        } => {
            let before = format!(in alloc; "set {target} = {value}  by ")?;
            let told = Told {
                method: *method,
                statement: *stmt,
                before: before.as_bytes(),
                behind: b"",
            };
            telling.write(out, values, told)
        }
        TraceStep::Test { method, stmt, yes } => {
            let told = Told {
                method: *method,
                statement: *stmt,
                before: b"",
                behind: answer_words(*yes),
            };
            telling.write(out, values, told)
        }
        TraceStep::Enter {
            method,
            stmt,
            callee,
        } => {
            let before = format!(in alloc; "execute {callee}")?;
            let told = Told {
                method: *method,
                statement: *stmt,
                before: before.as_bytes(),
                behind: b"",
            };
            telling.write(out, values, told)
        }
    }
}

/// How a test is answered.
fn answer_words(yes: bool) -> &'static [u8]
    ensures { result.now ≡ answer_words yes }
{
    if yes { b" -> yes" } else { b" -> no" }
}

/// Puts the value that a step puts.
pub(crate) fn follow(telling: Telling<'_>, values: &mut [Dec], step: &TraceStep)
    ensures { values.new ≡ values_behind (flowchart_of telling.entry.plan.now) values.old step.now }
{
    if let TraceStep::Set { target, value, .. } = step {
        put_value(telling.plan, values, target, *value);
    }
}
