//! The line `trace`.
ghost use Rattle.std.specs.Prelude.{◌≡◌, ◌++◌, IfOk, OnOk, string_bytes};
ghost use Rattle.script_steps.specs.private.Replies.{reply_of};
ghost use Rattle.script_steps.specs.LineTexts.{step_line, trace_text};
ghost use Rattle.script_steps.specs.TraceSteps.{trace_answer};

use crate::refusals::trace_refusal;
use crate::reply::{LineReply, answered};
use month_trace::{TraceRefusal, TraceStep};
use payroll_records::{Employee, When};
use recalc_engine::Book;
use std::alloc::{AllocError, Global};

/// The line `trace`.
pub(crate) fn trace(
    alloc: Global,
    book: &Book,
    employee: Employee,
    when: When,
) -> Result<LineReply, AllocError>
    ensures { IfOk result (λ reply. reply_of reply ≡ trace_answer book.now employee when) }
{
    match month_trace::trace(alloc, book, employee, when) {
        Ok(steps) => Ok(answered(trace_text(alloc, steps.as_slice())?, 0)),
        Err(TraceRefusal::Memory(error)) => Err(error),
        Err(why) => trace_refusal(alloc, &why),
    }
}

/// A line for each step, and the line `end`.
fn trace_text(alloc: Global, steps: &[TraceStep]) -> Result<Vec<u8>, AllocError>
    ensures { IfOk result (λ text. text.items ≡ trace_text steps.now) }
{
    let mut text = String::new(alloc);
    for step in steps {
        write_step(&mut text, step)?;
    }
    text.push_str("end\n")?;
    Ok(text.into_bytes())
}

/// Appends the line of a step.
fn write_step(text: &mut String, step: &TraceStep) -> Result<(), AllocError>
    ensures { OnOk result
        (string_bytes text.new ≡ string_bytes text.old ++ step_line step.now) }
{
    match step {
        TraceStep::Set {
            method,
            stmt,
            target,
            value,
        } => write!(text, "set {method}:{stmt} {target} {value}\n"),
        TraceStep::Test { method, stmt, yes } => {
            if *yes {
                write!(text, "test {method}:{stmt} yes\n")
            } else {
                write!(text, "test {method}:{stmt} no\n")
            }
        }
        TraceStep::Enter {
            method,
            stmt,
            callee,
        } => write!(text, "call {method}:{stmt} {callee}\n"),
    }
}
