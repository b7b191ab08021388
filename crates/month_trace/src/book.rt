//! The trace of a run of a book.
ghost use Rattle.std.specs.Prelude.{◌≡◌, Ok, IfOk, IfErr};
ghost use Rattle.month_trace.specs.BookTraces.{IsTraceRefused, key_meant, run_meant, trace_said};

use crate::refusal::TraceRefusal;
use crate::run::trace_run;
use crate::step::TraceStep;
use payroll_records::{Employee, Key, Month, When};
use recalc_engine::{Book, InMonth};
use std::alloc::Global;

/// The trace of an employee's run on a day, or of the only one in a month: the statements that its job executes.
pub fn trace(
    alloc: Global,
    b: &Book,
    employee: Employee,
    when: When,
) -> Result<Vec<TraceStep>, TraceRefusal>
    ensures ok { IfOk result (λ steps. trace_said b.now employee when ≡ Ok steps.items) }
    ensures refused { IfErr result (IsTraceRefused b.now employee when) }
{
    let key = run_meant(b, employee, when)?;
    let Some(job) = b.job(&key) else {
        return Err(TraceRefusal::NotDone { key });
    };
    let steps = trace_run(alloc, job.plan, job.inputs)?;
    Ok(steps)
}

/// The key of the run that is meant: that of the day, or the only one of the month.
fn run_meant(b: &Book, employee: Employee, when: When) -> Result<Key, TraceRefusal>
    ensures { result ≡ key_meant employee when (run_meant b.now employee when) }
{
    match when {
        When::Day(day) => {
            let key = Key { employee, day };
            if b.find(&key).is_none() {
                return Err(TraceRefusal::Absent { employee, when });
            }
            Ok(key)
        }
        When::Month(month) => only_key(b.in_month(&employee, month), employee, month),
    }
}

/// The key of the only run that an employee has in a month, or why there is none.
fn only_key(found: InMonth, employee: Employee, month: Month) -> Result<Key, TraceRefusal>
    ensures { result ≡ key_meant employee (When.Month month) found }
{
    match found {
        InMonth::Empty => Err(TraceRefusal::Absent {
            employee,
            when: When::Month(month),
        }),
        InMonth::One(key) => Ok(key),
        InMonth::Several => Err(TraceRefusal::Several { employee, month }),
    }
}
