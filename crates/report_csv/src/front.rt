//! What the rows of a run begin with.
ghost use Rattle.std.specs.Prelude.{◌≡◌, OnOk, ◌∷◌, ◌++◌};
ghost use Rattle.std.specs.List.{join_with_byte};
ghost use Rattle.report_csv.specs.Reports.{comma, plan_text, run_front};

use crate::texts::{day_text, month_text};
use payroll_records::{Day, Key};
use std::alloc::AllocError;

/// Writes the first four fields of each row of a run over a text, with commas between: the employee, the month, the day, and the
/// day of the plan, where a plan pays the run.
pub(crate) fn write_front(
    text: &mut Vec<u8>,
    key: &Key,
    plan: Option<Day>,
) -> Result<(), AllocError>
    ensures { OnOk result
        (text.new.items ≡ join_with_byte comma (run_front key.now plan)) }
{
    text.clear();
    text.extend_from_slice(key.employee.bytes())?;
    put_field(text, &month_text(key.day))?;
    put_field(text, &day_text(key.day))?;
    put_plan(text, plan)?;
    Ok(())
}

/// Appends a comma and the day from which a plan holds, where there is a plan.
fn put_plan(text: &mut Vec<u8>, plan: Option<Day>) -> Result<(), AllocError>
    ensures { OnOk result (text.new.items ≡ text.old.items ++ comma ∷ plan_text plan) }
{
    match plan {
        Some(day) => put_field(text, &day_text(day)),
        None => put_field(text, b""),
    }
}

/// Appends a comma and a field.
pub(crate) fn put_field(text: &mut Vec<u8>, field: &[u8]) -> Result<(), AllocError>
    ensures { OnOk result (text.new.items ≡ text.old.items ++ comma ∷ field.now) }
{
    text.push(b',')?;
    text.extend_from_slice(field)
}
