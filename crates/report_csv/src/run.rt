//! The rows of a run.
ghost use Rattle.std.specs.Prelude.{◌≡◌, ◌∷◌, ◌++◌, [], IfOk, OnOk, codes};
ghost use Rattle.std.specs.List.{flat_map};
ghost use Rattle.scaled_decimal.specs.PlainTexts.{plain_text};
ghost use Rattle.report_csv.specs.Reports.{blocked_fields, comma, header, row_fields, row_line};
ghost use Rattle.report_csv.specs.Reports.{run_text, state_rows};
ghost use Rattle.report_csv.specs.private.Views.{output_line};

use crate::front::{put_field, write_front};
use crate::rows::Rows;
use crate::texts::{day_text, put_number};
use book_year::State;
use carry_bindings::Blocked;
use payroll_records::{Day, Key, NamedValue};
use std::alloc::{AllocError, Global};

/// Texts that are written anew for each run or row, in memory that is taken once.
#[derive(Drop)]
pub(crate) struct RowTexts {
    /// The first fields of a run's rows.
    front: Vec<u8>,
    /// The last two fields of a row: the name of an output and its value.
    output: Vec<u8>,
}

impl RowTexts {
    pub(crate) fn new(alloc: Global) -> RowTexts {
        RowTexts {
            front: Vec::new(alloc),
            output: Vec::new(alloc),
        }
    }
}

/// The rows with the first row of a report.
pub(crate) fn with_header(rows: Rows) -> Result<Rows, AllocError>
    ensures { IfOk result (λ more. more ≡ rows ++ row_line header) }
{
    rows.with(&[
        b"employee",
        b"month",
        b"day",
        b"plan",
        b"state",
        b"name",
        b"value",
    ])
}

/// The rows with those of a run: one for each of its outputs in declared order, or one where it isn't ok.
pub(crate) fn with_run(
    rows: Rows,
    texts: &mut RowTexts,
    key: &Key,
    plan: Option<Day>,
    state: &State,
) -> Result<Rows, AllocError>
    ensures { IfOk result (λ more. more ≡ rows ++ run_text key.now plan state.now) }
{
    write_front(&mut texts.front, key, plan)?;
    with_state(rows, texts, state)
}

/// The rows with those of a run, whose first fields are those of the front.
fn with_state(rows: Rows, texts: &mut RowTexts, state: &State) -> Result<Rows, AllocError>
    ensures { IfOk result (λ more. more
        ≡ rows ++ flat_map row_line (state_rows (texts.old.front.items ∷ []) state.now)) }
{
    match state {
        State::NoPlan => with_no_plan(rows, texts.front.as_slice()),
        State::Blocked(why) => with_cause(rows, texts.front.as_slice(), why),
        State::Done(outputs) => {
            put_field(&mut texts.front, b"ok")?;
            let front = texts.front.as_slice();
            with_outputs(rows, front, &mut texts.output, outputs.as_slice())
        }
    }
}

/// The rows with that of a run that has no plan.
fn with_no_plan(rows: Rows, front: &[u8]) -> Result<Rows, AllocError>
    ensures { IfOk result (λ more. more
        ≡ rows ++ row_line (row_fields (front.now ∷ []) (codes "noplan") [] [])) }
{
    rows.with(&[front, b"noplan", b"", b""])
}

/// The rows with why a run has no inputs.
fn with_cause(rows: Rows, front: &[u8], why: &Blocked) -> Result<Rows, AllocError>
    ensures { IfOk result
        (λ more. more ≡ rows ++ row_line (blocked_fields (front.now ∷ []) why.now)) }
{
    match why {
        Blocked::Waits(day) => rows.with(&[front, b"waits", &day_text(*day), b""]),
        Blocked::Unknown(name) => rows.with(&[front, b"unknown", name.bytes(), b""]),
        Blocked::Missing(name) => rows.with(&[front, b"missing", name.bytes(), b""]),
        Blocked::Range(name) => rows.with(&[front, b"range", name.bytes(), b""]),
    }
}

/// The rows with one for each output, whose first fields and state are those of `front`. The others are written over a text.
fn with_outputs(
    rows: Rows,
    front: &[u8],
    text: &mut Vec<u8>,
    outputs: &[NamedValue],
) -> Result<Rows, AllocError>
    ensures { IfOk result (λ more. more ≡ rows ++ flat_map (output_line front.now) outputs.now) }
{
    let mut rows = rows;
    for output in outputs {
        write_output(text, output)?;
        rows = rows.with(&[front, text.as_slice()])?;
    }
    Ok(rows)
}

/// Writes the name of an output and its value over a text, with a comma between.
fn write_output(text: &mut Vec<u8>, output: &NamedValue) -> Result<(), AllocError>
    ensures { OnOk result
        (text.new.items ≡ output.now.name ++ comma ∷ plain_text output.now.value) }
{
    text.clear();
    text.extend_from_slice(output.name.bytes())?;
    text.push(b',')?;
    put_number(output.value, text)
}
