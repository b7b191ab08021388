//! What the line `try` answers.
ghost use Rattle.std.specs.Prelude.{◌≡◌, ◌++◌, IfOk, OnOk, string_bytes};
ghost use Rattle.std.specs.List.{flat_map};
ghost use Rattle.script_steps.specs.private.Replies.{reply_of};
ghost use Rattle.script_steps.specs.LineTexts.{amount_word, shown_word, trial_line, trial_text};
ghost use Rattle.script_steps.specs.private.StepViews.{IsTrialReply};

use crate::refusals::edit_refusal;
use crate::reply::{LineReply, answered};
use recalc_engine::{EditRefusal, Work};
use scaled_decimal::Dec;
use std::alloc::{AllocError, Global};
use what_if::{Shown, Trial, TrialRow, TryRefusal};

/// What is answered to a trial, behind the line of the plan's bound.
pub(crate) fn trial_reply(
    alloc: Global,
    bound: String,
    trial: Result<Trial, TryRefusal>,
) -> Result<LineReply, AllocError>
    ensures { IfOk result (λ reply. IsTrialReply (string_bytes bound) trial (reply_of reply)) }
{
    match trial {
        Ok(trial) => Ok(answered(trial_text(alloc, bound, &trial)?, trial.work.steps)),
        Err(TryRefusal::Plans) => edit_refusal(alloc, &EditRefusal::Plans),
        Err(TryRefusal::Memory(error)) => Err(error),
    }
}

/// The line of the plan's bound, a line for each row, and the work of putting the plan.
fn trial_text(alloc: Global, bound: String, trial: &Trial) -> Result<Vec<u8>, AllocError>
    ensures { IfOk result
        (λ text. text.items ≡ string_bytes bound ++ trial_text trial.now) }
{
    let mut text = bound;
    write_rows(alloc, &mut text, trial.rows.as_slice())?;
    let Work { runs, steps } = trial.work;
    write!(text, "would {runs} {steps}\n")?;
    Ok(text.into_bytes())
}

/// Appends a line for each row.
fn write_rows(alloc: Global, text: &mut String, rows: &[TrialRow]) -> Result<(), AllocError>
    ensures { OnOk result
        (string_bytes text.new ≡ string_bytes text.old ++ flat_map trial_line rows.now) }
{
    for row in rows {
        write_row(alloc, text, row)?;
    }
    Ok(())
}

/// Appends the line of a row.
fn write_row(alloc: Global, text: &mut String, row: &TrialRow) -> Result<(), AllocError>
    ensures { OnOk result
        (string_bytes text.new ≡ string_bytes text.old ++ trial_line row.now) }
{
    match row {
        TrialRow::Changed { key, before, after } => {
            let employee = key.employee;
            let day = key.day;
            let old = shown_word(*before);
            let new = shown_word(*after);
            write!(text, "changed {employee} {day} {old} {new}\n")
        }
        TrialRow::Value {
            key,
            name,
            before,
            after,
        } => {
            let employee = key.employee;
            let day = key.day;
            let old = amount_word(alloc, *before)?;
            let new = amount_word(alloc, *after)?;
            write!(text, "value {employee} {day} {name} {old} {new}\n")
        }
    }
}

/// The word of a state.
fn shown_word(shown: Shown) -> &'static str
    ensures { result.now ≡ shown_word shown }
{
    match shown {
        Shown::NoPlan => "noplan",
        Shown::Waits => "waits",
        Shown::Unknown => "unknown",
        Shown::Missing => "missing",
        Shown::Range => "range",
        Shown::Done => "ok",
    }
}

/// The value of an output, or `-` where it isn't there.
fn amount_word(alloc: Global, amount: Option<Dec>) -> Result<String, AllocError>
    ensures { IfOk result (λ word. string_bytes word ≡ amount_word amount) }
{
    match amount {
        Some(value) => format!(in alloc; "{value}"),
        None => format!(in alloc; "-"),
    }
}
