//! The lines `file` and `owed`.
ghost use Rattle.std.specs.Prelude.{◌≡◌, ◌++◌, IfOk, OnErr, OnOk, string_bytes};
ghost use Rattle.script_steps.specs.private.Replies.{reply_of};
ghost use Rattle.script_steps.specs.FilingSteps.{IsFileStep, IsOwedAnswer};
ghost use Rattle.script_steps.specs.Standings.{StaysOrSteps};
ghost use Rattle.script_steps.specs.LineTexts.{due_words, filed_text, owed_text};
ghost use Rattle.plan_answers.specs.Lines.{line, spaced};

use crate::refusals::{file_refusal, owed_refusal};
use crate::reply::{LineReply, answered};
use crate::script::Script;
use correction_ledger::{Due, Entry, FileRefusal, OwedRefusal};
use payroll_records::Month;
use std::alloc::{AllocError, Global};

/// The line `file`.
pub(crate) fn file(
    alloc: Global,
    script: &mut Script,
    month: Month,
) -> Result<LineReply, AllocError>
    ensures made { IfOk result
        (λ reply. IsFileStep script.old month script.new (reply_of reply)) }
    ensures left { OnErr result
        (StaysOrSteps (IsFileStep script.old month) script.old script.new) }
{
    let before = script.ledger.entries().len();
    match script.ledger.file(&script.book, month) {
        Ok(count) => {
            let text = filed_text(alloc, &script.ledger.entries()[before..], count)?;
            Ok(answered(text, 0))
        }
        Err(FileRefusal::Memory(error)) => Err(error),
        Err(why) => file_refusal(alloc, &why),
    }
}

/// A line for each entry that was filed, and their number.
fn filed_text(alloc: Global, entries: &[Entry], count: u64) -> Result<Vec<u8>, AllocError>
    ensures { IfOk result (λ text. text.items ≡ filed_text entries.now count) }
{
    let mut text = String::new(alloc);
    for entry in entries {
        write_due(&mut text, "due", &entry.due)?;
    }
    write!(text, "filed {count}\n")?;
    Ok(text.into_bytes())
}

/// The line `owed`.
pub(crate) fn owed(alloc: Global, script: &Script) -> Result<LineReply, AllocError>
    ensures { IfOk result (λ reply. IsOwedAnswer script.now (reply_of reply)) }
{
    match script.ledger.owed(alloc, &script.book) {
        Ok(dues) => Ok(answered(owed_text(alloc, dues.as_slice())?, 0)),
        Err(OwedRefusal::Memory(error)) => Err(error),
        Err(why) => owed_refusal(alloc, &why),
    }
}

/// A line for each amount that is owed, and the line `end`.
fn owed_text(alloc: Global, dues: &[Due]) -> Result<Vec<u8>, AllocError>
    ensures { IfOk result (λ text. text.items ≡ owed_text dues.now) }
{
    let mut text = String::new(alloc);
    for due in dues {
        write_due(&mut text, "owed", due)?;
    }
    text.push_str("end\n")?;
    Ok(text.into_bytes())
}

/// Appends the line of an amount, which begins with a word.
fn write_due(text: &mut String, word: &str, due: &Due) -> Result<(), AllocError>
    ensures { OnOk result (string_bytes text.new
        ≡ string_bytes text.old ++ line (spaced word.now (due_words due.now))) }
{
    let employee = due.key.employee;
    let day = due.key.day;
    let name = due.name;
    let amount = due.amount;
    write!(text, "{word} {employee} {day} {name} {amount}\n")
}
