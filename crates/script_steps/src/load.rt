//! The line `load`.
ghost use Rattle.std.specs.Prelude.{◌≡◌, ◌≢◌, IfOk, OnErr, Ok, Err};
ghost use Rattle.std.specs.Result.{ForErr};
ghost use Rattle.outside.specs.Causes.{Caused};
ghost use Rattle.script_steps.specs.private.Replies.{reply_of};
ghost use Rattle.script_lang.specs.Commands as asked;
ghost use Rattle.script_steps.specs.LineSteps.{IsTableStep};
ghost use Rattle.script_steps.specs.Standings.{StaysOrSteps};
ghost use Rattle.script_steps.specs.private.StepViews.{IsMade, IsUnmade, IsWant, ToldDoes};

use crate::edits::{OK, edit_reply};
use crate::refusals::table_refusal;
use crate::reply::LineReply;
use crate::script::Script;
use crate::stop::LineStop;
use outside::Files;
use payroll_records::{LONGEST_TABLE, TableFault, read_table};
use plain_words::TextFile;
use std::alloc::{AllocError, Global};
use std::sync::ledger::Ledger;
use steps::Steps;

/// The line `load`, with its file's name.
pub(crate) fn load<F: Files, L: Ledger>(
    alloc: Global,
    script: &mut Script,
    file: &str,
    files: &mut F,
    steps: &mut Steps<L>,
) -> Result<LineReply, LineStop>
    ensures made { IfOk result (λ reply. IsMade
        (ToldDoes (F.told files.old) script.old (Ok (asked.load file.now)))
        script.new steps.old steps.new (reply_of reply)) }
    ensures unmade { ForErr result (IsUnmade (F.told files.old)
        (ToldDoes (F.told files.old) script.old (Ok (asked.load file.now)))
        (asked.load file.now) steps.old steps.new (F.failed files.new)) }
    ensures left { OnErr result (StaysOrSteps
        (ToldDoes (F.told files.old) script.old (Ok (asked.load file.now)))
        script.old script.new) }
    ensures unchanged { result ≡ Err LineStop.File → script.new ≡ script.old }
    ensures same { F.told files.new ≡ F.told files.old }
    ensures file { Caused LineStop.File (F.faults files.old) (F.faults files.new) result }
    ensures kept { result ≢ Err LineStop.File → F.failed files.new ≡ F.failed files.old }
{
    let table = files.read_front(alloc, file, LONGEST_TABLE + 1)?;
    Ok(load_table(alloc, script, file, &table, steps)?)
}

/// Loads the table of a file's text.
fn load_table<L: Ledger>(
    alloc: Global,
    script: &mut Script,
    file: &str,
    table: &[u8],
    steps: &mut Steps<L>,
) -> Result<LineReply, AllocError>
    ensures made { IfOk result (λ reply. IsMade (IsTableStep script.old table.now)
        script.new steps.old steps.new (reply_of reply)) }
    ensures lost { OnErr result
        (IsWant (IsTableStep script.old table.now) steps.old steps.new) }
    ensures left { OnErr result
        (StaysOrSteps (IsTableStep script.old table.now) script.old script.new) }
{
    match read_table(alloc, table) {
        Ok(runs) => {
            let made = script.book.load(runs, steps);
            edit_reply(alloc, &mut script.made, OK, made)
        }
        Err(TableFault::Memory(error)) => Err(error),
        Err(fault) => {
            let file = TextFile {
                name: file,
                bytes: table,
            };
            table_refusal(alloc, file, &fault)
        }
    }
}
