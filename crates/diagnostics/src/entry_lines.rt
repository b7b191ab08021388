//! All faults of a range file's entries, a line each.
ghost use Rattle.std.specs.Prelude.{IfOk};
ghost use Rattle.std.specs.String.{string_bytes};
ghost use Rattle.toml.specs.View.{table_view};
ghost use Rattle.limits_file.specs.RangeFiles.{IsToml};
ghost use Rattle.plain_words.specs.Places.{files_of};
ghost use Rattle.diagnostics.specs.FurtherFaults.{TellsEntryFaults};
ghost use Rattle.diagnostics.specs.private.StageViews.{HasTable};

use crate::fault_lines::{MOST_TOLD, put_lines};
use plain_words::{TextFile, entry_words};
use range_faults::{file_faults, read_table};
use std::alloc::{AllocError, Global};
use toml::Table;

/// What is wrong with the entries of a range file that is TOML, in lines: the words of the first 20 faults, and then how many more there
/// are. Fails only for lack of memory.
pub(crate) fn entry_lines(
    alloc: Global,
    plan: TextFile<'_>,
    limits: TextFile<'_>,
) -> Result<String, AllocError>
    requires { HasTable limits.bytes.now }
    ensures { IfOk result
        (λ text. TellsEntryFaults (files_of plan.entry limits.entry) (string_bytes text)) }
{
    let table = table_of(alloc, limits.bytes)?;
    let faults = file_faults(alloc, &table)?;
    let mut text = String::new(alloc);
    put_lines(&mut text, &faults, MOST_TOLD, |fault| {
        entry_words(alloc, plan, limits, &table, fault)
    })?;
    Ok(text)
}

/// The table of a range file that is TOML.
fn table_of(alloc: Global, limits: &[u8]) -> Result<Table, AllocError>
    requires { HasTable limits.now }
    ensures { IfOk result (λ table. IsToml limits.now (table_view table)) }
{
    match read_table(alloc, limits) {
        Ok(Some(table)) => Ok(table),
        Ok(None) => unreachable!(),
        Err(failed) => Err(failed),
    }
}
