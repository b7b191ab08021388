//! The faults of a whole range file.
ghost use Rattle.std.specs.Prelude.{◌≡◌, ℕ, IfOk, MatchOption, OnOk, codes};
ghost use Rattle.std.specs.Str.{bytes_eq};
ghost use Rattle.toml.specs.View.{table_view, view};
ghost use Rattle.limits_file.specs.RangeFiles.{IsToml};
ghost use Rattle.range_faults.specs.FileFaults.{AreSectionFaults, AreTableFaults, FirstEntryFaultIsAnswered, HaveOneList, IsNoTable};
ghost use Rattle.range_faults.specs.private.FaultViews.{Adds};

use crate::EntryFault;
use crate::entries::{add_bindings, add_inputs, put_section};
use limits_file::LONGEST_LIMITS;
use std::alloc::{AllocError, Global};
use toml::{Table, Value};

/// The table of a range file's text. `None` where the text has too many bytes, or isn't TOML. Fails only for lack of memory.
pub fn read_table(alloc: Global, bytes: &[u8]) -> Result<Option<Table>, AllocError>
    ensures { IfOk result (λ read. MatchOption read (IsNoTable bytes.now)
        (λ table. IsToml bytes.now (table_view table))) }
{
    if bytes.len() > LONGEST_LIMITS {
        return Ok(None);
    }
    match toml::table_from_slice(alloc, bytes) {
        Ok(table) => Ok(Some(table)),
        Err(error) => {
            if error.is_memory() {
                Err(AllocError)
            } else {
                Ok(None)
            }
        }
    }
}

/// The faults of a range file's table: of each key of the file, of each entry and of each key in it, in the order in which they are
/// read. The first is the one that `read_limits` answers. Fails only for lack of memory.
pub fn file_faults(alloc: Global, table: &Table) -> Result<Vec<EntryFault>, AllocError>
    ensures { IfOk result (λ faults. AreTableFaults (table_view table.now) faults.items) }
{
    let mut faults = Vec::new(alloc);
    for (key, value) in table {
        add_section(&mut faults, key, value)?;
    }
    Ok(faults)
}

/// Laws, with nothing to run: a range file that is TOML has one list of faults, and its first is what the file is refused for.
pub fn fault_laws()
    ensures one { HaveOneList }
    ensures first { FirstEntryFaultIsAnswered }
{}

/// Adds the faults of a key of the file.
fn add_section(faults: &mut Vec<EntryFault>, key: &str, value: &Value) -> Result<(), AllocError>
    ensures { OnOk result ((n : ℕ) → Adds (AreSectionFaults n key.now (view value.now))
        faults.old.items faults.new.items) }
{
    let Some(entries) = value.as_table() else {
        return put_section(faults, key);
    };
    if is_bind(key) {
        return add_bindings(faults, entries);
    }
    if is_input(key) {
        return add_inputs(faults, entries);
    }
    put_section(faults, key)
}

/// Whether a key is that of the bindings.
fn is_bind(key: &str) -> bool
    ensures { result ≡ bytes_eq key.now (codes "bind") }
{
    key == "bind"
}

/// Whether a key is that of the inputs.
fn is_input(key: &str) -> bool
    ensures { result ≡ bytes_eq key.now (codes "input") }
{
    key == "input"
}
