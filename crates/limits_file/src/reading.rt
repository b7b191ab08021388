//! A range file is read key by key, in byte order of its keys.
ghost use Rattle.std.specs.Prelude.{◌≡◌, ◌<◌, ◌≤◌, ◌↔◌, ℕ, List, Ok, Err, IfOk, IfErr, length};
ghost use Rattle.toml.specs.View.{table_view};
ghost use Rattle.limits_file.specs.private.AnswerViews.{Tells, IsNoTomlOrMemory};
ghost use Rattle.limits_file.specs.Faults.{no_toml, bad_key, bad_bound};
ghost use Rattle.limits_file.specs.Limits.{longest_limits};
ghost use Rattle.limits_file.specs.RangeFiles.{SectionSays, joined_limits, IsToml, FileSays, FilesAreInOrder, NamesAreInOrder, RangeFileHasOneAnswer};
ghost use Rattle.limits_file.specs.Walks.{KeysSay};

use crate::bindings::read_bindings;
use crate::inputs::read_inputs;
use crate::{Items, Limits, LimitsFault};
use std::alloc::{AllocError, Global};
use toml::Table;

/// The greatest number of bytes of a range file.
pub const LONGEST_LIMITS: usize = 262_144;

/// The limits and bindings of a range file's text.
///
/// The first fault in order of keys is the one that is answered, `bind` before `input`. Within an entry its name comes
/// first, then the keys that stand there in byte order, then those that are missing, then the rule for its bounds.
/// `LimitsLong` and `Toml` are tried before all others.
pub fn read_limits(alloc: Global, bytes: &[u8]) -> Result<Limits, LimitsFault>
    ensures limits { IfOk result (λ limits. FileSays bytes.now (Ok limits)) }
    ensures in_order { IfOk result NamesAreInOrder }

    ensures long { (result ≡ Err LimitsFault.LimitsLong) ↔ (longest_limits < length bytes.now) }
    ensures toml { result ≡ Err LimitsFault.Toml → FileSays bytes.now (Err no_toml) }
    ensures key { (label : List ℕ) → result ≡ Err (LimitsFault.Key label)
        → FileSays bytes.now (Err (bad_key label)) }
    ensures bound { (label : List ℕ) → result ≡ Err (LimitsFault.Bound label)
        → FileSays bytes.now (Err (bad_bound label)) }
{
    if bytes.len() > LONGEST_LIMITS {
        return Err(LimitsFault::LimitsLong);
    }
    let table = read_toml(alloc, bytes)?;
    read_table(alloc, &table)
}

/// A text has one answer: its limits or its first fault, and not both.
pub fn each_text_has_one_answer()
    ensures { (bytes : List ℕ) → RangeFileHasOneAnswer bytes }
{}

/// The keys of a range file stand in byte order, and none stands twice: the order in which they are read, which is that of the
/// first fault.
pub fn files_are_in_order()
    ensures { FilesAreInOrder }
{}

/// The table of a text.
fn read_toml(alloc: Global, bytes: &[u8]) -> Result<Table, LimitsFault>
    requires { length bytes.now ≤ longest_limits }
    ensures read { IfOk result (λ table. IsToml bytes.now (table_view table)) }
    ensures refused { IfErr result (IsNoTomlOrMemory bytes.now) }
{
    match toml::table_from_slice(alloc, bytes) {
        Ok(table) => Ok(table),
        Err(error) => {
            if error.is_memory() {
                Err(LimitsFault::Memory(AllocError))
            } else {
                Err(LimitsFault::Toml)
            }
        }
    }
}

/// What a whole table says.
fn read_table(alloc: Global, table: &Table) -> Result<Limits, LimitsFault>
    ensures says { Tells (KeysSay SectionSays joined_limits (table_view table.now)) result }
    ensures in_order { IfOk result NamesAreInOrder }
{
    let mut limits = Limits {
        inputs: Items::from_vec(Vec::new(alloc)),
        bindings: Items::from_vec(Vec::new(alloc)),
    };
    for (key, value) in table {
        let Some(entries) = value.as_table() else {
            return Err(LimitsFault::key(key));
        };
        match key.as_str() {
            "bind" => limits.bindings = read_bindings(alloc, entries)?,
            "input" => limits.inputs = read_inputs(alloc, entries)?,
            _ => return Err(LimitsFault::key(key)),
        }
    }
    Ok(limits)
}
