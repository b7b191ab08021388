//! All faults of a range file's entries, each in words of its own.
ghost use Rattle.std.specs.Prelude.{◌≡◌, ◌⊎◌, IfOk, IfSome};
ghost use Rattle.std.specs.String.{string_bytes};
ghost use Rattle.range_faults.specs.declared.fault.EntryFault.TheVariants as faulty;
ghost use Rattle.plain_words.specs.Lines.{IsOneLine};
ghost use Rattle.plain_words.specs.Places.{files_of};
ghost use Rattle.plain_words.specs.EntryPlaces.{IsAtBound, IsByteOfFault, IsLineWith};
ghost use Rattle.plain_words.specs.EntryTexts.{BeginsAtEntry, entry_fault_text, headed_entry_text};
ghost use Rattle.plain_words.specs.private.FoundViews.{IsOfRanges};

use crate::bounds::{BoundFault, BoundKey, write_bounds_fault, write_fault};
use crate::entry_lines::{entry_byte, key_byte, section_byte};
use crate::found::Found;
use crate::place::TextFile;
use crate::reason::reason_line;
use crate::section::{is_entry_key, write_entry_fault, write_key_fault};
use range_faults::{EntryFault, Section, file_faults, read_table};
use std::alloc::{AllocError, Global};
use toml::{Table, Value};

/// What is wrong with a key of a range file, in one line of plain words that begins with the place in the range file. Fails only for
/// lack of memory.
pub fn entry_words(
    alloc: Global,
    plan: TextFile<'_>,
    limits: TextFile<'_>,
    table: &Table,
    fault: &EntryFault,
) -> Result<String, AllocError>
    ensures line { IfOk result (λ words. IsOneLine (string_bytes words)) }
    ensures place { IfOk result (λ words.
        BeginsAtEntry (files_of plan.entry limits.entry) fault.now (string_bytes words)) }
{
    let front = fault_front(alloc, fault)?;
    let mut rest = String::new(alloc);
    let found = find_fault(limits, table, fault, &mut rest)?;
    let wrong = format!(in alloc; "{front}{rest}")?;
    reason_line(alloc, plan, limits, found, &wrong)
}

/// What a fault names.
fn fault_front(alloc: Global, fault: &EntryFault) -> Result<String, AllocError>
    ensures { IfOk result (λ text. string_bytes text ≡ entry_fault_text fault.now) }
{
    match fault {
        EntryFault::NoSection { key } => format!(in alloc; "the key {} ", key.as_str()),
        EntryFault::Entry { section, entry } => entry_front(alloc, *section, entry.as_str()),
        EntryFault::Key {
            section,
            entry,
            key,
        } => key_front(alloc, *section, entry.as_str(), key.as_str()),
        EntryFault::Bounds { entry } => bounds_front(alloc, entry.as_str()),
    }
}

/// An entry by its heading.
fn entry_front(alloc: Global, section: Section, entry: &str) -> Result<String, AllocError>
    ensures { IfOk result (λ text. string_bytes text ≡ headed_entry_text section entry.now) }
{
    let table = section.name();
    format!(in alloc; "the entry [{table}.{entry}] ")
}

/// A key in an entry.
fn key_front(alloc: Global, section: Section, entry: &str, key: &str) -> Result<String, AllocError>
    ensures { IfOk result (λ text.
        string_bytes text ≡ entry_fault_text (faulty.Key section entry.now key.now)) }
{
    let entry = entry_front(alloc, section, entry)?;
    format!(in alloc; "in {entry}the key {key} ")
}

/// The bounds in an entry.
fn bounds_front(alloc: Global, entry: &str) -> Result<String, AllocError>
    ensures { IfOk result (λ text.
        string_bytes text ≡ entry_fault_text (faulty.Bounds entry.now)) }
{
    let entry = entry_front(alloc, Section::Input, entry)?;
    format!(in alloc; "in {entry}")
}

/// Where the first fault of a range file's entries is; what is wrong is appended.
pub(crate) fn find_first(limits: TextFile<'_>, told: &mut String) -> Result<Found, AllocError>
    ensures { IfOk result (λ found. IsOfRanges found) }
{
    let alloc = *told.allocator();
    if let Some(table) = read_table(alloc, limits.bytes)? {
        let faults = file_faults(alloc, &table)?;
        if let Some(fault) = faults.first() {
            let front = fault_front(alloc, fault)?;
            told.push_str(&front)?;
            return find_fault(limits, &table, fault, told);
        }
    }
    Ok(Found::in_ranges(None))
}

/// Where a fault of a range file's table is; what is wrong there is appended, behind what the fault names.
fn find_fault(
    limits: TextFile<'_>,
    table: &Table,
    fault: &EntryFault,
    told: &mut String,
) -> Result<Found, AllocError>
    ensures file { IfOk result (λ found. IsOfRanges found) }
    ensures at { IfOk result
        (λ found. IfSome found.at (IsByteOfFault limits.entry.bytes.now fault.now)) }
{
    match fault {
        EntryFault::NoSection { key } => find_section(limits, key.as_str(), told),
        EntryFault::Entry { section, entry } => {
            find_entry(limits, table, *section, entry.as_str(), told)
        }
        EntryFault::Key {
            section,
            entry,
            key,
        } => find_key(limits, table, *section, entry.as_str(), key.as_str(), told),
        EntryFault::Bounds { entry } => find_bounds(limits, table, entry.as_str(), told),
    }
}

/// Where a key of the file stands that is none of its tables; that is appended.
fn find_section(limits: TextFile<'_>, key: &str, told: &mut String) -> Result<Found, AllocError>
    ensures file { IfOk result (λ found. IsOfRanges found) }
    ensures at { IfOk result (λ found. IfSome found.at (IsLineWith limits.entry.bytes.now key.now)) }
{
    let at = section_byte(limits.bytes, key);
    told.push_str(if is_entry_key(key) {
        "stands above all headings, in no entry"
    } else if key == Section::Bind.name() || key == Section::Input.name() {
        "isn't a table of entries"
    } else {
        "isn't one of a range file"
    })?;
    Ok(Found::in_ranges(at).with_help(section_help(key)))
}

/// What helps against a key of the file that is none of its tables.
fn section_help(key: &str) -> &'static str {
    if is_entry_key(key) {
        return "write the heading of its entry above it, as [input.NAME]";
    }
    "a range file has entries [input.NAME] and [bind.NAME] alone"
}

/// Where an entry stands that fails by its own key; why is appended.
fn find_entry(
    limits: TextFile<'_>,
    table: &Table,
    section: Section,
    name: &str,
    told: &mut String,
) -> Result<Found, AllocError>
    ensures file { IfOk result (λ found. IsOfRanges found) }
    ensures at { IfOk result (λ found. IfSome found.at (IsLineWith limits.entry.bytes.now name.now)) }
{
    let help = write_entry_fault(told, section, name, value_of(table, section, name))?;
    let at = entry_byte(limits.bytes, section, name);
    Ok(Found::in_ranges(at).with_help(help))
}

/// Where a key of an entry stands that isn't allowed there; why is appended.
fn find_key(
    limits: TextFile<'_>,
    table: &Table,
    section: Section,
    name: &str,
    key: &str,
    told: &mut String,
) -> Result<Found, AllocError>
    ensures file { IfOk result (λ found. IsOfRanges found) }
    ensures at { IfOk result (λ found. IfSome found.at
        (λ at. IsLineWith limits.entry.bytes.now key.now at ⊎ IsLineWith limits.entry.bytes.now name.now at)) }
{
    let at = key_byte(limits.bytes, section, name, key);
    let found = Found::in_ranges(at);
    match value_of(table, section, name) {
        Some(Value::Table(entry)) => {
            Ok(found.with_help(write_key_fault(told, section, key, entry)?))
        }
        _ => Ok(found),
    }
}

/// Where the bounds of an input break their rule, or an input is one too many; which of these it is is appended.
fn find_bounds(
    limits: TextFile<'_>,
    table: &Table,
    name: &str,
    told: &mut String,
) -> Result<Found, AllocError>
    ensures file { IfOk result (λ found. IsOfRanges found) }
    ensures at { IfOk result (λ found. IfSome found.at (IsAtBound limits.entry.bytes.now name.now)) }
{
    let fault: BoundFault = match value_of(table, Section::Input, name) {
        Some(Value::Table(entry)) => write_bounds_fault(told, entry)?,
        _ => write_fault(told, None, "a bound breaks its rule", "correct the entry")?,
    };
    let at = bounds_byte(limits.bytes, name, fault.key);
    Ok(Found::in_ranges(at).with_help(fault.help))
}

/// The byte of the line of a bound of an input's entry, or of the entry.
fn bounds_byte(limits: &[u8], name: &str, key: Option<BoundKey>) -> Option<usize>
    ensures { IfSome result (IsAtBound limits.now name.now) }
{
    match key {
        Some(key) => key_byte(limits, Section::Input, name, key.name()),
        None => entry_byte(limits, Section::Input, name),
    }
}

/// The value of an entry.
fn value_of<'a>(table: &'a Table, section: Section, name: &str) -> Option<&'a Value> {
    table.get(section.name())?.as_table()?.get(name)
}
