//! The faults of entries.
ghost use Rattle.std.specs.Prelude.{◌≡◌, ◌∷◌, ◌++◌, ◌-◌, ◌<◌, ◌↔◌, [], ℕ, if◌then◌else◌, IsTrue, MatchBool, OnOk, length, map};
ghost use Rattle.toml.specs.View.{table_view, view};
ghost use Rattle.pap_tree.specs.Limits.{most_inputs};
ghost use Rattle.range_faults.specs.EntryFaults.{AreBindingFaults, AreInputFaults, entry_form, key_faults, named_faults, unsuited_keys};
ghost use Rattle.range_faults.specs.FileFaults.{AreFaultsOfAll};
ghost use Rattle.range_faults.specs.declared.fault.EntryFault.TheVariants as faulty;
ghost use Rattle.range_faults.specs.private.FaultViews.{Adds, IsAccepted, IsUnaccepted};

use crate::bounds::limit_at;
use crate::forms::{has_needed_keys, named_entry, suits};
use crate::{EntryFault, KeyText, Section};
use pap_tree::MOST_INPUTS;
use std::alloc::AllocError;
use toml::{Table, Value};

/// Adds the faults of the entries of `bind`.
pub(crate) fn add_bindings(faults: &mut Vec<EntryFault>, entries: &Table) -> Result<(), AllocError>
    ensures { OnOk result (Adds (AreFaultsOfAll AreBindingFaults 0 (table_view entries.now))
        faults.old.items faults.new.items) }
{
    for (name, value) in entries {
        add_key_faults(faults, Section::Bind, name, value)?;
    }
    Ok(())
}

/// Adds the faults of the entries of `input`.
pub(crate) fn add_inputs(faults: &mut Vec<EntryFault>, entries: &Table) -> Result<(), AllocError>
    ensures { OnOk result (Adds (AreFaultsOfAll AreInputFaults 0 (table_view entries.now))
        faults.old.items faults.new.items) }
{
    let mut room = MOST_INPUTS;
    for (name, value) in entries {
        add_input(faults, room, name, value)?;
        room = room.saturating_sub(1);
    }
    Ok(())
}

/// Adds the faults of an input's entry, behind which there is room for so many inputs, with its own.
fn add_input(
    faults: &mut Vec<EntryFault>,
    room: u32,
    name: &str,
    value: &Value,
) -> Result<(), AllocError>
    ensures { OnOk result ((n : ℕ) → room ≡ most_inputs - n
        → Adds (AreInputFaults n name.now (view value.now)) faults.old.items faults.new.items) }
{
    let before = faults.len();
    add_key_faults(faults, Section::Input, name, value)?;
    if has_grown(faults, before) {
        return Ok(());
    }
    if is_accepted(room, name, value) {
        return Ok(());
    }
    put_bounds(faults, name)
}

/// Whether there are more faults than before.
fn has_grown(faults: &Vec<EntryFault>, before: usize) -> bool
    ensures { IsTrue result ↔ (before < length faults.now.items) }
{
    faults.len() > before
}

/// Whether there is room for an input, and its entry gives a limit.
fn is_accepted(room: u32, name: &str, value: &Value) -> bool
    ensures { MatchBool result (IsAccepted room name.now (view value.now))
        (IsUnaccepted room name.now (view value.now)) }
{
    match limit_at(name, value) {
        Some(_limit) => has_room(room),
        None => false,
    }
}

/// Whether there is room for an input.
fn has_room(room: u32) -> bool
    ensures { IsTrue result ↔ (0 < room) }
{
    room > 0
}

/// Adds the faults of an entry's keys.
fn add_key_faults(
    faults: &mut Vec<EntryFault>,
    section: Section,
    name: &str,
    value: &Value,
) -> Result<(), AllocError>
    ensures { OnOk result (faults.new.items
        ≡ faults.old.items ++ key_faults section name.now (view value.now)) }
{
    match named_entry(name, value) {
        Some(entry) => add_keys(faults, section, name, entry),
        None => put_entry(faults, section, name),
    }
}

/// Adds the faults of the keys of an entry that has the name of an input.
fn add_keys(
    faults: &mut Vec<EntryFault>,
    section: Section,
    name: &str,
    entry: &Table,
) -> Result<(), AllocError>
    ensures { OnOk result (faults.new.items
        ≡ faults.old.items ++ named_faults section name.now (table_view entry.now)) }
{
    add_unsuited(faults, section, name, entry)?;
    if has_needed_keys(section, entry) {
        return Ok(());
    }
    put_entry(faults, section, name)
}

/// Adds the keys of an entry that it doesn't have, or whose value doesn't suit them.
fn add_unsuited(
    faults: &mut Vec<EntryFault>,
    section: Section,
    name: &str,
    entry: &Table,
) -> Result<(), AllocError>
    ensures { OnOk result (faults.new.items ≡ faults.old.items ++ map (faulty.Key section name.now)
        (unsuited_keys ((entry_form section).suits (table_view entry.now)) (table_view entry.now))) }
{
    for (key, value) in entry {
        add_key(faults, section, name, entry, key, value)?;
    }
    Ok(())
}

/// Adds a key of an entry, unless it has that and its value suits it.
fn add_key(
    faults: &mut Vec<EntryFault>,
    section: Section,
    name: &str,
    entry: &Table,
    key: &str,
    value: &Value,
) -> Result<(), AllocError>
    ensures { OnOk result (faults.new.items ≡ faults.old.items
        ++ (if (entry_form section).suits (table_view entry.now) key.now (view value.now) then []
        else faulty.Key section name.now key.now ∷ [])) }
{
    if suits(section, entry, key, value) {
        return Ok(());
    }
    put_key(faults, section, name, key)
}

/// Adds a key of an entry.
fn put_key(
    faults: &mut Vec<EntryFault>,
    section: Section,
    name: &str,
    key: &str,
) -> Result<(), AllocError>
    ensures { OnOk result (faults.new.items
        ≡ faults.old.items ++ (faulty.Key section name.now key.now ∷ [])) }
{
    let alloc = *faults.allocator();
    let entry = KeyText::of(alloc, name)?;
    let key = KeyText::of(alloc, key)?;
    put(
        faults,
        EntryFault::Key {
            section,
            entry,
            key,
        },
    )
}

/// Adds an entry by its own key.
fn put_entry(faults: &mut Vec<EntryFault>, section: Section, name: &str) -> Result<(), AllocError>
    ensures { OnOk result (faults.new.items
        ≡ faults.old.items ++ (faulty.Entry section name.now ∷ [])) }
{
    let entry = KeyText::of(*faults.allocator(), name)?;
    put(faults, EntryFault::Entry { section, entry })
}

/// Adds the bounds of an input.
fn put_bounds(faults: &mut Vec<EntryFault>, name: &str) -> Result<(), AllocError>
    ensures { OnOk result (faults.new.items
        ≡ faults.old.items ++ (faulty.Bounds name.now ∷ [])) }
{
    let entry = KeyText::of(*faults.allocator(), name)?;
    put(faults, EntryFault::Bounds { entry })
}

/// Adds a key of the file.
pub(crate) fn put_section(faults: &mut Vec<EntryFault>, key: &str) -> Result<(), AllocError>
    ensures { OnOk result (faults.new.items
        ≡ faults.old.items ++ (faulty.NoSection key.now ∷ [])) }
{
    let key = KeyText::of(*faults.allocator(), key)?;
    put(faults, EntryFault::NoSection { key })
}

/// Appends a fault.
fn put(faults: &mut Vec<EntryFault>, fault: EntryFault) -> Result<(), AllocError>
    ensures { OnOk result (faults.new.items ≡ faults.old.items ++ (fault ∷ [])) }
{
    faults.push(fault)?;
    Ok(())
}
