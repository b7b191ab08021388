//! The comparison of two range files.
ghost use Rattle.std.specs.Prelude.{◌≡◌, ◌++◌, IfOk, OnOk, map};
ghost use Rattle.std.specs.List.{flat_map};
ghost use Rattle.std.specs.Option.{option_map};
ghost use Rattle.range_comparison.specs.Changes.{entry_change, gone_change, new_change, old_change, entry_changes, range_changes};
ghost use Rattle.range_comparison.specs.private.EntryViews.{ArePlacesFrom, entry_in};

use crate::{RangeChange, RangeEntry};
use limits_file::{Binding, InputLimit, Limits};
use std::alloc::{AllocError, Global};
use std::collections::BTreeMap;

/// The place of the entry for each input, by the bytes of its name.
type Places<'a> = BTreeMap<&'a [u8], usize>;

/// What a range file changed against another: the ranges of inputs, then what inputs carry over, of both in the order of the new
/// file what is new or changed, then in the order of the old one what is gone. Takes time nearly linear in the entries. Fails only
/// for lack of memory.
pub fn compare_ranges(
    alloc: Global,
    old: &Limits,
    new: &Limits,
) -> Result<Vec<RangeChange>, AllocError>
    ensures { IfOk result (λ changes. changes.items ≡ range_changes old.now new.now) }
{
    let mut changes = Vec::new(alloc);
    let old_inputs = input_entries(alloc, old.inputs.as_slice())?;
    let new_inputs = input_entries(alloc, new.inputs.as_slice())?;
    compare_entries(alloc, &mut changes, &old_inputs, &new_inputs)?;
    let old_bindings = binding_entries(alloc, old.bindings.as_slice())?;
    let new_bindings = binding_entries(alloc, new.bindings.as_slice())?;
    compare_entries(alloc, &mut changes, &old_bindings, &new_bindings)?;
    Ok(changes)
}

/// The entries of `[input]`.
fn input_entries(alloc: Global, limits: &[InputLimit]) -> Result<Vec<RangeEntry>, AllocError>
    ensures { IfOk result (λ entries. entries.items ≡ map (λ l. RangeEntry.Input l) limits.now) }
{
    limits
        .iter()
        .map(|limit| RangeEntry::Input(*limit))
        .collect(alloc)
}

/// The entries of `[bind]`.
fn binding_entries(alloc: Global, bindings: &[Binding]) -> Result<Vec<RangeEntry>, AllocError>
    ensures { IfOk result (λ entries. entries.items ≡ map (λ b. RangeEntry.Bind b) bindings.now) }
{
    bindings
        .iter()
        .map(|binding| RangeEntry::Bind(*binding))
        .collect(alloc)
}

/// Appends what is told of the entries of a table of both files.
fn compare_entries<'a>(
    alloc: Global,
    changes: &mut Vec<RangeChange>,
    old: &'a [RangeEntry],
    new: &'a [RangeEntry],
) -> Result<(), AllocError>
    ensures { OnOk result (changes.new.items
        ≡ changes.old.items ++ entry_changes old.now new.now) }
{
    let old_places = places_of(alloc, old)?;
    push_changes(changes, old, &old_places, new)?;
    let new_places = places_of(alloc, new)?;
    push_gone(changes, new, &new_places, old)?;
    Ok(())
}

/// The places of entries by the names of their inputs; of several for one input the first.
fn places_of<'a>(alloc: Global, entries: &'a [RangeEntry]) -> Result<Places<'a>, AllocError>
    ensures { IfOk result (ArePlacesFrom 0 entries.now) }
{
    let mut places = BTreeMap::new(alloc);
    for place in (0..entries.len()).rev() {
        places.insert(entries[place].name_bytes(), place)?;
    }
    Ok(places)
}

/// The entry for an input, if there is one.
fn entry_in<'a>(
    entries: &'a [RangeEntry],
    places: &Places<'a>,
    name: &'a [u8],
) -> Option<&'a RangeEntry>
    ensures { option_map (λ e. e.now) result ≡ entry_in entries.now places.now name.now }
{
    let place = places.get(&name)?;
    entries.get(*place)
}

/// Appends what is told of the entries of the new file.
fn push_changes<'a>(
    changes: &mut Vec<RangeChange>,
    old: &'a [RangeEntry],
    old_places: &Places<'a>,
    new: &'a [RangeEntry],
) -> Result<(), AllocError>
    ensures { OnOk result (changes.new.items ≡ changes.old.items
        ++ flat_map (new_change (entry_in old.now old_places.now)) new.now) }
{
    for entry in new {
        push_change(
            changes,
            entry_in(old, old_places, entry.name_bytes()),
            entry,
        )?;
    }
    Ok(())
}

/// Appends what is told of an entry of the new file, beside that of the old file for the same input.
fn push_change(
    changes: &mut Vec<RangeChange>,
    before: Option<&RangeEntry>,
    entry: &RangeEntry,
) -> Result<(), AllocError>
    ensures { OnOk result (changes.new.items ≡ changes.old.items
        ++ entry_change (option_map (λ e. e.now) before.entry) entry.now) }
{
    let Some(before) = before else {
        changes.push(RangeChange::New(*entry))?;
        return Ok(());
    };
    if !before.is_same(entry) {
        changes.push(RangeChange::Changed(*before, *entry))?;
    }
    Ok(())
}

/// Appends which entries of the old file are gone.
fn push_gone<'a>(
    changes: &mut Vec<RangeChange>,
    new: &'a [RangeEntry],
    new_places: &Places<'a>,
    old: &'a [RangeEntry],
) -> Result<(), AllocError>
    ensures { OnOk result (changes.new.items ≡ changes.old.items
        ++ flat_map (old_change (entry_in new.now new_places.now)) old.now) }
{
    for entry in old {
        push_if_gone(
            changes,
            entry_in(new, new_places, entry.name_bytes()),
            entry,
        )?;
    }
    Ok(())
}

/// Appends that an entry of the old file is gone, where the new file has none for the same input.
fn push_if_gone(
    changes: &mut Vec<RangeChange>,
    after: Option<&RangeEntry>,
    entry: &RangeEntry,
) -> Result<(), AllocError>
    ensures { OnOk result (changes.new.items ≡ changes.old.items
        ++ gone_change (option_map (λ e. e.now) after.entry) entry.now) }
{
    if after.is_none() {
        changes.push(RangeChange::Gone(*entry))?;
    }
    Ok(())
}
