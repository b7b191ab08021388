//! The rows of a table of changes.
ghost use Rattle.std.specs.Prelude.{◌≡◌, ◌++◌, OnOk};
ghost use Rattle.std.specs.List.{flat_map};
ghost use Rattle.std.specs.Option.{option_map};
ghost use Rattle.comparison_page.specs.Cells.{cell};
ghost use Rattle.comparison_page.specs.Rows.{item_cell, declaration_cells, declaration_row, line_cell, same_cell, line_cells, line_row, range_cell, range_cells, range_row};

use crate::cells::{Side, change_end, change_start, entry_end, entry_start, push_own, write_cell};
use crate::ranges::range_entry_words;
use crate::text::{item_at, line_at, place_lead};
use flowchart_comparison::{Entry, Item, Line, MethodOutline};
use pap_tree::Name;
use range_comparison::{RangeChange, RangeEntry};
use std::alloc::{AllocError, Global};

/// Appends the rows of declarations.
pub(crate) fn write_declaration_rows(
    alloc: Global,
    page: &mut Vec<u8>,
    old: &[Item],
    new: &[Item],
    entries: &[Entry],
) -> Result<(), AllocError>
    ensures { OnOk result (page.new.items
        ≡ page.old.items ++ flat_map (declaration_row old.now new.now) entries.now) }
{
    for entry in entries {
        write_declaration_row(alloc, page, old, new, *entry)?;
    }
    Ok(())
}

/// Appends the row of an entry of declarations.
fn write_declaration_row(
    alloc: Global,
    page: &mut Vec<u8>,
    old: &[Item],
    new: &[Item],
    entry: Entry,
) -> Result<(), AllocError>
    ensures { OnOk result (page.new.items ≡ page.old.items ++ declaration_row old.now new.now entry) }
{
    push_own(page, entry_start(entry))?;
    write_declaration_cells(alloc, page, old, new, entry)?;
    push_own(page, entry_end(entry))
}

/// Appends the cells of an entry of declarations.
fn write_declaration_cells(
    alloc: Global,
    page: &mut Vec<u8>,
    old: &[Item],
    new: &[Item],
    entry: Entry,
) -> Result<(), AllocError>
    ensures { OnOk result
        (page.new.items ≡ page.old.items ++ declaration_cells old.now new.now entry) }
{
    match entry {
        Entry::Same(_, place) => write_item_cell(alloc, page, Side::Both, "", item_at(new, place)),
        Entry::Changed(before, after) => {
            write_item_cell(alloc, page, Side::Old, " was", item_at(old, before))?;
            write_item_cell(alloc, page, Side::New, " now", item_at(new, after))
        }
        Entry::Gone(place) => write_item_cell(alloc, page, Side::Old, "", item_at(old, place)),
        Entry::New(place) => write_item_cell(alloc, page, Side::New, "", item_at(new, place)),
    }
}

/// Appends the cell of a declaration, with a word behind its name.
fn write_item_cell(
    alloc: Global,
    page: &mut Vec<u8>,
    side: Side,
    word: &str,
    item: Option<&Item>,
) -> Result<(), AllocError>
    ensures { OnOk result (page.new.items
        ≡ page.old.items ++ item_cell side word.now (option_map (λ x. x.now) item.entry)) }
{
    let Some(item) = item else {
        return Ok(());
    };
    let name = item.name();
    let lead = format!(in alloc; "{name}{word}")?;
    write_cell(alloc, page, side, &lead, item.text())
}

/// Appends the rows of a method's lines.
pub(crate) fn write_line_rows(
    alloc: Global,
    page: &mut Vec<u8>,
    old: &MethodOutline,
    new: &MethodOutline,
    lines: &[Entry],
) -> Result<(), AllocError>
    ensures { OnOk result
        (page.new.items ≡ page.old.items ++ flat_map (line_row old.now new.now) lines.now) }
{
    for entry in lines {
        write_line_row(alloc, page, old, new, *entry)?;
    }
    Ok(())
}

/// Appends the row of an entry of lines.
fn write_line_row(
    alloc: Global,
    page: &mut Vec<u8>,
    old: &MethodOutline,
    new: &MethodOutline,
    entry: Entry,
) -> Result<(), AllocError>
    ensures { OnOk result (page.new.items ≡ page.old.items ++ line_row old.now new.now entry) }
{
    push_own(page, entry_start(entry))?;
    write_line_cells(alloc, page, old, new, entry)?;
    push_own(page, entry_end(entry))
}

/// Appends the cells of an entry of lines.
fn write_line_cells(
    alloc: Global,
    page: &mut Vec<u8>,
    old: &MethodOutline,
    new: &MethodOutline,
    entry: Entry,
) -> Result<(), AllocError>
    ensures { OnOk result (page.new.items ≡ page.old.items ++ line_cells old.now new.now entry) }
{
    let (old_name, new_name) = (old.name(), new.name());
    let (old, new) = (old.lines(), new.lines());
    match entry {
        Entry::Same(before, after) => {
            let (before, after) = (line_at(old, before), line_at(new, after));
            write_same_cell(alloc, page, old_name, new_name, before, after)
        }
        Entry::Changed(before, after) => {
            let before = line_at(old, before);
            write_line_cell(alloc, page, Side::Old, old_name, "was", before)?;
            write_line_cell(alloc, page, Side::New, new_name, "now", line_at(new, after))
        }
        Entry::Gone(place) => {
            write_line_cell(alloc, page, Side::Old, old_name, "", line_at(old, place))
        }
        Entry::New(place) => {
            write_line_cell(alloc, page, Side::New, new_name, "", line_at(new, place))
        }
    }
}

/// Appends the cell of a line of a method, with a word behind its place.
fn write_line_cell(
    alloc: Global,
    page: &mut Vec<u8>,
    side: Side,
    method: Name,
    word: &str,
    line: Option<&Line>,
) -> Result<(), AllocError>
    ensures { OnOk result (page.new.items
        ≡ page.old.items ++ line_cell side method word.now (option_map (λ l. l.now) line.entry)) }
{
    let Some(line) = line else {
        return Ok(());
    };
    let place = place_lead(alloc, method, line.number())?;
    write_placed(alloc, page, side, &place, word, line.text())
}

/// Appends the cell of a line that is the same, behind both its places.
fn write_same_cell(
    alloc: Global,
    page: &mut Vec<u8>,
    old_name: Name,
    new_name: Name,
    old: Option<&Line>,
    new: Option<&Line>,
) -> Result<(), AllocError>
    ensures { OnOk result (page.new.items ≡ page.old.items
        ++ same_cell old_name new_name (option_map (λ l. l.now) old.entry)
        (option_map (λ l. l.now) new.entry)) }
{
    let (Some(old), Some(new)) = (old, new) else {
        return Ok(());
    };
    let before = place_lead(alloc, old_name, old.number())?;
    let after = place_lead(alloc, new_name, new.number())?;
    write_placed(alloc, page, Side::Both, &before, &after, new.text())
}

/// Appends the cell of a text of a side, behind two parts of what leads to it.
fn write_placed(
    alloc: Global,
    page: &mut Vec<u8>,
    side: Side,
    place: &str,
    word: &str,
    text: &[u8],
) -> Result<(), AllocError>
    ensures { OnOk result
        (page.new.items ≡ page.old.items ++ cell side (place.now ++ word.now) text.now) }
{
    let lead = format!(in alloc; "{place}{word}")?;
    write_cell(alloc, page, side, &lead, text)
}

/// Appends the rows of the changes of range files.
pub(crate) fn write_range_rows(
    alloc: Global,
    page: &mut Vec<u8>,
    changes: &[RangeChange],
) -> Result<(), AllocError>
    ensures { OnOk result (page.new.items ≡ page.old.items ++ flat_map range_row changes.now) }
{
    for change in changes {
        write_range_row(alloc, page, change)?;
    }
    Ok(())
}

/// Appends the row of a change of range files.
fn write_range_row(
    alloc: Global,
    page: &mut Vec<u8>,
    change: &RangeChange,
) -> Result<(), AllocError>
    ensures { OnOk result (page.new.items ≡ page.old.items ++ range_row change.now) }
{
    push_own(page, change_start(change))?;
    write_range_cells(alloc, page, change)?;
    push_own(page, change_end(change))
}

/// Appends the cells of a change of range files.
fn write_range_cells(
    alloc: Global,
    page: &mut Vec<u8>,
    change: &RangeChange,
) -> Result<(), AllocError>
    ensures { OnOk result (page.new.items ≡ page.old.items ++ range_cells change.now) }
{
    match change {
        RangeChange::New(entry) => write_range_cell(alloc, page, Side::New, "", entry),
        RangeChange::Changed(before, after) => {
            write_range_cell(alloc, page, Side::Old, " was", before)?;
            write_range_cell(alloc, page, Side::New, " now", after)
        }
        RangeChange::Gone(entry) => write_range_cell(alloc, page, Side::Old, "", entry),
    }
}

/// Appends the cell of an entry of a range file, with a word behind its input.
fn write_range_cell(
    alloc: Global,
    page: &mut Vec<u8>,
    side: Side,
    word: &str,
    entry: &RangeEntry,
) -> Result<(), AllocError>
    ensures { OnOk result
        (page.new.items ≡ page.old.items ++ range_cell side word.now entry.now) }
{
    let input = *entry.input();
    let lead = format!(in alloc; "{input}{word}")?;
    let text = range_entry_words(alloc, entry)?;
    write_cell(alloc, page, side, &lead, text.as_bytes())
}
