//! The rows of a table of changes, cell by cell.
ghost use Rattle.std.specs.Prelude.{◌≡◌, ◌++◌, OnOk};
ghost use Rattle.flowchart_markup.specs.Escapes.{escaped};
ghost use Rattle.comparison_page.specs.Cells.{between_marks, cell, cell_start, text_start, text_end, entry_start, entry_end, change_start, change_end};

use flowchart_comparison::Entry;
use flowchart_markup::push_escaped;
use range_comparison::RangeChange;
use std::alloc::{AllocError, Global};

/// How the row of what is the same begins.
const SAME_START: &str = "<tr class=\"same\"><th scope=\"row\">= same";

/// How the row of what has changed begins.
const CHANGED_START: &str = "<tr class=\"changed\"><th scope=\"row\">~ changed";

/// How the row of what is gone begins.
pub(crate) const GONE_START: &str = "<tr class=\"gone\"><th scope=\"row\">- gone";

/// How the row of what is new begins.
pub(crate) const NEW_START: &str = "<tr class=\"new\"><th scope=\"row\">+ new<td>";

/// How a row ends.
pub(crate) const ROW_END: &str = "</tr>\n";

/// How the row of what is gone ends.
pub(crate) const GONE_END: &str = "<td></tr>\n";

/// The side on which a text stands.
#[derive(Clone, Copy)]
pub(crate) enum Side {
    /// The old one and the new one.
    Both,
    /// The old one.
    Old,
    /// The new one.
    New,
}

impl Side {
    /// How a cell begins.
    fn cell_start(self) -> &'static str
        ensures { result.now ≡ cell_start self }
    {
        match self {
            Side::Both => "<td colspan=\"2\"><i>",
            Side::Old | Side::New => "<td><i>",
        }
    }

    /// What stands before the text of a cell.
    fn text_start(self) -> &'static str
        ensures { result.now ≡ text_start self }
    {
        match self {
            Side::Both => "</i> <code>",
            Side::Old => "</i> <del>",
            Side::New => "</i> <ins>",
        }
    }

    /// What stands behind the text of a cell.
    fn text_end(self) -> &'static str
        ensures { result.now ≡ text_end self }
    {
        match self {
            Side::Both => "</code>",
            Side::Old => "</del>",
            Side::New => "</ins>",
        }
    }
}

/// How the row of an entry begins.
pub(crate) fn entry_start(entry: Entry) -> &'static str
    ensures { result.now ≡ entry_start entry }
{
    match entry {
        Entry::Same(..) => SAME_START,
        Entry::Changed(..) => CHANGED_START,
        Entry::Gone(_) => GONE_START,
        Entry::New(_) => NEW_START,
    }
}

/// How it ends.
pub(crate) fn entry_end(entry: Entry) -> &'static str
    ensures { result.now ≡ entry_end entry }
{
    match entry {
        Entry::Gone(_) => GONE_END,
        Entry::Same(..) | Entry::Changed(..) | Entry::New(_) => ROW_END,
    }
}

/// How the row of a change of range files begins.
pub(crate) fn change_start(change: &RangeChange) -> &'static str
    ensures { result.now ≡ change_start change.now }
{
    match change {
        RangeChange::New(_) => NEW_START,
        RangeChange::Changed(..) => CHANGED_START,
        RangeChange::Gone(_) => GONE_START,
    }
}

/// How it ends.
pub(crate) fn change_end(change: &RangeChange) -> &'static str
    ensures { result.now ≡ change_end change.now }
{
    match change {
        RangeChange::Gone(_) => GONE_END,
        RangeChange::New(_) | RangeChange::Changed(..) => ROW_END,
    }
}

/// Appends HTML.
pub(crate) fn push_own(page: &mut Vec<u8>, own: &str) -> Result<(), AllocError>
    ensures { OnOk result (page.new.items ≡ page.old.items ++ own.now) }
{
    page.extend_from_slice(own.as_bytes())
}

/// Appends a text between HTML before it and behind it.
pub(crate) fn push_between(
    page: &mut Vec<u8>,
    before: &str,
    text: &[u8],
    behind: &str,
) -> Result<(), AllocError>
    ensures { OnOk result
        (page.new.items ≡ page.old.items ++ between_marks before.now text.now behind.now) }
{
    push_own(page, before)?;
    push_escaped(page, text)?;
    push_own(page, behind)
}

/// Appends the cell of a text of a side, behind what leads to it.
pub(crate) fn write_cell(
    alloc: Global,
    page: &mut Vec<u8>,
    side: Side,
    lead: &str,
    text: &[u8],
) -> Result<(), AllocError>
    ensures { OnOk result (page.new.items ≡ page.old.items ++ cell side lead.now text.now) }
{
    let start = side.cell_start();
    let behind = side.text_start();
    let before = format!(in alloc; "{start}{lead}{behind}")?;
    push_between(page, &before, text, side.text_end())
}
