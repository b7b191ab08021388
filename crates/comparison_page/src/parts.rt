//! The parts of a page: declarations, range files and methods.
ghost use Rattle.std.specs.Prelude.{◌≡◌, ◌++◌, IfOk, OnOk, Some, string_bytes};
ghost use Rattle.std.specs.List.{flat_map};
ghost use Rattle.std.specs.Option.{option_map};
ghost use Rattle.comparison_page.specs.Rows.{declaration_row, line_row, range_row};
ghost use Rattle.comparison_page.specs.Tables.{change_table};
ghost use Rattle.comparison_page.specs.Pages.{declarations_part, range_table, ranges_part, anchor, method_start, fold_start, fold_end, method_part, sided_part, compared_part, methods_part};

use crate::cells::push_own;
use crate::counts::method_words;
use crate::rows::{write_declaration_rows, write_line_rows, write_range_rows};
use crate::text::{method_at, renamed};
use flowchart_comparison::{Entry, Item, MethodComparison, MethodOutline};
use pap_tree::Name;
use range_comparison::RangeChange;
use std::alloc::{AllocError, Global};

/// How a table of changes begins.
pub(crate) const TABLE_START: &str =
    "<table class=\"diff\" aria-label=\"Old and new\"><thead><tr><th scope=\"col\">What<th scope=\"col\">Old<th scope=\"col\">New</tr></thead><tbody>\n";

/// How it ends.
pub(crate) const TABLE_END: &str = "</tbody></table>\n";

/// How a part ends.
pub(crate) const PART_END: &str = "</section>\n";

/// Appends what a page has of the declarations.
pub(crate) fn write_declarations_part(
    alloc: Global,
    page: &mut Vec<u8>,
    old: &[Item],
    new: &[Item],
    entries: &[Entry],
) -> Result<(), AllocError>
    ensures { OnOk result (page.new.items
        ≡ page.old.items ++ declarations_part old.now new.now entries.now) }
{
    push_own(
        page,
        "<section class=\"part\" id=\"declarations\"><h2>Declarations</h2>\n",
    )?;
    write_declaration_table(alloc, page, old, new, entries)?;
    push_own(page, PART_END)?;
    Ok(())
}

/// Appends a table with a row for each entry of declarations.
fn write_declaration_table(
    alloc: Global,
    page: &mut Vec<u8>,
    old: &[Item],
    new: &[Item],
    entries: &[Entry],
) -> Result<(), AllocError>
    ensures { OnOk result (page.new.items ≡ page.old.items
        ++ change_table (flat_map (declaration_row old.now new.now) entries.now)) }
{
    push_own(page, TABLE_START)?;
    write_declaration_rows(alloc, page, old, new, entries)?;
    push_own(page, TABLE_END)?;
    Ok(())
}

/// Appends what a page has of range files, where they are compared.
pub(crate) fn write_ranges_part(
    alloc: Global,
    page: &mut Vec<u8>,
    ranges: Option<&[RangeChange]>,
) -> Result<(), AllocError>
    ensures { OnOk result (page.new.items
        ≡ page.old.items ++ ranges_part (option_map (λ changes. changes.now) ranges.entry)) }
{
    match ranges {
        Some(changes) => write_range_part(alloc, page, changes),
        None => Ok(()),
    }
}

/// Appends what a page has of range files that are compared.
fn write_range_part(
    alloc: Global,
    page: &mut Vec<u8>,
    changes: &[RangeChange],
) -> Result<(), AllocError>
    ensures { OnOk result (page.new.items ≡ page.old.items ++ ranges_part (Some changes.now)) }
{
    push_own(
        page,
        "<section class=\"part\" id=\"ranges\"><h2>Range files</h2>\n",
    )?;
    write_range_table(alloc, page, changes)?;
    push_own(page, PART_END)?;
    Ok(())
}

/// Appends the table of the changes of range files, or that there is none.
fn write_range_table(
    alloc: Global,
    page: &mut Vec<u8>,
    changes: &[RangeChange],
) -> Result<(), AllocError>
    ensures { OnOk result (page.new.items ≡ page.old.items ++ range_table changes.now) }
{
    match changes {
        [] => push_own(page, "<p>The range files say the same.</p>\n"),
        _ => write_change_table(alloc, page, changes),
    }
}

/// Appends a table with a row for each change of range files.
fn write_change_table(
    alloc: Global,
    page: &mut Vec<u8>,
    changes: &[RangeChange],
) -> Result<(), AllocError>
    ensures { OnOk result
        (page.new.items ≡ page.old.items ++ change_table (flat_map range_row changes.now)) }
{
    push_own(page, TABLE_START)?;
    write_range_rows(alloc, page, changes)?;
    push_own(page, TABLE_END)?;
    Ok(())
}

/// Appends what a page has of the methods.
pub(crate) fn write_methods_part(
    alloc: Global,
    page: &mut Vec<u8>,
    old: &[MethodOutline],
    new: &[MethodOutline],
    methods: &[MethodComparison],
) -> Result<(), AllocError>
    ensures { OnOk result (page.new.items
        ≡ page.old.items ++ methods_part old.now new.now methods.now) }
{
    push_own(page, "<section id=\"all-methods\"><h2>Methods</h2>\n")?;
    write_method_parts(alloc, page, old, new, methods)?;
    push_own(page, PART_END)?;
    Ok(())
}

/// Appends the parts on methods.
fn write_method_parts(
    alloc: Global,
    page: &mut Vec<u8>,
    old: &[MethodOutline],
    new: &[MethodOutline],
    methods: &[MethodComparison],
) -> Result<(), AllocError>
    ensures { OnOk result (page.new.items
        ≡ page.old.items ++ flat_map (compared_part old.now new.now) methods.now) }
{
    for method in methods {
        let before = method_at(old, method.method.old_place());
        let after = method_at(new, method.method.new_place());
        write_sided_part(alloc, page, method.method, before, after, &method.lines)?;
    }
    Ok(())
}

/// Appends the part on a method that stands in one flowchart or in both.
fn write_sided_part(
    alloc: Global,
    page: &mut Vec<u8>,
    entry: Entry,
    old: Option<&MethodOutline>,
    new: Option<&MethodOutline>,
    lines: &[Entry],
) -> Result<(), AllocError>
    ensures { OnOk result (page.new.items ≡ page.old.items
        ++ sided_part entry (option_map (λ m. m.now) old.entry)
        (option_map (λ m. m.now) new.entry) lines.now) }
{
    match (old, new) {
        (Some(old), Some(new)) => write_method_part(alloc, page, entry, old, new, lines),
        (Some(one), None) | (None, Some(one)) => {
            write_method_part(alloc, page, entry, one, one, lines)
        }
        (None, None) => Ok(()),
    }
}

/// Appends the part on a method.
fn write_method_part(
    alloc: Global,
    page: &mut Vec<u8>,
    entry: Entry,
    old: &MethodOutline,
    new: &MethodOutline,
    lines: &[Entry],
) -> Result<(), AllocError>
    ensures { OnOk result (page.new.items
        ≡ page.old.items ++ method_part entry old.now new.now lines.now) }
{
    write_method_start(alloc, page, entry, old, new, lines)?;
    push_own(page, fold_start(entry))?;
    write_line_table(alloc, page, old, new, lines)?;
    push_own(page, fold_end(entry))?;
    push_own(page, PART_END)?;
    Ok(())
}

/// Appends a table with a row for each entry of a method's lines.
fn write_line_table(
    alloc: Global,
    page: &mut Vec<u8>,
    old: &MethodOutline,
    new: &MethodOutline,
    lines: &[Entry],
) -> Result<(), AllocError>
    ensures { OnOk result (page.new.items
        ≡ page.old.items ++ change_table (flat_map (line_row old.now new.now) lines.now)) }
{
    push_own(page, TABLE_START)?;
    write_line_rows(alloc, page, old, new, lines)?;
    push_own(page, TABLE_END)?;
    Ok(())
}

/// Appends how the part on a method begins.
fn write_method_start(
    alloc: Global,
    page: &mut Vec<u8>,
    entry: Entry,
    old: &MethodOutline,
    new: &MethodOutline,
    lines: &[Entry],
) -> Result<(), AllocError>
    ensures { OnOk result (page.new.items
        ≡ page.old.items ++ method_start entry old.now.name new.now.name lines.now) }
{
    let start = method_start(alloc, entry, old.name(), new.name(), lines)?;
    push_own(page, &start)
}

/// How the part on a method of these names begins.
fn method_start(
    alloc: Global,
    entry: Entry,
    old: Name,
    new: Name,
    lines: &[Entry],
) -> Result<String, AllocError>
    ensures { IfOk result
        (λ text. string_bytes text ≡ method_start entry old new lines.now) }
{
    let anchor = anchor(alloc, entry, new)?;
    let name = renamed(alloc, old, new)?;
    let words = method_words(alloc, entry, lines)?;
    format!(in alloc;
        "<section class=\"part\"><h3 id=\"{anchor}\">{name} <small>{words}</small></h3>\n"
    )
}

/// The name of a method's heading in links.
pub(crate) fn anchor(alloc: Global, entry: Entry, name: Name) -> Result<String, AllocError>
    ensures { IfOk result (λ text. string_bytes text ≡ anchor entry name) }
{
    match entry {
        Entry::Gone(_) => format!(in alloc; "gone-{name}"),
        Entry::Same(..) | Entry::Changed(..) | Entry::New(_) => format!(in alloc; "method-{name}"),
    }
}

/// What stands before the rows of a method: those of one that is the same are folded.
fn fold_start(entry: Entry) -> &'static str
    ensures { result.now ≡ fold_start entry }
{
    match entry {
        Entry::Same(..) => "<details><summary>The statements</summary>\n",
        Entry::Changed(..) | Entry::Gone(_) | Entry::New(_) => "",
    }
}

/// What stands behind them.
fn fold_end(entry: Entry) -> &'static str
    ensures { result.now ≡ fold_end entry }
{
    match entry {
        Entry::Same(..) => "</details>\n",
        Entry::Changed(..) | Entry::Gone(_) | Entry::New(_) => "",
    }
}
