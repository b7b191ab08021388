//! The part of the page above the drawings.
ghost use Rattle.std.specs.Prelude.{◌≡◌, ◌++◌, codes, IfOk, OnOk};
ghost use Rattle.std.specs.List.{flat_map};
ghost use Rattle.coverage_text.specs.Shares.{IsCountedWithin};
ghost use Rattle.coverage_page.specs.CoverageParts.{share_sentence, counts_sentence, open_runs_sentence, counts_row, covered_row, covered_table};
ghost use Rattle.coverage_page.specs.CoverageParts.{place_entry, item_entry, tested_entry, method_entries, list_text, entry_list, tested_list};
ghost use Rattle.coverage_page.specs.CoverageParts.{coverage_head, coverage_lists, coverage_part};
ghost use Rattle.coverage_page.specs.private.ItemLists.{is_in_list};

use crate::item_list::ItemList;
use coverage_text::{CoverageCounts, Item, MethodItems, count_methods, share_of};
use flowchart_markup::{Fill, Page};
use pap_tree::Name;
use std::alloc::{AllocError, Global};

/// The part of a page that tells to which statements and exits runs came: the share of those to which runs may come, how many of so
/// many runs have no amounts, the counts of each method, and lists of the statements and exits to which no run came and to which none
/// within the ranges may come, each as a link to its statement in the drawings. Takes time linear in the items. Fails only for lack
/// of memory.
pub fn coverage_part(
    alloc: Global,
    methods: &[MethodItems],
    without: u64,
    runs: u64,
) -> Result<Page, AllocError>
    ensures { IfOk result (λ part. part ≡ coverage_part methods.now without runs) }
{
    let mut part = Page::new(alloc);
    write_head(&mut part, methods, without, runs)?;
    write_lists(&mut part, methods)?;
    Ok(part)
}

/// Appends the shares and counts.
fn write_head(
    part: &mut Page,
    methods: &[MethodItems],
    without: u64,
    runs: u64,
) -> Result<(), AllocError>
    ensures { OnOk result (part.new ≡ part.old ++ coverage_head methods.now without runs) }
{
    let counts = count_methods(methods)?;
    part.put(
        "<section id=\"coverage\"><h2>What the runs came to</h2>\n",
        &[],
    )?;
    write_counts(part, counts)?;
    write_open_runs(part, without, runs)?;
    write_table(part, methods)
}

/// Appends the lists of what no run came to, and of what none within the ranges may come to.
fn write_lists(part: &mut Page, methods: &[MethodItems]) -> Result<(), AllocError>
    ensures { OnOk result (part.new ≡ part.old ++ coverage_lists methods.now) }
{
    part.put("<h3>Never reached</h3>\n", &[])?;
    write_listed(part, methods, ItemList::NeverReached)?;
    part.put("<h3>Unreachable within the ranges</h3>\n", &[])?;
    write_listed(part, methods, ItemList::Unreachable)?;
    part.put("</section>\n", &[])
}

/// Appends the counts with their share.
fn write_counts(part: &mut Page, counts: CoverageCounts) -> Result<(), AllocError>
    requires { IsCountedWithin counts }
    ensures { OnOk result (part.new ≡ part.old ++ counts_sentence counts) }
{
    let share = share_of(counts);
    write_share(part, counts, share)
}

/// Appends the counts with this share.
fn write_share(part: &mut Page, counts: CoverageCounts, share: u8) -> Result<(), AllocError>
    ensures { OnOk result (part.new ≡ part.old ++ share_sentence counts share) }
{
    let share = u64::from(share);
    part.put(
        "<p><strong>% percent</strong> of what runs can come to: % of % statements, % of % exits. Unreachable within the ranges: %.</p>\n",
        &[
            Fill::Number(share),
            Fill::Number(counts.covered_statements as u64),
            Fill::Number(counts.statements as u64),
            Fill::Number(counts.covered_exits as u64),
            Fill::Number(counts.exits as u64),
            Fill::Number(counts.unreachable as u64),
        ],
    )
}

/// Appends how many runs have no amounts.
fn write_open_runs(part: &mut Page, without: u64, runs: u64) -> Result<(), AllocError>
    ensures { OnOk result (part.new ≡ part.old ++ open_runs_sentence without runs) }
{
    part.put(
        "<p>Runs without amounts: % of %.</p>\n",
        &[Fill::Number(without), Fill::Number(runs)],
    )
}

/// Appends the counts of each method.
fn write_table(part: &mut Page, methods: &[MethodItems]) -> Result<(), AllocError>
    ensures { OnOk result (part.new ≡ part.old ++ covered_table methods.now) }
{
    part.put(
        "<table><caption>By method</caption><thead><tr><th scope=\"col\">Method<th scope=\"col\">Statements<th scope=\"col\">Exits</tr></thead><tbody>\n",
        &[],
    )?;
    write_rows(part, methods)?;
    part.put("</tbody></table>\n", &[])
}

/// Appends a row for each method.
fn write_rows(part: &mut Page, methods: &[MethodItems]) -> Result<(), AllocError>
    ensures { OnOk result (part.new ≡ part.old ++ flat_map covered_row methods.now) }
{
    for method in methods {
        write_row(part, method)?;
    }
    Ok(())
}

/// Appends the row of a method.
fn write_row(part: &mut Page, method: &MethodItems) -> Result<(), AllocError>
    ensures { OnOk result (part.new ≡ part.old ++ covered_row method.now) }
{
    let name = method.name();
    let items = method.items();
    let counts = CoverageCounts::of(items);
    put_row(part, name, counts)
}

/// Appends a row of a name and of counts.
fn put_row(part: &mut Page, name: Name, counts: CoverageCounts) -> Result<(), AllocError>
    ensures { OnOk result (part.new ≡ part.old ++ counts_row name counts) }
{
    part.put(
        "<tr><th scope=\"row\"><a href=\"#method-%\">%</a><td class=\"num\">% of %<td class=\"num\">% of %</tr>\n",
        &[
            Fill::OfName(name),
            Fill::OfName(name),
            Fill::Number(counts.covered_statements as u64),
            Fill::Number(counts.statements as u64),
            Fill::Number(counts.covered_exits as u64),
            Fill::Number(counts.exits as u64),
        ],
    )
}

/// Appends a list of items.
fn write_listed(part: &mut Page, methods: &[MethodItems], list: ItemList) -> Result<(), AllocError>
    ensures { OnOk result (part.new ≡ part.old ++ tested_list (is_in_list list) methods.now) }
{
    let entries = listed_entries(part.alloc(), methods, list)?;
    write_list(part, &entries)
}

/// The entries of a list of items.
fn listed_entries(
    alloc: Global,
    methods: &[MethodItems],
    list: ItemList,
) -> Result<Page, AllocError>
    ensures { IfOk result (λ entries.
        entries ≡ flat_map (method_entries (is_in_list list)) methods.now) }
{
    let mut entries = Page::new(alloc);
    for method in methods {
        write_listed_of(&mut entries, method, list)?;
    }
    Ok(entries)
}

/// Appends the entries of a method's items that are in a list.
fn write_listed_of(
    entries: &mut Page,
    method: &MethodItems,
    list: ItemList,
) -> Result<(), AllocError>
    ensures { OnOk result
        (entries.new ≡ entries.old ++ method_entries (is_in_list list) method.now) }
{
    let name = method.name();
    let items = method.items();
    write_listed_items(entries, name, items, list)
}

/// Appends the entries of those of some items of a method that are in a list.
fn write_listed_items(
    entries: &mut Page,
    name: Name,
    items: &[Item],
    list: ItemList,
) -> Result<(), AllocError>
    ensures { OnOk result (entries.new ≡ entries.old
        ++ flat_map (tested_entry (is_in_list list) name) items.now) }
{
    for item in items {
        write_listed_item(entries, name, item, list)?;
    }
    Ok(())
}

/// Appends the entry of an item that is in a list; nothing of another.
fn write_listed_item(
    entries: &mut Page,
    name: Name,
    item: &Item,
    list: ItemList,
) -> Result<(), AllocError>
    ensures { OnOk result
        (entries.new ≡ entries.old ++ tested_entry (is_in_list list) name item.now) }
{
    if list.has(item) {
        write_entry(entries, name, item)
    } else {
        Ok(())
    }
}

/// Appends the entry of an item of a method.
fn write_entry(entries: &mut Page, name: Name, item: &Item) -> Result<(), AllocError>
    ensures { OnOk result (entries.new ≡ entries.old ++ item_entry name item.now) }
{
    let statement = item.statement();
    let words = item.words();
    put_entry(entries, name, statement, words)
}

/// Appends an entry of a place and a text.
fn put_entry(entries: &mut Page, name: Name, statement: u32, words: &[u8]) -> Result<(), AllocError>
    ensures { OnOk result (entries.new ≡ entries.old ++ place_entry name statement words.now) }
{
    let statement = u64::from(statement);
    entries.put(
        "<li><a href=\"#%:%\"><code>%</code></a></li>\n",
        &[
            Fill::OfName(name),
            Fill::Number(statement),
            Fill::Text(words),
        ],
    )
}

/// Appends a list of some entries, or that there are none.
fn write_list(part: &mut Page, entries: &Page) -> Result<(), AllocError>
    ensures { OnOk result (part.new ≡ part.old ++ entry_list entries.now) }
{
    if entries.is_empty() {
        put_nothing(part)
    } else {
        put_list(part, entries)
    }
}

/// Appends that there are no entries.
fn put_nothing(part: &mut Page) -> Result<(), AllocError>
    ensures { OnOk result (part.new ≡ part.old ++ codes "<p>Nothing.</p>\n") }
{
    part.put("<p>Nothing.</p>\n", &[])
}

/// Appends a list of some entries.
fn put_list(part: &mut Page, entries: &Page) -> Result<(), AllocError>
    ensures { OnOk result (part.new ≡ part.old ++ list_text entries.now) }
{
    part.put("<ol class=\"run\">\n", &[])?;
    part.append(entries)?;
    part.put("</ol>\n", &[])
}
