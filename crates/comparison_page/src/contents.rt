//! The contents of a page: how much changed, with a link to each part.
ghost use Rattle.std.specs.Prelude.{◌≡◌, ◌++◌, IfOk, OnOk, Some, map, string_bytes};
ghost use Rattle.std.specs.List.{flat_map};
ghost use Rattle.std.specs.Option.{option_map};
ghost use Rattle.comparison_page.specs.Counts.{entry_counts};
ghost use Rattle.comparison_page.specs.Pages.{contents, ranges_link, link_start, method_link, sided_link, compared_link};

use crate::cells::push_own;
use crate::comments::write_comments_link;
use crate::counts::{entry_counts, method_words, range_counts};
use crate::parts::anchor;
use crate::text::method_at;
use comment_comparison::CommentComparison;
use flowchart_comparison::{Comparison, Entry, MethodComparison, MethodOutline};
use pap_tree::Name;
use range_comparison::RangeChange;
use std::alloc::{AllocError, Global};

/// How the contents begin.
const CONTENTS_START: &str =
    "<div class=\"cols\"><nav aria-labelledby=\"index\"><h2 id=\"index\">Contents</h2><ul>\n<li><a href=\"#declarations\">Declarations</a> <span>";

/// The end of an entry of the contents.
const LINK_END: &str = "</span></li>\n";

/// Appends the contents.
pub(crate) fn write_contents(
    alloc: Global,
    page: &mut Vec<u8>,
    old: &[MethodOutline],
    new: &[MethodOutline],
    comparison: &Comparison,
    ranges: Option<&[RangeChange]>,
    comments: Option<&CommentComparison>,
) -> Result<(), AllocError>
    ensures { OnOk result (page.new.items ≡ page.old.items
        ++ contents old.now new.now comparison.now
        (option_map (λ changes. changes.now) ranges.entry)
        (option_map (λ c. c.now) comments.entry)) }
{
    push_own(page, CONTENTS_START)?;
    write_declaration_counts(alloc, page, comparison)?;
    push_own(page, LINK_END)?;
    write_ranges_link(alloc, page, ranges)?;
    push_own(page, "<li><a href=\"#all-methods\">Methods</a> <span>")?;
    write_method_counts(alloc, page, comparison)?;
    push_own(page, LINK_END)?;
    write_compared_links(alloc, page, old, new, comparison)?;
    write_comments_link(alloc, page, comments)?;
    push_own(page, "</ul></nav><main id=\"changes\">\n")?;
    Ok(())
}

/// Appends how many declarations changed, are new and are gone.
fn write_declaration_counts(
    alloc: Global,
    page: &mut Vec<u8>,
    comparison: &Comparison,
) -> Result<(), AllocError>
    ensures { OnOk result
        (page.new.items ≡ page.old.items ++ entry_counts comparison.now.declarations) }
{
    let counts = entry_counts(alloc, &comparison.declarations)?;
    push_own(page, &counts)
}

/// Appends how many methods changed, are new and are gone.
fn write_method_counts(
    alloc: Global,
    page: &mut Vec<u8>,
    comparison: &Comparison,
) -> Result<(), AllocError>
    ensures { OnOk result (page.new.items
        ≡ page.old.items ++ entry_counts (map (λ m. m.method) comparison.now.methods)) }
{
    let counts = method_counts(alloc, &comparison.methods)?;
    push_own(page, &counts)
}

/// Appends the entries of the compared methods.
fn write_compared_links(
    alloc: Global,
    page: &mut Vec<u8>,
    old: &[MethodOutline],
    new: &[MethodOutline],
    comparison: &Comparison,
) -> Result<(), AllocError>
    ensures { OnOk result (page.new.items ≡ page.old.items
        ++ flat_map (compared_link old.now new.now) comparison.now.methods) }
{
    write_method_links(alloc, page, old, new, &comparison.methods)
}

/// Appends the entry of range files, where they are compared.
fn write_ranges_link(
    alloc: Global,
    page: &mut Vec<u8>,
    ranges: Option<&[RangeChange]>,
) -> Result<(), AllocError>
    ensures { OnOk result (page.new.items
        ≡ page.old.items ++ ranges_link (option_map (λ changes. changes.now) ranges.entry)) }
{
    match ranges {
        Some(changes) => write_range_link(alloc, page, changes),
        None => Ok(()),
    }
}

/// Appends the entry of range files that are compared.
fn write_range_link(
    alloc: Global,
    page: &mut Vec<u8>,
    changes: &[RangeChange],
) -> Result<(), AllocError>
    ensures { OnOk result (page.new.items ≡ page.old.items ++ ranges_link (Some changes.now)) }
{
    let link = range_link(alloc, changes)?;
    push_own(page, &link)
}

/// The entry of range files that are compared.
fn range_link(alloc: Global, changes: &[RangeChange]) -> Result<String, AllocError>
    ensures { IfOk result (λ text. string_bytes text ≡ ranges_link (Some changes.now)) }
{
    let counts = range_counts(alloc, changes)?;
    format!(in alloc; "<li><a href=\"#ranges\">Range files</a> <span>{counts}</span></li>\n")
}

/// How many methods changed, are new and are gone, in words.
fn method_counts(alloc: Global, methods: &[MethodComparison]) -> Result<String, AllocError>
    ensures { IfOk result
        (λ words. string_bytes words ≡ entry_counts (map (λ m. m.method) methods.now)) }
{
    let entries = method_entries(alloc, methods)?;
    entry_counts(alloc, &entries)
}

/// What is told of methods.
fn method_entries(alloc: Global, methods: &[MethodComparison]) -> Result<Vec<Entry>, AllocError>
    ensures { IfOk result (λ entries. entries.items ≡ map (λ m. m.method) methods.now) }
{
    methods.iter().map(|method| method.method).collect(alloc)
}

/// Appends the entries of methods.
fn write_method_links(
    alloc: Global,
    page: &mut Vec<u8>,
    old: &[MethodOutline],
    new: &[MethodOutline],
    methods: &[MethodComparison],
) -> Result<(), AllocError>
    ensures { OnOk result (page.new.items
        ≡ page.old.items ++ flat_map (compared_link old.now new.now) methods.now) }
{
    for method in methods {
        let before = method_at(old, method.method.old_place());
        let after = method_at(new, method.method.new_place());
        write_sided_link(alloc, page, method.method, before, after, &method.lines)?;
    }
    Ok(())
}

/// Appends the entry of a method that stands in one flowchart or in both.
fn write_sided_link(
    alloc: Global,
    page: &mut Vec<u8>,
    entry: Entry,
    old: Option<&MethodOutline>,
    new: Option<&MethodOutline>,
    lines: &[Entry],
) -> Result<(), AllocError>
    ensures { OnOk result (page.new.items ≡ page.old.items
        ++ sided_link entry (option_map (λ m. m.now) old.entry)
        (option_map (λ m. m.now) new.entry) lines.now) }
{
    match (old, new) {
        (_, Some(one)) | (Some(one), None) => {
            let link = method_link(alloc, entry, one.name(), lines)?;
            push_own(page, &link)
        }
        (None, None) => Ok(()),
    }
}

/// The entry of a method of this name.
fn method_link(
    alloc: Global,
    entry: Entry,
    name: Name,
    lines: &[Entry],
) -> Result<String, AllocError>
    ensures { IfOk result (λ text. string_bytes text ≡ method_link entry name lines.now) }
{
    let start = link_start(entry);
    let anchor = anchor(alloc, entry, name)?;
    let words = method_words(alloc, entry, lines)?;
    format!(in alloc; "{start}{anchor}\">{name}</a> <span>{words}</span></li>\n")
}

/// How the entry of a method begins.
fn link_start(entry: Entry) -> &'static str
    ensures { result.now ≡ link_start entry }
{
    match entry {
        Entry::Same(..) => "<li class=\"same\"><a href=\"#",
        Entry::Changed(..) | Entry::Gone(_) | Entry::New(_) => "<li><a href=\"#",
    }
}
