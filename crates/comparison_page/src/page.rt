//! The comparison as a page.
ghost use Rattle.std.specs.Prelude.{◌≡◌, ◌++◌, IfOk, OnOk};
ghost use Rattle.std.specs.Option.{option_map};
ghost use Rattle.comparison_page.specs.Cells.{between_marks};
ghost use Rattle.comparison_page.specs.Pages.{comparison_page, commented_page, comparison_head, ranges_differ, difference_sentence, contents, declarations_part, methods_part};
ghost use Rattle.flowchart_comparison.specs.Comparisons.{differs};

use crate::cells::{push_between, push_own};
use crate::comments::write_comments_part;
use crate::contents::write_contents;
use crate::parts::{write_declarations_part, write_methods_part, write_ranges_part};
use comment_comparison::CommentComparison;
use flowchart_comparison::{Comparison, Outline, differs};
use page_frame::{page_start, style_sheet};
use range_comparison::RangeChange;
use std::alloc::{AllocError, Global};

/// The names of both files.
#[derive(Clone, Copy)]
pub struct FileNames<'a> {
    /// That of the old flowchart.
    pub old: &'a str,
    /// That of the new one.
    pub new: &'a str,
}

/// What stands between the style sheet and the title of the page's body.
const TITLE_START: &str =
    "\n</style>\n</head>\n<body>\n<a class=\"skip\" href=\"#changes\">Skip to the changes</a>\n<header><h1>What ";

/// The comparison as a page of HTML, with that of range files where these are compared: how much changed with links, then a row for
/// each entry, which says by a sign, a word and its class what it tells. The statements of a method that is the same are folded. Takes
/// time linear in the texts, and fails only for lack of memory.
pub fn comparison_page(
    alloc: Global,
    names: FileNames<'_>,
    old: &Outline,
    new: &Outline,
    comparison: &Comparison,
    ranges: Option<&[RangeChange]>,
) -> Result<Vec<u8>, AllocError>
    ensures { IfOk result (λ page. page.items
        ≡ comparison_page names.entry.old.now names.entry.new.now old.now new.now comparison.now
        (option_map (λ changes. changes.now) ranges.entry)) }
{
    commented_page(alloc, names, old, new, comparison, ranges, None)
}

/// The same, and behind the methods the comments of both files that stand in one alone, where these are compared: a row for each,
/// with the line on which it begins.
pub fn commented_page(
    alloc: Global,
    names: FileNames<'_>,
    old: &Outline,
    new: &Outline,
    comparison: &Comparison,
    ranges: Option<&[RangeChange]>,
    comments: Option<&CommentComparison>,
) -> Result<Vec<u8>, AllocError>
    ensures { IfOk result (λ page. page.items
        ≡ commented_page names.entry.old.now names.entry.new.now old.now new.now comparison.now
        (option_map (λ changes. changes.now) ranges.entry)
        (option_map (λ c. c.now) comments.entry)) }
{
    let mut page = Vec::new(alloc);
    write_head(&mut page, names)?;
    write_sentence(&mut page, old, new, comparison, ranges)?;
    write_all_contents(alloc, &mut page, old, new, comparison, ranges, comments)?;
    write_all_declarations(alloc, &mut page, old, new, comparison)?;
    write_ranges_part(alloc, &mut page, ranges)?;
    write_all_methods(alloc, &mut page, old, new, comparison)?;
    write_comments_part(alloc, &mut page, comments)?;
    push_own(&mut page, "</main></div></body></html>\n")?;
    Ok(page)
}

/// Appends what a page says on the whole.
fn write_sentence(
    page: &mut Vec<u8>,
    old: &Outline,
    new: &Outline,
    comparison: &Comparison,
    ranges: Option<&[RangeChange]>,
) -> Result<(), AllocError>
    ensures { OnOk result (page.new.items ≡ page.old.items
        ++ difference_sentence (differs old.now new.now comparison.now)
        (ranges_differ (option_map (λ changes. changes.now) ranges.entry))) }
{
    let is_other = differs(old, new, comparison);
    let is_other_range = ranges_differ(ranges);
    push_own(page, difference_sentence(is_other, is_other_range))
}

/// Appends the contents of a page.
fn write_all_contents(
    alloc: Global,
    page: &mut Vec<u8>,
    old: &Outline,
    new: &Outline,
    comparison: &Comparison,
    ranges: Option<&[RangeChange]>,
    comments: Option<&CommentComparison>,
) -> Result<(), AllocError>
    ensures { OnOk result (page.new.items ≡ page.old.items
        ++ contents old.now.methods new.now.methods comparison.now
        (option_map (λ changes. changes.now) ranges.entry)
        (option_map (λ c. c.now) comments.entry)) }
{
    let (old, new) = (old.methods(), new.methods());
    write_contents(alloc, page, old, new, comparison, ranges, comments)
}

/// Appends what a page has of the declarations.
fn write_all_declarations(
    alloc: Global,
    page: &mut Vec<u8>,
    old: &Outline,
    new: &Outline,
    comparison: &Comparison,
) -> Result<(), AllocError>
    ensures { OnOk result (page.new.items ≡ page.old.items
        ++ declarations_part old.now.declarations new.now.declarations comparison.now.declarations) }
{
    let (old, new) = (old.declarations(), new.declarations());
    write_declarations_part(alloc, page, old, new, &comparison.declarations)
}

/// Appends what a page has of the methods.
fn write_all_methods(
    alloc: Global,
    page: &mut Vec<u8>,
    old: &Outline,
    new: &Outline,
    comparison: &Comparison,
) -> Result<(), AllocError>
    ensures { OnOk result (page.new.items ≡ page.old.items
        ++ methods_part old.now.methods new.now.methods comparison.now.methods) }
{
    let (old, new) = (old.methods(), new.methods());
    write_methods_part(alloc, page, old, new, &comparison.methods)
}

/// Appends a page up to what it says on the whole: its title names both files.
fn write_head(page: &mut Vec<u8>, names: FileNames<'_>) -> Result<(), AllocError>
    ensures { OnOk result (page.new.items
        ≡ page.old.items ++ comparison_head names.entry.old.now names.entry.new.now) }
{
    let (old, new) = (names.old, names.new);
    push_name(page, page_start(), new, " against ")?;
    push_name(page, "", old, ": comparison</title>\n<style>\n")?;
    push_own(page, style_sheet())?;
    push_name(page, TITLE_START, new, " changed <small>against ")?;
    push_name(page, "", old, "</small></h1>\n")?;
    Ok(())
}

/// Appends the name of a file between HTML before it and behind it.
fn push_name(page: &mut Vec<u8>, before: &str, name: &str, behind: &str) -> Result<(), AllocError>
    ensures { OnOk result
        (page.new.items ≡ page.old.items ++ between_marks before.now name.now behind.now) }
{
    push_between(page, before, name.as_bytes(), behind)
}

/// Whether range files are compared, and differ.
pub fn ranges_differ(ranges: Option<&[RangeChange]>) -> bool
    ensures { result ≡ ranges_differ (option_map (λ changes. changes.now) ranges.entry) }
{
    match ranges {
        None | Some([]) => false,
        Some(_) => true,
    }
}

/// What a page says on the whole.
fn difference_sentence(is_other: bool, is_other_range: bool) -> &'static str
    ensures { result.now ≡ difference_sentence is_other is_other_range }
{
    match (is_other, is_other_range) {
        (false, false) => "<p class=\"ok\">Nothing differs.</p></header>\n",
        (true, false) => "<p class=\"differs\">The flowcharts differ.</p></header>\n",
        (false, true) => "<p class=\"differs\">The range files differ.</p></header>\n",
        (true, true) => {
            "<p class=\"differs\">The flowcharts and the range files differ.</p></header>\n"
        }
    }
}
