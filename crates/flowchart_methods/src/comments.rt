//! The comments of the plan's file.
ghost use Rattle.std.specs.Prelude.{◌≡◌, ◌++◌, OnOk};
ghost use Rattle.flowchart_methods.specs.Comments.{comments_text, paragraph, is_tag, paragraphs, count_before, last_paragraph};

use flowchart_markup::{Fill, Page};
use plan_notes::{Element, Mark, Notes};
use std::alloc::AllocError;

/// Appends comments, with a space between two of them.
pub fn write_comments(page: &mut Page, comments: &[String]) -> Result<(), AllocError>
    ensures { OnOk result (page.new ≡ page.old ++ comments_text comments.now) }
{
    for (i, comment) in comments.iter().enumerate() {
        let space = if i > 0 { " " } else { "" };
        page.put(
            "%%",
            &[Fill::Text(space.as_bytes()), Fill::Text(comment.as_bytes())],
        )?;
    }
    Ok(())
}

/// Appends comments as a paragraph, where there are some.
pub(crate) fn write_paragraph(page: &mut Page, comments: &[String]) -> Result<(), AllocError>
    ensures { OnOk result (page.new ≡ page.old ++ paragraph comments.now) }
{
    if comments.is_empty() {
        return Ok(());
    }
    page.put("<p class=\"com\">", &[])?;
    write_comments(page, comments)?;
    page.put("</p>\n", &[])
}

/// Appends the comments before the start tags or before the end tags of an element, a paragraph for each tag that has some.
pub fn write_paragraphs(
    page: &mut Page,
    notes: &Notes,
    element: Element,
    is_end: bool,
) -> Result<(), AllocError>
    ensures { OnOk result (page.new ≡ page.old ++ paragraphs notes.now element is_end) }
{
    for mark in &notes.marks {
        if is_tag(mark, element, is_end) {
            write_paragraph(page, notes.before(mark))?;
        }
    }
    Ok(())
}

/// Whether a tag is a start tag of an element, or an end tag.
fn is_tag(mark: &Mark, element: Element, is_end: bool) -> bool
    ensures { result ≡ is_tag element is_end mark.now }
{
    mark.element == element && mark.is_end == is_end
}

/// Appends the comments behind the last tag.
pub fn write_last_paragraph(page: &mut Page, notes: &Notes) -> Result<(), AllocError>
    ensures { OnOk result (page.new ≡ page.old ++ last_paragraph notes.now) }
{
    let comments = notes.comments.get(count_before(&notes.marks)..);
    write_paragraph(page, comments.unwrap_or(&[]))
}

/// How many comments stand before the last of some tags.
fn count_before(marks: &[Mark]) -> usize
    ensures { result ≡ count_before marks.now }
{
    marks.last().map_or(0, |mark| mark.last)
}
