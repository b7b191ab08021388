//! What a page has of comments: how many are new and gone, and a row for each.
ghost use Rattle.std.specs.Prelude.{◌≡◌, ◌++◌, IfOk, OnOk, Some, count_by, string_bytes, slice_get};
ghost use Rattle.std.specs.List.{flat_map};
ghost use Rattle.std.specs.Option.{option_map};
ghost use Rattle.comparison_page.specs.CommentTexts.{comment_place};
ghost use Rattle.comparison_page.specs.CommentParts.{is_gone_comment, is_new_comment, comment_counts, comment_cell, comment_row, comment_table, comments_part, comments_link};
ghost use Rattle.comparison_page.specs.Tables.{change_table};

use crate::cells::{GONE_END, GONE_START, NEW_START, ROW_END, Side, push_own, write_cell};
use crate::comment_text::{comment_in, comment_place};
use crate::parts::{PART_END, TABLE_END, TABLE_START};
use comment_comparison::{Comment, CommentChange, CommentComparison};
use std::alloc::{AllocError, Global};

/// Appends what a page has of comments, where they are compared.
pub(crate) fn write_comments_part(
    alloc: Global,
    page: &mut Vec<u8>,
    comments: Option<&CommentComparison>,
) -> Result<(), AllocError>
    ensures { OnOk result (page.new.items
        ≡ page.old.items ++ comments_part (option_map (λ c. c.now) comments.entry)) }
{
    match comments {
        Some(comments) => write_comment_part(alloc, page, comments),
        None => Ok(()),
    }
}

/// Appends what a page has of comments that are compared.
fn write_comment_part(
    alloc: Global,
    page: &mut Vec<u8>,
    comments: &CommentComparison,
) -> Result<(), AllocError>
    ensures { OnOk result (page.new.items ≡ page.old.items ++ comments_part (Some comments.now)) }
{
    push_own(
        page,
        "<section class=\"part\" id=\"comments\"><h2>Comments</h2>\n",
    )?;
    write_comment_table(alloc, page, comments, &comments.changes)?;
    push_own(page, PART_END)?;
    Ok(())
}

/// Appends the table of what is told of comments, or that there is nothing.
fn write_comment_table(
    alloc: Global,
    page: &mut Vec<u8>,
    comments: &CommentComparison,
    changes: &[CommentChange],
) -> Result<(), AllocError>
    ensures { OnOk result
        (page.new.items ≡ page.old.items ++ comment_table comments.now changes.now) }
{
    match changes {
        [] => push_own(page, "<p>No comment is new or gone.</p>\n"),
        _ => write_told_table(alloc, page, comments, changes),
    }
}

/// Appends a table with a row for each comment that is told.
fn write_told_table(
    alloc: Global,
    page: &mut Vec<u8>,
    comments: &CommentComparison,
    changes: &[CommentChange],
) -> Result<(), AllocError>
    ensures { OnOk result (page.new.items ≡ page.old.items
        ++ change_table (flat_map (comment_row comments.now) changes.now)) }
{
    push_own(page, TABLE_START)?;
    write_comment_rows(alloc, page, comments, changes)?;
    push_own(page, TABLE_END)?;
    Ok(())
}

/// Appends the rows of comments that are told.
fn write_comment_rows(
    alloc: Global,
    page: &mut Vec<u8>,
    comments: &CommentComparison,
    changes: &[CommentChange],
) -> Result<(), AllocError>
    ensures { OnOk result (page.new.items
        ≡ page.old.items ++ flat_map (comment_row comments.now) changes.now) }
{
    for change in changes {
        write_comment_row(alloc, page, comments, *change)?;
    }
    Ok(())
}

/// Appends the row of a comment that is told.
fn write_comment_row(
    alloc: Global,
    page: &mut Vec<u8>,
    comments: &CommentComparison,
    change: CommentChange,
) -> Result<(), AllocError>
    ensures { OnOk result (page.new.items ≡ page.old.items ++ comment_row comments.now change) }
{
    match change {
        CommentChange::Gone(place) => {
            let comment = comment_in(&comments.old, place);
            write_told(alloc, page, GONE_START, Side::Old, comment, GONE_END)
        }
        CommentChange::New(place) => {
            let comment = comment_in(&comments.new, place);
            write_told(alloc, page, NEW_START, Side::New, comment, ROW_END)
        }
    }
}

/// Appends the cell of a comment between what stands before it in its row and behind it.
fn write_told(
    alloc: Global,
    page: &mut Vec<u8>,
    start: &str,
    side: Side,
    comment: Option<&Comment>,
    end: &str,
) -> Result<(), AllocError>
    ensures { OnOk result (page.new.items ≡ page.old.items
        ++ (start.now ++ (comment_cell side (option_map (λ c. c.now) comment.entry) ++ end.now))) }
{
    push_own(page, start)?;
    write_comment_cell(alloc, page, side, comment)?;
    push_own(page, end)?;
    Ok(())
}

/// Appends the cell of a comment, behind its line.
fn write_comment_cell(
    alloc: Global,
    page: &mut Vec<u8>,
    side: Side,
    comment: Option<&Comment>,
) -> Result<(), AllocError>
    ensures { OnOk result (page.new.items
        ≡ page.old.items ++ comment_cell side (option_map (λ c. c.now) comment.entry)) }
{
    let Some(comment) = comment else {
        return Ok(());
    };
    let place = comment_place(alloc, comment)?;
    write_cell(alloc, page, side, &place, comment.text().as_bytes())
}

/// Appends the entry of comments in the contents, where they are compared.
pub(crate) fn write_comments_link(
    alloc: Global,
    page: &mut Vec<u8>,
    comments: Option<&CommentComparison>,
) -> Result<(), AllocError>
    ensures { OnOk result (page.new.items
        ≡ page.old.items ++ comments_link (option_map (λ c. c.now) comments.entry)) }
{
    match comments {
        Some(comments) => write_comment_link(alloc, page, comments),
        None => Ok(()),
    }
}

/// Appends the entry of comments that are compared.
fn write_comment_link(
    alloc: Global,
    page: &mut Vec<u8>,
    comments: &CommentComparison,
) -> Result<(), AllocError>
    ensures { OnOk result (page.new.items ≡ page.old.items ++ comments_link (Some comments.now)) }
{
    let link = comment_link(alloc, comments)?;
    push_own(page, &link)
}

/// The entry of comments that are compared.
fn comment_link(alloc: Global, comments: &CommentComparison) -> Result<String, AllocError>
    ensures { IfOk result (λ text. string_bytes text ≡ comments_link (Some comments.now)) }
{
    let counts = comment_counts(alloc, &comments.changes)?;
    format!(in alloc; "<li><a href=\"#comments\">Comments</a> <span>{counts}</span></li>\n")
}

/// How many comments are new and gone, in words.
fn comment_counts(alloc: Global, changes: &[CommentChange]) -> Result<String, AllocError>
    ensures { IfOk result (λ words. string_bytes words ≡ comment_counts changes.now) }
{
    let new = new_comments(changes);
    let gone = gone_comments(changes);
    format!(in alloc; "{new} new, {gone} gone")
}

/// How many comments are new.
fn new_comments(changes: &[CommentChange]) -> usize
    ensures { result ≡ count_by is_new_comment changes.now }
{
    changes.iter().filter(|c| is_new_comment(*c)).count()
}

/// How many are gone.
fn gone_comments(changes: &[CommentChange]) -> usize
    ensures { result ≡ count_by is_gone_comment changes.now }
{
    changes.iter().filter(|c| is_gone_comment(*c)).count()
}

/// Whether a comment is told as new.
fn is_new_comment(change: &CommentChange) -> bool
    ensures { result ≡ is_new_comment change.now }
{
    matches!(change, CommentChange::New(_))
}

/// Whether a comment is told as gone.
fn is_gone_comment(change: &CommentChange) -> bool
    ensures { result ≡ is_gone_comment change.now }
{
    matches!(change, CommentChange::Gone(_))
}
