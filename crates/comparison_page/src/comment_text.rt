//! What is told of comments, as a text.
ghost use Rattle.std.specs.Prelude.{◌≡◌, ◌++◌, IfOk, OnOk, Some, string_bytes, slice_get};
ghost use Rattle.std.specs.Option.{option_map};
ghost use Rattle.comparison_page.specs.CommentTexts.{comment_place, told_comment, comment_change_line, comment_changes_text};

use comment_comparison::{Comment, CommentChange, CommentComparison};
use std::alloc::{AllocError, Global};

/// Appends a line for each comment that stands in one file alone: its sign, as those of the flowchart have it, the line on which it
/// begins, and its text, whole.
pub fn write_comment_changes(
    alloc: Global,
    out: &mut Vec<u8>,
    comments: &CommentComparison,
) -> Result<(), AllocError>
    ensures { OnOk result (out.new.items ≡ out.old.items ++ comment_changes_text comments.now) }
{
    for change in &comments.changes {
        write_comment_change(alloc, out, comments, *change)?;
    }
    Ok(())
}

/// Appends the line of a comment that is told.
fn write_comment_change(
    alloc: Global,
    out: &mut Vec<u8>,
    comments: &CommentComparison,
    change: CommentChange,
) -> Result<(), AllocError>
    ensures { OnOk result
        (out.new.items ≡ out.old.items ++ comment_change_line comments.now change) }
{
    match change {
        CommentChange::Gone(place) => {
            write_comment_line(alloc, out, "-", comment_in(&comments.old, place))
        }
        CommentChange::New(place) => {
            write_comment_line(alloc, out, "+", comment_in(&comments.new, place))
        }
    }
}

/// The comment at a place, where there is one.
pub(crate) fn comment_in(comments: &[Comment], place: usize) -> Option<&Comment>
    ensures { option_map (λ c. c.now) result ≡ slice_get comments.now place }
{
    comments.get(place)
}

/// Appends the line of a comment behind its sign.
fn write_comment_line(
    alloc: Global,
    out: &mut Vec<u8>,
    sign: &str,
    comment: Option<&Comment>,
) -> Result<(), AllocError>
    ensures { OnOk result (out.new.items
        ≡ out.old.items ++ told_comment sign.now (option_map (λ c. c.now) comment.entry)) }
{
    let Some(comment) = comment else {
        return Ok(());
    };
    let line = told_comment(alloc, sign, comment)?;
    out.extend_from_slice(line.as_bytes())
}

/// A comment behind its sign, with its line.
fn told_comment(alloc: Global, sign: &str, comment: &Comment) -> Result<String, AllocError>
    ensures { IfOk result (λ line. string_bytes line ≡ told_comment sign.now (Some comment.now)) }
{
    let place = comment_place(alloc, comment)?;
    let text = comment.text();
    format!(in alloc; "{sign} comment {place} {text}\n")
}

/// Where a comment begins.
pub(crate) fn comment_place(alloc: Global, comment: &Comment) -> Result<String, AllocError>
    ensures { IfOk result (λ place. string_bytes place ≡ comment_place comment.now) }
{
    let line = comment.line();
    format!(in alloc; "line {line}")
}
