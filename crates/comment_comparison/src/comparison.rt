//! The comparison of the comments of two files.
ghost use Rattle.std.specs.Prelude.{◌≡◌, ◌++◌, IfOk, OnOk};
ghost use Rattle.flowchart_comparison.specs.Comparisons.{line_texts};
ghost use Rattle.comment_comparison.specs.Comments.{comment_texts};
ghost use Rattle.comment_comparison.specs.CommentChanges.{apart, all_apart, AreChanges, IsCommentComparison};

use crate::change::CommentChange;
use crate::comment::Comment;
use crate::moves::unmoved;
use crate::reading::read_comments;
use flowchart_comparison::{Entry, Line, align};
use std::alloc::{AllocError, Global};
use std::marker::Model;

/// The comments of two files, and what is told of them.
#[derive(Drop)]
pub struct CommentComparison {
    /// The comments of the old file, in its order.
    pub old: Vec<Comment>,
    /// Those of the new file.
    pub new: Vec<Comment>,
    /// Those that stand in one file alone, in the order of the alignment.
    pub changes: Vec<CommentChange>,
}

impl Model for CommentComparison {
    ghost use Rattle.comment_comparison.specs.CommentChanges.{ComparedComments};

    ghost Value = { ComparedComments };

    ghost view = { λ c. record { old = c.old.items; new = c.new.items; changes = c.changes.items } };
}

/// Compares the comments of two plans' files. They are aligned by their texts as the lines of methods are; of those that aren't aligned
/// with an equal one, those that stand more often in one file than in the other are told, and what has only moved isn't. Takes time
/// nearly linear in the files. Fails only for lack of memory.
pub fn compare_comments(
    alloc: Global,
    old: &[u8],
    new: &[u8],
) -> Result<CommentComparison, AllocError>
    ensures { IfOk result (λ c. IsCommentComparison old.now new.now c) }
{
    let old = read_comments(alloc, old)?;
    let new = read_comments(alloc, new)?;
    let changes = comment_changes(alloc, &old, &new)?;
    Ok(CommentComparison { old, new, changes })
}

/// Which comments stand in one of two lists alone.
fn comment_changes(
    alloc: Global,
    old: &[Comment],
    new: &[Comment],
) -> Result<Vec<CommentChange>, AllocError>
    ensures { IfOk result (λ changes.
        AreChanges (comment_texts old.now) (comment_texts new.now) changes.items) }
{
    let old_lines = comment_lines(alloc, old)?;
    let new_lines = comment_lines(alloc, new)?;
    let entries = align(alloc, &old_lines, &new_lines)?;
    let unaligned = all_apart(alloc, &entries)?;
    let changes = unmoved(alloc, old, new, &unaligned)?;
    Ok(changes)
}

/// The texts of comments, as they are aligned.
fn comment_lines(alloc: Global, comments: &[Comment]) -> Result<Vec<Line>, AllocError>
    ensures { IfOk result (λ lines. line_texts lines.items ≡ comment_texts comments.now) }
{
    let mut lines = Vec::with_capacity(alloc, comments.len())?;
    for comment in comments {
        let number = lines.len();
        let text = Vec::from_slice(alloc, comment.text().as_bytes())?;
        lines.push(Line::statement(number, text))?;
    }
    Ok(lines)
}

/// What an alignment tells of comments that aren't aligned with an equal one.
fn all_apart(alloc: Global, entries: &[Entry]) -> Result<Vec<CommentChange>, AllocError>
    ensures { IfOk result (λ changes. changes.items ≡ all_apart entries.now) }
{
    let mut changes = Vec::new(alloc);
    for entry in entries {
        push_apart(&mut changes, *entry)?;
    }
    Ok(changes)
}

/// Appends what an entry tells of them.
fn push_apart(changes: &mut Vec<CommentChange>, entry: Entry) -> Result<(), AllocError>
    ensures { OnOk result (changes.new.items ≡ changes.old.items ++ apart entry) }
{
    match entry {
        Entry::Same(..) => {}
        Entry::Changed(old, new) => {
            changes.push(CommentChange::Gone(old))?;
            changes.push(CommentChange::New(new))?;
        }
        Entry::Gone(old) => changes.push(CommentChange::Gone(old))?,
        Entry::New(new) => changes.push(CommentChange::New(new))?,
    }
    Ok(())
}
