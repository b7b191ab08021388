//! What is told of a comment.

/// A comment that stands in one file alone, by its place among that file's comments, from 0.
#[derive(Clone, Copy, Debug, PartialEq, Eq)]
pub enum CommentChange {
    /// A comment of the old file that is gone.
    Gone(usize),
    /// A comment of the new file that is new.
    New(usize),
}
