//! The comments of a plan's file, from its tokens.
ghost use Rattle.std.specs.Prelude.{◌≡◌, ◌≤◌, ◌++◌, [], ◌∷◌, length, count_by, IfOk, OnOk};
ghost use Rattle.pap_reader.specs.Contents.{AreRead};
ghost use Rattle.plain_words.specs.Positions.{is_line_feed, line_of};
ghost use Rattle.plan_notes.specs.Lines.{line_text};
ghost use Rattle.comment_comparison.specs.Comments.{line_comment, HasComments};

use crate::comment::Comment;
use pap_reader::{Token, Tokens, read_tokens};
use plan_notes::one_line;
use std::alloc::{AllocError, Global};

/// The comments of a plan's file in its order, up to its end or to a place where neither a tag nor a comment nor white space stands.
/// Takes time linear in the file. Fails only for lack of memory.
pub fn read_comments(alloc: Global, file: &[u8]) -> Result<Vec<Comment>, AllocError>
    ensures { IfOk result (λ comments. HasComments file.now comments.items) }
{
    let tokens = read_tokens(alloc, file)?;
    comments_of(alloc, file, &tokens)
}

/// The same of a file whose tokens are read.
fn comments_of(alloc: Global, file: &[u8], tokens: &Tokens<'_>) -> Result<Vec<Comment>, AllocError>
    requires { AreRead file.now tokens.now }
    ensures { IfOk result (λ comments. HasComments file.now comments.items) }
{
    let mut comments = Vec::new(alloc);
    let mut counted = 0;
    let mut line = 1;
    for token in &tokens.items {
        let Token::Comment { at, inside } = token else {
            continue;
        };
        line = line_behind(file, line, counted, *at);
        counted = *at;
        keep_comment(alloc, &mut comments, line, inside)?;
    }
    Ok(comments)
}

/// Appends the comment that begins on a line.
fn keep_comment(
    alloc: Global,
    comments: &mut Vec<Comment>,
    line: usize,
    inside: &[u8],
) -> Result<(), AllocError>
    ensures { OnOk result (comments.new.items ≡ comments.old.items
        ++ (line_comment line (line_text inside.now) ∷ [])) }
{
    let text = one_line(alloc, inside)?;
    comments.push(Comment::new(line, text))?;
    Ok(())
}

/// The line of a byte, which is counted on from that of a byte before it.
fn line_behind(file: &[u8], line: usize, from: usize, to: usize) -> usize
    requires known { line ≡ line_of file.now from }
    requires order { from ≤ to }
    requires within { to ≤ length file.now }
    ensures { result ≡ line_of file.now to }
{
    line + line_feeds(&file[from..to])
}

/// How many lines end in a text.
fn line_feeds(text: &[u8]) -> usize
    ensures { result ≡ count_by is_line_feed text.now }
{
    text.iter().filter(|byte| is_line_feed(*byte)).count()
}

/// Whether a byte ends a line.
fn is_line_feed(byte: &u8) -> bool
    ensures { result ≡ is_line_feed byte.now }
{
    *byte == b'\n'
}
