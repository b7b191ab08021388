//! The tokens of a plan's file: its comments and tags, each with the place of its first byte.

ghost use Rattle.std.specs.Prelude.{◌≡◌, ◌<◌, ◌-◌, length, MatchOption, IfOk, IfSome};
ghost use Rattle.pap_reader.specs.Contents.{IsComment, IsToken, AreRead, token_meant};
ghost use Rattle.pap_reader.specs.private.Views.{NoComment, NoToken};

use crate::bytes::{after_text, after_white};
use crate::skipped::{after_prolog, past_mark};
use crate::tags::{Tag, read_tag};
use std::alloc::{AllocError, Global};

/// A comment or a tag. Its place is that of its `<`, counted from the file's beginning.
#[derive(Drop)]
pub enum Token<'a> {
    /// A comment, and what stands between its `<!--` and `-->`.
    Comment { at: usize, inside: &'a [u8] },
    /// A tag.
    Tag { at: usize, tag: Tag<'a> },
}

/// The tokens of a plan's file in its order, up to its end or to a place where no token begins.
#[derive(Drop)]
pub struct Tokens<'a> {
    /// The tokens.
    pub items: Vec<Token<'a>>,
    /// What is left of the file behind them, without the white space before it.
    pub left: &'a [u8],
}

/// Reads the tokens of a plan's file, once and from left to right. Takes time and memory linear in the file, and fails only for
/// lack of memory.
pub fn read_tokens(alloc: Global, file: &[u8]) -> Result<Tokens<'_>, AllocError>
    ensures { IfOk result (λ tokens. AreRead file.now tokens) }
{
    let mut items = Vec::new(alloc);
    let mut left = after_white(after_prolog(file));
    while let Some((token, rest)) = read_token(alloc, left, file.len() - left.len())? {
        items.push(token)?;
        left = after_white(rest);
    }
    Ok(Tokens { items, left })
}

/// The token that comes first, at a place, and what is left.
fn read_token(
    alloc: Global,
    bytes: &[u8],
    at: usize,
) -> Result<Option<(Token<'_>, &[u8])>, AllocError>
    ensures found { IfOk result (λ o. MatchOption o
        (NoToken bytes.now)
        (λ r. IsToken at bytes.now (token_meant r.0) r.1.now)) }
    ensures shorter { IfOk result (λ o. IfSome o (λ r. length r.1.now < length bytes.now)) }
{
    if let Some((inside, rest)) = read_comment(bytes) {
        return Ok(Some((Token::Comment { at, inside }, rest)));
    }
    let Some((tag, rest)) = read_tag(alloc, bytes)? else {
        return Ok(None);
    };
    Ok(Some((Token::Tag { at, tag }, rest)))
}

/// What stands inside the comment that comes first, and what is left.
fn read_comment(bytes: &[u8]) -> Option<(&[u8], &[u8])>
    ensures found { MatchOption result (NoComment bytes.now)
        (λ r. IsComment bytes.now r.0.now r.1.now) }
    ensures shorter { IfSome result (λ r. length r.1.now < length bytes.now) }
{
    let inner = after_text(bytes, b"<!--")?;
    let rest = past_mark(inner, b"-->")?;
    let end = inner.len() - rest.len() - 3;
    Some((&inner[..end], rest))
}
