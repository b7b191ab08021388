//! The lines of a saved book and their words.
ghost use Rattle.std.specs.Prelude.{◌≡◌, ◌≢◌, ◌==◌, List, ◌∷◌, IfOk, MatchOption, position};
ghost use Rattle.payroll_records.specs.Tables.{Text};
ghost use Rattle.saved_items.specs.private.LineViews.{AreWordsOf, Misses, ReadsLine, texts};

use std::alloc::{AllocError, Global};

/// A line of a text.
#[derive(Drop)]
pub(crate) struct Line<'a> {
    /// Its bytes, without its line feed.
    pub(crate) text: &'a [u8],
    /// The words between its spaces, at most 260.
    pub(crate) words: Vec<&'a [u8]>,
    /// What follows its line feed.
    pub(crate) rest: &'a [u8],
}

/// The line that stands first, if a line feed ends it.
pub(crate) fn first_line<'a>(alloc: Global, bytes: &'a [u8]) -> Result<Option<Line<'a>>, AllocError>
    ensures { IfOk result (λ line. MatchOption line (Misses 10 bytes.now) (ReadsLine bytes.now)) }
{
    let Some(end) = line_length(bytes) else {
        return Ok(None);
    };
    let text = &bytes[..end];
    let words = words_of(alloc, text)?;
    Ok(Some(Line {
        text,
        words,
        rest: &bytes[end + 1..],
    }))
}

/// How many bytes stand before the first line feed.
fn line_length(bytes: &[u8]) -> Option<usize>
    ensures { result ≡ position (λ b. b == 10) bytes.now }
{
    bytes.iter().position(|b| *b == b'\n')
}

/// The most words of a line that are looked at: one more than those of a run with 256 values.
const TOO_MANY_WORDS: usize = 260;

/// The words of a line between its spaces, or the first 260 of more.
fn words_of<'a>(alloc: Global, line: &'a [u8]) -> Result<Vec<&'a [u8]>, AllocError>
    ensures { IfOk result (λ words. AreWordsOf line.now words.items) }
{
    line.split(|b| *b == b' ')
        .take(TOO_MANY_WORDS)
        .collect(alloc)
}

/// The words behind a first word, if that is this one.
pub(crate) fn behind<'w, 'a>(first: &[u8], words: &'w [&'a [u8]]) -> Option<&'w [&'a [u8]]>
    ensures { MatchOption result ((rest : List Text) → texts words.now ≢ first.now ∷ rest)
        (λ rest. texts words.now ≡ first.now ∷ texts rest.now) }
{
    let [word, rest @ ..] = words else {
        return None;
    };
    if *word != first {
        return None;
    }
    Some(rest)
}
