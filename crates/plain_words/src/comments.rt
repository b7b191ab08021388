//! Comments that may hide tags of a plan's file.
use crate::counting::position;
use pap_reader::{Token, Tokens, past_mark, read_tokens};
use std::alloc::AllocError;

/// Appends where the first comment of a plan's file begins that has the beginning of another in it, since it may lack its end, so
/// that it hides what stands up to the other's end.
pub(crate) fn write_open_comment(out: &mut String, file: &[u8]) -> Result<(), AllocError> {
    let tokens: Tokens<'_> = read_tokens(*out.allocator(), file)?;
    match open_comment(&tokens.items) {
        Some(at) => {
            let place = position(file, at);
            write!(
                out,
                "; the comment that begins at {place} has another <!-- in it, so it may lack its end -->"
            )
        }
        None => Ok(()),
    }
}

/// The byte at which the first comment begins that has the beginning of another in it.
fn open_comment(tokens: &[Token<'_>]) -> Option<usize> {
    for token in tokens {
        if let Token::Comment { at, inside } = token
            && past_mark(inside, b"<!--").is_some()
        {
            return Some(*at);
        }
    }
    None
}
