//! Declarations that a comment without its end hides.
use crate::counting::position;
use crate::sites::Source;
use pap_reader::{Token, past_mark};
use pap_tree::Name;
use std::alloc::AllocError;

/// The byte at which the comment begins in which an element of this name stands, where the comment has the beginning of another in
/// it, since it lacks its end then, as it seems.
pub(crate) fn hiding_comment(source: Source<'_>, name: &Name) -> Option<usize> {
    for token in &source.tokens.items {
        if let Token::Comment { at, inside } = token
            && past_mark(inside, b"<!--").is_some()
            && has_element(inside, name)
        {
            return Some(*at);
        }
    }
    None
}

/// Whether the attribute `name` of a tag in a text is this name.
fn has_element(text: &[u8], name: &Name) -> bool {
    for at in 0..text.len() {
        if is_named(text.get(at..).unwrap_or(&[]), name) {
            return true;
        }
    }
    false
}

/// Whether a text begins with the attribute `name` of this name.
fn is_named(text: &[u8], name: &Name) -> bool {
    let Some(value) = text.strip_prefix(b"name=") else {
        return false;
    };
    let Some((quote, inner)) = value.split_first() else {
        return false;
    };
    match inner.strip_prefix(name.bytes()) {
        Some(behind) => is_quote(*quote) && behind.first() == Some(quote),
        None => false,
    }
}

/// Whether a value may have this mark round it.
fn is_quote(byte: u8) -> bool {
    byte == b'"' || byte == b'\''
}

/// Appends where a name is used, and that it stands in the comment that begins at the place of the message.
pub(crate) fn write_hidden(
    out: &mut String,
    source: Source<'_>,
    name: &Name,
    used: Option<usize>,
) -> Result<(), AllocError> {
    if let Some(at) = used {
        let place = position(source.file.bytes, at);
        write!(out, ", at {place}")?;
    }
    write!(
        out,
        ": the comment that begins here has {name} in it, and another <!--, so it seems to lack its end; write --> where it ends"
    )
}
