//! Parts of a text as messages show them.
use std::alloc::AllocError;

/// The most bytes that are shown of a text.
const MOST_SHOWN: usize = 80;

/// Appends how a text begins, in backquotes, with two points for what is left out.
pub(crate) fn write_shown(out: &mut String, text: &[u8]) -> Result<(), AllocError> {
    let front = &text[..text.len().min(MOST_SHOWN)];
    let shown = String::from_utf8_lossy(*out.allocator(), front)?;
    let more = if front.len() < text.len() { ".." } else { "" };
    write!(out, "`{shown}{more}`")
}
