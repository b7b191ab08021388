//! Texts in a page.
ghost use Rattle.std.specs.Prelude.{◌≡◌, ◌++◌, ℕ, List, IsTrue, All, OnOk};
ghost use Rattle.flowchart_markup.specs.Escapes.{escaped_byte, escaped, is_inert};

use std::alloc::AllocError;

/// Appends a text as it stands in a page: `&`, `<`, `>` and both quotes by their names.
pub fn push_escaped(page: &mut Vec<u8>, text: &[u8]) -> Result<(), AllocError>
    ensures { OnOk result (page.new.items ≡ page.old.items ++ escaped text.now) }
{
    for byte in text {
        push_byte(page, *byte)?;
    }
    Ok(())
}

/// Appends a byte of a text as it stands in a page.
fn push_byte(page: &mut Vec<u8>, byte: u8) -> Result<(), AllocError>
    ensures { OnOk result (page.new.items ≡ page.old.items ++ escaped_byte byte) }
{
    match byte {
        b'<' => page.extend_from_slice(b"&lt;"),
        b'>' => page.extend_from_slice(b"&gt;"),
        b'&' => page.extend_from_slice(b"&amp;"),
        b'"' => page.extend_from_slice(b"&quot;"),
        b'\'' => page.extend_from_slice(b"&#39;"),
        _ => page.extend_from_slice(&[byte]),
    }
}

/// The law of texts in a page: none begins or ends a tag, or the value of an attribute.
pub fn escape_laws()
    ensures inert { (text : List ℕ) → All (λ byte. IsTrue (is_inert byte)) (escaped text) }
{}
