//! Why a text stops being a tag outside of the values of its attributes.
use crate::lookalikes::{begins_with_other_quote, other_space};
use crate::quotes::{word, write_line, write_quoted};
use pap_tree::is_white;
use std::alloc::AllocError;

/// Why a text stops being a tag outside of the values of its attributes.
#[derive(Clone, Copy)]
pub(crate) enum Malformed<'a> {
    /// The file ends there.
    Ended,
    /// A space stands there that isn't white space in a plan's file; this is what it is called.
    Space(&'static str),
    /// Another tag begins there.
    Unended,
    /// The value of the attribute of this name has other quotation marks round it than `"` or `'`.
    OtherQuotes(&'a [u8]),
    /// The value of the attribute of this name has no quotation marks round it.
    Unquoted(&'a [u8]),
    /// The value of an attribute ends right before it, with this quotation mark.
    Behind(u8),
    /// An attribute follows that has no blank before it.
    NoBlank,
    /// It isn't known why.
    Other,
}

/// What is read of an attribute that isn't one.
#[derive(Clone, Copy)]
struct Partial<'a> {
    /// Its name; nothing where none stands there.
    name: &'a [u8],
    /// Whether a name and a `=` stand there.
    has_equals: bool,
    /// What stands behind these and the white space round them.
    rest: &'a [u8],
}

/// Why the tag with which a text begins stops where this is left of it, outside of the values of its attributes.
pub(crate) fn malformed_at<'a>(text: &[u8], left: &'a [u8]) -> Malformed<'a> {
    let partial = read_partial(left);
    if partial.rest.is_empty() {
        return Malformed::Ended;
    }
    if let Some(space) = other_space(partial.rest) {
        return Malformed::Space(space);
    }
    if partial.rest.starts_with(b"<") {
        return Malformed::Unended;
    }
    match quote_before(text, left) {
        Some(_) if partial.has_equals && begins_with_quote(partial.rest) => Malformed::NoBlank,
        Some(quote) => Malformed::Behind(quote),
        None => malformed_value(partial),
    }
}

/// Why an attribute isn't one that isn't right behind the value of another.
fn malformed_value(partial: Partial<'_>) -> Malformed<'_> {
    if !partial.has_equals || begins_with_quote(partial.rest) {
        Malformed::Other
    } else if begins_with_other_quote(partial.rest) {
        Malformed::OtherQuotes(partial.name)
    } else {
        Malformed::Unquoted(partial.name)
    }
}

/// What is read of an attribute with which a text begins.
fn read_partial(text: &[u8]) -> Partial<'_> {
    let named = behind_white(behind_slash(text));
    let name = word(named);
    let behind = behind_white(named.get(name.len()..).unwrap_or(&[]));
    match behind.strip_prefix(b"=") {
        Some(value) if !name.is_empty() => Partial {
            name,
            has_equals: true,
            rest: behind_white(value),
        },
        _ => Partial {
            name,
            has_equals: false,
            rest: behind,
        },
    }
}

/// A text without the `/` of an end tag with which it begins.
fn behind_slash(text: &[u8]) -> &[u8] {
    text.strip_prefix(b"/").unwrap_or(text)
}

/// A text without the white space with which it begins.
fn behind_white(text: &[u8]) -> &[u8] {
    let count = text.iter().take_while(|byte| is_white(**byte)).count();
    text.get(count..).unwrap_or(&[])
}

/// The quotation mark right before what is left of a text, where that begins neither with white space nor with a `/`.
fn quote_before(text: &[u8], left: &[u8]) -> Option<u8> {
    let first = *left.first()?;
    let count = text.len().saturating_sub(left.len());
    let before = *text.get(..count)?.last()?;
    if is_quote(before) && !is_white(first) && first != b'/' {
        Some(before)
    } else {
        None
    }
}

/// Whether a value may have this mark round it.
fn is_quote(byte: u8) -> bool {
    byte == b'"' || byte == b'\''
}

/// Whether a quotation mark that a value may have round it comes first.
fn begins_with_quote(text: &[u8]) -> bool {
    match text {
        [] => false,
        [first, ..] => is_quote(*first),
    }
}

impl Malformed<'_> {
    /// Appends what is wrong with the tag with which a text begins, where this is left of it.
    pub(crate) fn write(
        self,
        out: &mut String,
        text: &[u8],
        left: &[u8],
    ) -> Result<(), AllocError> {
        match self {
            Malformed::Ended => {
                out.push_str("the file ends within the tag")?;
                return write_line(out, text);
            }
            Malformed::Space(name) => write!(out, "the tag has {name} in it")?,
            Malformed::Unended => {
                out.push_str("another tag begins before the tag has ended")?;
                return write_line(out, text);
            }
            Malformed::OtherQuotes(name) => {
                write_value_of(out, name)?;
                out.push_str(" has typographic quotation marks round it")?;
            }
            Malformed::Unquoted(name) => {
                write_value_of(out, name)?;
                out.push_str(" has no quotation marks round it")?;
            }
            Malformed::Behind(_) => {
                out.push_str("the tag goes on right behind the quotation mark that ends a value")?
            }
            Malformed::NoBlank => out.push_str("an attribute has no blank before it")?,
            Malformed::Other => out.push_str("the tag isn't well formed")?,
        }
        write_line(out, left)
    }

    /// What helps there.
    pub(crate) fn help(self) -> &'static str {
        match self {
            Malformed::Ended =>
                "the file was cut off, it seems; write what is missing, up to </PAP>",
            Malformed::Space(_) => "write a blank in its place, or take it out",
            Malformed::Unended => "end the tag with > or />",
            Malformed::OtherQuotes(_) | Malformed::Unquoted(_) => {
                "write \" or ' before and behind the value"
            }
            Malformed::Behind(b'"') => {
                "a value that has \" in it stands in ' ', or has &quot; for each \"; between two attributes stands a blank"
            }
            Malformed::Behind(_) => {
                "a value that has ' in it stands in \" \", or has &apos; for each '; between two attributes stands a blank"
            }
            Malformed::NoBlank => "write a blank between two attributes",
            Malformed::Other => {
                "a tag is < or </, the element's name, attributes as NAME=\"VALUE\" with a blank before each, and > or />"
            }
        }
    }
}

/// Appends the value of the attribute of a name.
fn write_value_of(out: &mut String, name: &[u8]) -> Result<(), AllocError> {
    out.push_str("the value of the attribute ")?;
    write_quoted(out, name, 0)
}
