//! Where a tag stops being read, and why.
ghost use Rattle.std.specs.Prelude.{◌≡◌, ℕ, ◌≤◌, ◌<◌, ◌∷◌, List, length, MatchOption, IfSome};
ghost use Rattle.pap_reader.specs.Bytes.{begins_with};
ghost use Rattle.pap_reader.specs.Values.{NoByte};
ghost use Rattle.plain_words.specs.Strays.{ReadsValue, is_no_element, goes_on_as_tag, is_less_sign, begins_with_sign};
ghost use Rattle.plain_words.specs.private.StopViews.{StopsAs};

use crate::counting::line_number;
use crate::lookalikes::has_other_quote;
use crate::malformed::malformed_at;
use crate::quotes::{first_line, word, write_line, write_quoted};
use pap_reader::{Element, ValueFront, read_byte, read_value_front, split_letters};
use std::alloc::AllocError;

/// Where a text stops being a tag.
#[derive(Clone, Copy)]
pub(crate) struct TagStop<'a> {
    /// What stands before the value in which it stops. `None` where it stops outside of values.
    pub value: Option<ValueFront<'a>>,
    /// What stands there, up to the end of the file.
    pub left: &'a [u8],
}

/// Where a text stops being a tag: at the first byte of a value that can't stand in one, or behind the last attribute.
pub(crate) fn tag_stop(text: &[u8]) -> TagStop<'_>
    ensures stops { StopsAs text.now result }
    ensures within { length result.left.now ≤ length text.now }
{
    let Some(inner) = after_byte(text, b'<') else {
        return TagStop {
            value: None,
            left: text,
        };
    };
    let mut left = split_letters(inner).1;
    while let Some(front) = read_value_front(left) {
        let end = value_end(front.text, front.quote);
        match after_byte(end, front.quote) {
            Some(rest) => left = rest,
            None => {
                return TagStop {
                    value: Some(front),
                    left: end,
                };
            }
        }
    }
    TagStop { value: None, left }
}

/// What is left after this byte, if it comes first.
fn after_byte(bytes: &[u8], byte: u8) -> Option<&[u8]>
    ensures found { MatchOption result
        ((rest : List ℕ) → bytes.now ≡ byte ∷ rest → ⊥)
        (λ rest. bytes.now ≡ byte ∷ rest.now) }
    ensures shorter { IfSome result (λ rest. length rest.now < length bytes.now) }
{
    match bytes {
        [] => None,
        [first, rest @ ..] => { if *first == byte { Some(rest) } else { None } }
    }
}

/// What is left of a value behind the bytes that it may have: its closing quote, or what can't stand in a value.
fn value_end(text: &[u8], quote: u8) -> &[u8]
    ensures reads { ReadsValue quote text.now result.now }
    ensures none { NoByte quote result.now }
    ensures within { length result.now ≤ length text.now }
{
    let mut left = text;
    while let Some((_, rest)) = read_byte(left, quote) {
        left = rest;
    }
    left
}

/// Whether what is left of a value's text begins with a sign that would have to be escaped: a `&`, or a `<` that is meant as a
/// sign.
pub(crate) fn begins_with_sign(text: &[u8], left: &[u8]) -> bool
    ensures { result ≡ begins_with_sign text.now left.now }
{
    match left {
        [] => false,
        [first, inner @ ..] => *first == b'&' || *first == b'<' && is_less_sign(text, inner),
    }
}

/// Whether a `<` that is left of a value's text, with this behind it, is meant as a sign: it stands in the line in which the text
/// begins, or it begins no tag.
fn is_less_sign(text: &[u8], inner: &[u8]) -> bool
    ensures { result ≡ is_less_sign text.now inner.now }
{
    line_number(text) == line_number(inner) || !goes_on_as_tag(inner)
}

/// Whether what stands behind a `<` goes on with it as a tag of the profile does, or a comment or the like.
fn goes_on_as_tag(inner: &[u8]) -> bool
    ensures { result ≡ goes_on_as_tag inner.now }
{
    begins_no_element(inner) || Element::named(word(inner)).is_some()
}

/// Whether what stands behind a `<` begins an end tag, a comment or the like, or an instruction as `<?xml ?>`.
fn begins_no_element(inner: &[u8]) -> bool
    ensures { result ≡ begins_with is_no_element inner.now }
{
    match inner {
        [] => false,
        [first, ..] => is_no_element(*first),
    }
}

fn is_no_element(byte: u8) -> bool
    ensures { result ≡ is_no_element byte }
{
    byte == b'/' || byte == b'!' || byte == b'?'
}

impl TagStop<'_> {
    /// Appends why the tag with which a text begins stops there, in this line of its file, and what stands there.
    pub(crate) fn write(
        self,
        out: &mut String,
        text: &[u8],
        line: usize,
    ) -> Result<(), AllocError> {
        let Some(front) = self.value else {
            return malformed_at(text, self.left).write(out, text, self.left);
        };
        out.push_str("the value of the attribute ")?;
        write_quoted(out, front.name, 0)?;
        match self.left.first() {
            Some(b'<') if !begins_with_sign(front.text, self.left) => {
                write!(
                    out,
                    " has no closing quotation mark before the < of line {line}"
                )?
            }
            Some(b'<') => out.push_str(" has a < that isn't escaped")?,
            Some(_) => out.push_str(" has an & that begins no escape")?,
            None => out.push_str(" has no closing quotation mark before the file ends")?,
        }
        write_line(out, self.left)?;
        out.push_str(", in the tag ")?;
        write_quoted(out, first_line(text), 0)
    }

    /// What helps there, in the tag with which a text begins.
    pub(crate) fn help(self, text: &[u8]) -> &'static str {
        let Some(front) = self.value else {
            return malformed_at(text, self.left).help();
        };
        match self.left.first() {
            Some(b'<') if !begins_with_sign(front.text, self.left) => {
                typographic_help(front).unwrap_or(
                    "close the value with the quotation mark that opens it; in a value that goes over several lines a < is written &lt;",
                )
            }
            Some(b'<') => "write &lt; for a < in a value",
            Some(_) => {
                "write &amp; for an & in a value; the escapes are &lt; &gt; &amp; &quot; &apos; and &#N; with N from 1 to 127"
            }
            None => typographic_help(front).unwrap_or(
                "close the value with the quotation mark that opens it",
            ),
        }
    }
}

/// What helps where a value that isn't closed has a typographic quotation mark in its first line.
fn typographic_help(front: ValueFront<'_>) -> Option<&'static str> {
    if has_other_quote(first_line(front.text)) {
        Some(
            "its closing quotation mark is a typographic one, it seems; write the one that opens the value",
        )
    } else {
        None
    }
}
