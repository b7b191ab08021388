//! Tags and their attributes.

ghost use Rattle.std.specs.Prelude.{◌≡◌, ◌<◌, ◌∷◌, [], true, length, MatchOption, IfOk, IfSome};
ghost use Rattle.pap_reader.specs.Values.{is_quote};
ghost use Rattle.pap_reader.specs.Tags.{BeforeValue, IsAttribute, Ending, IsTag, attribute_of, attributes_of, tag_of, NoTag, IsFrontOf};
ghost use Rattle.pap_reader.specs.private.Views.{NoQuote, NoAttribute, NoClosing, NoEnding};

use crate::bytes::{
    after_byte, after_white, begins_with_first, begins_with_letter, begins_with_white, split,
    split_letters, split_name,
};
use crate::values::read_value;
use std::alloc::{AllocError, Global};

/// How a tag is written.
#[derive(Clone, Copy, Debug, PartialEq, Eq)]
pub enum Form {
    /// `<NAME ..>`
    Start,
    /// `<NAME ../>`
    Empty,
    /// `</NAME>`
    End,
}

/// An attribute of a tag.
#[derive(Drop)]
pub struct Attribute<'a> {
    /// What stands before the `=`.
    pub name: &'a [u8],
    /// The quote round the value.
    pub quote: u8,
    /// What stands in the file from the first byte of the value on: so many bytes before the file's end is its place.
    pub text: &'a [u8],
    /// How many bytes stand between the quotes.
    pub written: usize,
    /// The text that they stand for.
    pub value: Vec<u8>,
}

/// A tag.
#[derive(Drop)]
pub struct Tag<'a> {
    /// How it is written.
    pub form: Form,
    /// The letters that it begins with.
    pub name: &'a [u8],
    /// Its attributes, in the order of the text.
    pub attributes: Vec<Attribute<'a>>,
}

/// What stands before an attribute's value, and what follows its first quote.
#[derive(Clone, Copy)]
pub struct ValueFront<'a> {
    /// The attribute's name.
    pub name: &'a [u8],
    /// The quote that ends the value, too.
    pub quote: u8,
    /// The value and what follows it.
    pub text: &'a [u8],
}

/// The quote that comes first, and what is left.
fn split_quote(bytes: &[u8]) -> Option<(u8, &[u8])>
    ensures found { MatchOption result
        (NoQuote bytes.now)
        (λ r. (bytes.now ≡ r.0 ∷ r.1.now) × (is_quote r.0 ≡ true)) }
    ensures shorter { IfSome result (λ r. length r.1.now < length bytes.now) }
{
    let (first, rest) = split(bytes)?;
    if first == b'"' || first == b'\'' {
        Some((first, rest))
    } else {
        None
    }
}

/// What stands before the value of the attribute that comes first.
pub fn read_value_front(bytes: &[u8]) -> Option<ValueFront<'_>>
    ensures found { MatchOption result
        ((f : BeforeValue bytes.now) → ⊥)
        (λ r. IsFrontOf bytes.now r.name.now r.quote r.text.now) }
    ensures shorter { IfSome result (λ r. length r.text.now < length bytes.now) }
{
    if !begins_with_white(bytes) {
        return None;
    }
    let named = after_white(bytes);
    if !begins_with_first(named) {
        return None;
    }
    let (name, rest) = split_name(named);
    let value = after_byte(after_white(rest), b'=')?;
    let (quote, text) = split_quote(after_white(value))?;
    Some(ValueFront { name, quote, text })
}

/// An attribute and the white space before it, and what is left.
fn read_attribute(alloc: Global, bytes: &[u8]) -> Result<Option<(Attribute<'_>, &[u8])>, AllocError>
    ensures found { IfOk result (λ o. MatchOption o
        (NoAttribute bytes.now)
        (λ r. IsAttribute bytes.now (attribute_of r.0) r.1.now)) }
    ensures shorter { IfOk result (λ o. IfSome o (λ r. length r.1.now < length bytes.now)) }
{
    let Some(ValueFront { name, quote, text }) = read_value_front(bytes) else {
        return Ok(None);
    };
    let Some((value, rest)) = read_value(alloc, text, quote)? else {
        return Ok(None);
    };
    let written = text.len() - rest.len() - 1;
    Ok(Some((
        Attribute {
            name,
            quote,
            text,
            written,
            value,
        },
        rest,
    )))
}

/// How a start tag or an empty tag closes, and what is left.
fn read_close(bytes: &[u8]) -> Option<(Form, &[u8])>
    ensures found { MatchOption result (NoClosing bytes.now)
        (λ r. Ending bytes.now r.0 [] r.1.now) }
    ensures shorter { IfSome result (λ r. length r.1.now < length bytes.now) }
{
    let (first, rest) = split(after_white(bytes))?;
    if first == b'>' {
        return Some((Form::Start, rest));
    }
    if first != b'/' {
        return None;
    }
    let rest = after_byte(rest, b'>')?;
    Some((Form::Empty, rest))
}

/// What follows the name of a start tag or an empty tag, and what is left.
fn read_ending(
    alloc: Global,
    bytes: &[u8],
) -> Result<Option<(Vec<Attribute<'_>>, Form, &[u8])>, AllocError>
    ensures found { IfOk result (λ o. MatchOption o
        (NoEnding bytes.now)
        (λ r. Ending bytes.now r.1 (attributes_of r.0.items) r.2.now)) }
    ensures shorter { IfOk result (λ o. IfSome o (λ r. length r.2.now < length bytes.now)) }
{
    let mut attributes = Vec::new(alloc);
    let mut left = bytes;
    while let Some((attribute, rest)) = read_attribute(alloc, left)? {
        attributes.push(attribute)?;
        left = rest;
    }
    match read_close(left) {
        Some((form, rest)) => Ok(Some((attributes, form, rest))),
        None => Ok(None),
    }
}

/// An end tag after its `</`, and what is left.
fn read_end(alloc: Global, bytes: &[u8]) -> Option<(Tag<'_>, &[u8])>
    ensures found { MatchOption result
        (NoTag (60 ∷ 47 ∷ bytes.now))
        (λ r. IsTag (60 ∷ 47 ∷ bytes.now) (tag_of r.0) r.1.now) }
    ensures shorter { IfSome result (λ r. length r.1.now < length bytes.now) }
{
    if !begins_with_letter(bytes) {
        return None;
    }
    let (name, rest) = split_letters(bytes);
    let rest = after_byte(after_white(rest), b'>')?;
    let form = Form::End;
    let attributes = Vec::new(alloc);
    Some((
        Tag {
            form,
            name,
            attributes,
        },
        rest,
    ))
}

/// The tag that comes first, and what is left.
pub fn read_tag(alloc: Global, bytes: &[u8]) -> Result<Option<(Tag<'_>, &[u8])>, AllocError>
    ensures found { IfOk result (λ o. MatchOption o
        (NoTag bytes.now)
        (λ r. IsTag bytes.now (tag_of r.0) r.1.now)) }
    ensures shorter { IfOk result (λ o. IfSome o (λ r. length r.1.now < length bytes.now)) }
{
    let Some(inner) = after_byte(bytes, b'<') else {
        return Ok(None);
    };
    if let Some(named) = after_byte(inner, b'/') {
        return Ok(read_end(alloc, named));
    }
    if !begins_with_letter(inner) {
        return Ok(None);
    }
    let (name, rest) = split_letters(inner);
    let Some((attributes, form, rest)) = read_ending(alloc, rest)? else {
        return Ok(None);
    };
    Ok(Some((
        Tag {
            form,
            name,
            attributes,
        },
        rest,
    )))
}
