//! Where the bytes of an attribute's value are written.
ghost use Rattle.std.specs.Prelude.{◌≡◌, length, MatchOption, option_map};
ghost use Rattle.pap_reader.specs.Tags.{attribute_of, attributes_of};
ghost use Rattle.pap_reader.specs.Contents.{tokens_of};
ghost use Rattle.plan_notes.specs.AttributeBytes.{attribute_named, attribute_at, IsBehind, IsValueByte};

use pap_reader::{Attribute, Token, Tokens, read_byte};

/// The byte of a file at which the byte of a number, counted from 0, is written that the value of an attribute stands for, in
/// the tag that begins at a place; behind the value's last byte it is that of its closing quote. `None` where none of the file's
/// tags begins there, or it has no such attribute.
pub fn value_byte(
    file: &[u8],
    tokens: &Tokens<'_>,
    tag: usize,
    name: &[u8],
    number: usize,
) -> Option<usize>
    ensures { MatchOption result
        (attribute_at tag name.now (tokens_of tokens.now) ≡ None)
        (IsValueByte (length file.now) (attribute_at tag name.now (tokens_of tokens.now)) number) }
{
    let attribute = attribute_at(tokens, tag, name)?;
    let left = behind_bytes(attribute, number);
    Some(file.len().saturating_sub(left.len()))
}

/// The attribute of a name in the tag among the tokens that begins at a byte.
fn attribute_at<'t, 'a>(tokens: &'t Tokens<'a>, at: usize, name: &[u8]) -> Option<&'t Attribute<'a>>
    ensures { option_map (λ attribute. attribute_of attribute.now) result
        ≡ attribute_at at name.now (tokens_of tokens.now) }
{
    for token in &tokens.items {
        let Token::Tag { at: place, tag } = token else {
            continue;
        };
        if *place == at {
            return attribute_named(&tag.attributes, name);
        }
    }
    None
}

/// The first attribute of a name.
fn attribute_named<'t, 'a>(
    attributes: &'t [Attribute<'a>],
    name: &[u8],
) -> Option<&'t Attribute<'a>>
    ensures { option_map (λ attribute. attribute_of attribute.now) result
        ≡ attribute_named name.now (attributes_of attributes.now) }
{
    for attribute in attributes {
        if attribute.name == name {
            return Some(attribute);
        }
    }
    None
}

/// What is written of an attribute's value behind so many of the bytes that it stands for.
fn behind_bytes<'a>(attribute: &Attribute<'a>, count: usize) -> &'a [u8]
    ensures { IsBehind attribute.now.quote attribute.now.text.now count result.now }
{
    let mut left = attribute.text;
    for _read in 0..count {
        match read_byte(left, attribute.quote) {
            Some((_, rest)) => left = rest,
            None => return left,
        }
    }
    left
}
