//! What the attributes of a tag say.

ghost use Rattle.std.specs.Prelude.{◌≡◌, codes, IfOk, option_map, Some};
ghost use Rattle.pap_reader.specs.Attributes.{attribute_value, type_word, kind_of, is_kind, are_distinct, are_short, is_right, is_met_by, a_name, a_type, any_text};
ghost use Rattle.pap_reader.specs.Trees.{items_of};
ghost use Rattle.pap_reader.specs.Meaning.{attribute_text, or_int};
ghost use Rattle.pap_reader.specs.Tags.{attributes_of};
ghost use Rattle.pap_reader.specs.private.Views.{SomeWhere, IsValueOf, DeclaresOf, IsNamed, IsText, declares};

use crate::element::Element;
use crate::elements::RawDeclared;
use crate::tags::Attribute;
use pap_tree::{Kind, Name};
use std::alloc::{AllocError, Global};
use std::collections::BTreeSet;

/// The most bytes between the quotes of an attribute.
const LONGEST_VALUE: usize = 8192;

/// All types.
const TYPES: [Kind; 5] = [Kind::Int, Kind::Long, Kind::Big, Kind::Factor, Kind::Table];

/// What the attributes of a tag say.
#[derive(Drop)]
pub(crate) enum TagValue {
    /// Nothing that is used.
    Nothing,
    /// The declared name of an INPUT, an OUTPUT, an INTERNAL or a CONSTANT.
    Declared(RawDeclared),
    /// The expression of an EVAL or an IF.
    Text(Vec<u8>),
    /// The name of a METHOD, or of the method of an EXECUTE.
    Named(Name),
}

/// What the attributes of an element's tag say. `None` where a needed one is missing, one stands twice, is too long or is
/// not of its form.
pub(crate) fn read_attributes(
    alloc: Global,
    element: Element,
    attributes: &[Attribute],
) -> Result<Option<TagValue>, AllocError>
    ensures { IfOk result (λ o. SomeWhere o
        (is_right element (attributes_of attributes.now))
        (IsValueOf element (attributes_of attributes.now))) }
{
    if !are_distinct(alloc, attributes)? || !are_short(attributes) {
        return Ok(None);
    }
    match element {
        Element::Input | Element::Internal => {
            let kinds = [Kind::Int, Kind::Long, Kind::Big, Kind::Factor];
            declared(alloc, attributes, &kinds, b"default")
        }
        Element::Output => {
            let kinds = [Kind::Int, Kind::Long, Kind::Big];
            declared(alloc, attributes, &kinds, b"default")
        }
        Element::Constant => {
            if value_of(attributes, b"value").is_none() {
                return Ok(None);
            }
            let kinds = [Kind::Int, Kind::Long, Kind::Big, Kind::Table];
            declared(alloc, attributes, &kinds, b"value")
        }
        Element::Method => Ok(named(attributes, b"name")),
        Element::Execute => Ok(named(attributes, b"method")),
        Element::Eval => text(alloc, attributes, b"exec"),
        Element::If => text(alloc, attributes, b"expr"),
        _ => Ok(Some(TagValue::Nothing)),
    }
}

/// A declared name, of one of the types, with the text of the attribute `word` as its value.
fn declared(
    alloc: Global,
    attributes: &[Attribute],
    kinds: &[Kind],
    word: &[u8],
) -> Result<Option<TagValue>, AllocError>
    ensures { IfOk result (λ o. SomeWhere o
        (declares kinds.now (attributes_of attributes.now))
        (DeclaresOf word.now (attributes_of attributes.now))) }
{
    let Some(name) = name_in(attributes, b"name") else {
        return Ok(None);
    };
    let Some(kind) = kind_in(attributes, kinds) else {
        return Ok(None);
    };
    let value = copied(alloc, value_of(attributes, word))?;
    Ok(Some(TagValue::Declared(RawDeclared { name, kind, value })))
}

/// The name in the attribute `word`, as what a tag says.
fn named(attributes: &[Attribute], word: &[u8]) -> Option<TagValue>
    ensures { SomeWhere result
        (is_met_by a_name (attribute_value word.now (attributes_of attributes.now)))
        (IsNamed (attribute_text word.now (attributes_of attributes.now))) }
{
    let name = name_in(attributes, word)?;
    Some(TagValue::Named(name))
}

/// The text of the attribute `word`, as what a tag says.
fn text(
    alloc: Global,
    attributes: &[Attribute],
    word: &[u8],
) -> Result<Option<TagValue>, AllocError>
    ensures { IfOk result (λ o. SomeWhere o
        (is_met_by any_text (attribute_value word.now (attributes_of attributes.now)))
        (IsText (attribute_text word.now (attributes_of attributes.now)))) }
{
    match value_of(attributes, word) {
        Some(text) => Ok(Some(TagValue::Text(text.to_vec(alloc)?))),
        None => Ok(None),
    }
}

fn copied(alloc: Global, text: Option<&[u8]>) -> Result<Option<Vec<u8>>, AllocError>
    ensures { IfOk result (λ o. items_of o ≡ option_map (λ t. t.now) text.entry) }
{
    match text {
        Some(text) => Ok(Some(text.to_vec(alloc)?)),
        None => Ok(None),
    }
}

/// The name in the attribute `word`.
fn name_in(attributes: &[Attribute], word: &[u8]) -> Option<Name>
    ensures { SomeWhere result
        (is_met_by a_name (attribute_value word.now (attributes_of attributes.now)))
        (λ n. n ≡ attribute_text word.now (attributes_of attributes.now)) }
{
    Name::read(value_of(attributes, word)?)
}

/// The type in the attribute `type`, where it is one of these.
fn kind_in(attributes: &[Attribute], kinds: &[Kind]) -> Option<Kind>
    ensures { SomeWhere result
        (is_met_by (a_type kinds.now)
        (attribute_value (codes "type") (attributes_of attributes.now)))
        (λ k. k ≡ or_int (kind_of (attribute_text (codes "type") (attributes_of attributes.now)))) }
{
    let kind = kind_of(value_of(attributes, b"type")?)?;
    if is_kind(kinds, kind) {
        Some(kind)
    } else {
        None
    }
}

fn is_kind(kinds: &[Kind], kind: Kind) -> bool
    ensures { result ≡ is_kind kinds.now (Some kind) }
{
    kinds.iter().any(|other| kind == *other)
}

/// The word of a type.
fn type_word(kind: Kind) -> &'static [u8]
    ensures { result.now ≡ type_word kind }
{
    match kind {
        Kind::Int => b"int",
        Kind::Long => b"long",
        Kind::Big => b"BigDecimal",
        Kind::Factor => b"double",
        Kind::Table => b"BigDecimal[]",
    }
}

/// The type of that word.
fn kind_of(word: &[u8]) -> Option<Kind>
    ensures { result ≡ kind_of word.now }
{
    TYPES.iter().copied().find(|kind| type_word(*kind) == word)
}

/// The value of the first attribute of that name.
pub fn value_of<'t>(attributes: &'t [Attribute], name: &[u8]) -> Option<&'t [u8]>
    ensures { option_map (λ v. v.now) result
        ≡ attribute_value name.now (attributes_of attributes.now) }
{
    for attribute in attributes {
        if attribute.name == name {
            return Some(attribute.value.as_slice());
        }
    }
    None
}

/// Whether no value is too long.
fn are_short(attributes: &[Attribute]) -> bool
    ensures { result ≡ are_short (attributes_of attributes.now) }
{
    for attribute in attributes {
        if attribute.written > LONGEST_VALUE {
            return false;
        }
    }
    true
}

/// Whether no name stands twice. The names so far are kept in order, so a tag of many attributes takes little longer for
/// each of them, whatever the names are.
fn are_distinct(alloc: Global, attributes: &[Attribute]) -> Result<bool, AllocError>
    ensures { IfOk result (λ b. b ≡ are_distinct (attributes_of attributes.now)) }
{
    let mut seen = BTreeSet::new(alloc);
    for attribute in attributes {
        if !seen.insert(attribute.name)? {
            return Ok(false);
        }
    }
    Ok(true)
}
