//! What is wrong with the attributes of a tag.
use crate::quotes::write_quoted;
use pap_reader::{Attribute, Element, read_tag, value_of};
use pap_tree::Name;
use std::alloc::{AllocError, Global};
use std::collections::BTreeSet;

/// What is wrong with the attributes of a tag.
#[derive(Clone, Copy)]
enum AttributeFault<'a> {
    /// An attribute of this name stands twice.
    Twice(&'a [u8]),
    /// An attribute that the element needs isn't there.
    Lacking(&'static str),
    /// An attribute whose value has to be a name has this value.
    NotAName(&'static str, &'a [u8]),
    /// The attribute `type` has this value.
    NotAType(&'a [u8]),
    /// The value of an attribute of this name is too long.
    Long(&'a [u8]),
}

/// Appends what is wrong with the attributes of the tag with which a text begins, one of which isn't as its element needs it. Gives
/// what helps, where that isn't what the element needs.
pub(crate) fn write_attribute_fault(
    out: &mut String,
    text: &[u8],
) -> Result<Option<&'static str>, AllocError> {
    let alloc = *out.allocator();
    let Some((tag, _)) = read_tag(alloc, text)? else {
        out.push_str("an attribute isn't as its element needs it")?;
        return Ok(None);
    };
    let element = Element::named(tag.name);
    let fault = attribute_fault(alloc, element, &tag.attributes)?;
    fault.write(out)?;
    Ok(fault.help())
}

impl AttributeFault<'_> {
    /// Appends what is wrong.
    fn write(&self, out: &mut String) -> Result<(), AllocError> {
        match self {
            AttributeFault::Twice(name) => {
                out.push_str("the tag has the attribute ")?;
                write_quoted(out, name, 0)?;
                out.push_str(" twice")
            }
            AttributeFault::Lacking(word) => write!(out, "the tag lacks the attribute `{word}`"),
            AttributeFault::NotAName(word, value) => {
                write!(out, "the attribute `{word}` is ")?;
                write_quoted(out, value, 0)?;
                out.push_str(", which isn't a name")
            }
            AttributeFault::NotAType(value) => {
                out.push_str("the attribute `type` is ")?;
                write_quoted(out, value, 0)?;
                out.push_str(", which isn't a type that this element has")
            }
            AttributeFault::Long(name) => {
                out.push_str("the value of the attribute ")?;
                write_quoted(out, name, 0)?;
                out.push_str(" has more than 8192 bytes")
            }
        }
    }

    /// What helps, where that isn't what the element needs.
    fn help(&self) -> Option<&'static str> {
        match self {
            AttributeFault::Twice(_) => Some("leave one of the two out"),
            AttributeFault::Long(_) => Some("split it into several statements or constants"),
            _ => None,
        }
    }
}

/// The first fault of attributes of which one isn't as its element needs it: where there is no other, the longest value is too
/// long.
fn attribute_fault<'a>(
    alloc: Global,
    element: Option<Element>,
    attributes: &'a [Attribute],
) -> Result<AttributeFault<'a>, AllocError> {
    if let Some(name) = repeated_name(alloc, attributes)? {
        return Ok(AttributeFault::Twice(name));
    }
    for word in needed_words(element) {
        let Some(value) = value_of(attributes, word.as_bytes()) else {
            return Ok(AttributeFault::Lacking(word));
        };
        if is_name_word(word) && Name::read(value).is_none() {
            return Ok(AttributeFault::NotAName(word, value));
        }
        if *word == "type" && !is_type(element, value) {
            return Ok(AttributeFault::NotAType(value));
        }
    }
    Ok(AttributeFault::Long(longest(attributes)))
}

/// The first name that an earlier attribute has, too.
fn repeated_name<'a>(
    alloc: Global,
    attributes: &'a [Attribute],
) -> Result<Option<&'a [u8]>, AllocError> {
    let mut seen = BTreeSet::new(alloc);
    for attribute in attributes {
        if !seen.insert(attribute.name)? {
            return Ok(Some(attribute.name));
        }
    }
    Ok(None)
}

/// The name of the attribute with the longest value; nothing where there is none.
fn longest<'a>(attributes: &'a [Attribute]) -> &'a [u8] {
    let mut name: &[u8] = &[];
    let mut most = 0;
    for attribute in attributes {
        if attribute.written >= most {
            most = attribute.written;
            name = attribute.name;
        }
    }
    name
}

/// The attributes that an element needs.
fn needed_words(element: Option<Element>) -> &'static [&'static str] {
    match element {
        Some(Element::Input | Element::Internal | Element::Output) => &["name", "type"],
        Some(Element::Constant) => &["name", "type", "value"],
        Some(Element::Method) => &["name"],
        Some(Element::Eval) => &["exec"],
        Some(Element::Execute) => &["method"],
        Some(Element::If) => &["expr"],
        _ => &[],
    }
}

/// Whether an attribute of an element has to be a name.
fn is_name_word(word: &str) -> bool {
    word == "name" || word == "method"
}

/// Whether an element may have a type.
fn is_type(element: Option<Element>, word: &[u8]) -> bool {
    match word {
        b"int" | b"long" | b"BigDecimal" => true,
        b"double" => matches!(element, Some(Element::Input | Element::Internal)),
        b"BigDecimal[]" => matches!(element, Some(Element::Constant)),
        _ => false,
    }
}
