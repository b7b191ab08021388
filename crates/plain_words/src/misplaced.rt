//! What is wrong where a tag may not stand, or the file of a plan ends too early.
use crate::counting::line_number;
use crate::homes::{home_of, is_leaf, is_statement, may_hold, needed_inside};
use crate::quotes::write_quoted;
use pap_reader::ReadFault;
use plan_notes::{Element, Mark, element_name, read_notes};
use std::alloc::{AllocError, Global};

/// Why a tag may not stand where it does, or the file may not end.
#[derive(Clone, Copy)]
pub(crate) enum Misplaced {
    /// The file ends, and no element is open.
    Ended,
    /// No element has the tag's name, but one has it in capitals.
    Small,
    /// No element has the tag's name.
    Unknown,
    /// An end tag, and no element is open.
    NoneOpen,
    /// The inmost open element has to end before the tag, or before the end of the file.
    Unclosed(Mark),
    /// The inmost open element has nothing inside.
    UnclosedTag(Mark),
    /// The end tag of an element that isn't open; this is the inmost one that is.
    Other(Mark),
    /// The end tag of the inmost open element, which lacks another one inside.
    Lacking(Mark),
    /// The element stands elsewhere, or not so often, or it lacks another one inside.
    Elsewhere(Element),
}

/// Why the tag that begins at a byte of a plan's file may not stand there, or the file may not end there. What stands before
/// that byte is read as tags.
pub(crate) fn misplaced_at(alloc: Global, plan: &[u8], at: usize) -> Result<Misplaced, AllocError> {
    let text = plan.get(at..).unwrap_or(&[]);
    let open: Vec<Mark> = open_elements(alloc, plan.get(..at).unwrap_or(plan))?;
    let open = open.as_slice();
    if text.is_empty() {
        return Ok(early_end(open));
    }
    let element = Element::named(element_name(text));
    if element.is_none() && is_small(alloc, text)? {
        return Ok(Misplaced::Small);
    }
    if text.starts_with(b"</") {
        return Ok(misplaced_end(element, open));
    }
    match element {
        Some(element) => Ok(misplaced_start(element, open)),
        None => Ok(Misplaced::Unknown),
    }
}

/// The start tags of the elements that are open behind some bytes of a plan's file, the inmost last.
fn open_elements(alloc: Global, front: &[u8]) -> Result<Vec<Mark>, AllocError> {
    let notes = read_notes(alloc, front)?;
    let mut open = Vec::new(alloc);
    for mark in &notes.marks {
        if mark.is_end {
            let _ = open.pop();
        } else {
            open.push(*mark)?;
        }
    }
    Ok(open)
}

/// The name of a tag in capitals.
fn in_capitals(alloc: Global, text: &[u8]) -> Result<String, AllocError> {
    let name = String::from_utf8_lossy(alloc, element_name(text))?;
    name.as_str().to_ascii_uppercase(alloc)
}

/// Whether an element has the name of a tag in capitals.
fn is_small(alloc: Global, text: &[u8]) -> Result<bool, AllocError> {
    let capitals = in_capitals(alloc, text)?;
    Ok(Element::named(capitals.as_bytes()).is_some())
}

/// Why the file may not end where these elements are open.
fn early_end(open: &[Mark]) -> Misplaced {
    match open.split_last() {
        Some((inmost, _)) => unclosed(*inmost),
        None => Misplaced::Ended,
    }
}

/// An element has to end.
fn unclosed(mark: Mark) -> Misplaced {
    if is_leaf(mark.element) {
        Misplaced::UnclosedTag(mark)
    } else {
        Misplaced::Unclosed(mark)
    }
}

/// Why an element may not end where these are open.
fn misplaced_end(element: Option<Element>, open: &[Mark]) -> Misplaced {
    let Some((inmost, outer)) = open.split_last() else {
        return Misplaced::NoneOpen;
    };
    if element == Some(inmost.element) {
        return Misplaced::Lacking(*inmost);
    }
    if is_leaf(inmost.element) || is_among(element, outer) {
        return unclosed(*inmost);
    }
    Misplaced::Other(*inmost)
}

/// Whether an element is one of these.
fn is_among(element: Option<Element>, marks: &[Mark]) -> bool {
    for mark in marks {
        if element == Some(mark.element) {
            return true;
        }
    }
    false
}

/// Why an element may not begin where these are open.
fn misplaced_start(element: Element, open: &[Mark]) -> Misplaced {
    let Some((inmost, outer)) = open.split_last() else {
        return Misplaced::Elsewhere(element);
    };
    if is_leaf(inmost.element) {
        return Misplaced::UnclosedTag(*inmost);
    }
    // In an IF a statement lacks the THEN round it.
    let lacks_then = inmost.element == Element::If && is_statement(element);
    if !lacks_then && !may_hold(inmost.element, element) && stands_in_one(element, outer) {
        return Misplaced::Unclosed(*inmost);
    }
    Misplaced::Elsewhere(element)
}

/// Whether an element may stand directly in one of these.
fn stands_in_one(element: Element, outer: &[Mark]) -> bool {
    for mark in outer {
        if may_hold(mark.element, element) {
            return true;
        }
    }
    false
}

impl Misplaced {
    /// Appends what is wrong with a tag at a byte of a plan's file.
    pub(crate) fn write(self, out: &mut String, plan: &[u8], at: usize) -> Result<(), AllocError> {
        let alloc = *out.allocator();
        match self {
            Misplaced::Ended | Misplaced::Unknown | Misplaced::Elsewhere(_) => {
                let fault = ReadFault::Element { at };
                write!(out, "{fault}")
            }
            Misplaced::Small => write_small(out, plan.get(at..).unwrap_or(&[])),
            Misplaced::NoneOpen => out.push_str("no element is open that an end tag may close"),
            Misplaced::Unclosed(mark) => {
                let OpenTag { name, line } = open_tag(alloc, plan, mark)?;
                write!(out, "{name} of line {line} isn't closed by </{name}>")
            }
            Misplaced::UnclosedTag(mark) => {
                let OpenTag { name, line } = open_tag(alloc, plan, mark)?;
                write!(out, "{name} of line {line} isn't closed")
            }
            Misplaced::Other(mark) => {
                let OpenTag { name, line } = open_tag(alloc, plan, mark)?;
                write!(
                    out,
                    "the open element is {name} of line {line}, which </{name}> closes"
                )
            }
            Misplaced::Lacking(mark) => {
                let OpenTag { name, line } = open_tag(alloc, plan, mark)?;
                write!(out, "{name} of line {line} lacks an element inside")
            }
        }
    }

    /// What helps at a tag, or at the end of the file, where the text is empty.
    pub(crate) fn help(self, text: &[u8]) -> &'static str {
        match self {
            Misplaced::Ended => {
                "the file ends too early; an end tag or a needed element is missing"
            }
            Misplaced::Small => "write the names of elements in capitals",
            Misplaced::Unknown => unknown_help(element_name(text)),
            Misplaced::NoneOpen => "take it out, or write the start tag before it",
            Misplaced::Unclosed(_) => unclosed_help(text),
            Misplaced::UnclosedTag(_) => "it has nothing inside: end its tag with /> in place of >",
            Misplaced::Other(_) => "write that end tag in place of this one",
            Misplaced::Lacking(mark) => needed_inside(mark.element),
            Misplaced::Elsewhere(element) => home_of(element),
        }
    }

    /// What is said behind what helps, or nothing.
    pub(crate) fn also(self, text: &[u8]) -> &'static str {
        match self {
            Misplaced::Unclosed(_) if is_start_tag(text) => {
                ", so write that end tag before it, or move it there"
            }
            _ => "",
        }
    }
}

/// Appends that the name of a tag is that of an element but for its capitals.
fn write_small(out: &mut String, text: &[u8]) -> Result<(), AllocError> {
    let capitals = in_capitals(*out.allocator(), text)?;
    write_quoted(out, element_name(text), 0)?;
    write!(out, " isn't an element, but {capitals} is")
}

/// An open element as it is told.
#[derive(Drop)]
struct OpenTag {
    /// Its name.
    name: String,
    /// The line of its start tag.
    line: usize,
}

/// The open element of a start tag in a plan's file.
fn open_tag(alloc: Global, plan: &[u8], mark: Mark) -> Result<OpenTag, AllocError> {
    let name = element_name(plan.get(mark.at..).unwrap_or(&[]));
    Ok(OpenTag {
        name: String::from_utf8_lossy(alloc, name)?,
        line: line_number(plan.get(..mark.at).unwrap_or(plan)),
    })
}

/// What helps where no element has a name.
fn unknown_help(name: &[u8]) -> &'static str {
    match name {
        b"ELSEIF" | b"ELSIF" | b"ELIF" => {
            "there is no element of this name in the profile; for a further test write an IF in ELSE"
        }
        b"SWITCH" | b"CASE" | b"CHOOSE" | b"WHEN" | b"DEFAULT" | b"OTHERWISE" => {
            "there is no element of this name in the profile; write an IF for each case, the next one in ELSE"
        }
        b"RETURN" | b"BREAK" | b"CONTINUE" => {
            "there is no element of this name in the profile; put what isn't executed then into an IF"
        }
        _ => {
            "there is no element of this name in the profile; for a loop write an EXECUTE for each turn, within IFs"
        }
    }
}

fn is_start_tag(text: &[u8]) -> bool {
    !text.is_empty() && !text.starts_with(b"</")
}

/// What helps where an element has to end before a tag, or before the end of the file.
fn unclosed_help(text: &[u8]) -> &'static str {
    if text.is_empty() {
        return "the file ends too early; write that end tag, and those of the elements round it";
    }
    if text.starts_with(b"</") {
        return "write that end tag before this one";
    }
    match Element::named(element_name(text)) {
        Some(element) => home_of(element),
        None => "write that end tag before it",
    }
}
