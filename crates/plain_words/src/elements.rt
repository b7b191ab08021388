//! Where the elements of a plan's file are refused.
ghost use Rattle.std.specs.Prelude.{◌≡◌, ◌≤◌, Some, IfOk, IfSome, drop, length};
ghost use Rattle.pap_reader.specs.declared.fault.ReadFault.TheVariants.{Text};
ghost use Rattle.plain_words.specs.Places.{in_plan};
ghost use Rattle.plain_words.specs.Strays.{IsStopByte};
ghost use Rattle.plain_words.specs.Refusals.{IsPlaceOfFault, IsPlaceOfExcess};
ghost use Rattle.plain_words.specs.private.StopViews.{StopsAs};
ghost use Rattle.plain_words.specs.private.FoundViews.{place_of, HasTag, IsExcessByte};

use crate::comments::write_open_comment;
use crate::counting::line_number;
use crate::encoding::is_utf16;
use crate::found::Found;
use crate::lookalikes::other_space;
use crate::misplaced::{Misplaced, misplaced_at};
use crate::place::TextFile;
use crate::quotes::write_line;
use crate::stops::{TagStop, begins_with_sign, tag_stop};
use crate::tags::write_attribute_fault;
use pap_reader::{ReadFault, Which};
use pap_tree::{
    MOST_CONSTANTS, MOST_INPUTS, MOST_INTERNALS, MOST_METHODS, MOST_OUTPUTS, MOST_STATEMENTS,
};
use plan_notes::{Element, Starts, element_name, read_notes};
use std::alloc::{AllocError, Global};

/// Where the elements of a plan's file are refused; what stands there is appended.
pub(crate) fn find_element(
    plan: TextFile<'_>,
    fault: &ReadFault,
    told: &mut String,
) -> Result<Found, AllocError>
    ensures { IfOk result
        (λ found. IsPlaceOfFault plan.entry.bytes.now fault.now (place_of found)) }
{
    let found = match fault {
        ReadFault::Text { at } => find_text(plan, *at, told)?,
        ReadFault::Element { at } => find_misplaced(plan, *at, told)?,
        ReadFault::Attribute { at } => find_attribute(plan, *at, told)?,
        ReadFault::Many { which } => return find_excess(plan, *which, told),
        ReadFault::Memory => return Err(AllocError),
    };
    Ok(found)
}

/// Where no tag, comment or white space begins, or where a value of a tag has a sign that would have to be escaped; what is wrong
/// there is appended.
fn find_text(plan: TextFile<'_>, at: usize, told: &mut String) -> Result<Found, AllocError>
    ensures { IfOk result
        (λ found. IsPlaceOfFault plan.entry.bytes.now (Text at) (place_of found)) }
{
    let text = text_from(plan.bytes, at);
    let stop = tag_stop(text);
    let found = Found::in_plan(Some(stop_byte(plan.bytes, at, stop)));
    if let Some(help) = text_help(text) {
        told.push_str("expected a tag, a comment or white space")?;
        write_line(told, text)?;
        return Ok(found.with_help(help));
    }
    stop.write(told, text, line_before(plan.bytes, stop.left))?;
    Ok(found.with_help(stop.help(text)))
}

/// The line of a file in which begins what is left of it.
fn line_before(file: &[u8], left: &[u8]) -> usize {
    let count = file.len().saturating_sub(left.len());
    line_number(file.get(..count).unwrap_or(file))
}

/// The byte at which what isn't read is shown: in a tag that of a sign in a value that would have to be escaped, and else the first.
fn stop_byte(plan: &[u8], at: usize, stop: TagStop<'_>) -> usize
    requires stops { StopsAs (drop at plan.now) stop }
    requires within { length stop.left.now ≤ length plan.now }
    ensures { IsStopByte plan.now at result }
{
    let Some(front) = stop.value else {
        return at;
    };
    if begins_with_sign(front.text, stop.left) {
        plan.len() - stop.left.len()
    } else {
        at
    }
}

/// Where a tag may not stand, or the file ends too early; why is appended.
fn find_misplaced(plan: TextFile<'_>, at: usize, told: &mut String) -> Result<Found, AllocError>
    ensures { IfOk result (λ found. place_of found ≡ in_plan (Some at)) }
{
    let text = text_from(plan.bytes, at);
    let misplaced: Misplaced = misplaced_at(*told.allocator(), plan.bytes, at)?;
    misplaced.write(told, plan.bytes, at)?;
    write_line(told, text)?;
    write_open_comment(told, plan.bytes.get(..at).unwrap_or(plan.bytes))?;
    let tag = Found::in_plan(Some(at));
    Ok(Found {
        also: misplaced.also(text),
        ..tag.with_help(misplaced.help(text))
    })
}

/// Where a tag has an attribute that isn't as its element needs it; what is wrong with it is appended.
fn find_attribute(plan: TextFile<'_>, at: usize, told: &mut String) -> Result<Found, AllocError>
    ensures { IfOk result (λ found. place_of found ≡ in_plan (Some at)) }
{
    let text = text_from(plan.bytes, at);
    let help = write_attribute_fault(told, text)?;
    write_line(told, text)?;
    let tag = Found::in_plan(Some(at));
    if let Some(help) = help {
        return Ok(tag.with_help(help));
    }
    let element = element_at(text);
    Ok(Found {
        also: name_form(element),
        ..tag.with_help(needed_attributes(element))
    })
}

/// What helps where no tag begins with a text. `None` where a tag that isn't well formed does.
fn text_help(text: &[u8]) -> Option<&'static str> {
    if text.starts_with(b"<!--") {
        Some("the comment has no end; write --> behind it")
    } else if text.starts_with(b"<!-") {
        Some("a comment begins with <!-- and ends with -->")
    } else if text.starts_with(b"<!") {
        Some("a plan has no DOCTYPE, CDATA or the like; take it out")
    } else if text.starts_with(b"<?") {
        Some(
            "only one <?xml .. ?> may stand, at the very beginning of the file, and it ends with ?>",
        )
    } else if text.starts_with(b"<") {
        None
    } else if let Some(help) = other_file_help(text) {
        Some(help)
    } else if other_space(text).is_some() {
        Some(
            "that is a no-break space or the like, which isn't white space here; write a blank in its place, or nothing",
        )
    } else {
        Some(
            "text outside of a tag stands in comments alone; write it as a comment, or as an attribute of a tag",
        )
    }
}

/// What helps where a text isn't that of a flowchart's file, it seems.
fn other_file_help(text: &[u8]) -> Option<&'static str> {
    if is_utf16(text) {
        Some("the file is written in UTF-16, it seems; save it in UTF-8")
    } else if text.starts_with(b"[input") || text.starts_with(b"[bind") || text.starts_with(b"#") {
        Some(
            "this is a range file, it seems; the flowchart's file comes first, then its range file",
        )
    } else if text.starts_with(b"employee,") || text.starts_with(b"employee;") {
        Some("this is a table of pay runs, it seems; write the flowchart's file in its place")
    } else {
        None
    }
}

/// The element with whose tag a text begins. `None` where the profile has none of its name.
fn element_at(text: &[u8]) -> Option<Element> {
    Element::named(element_name(text))
}

/// The text from a place on.
fn text_from(file: &[u8], at: usize) -> &[u8]
    ensures from { result.now ≡ drop at file.now }
    ensures within { length result.now ≤ length file.now }
{
    file.get(at..).unwrap_or(&[])
}

/// Which attributes an element needs.
fn needed_attributes(element: Option<Element>) -> &'static str {
    match element {
        Some(Element::Input | Element::Internal) => {
            "it needs a name, and a type of int, long, BigDecimal or double"
        }
        Some(Element::Output) => "it needs a name, and a type of int, long or BigDecimal",
        Some(Element::Constant) => {
            "it needs a name, a type of int, long, BigDecimal or BigDecimal[], and a value"
        }
        Some(Element::Method) => "it needs a name",
        Some(Element::Eval) => "it needs exec, the text of an assignment",
        Some(Element::Execute) => "it needs method, the name of a method",
        Some(Element::If) => "it needs expr, the text of a test",
        _ => "it needs none",
    }
}

/// Which form a name has, where an element needs one.
fn name_form(element: Option<Element>) -> &'static str {
    match element {
        Some(
            Element::Input
            | Element::Output
            | Element::Internal
            | Element::Constant
            | Element::Method
            | Element::Execute,
        ) => {
            "; a name is 1 to 32 ASCII letters, digits and _, with no digit first, and isn't new, BigDecimal or RoundingMode"
        }
        _ => "",
    }
}

/// Where the first one too many of something stands, which is said behind.
fn find_excess(plan: TextFile<'_>, which: Which, told: &mut String) -> Result<Found, AllocError>
    ensures { IfOk result (λ found. IsPlaceOfExcess which (place_of found)) }
{
    let at = excess_tag(*told.allocator(), plan.bytes, which)?;
    if at.is_some() {
        told.push_str(", and this is one more")?;
    }
    Ok(Found::in_plan(at))
}

/// Where the first tag stands that is one too many, for what is counted over the whole file.
fn excess_tag(alloc: Global, plan: &[u8], which: Which) -> Result<Option<usize>, AllocError>
    ensures { IfOk result (λ at. IsExcessByte which at) }
{
    let Some((starts, most)) = counted(which) else {
        return Ok(None);
    };
    let notes = read_notes(alloc, plan)?;
    Ok(notes.walk().find_start(starts, most as usize))
}

/// The start tags that are counted over the whole file, and how many of them there may be.
fn counted(which: Which) -> Option<(Starts, u32)>
    ensures { IfSome result (λ _. HasTag which) }
{
    match which {
        Which::Inputs => Some((Starts::Of(Element::Input), MOST_INPUTS)),
        Which::Outputs => Some((Starts::Of(Element::Output), MOST_OUTPUTS)),
        Which::Internals => Some((Starts::Of(Element::Internal), MOST_INTERNALS)),
        Which::Constants => Some((Starts::Of(Element::Constant), MOST_CONSTANTS)),
        Which::Methods => Some((Starts::Of(Element::Method), MOST_METHODS)),
        Which::Statements => Some((Starts::OfStatements, MOST_STATEMENTS)),
        Which::Bytes | Which::Depth => None,
    }
}
