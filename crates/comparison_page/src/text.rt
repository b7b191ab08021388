//! The comparison as a text: for each entry a line, or some, which begin with its sign.
ghost use Rattle.std.specs.Prelude.{◌≡◌, ◌++◌, IfOk, OnOk, string_bytes, slice_get};
ghost use Rattle.std.specs.List.{flat_map};
ghost use Rattle.std.specs.Option.{option_map, option_and_then};
ghost use Rattle.comparison_page.specs.Texts.{comparison_text, declaration_lines, item_lines, place_lead, line_lines, same_lines, entry_lines, renamed, method_with, sided, entry_sign, shown_method};

use crate::lines::write_signed;
use flowchart_comparison::{
    Comparison, Entry, Item, Line, MethodComparison, MethodOutline, Outline,
};
use pap_tree::Name;
use std::alloc::{AllocError, Global};

/// The comparison as a text. Each line begins with the sign of its entry: `=` the same, `~` changed, `+` new, `-` gone. Declarations
/// come first, then the methods, each with its statements behind their places, old and new. It has no dates and no names of files.
pub fn comparison_text(
    alloc: Global,
    old: &Outline,
    new: &Outline,
    comparison: &Comparison,
) -> Result<Vec<u8>, AllocError>
    ensures { IfOk result (λ text. text.items ≡ comparison_text old.now new.now comparison.now) }
{
    let mut out = Vec::new(alloc);
    write_declarations(
        alloc,
        &mut out,
        old.declarations(),
        new.declarations(),
        &comparison.declarations,
    )?;
    write_methods(
        alloc,
        &mut out,
        old.methods(),
        new.methods(),
        &comparison.methods,
    )?;
    Ok(out)
}

/// Appends what is told of declarations.
fn write_declarations(
    alloc: Global,
    out: &mut Vec<u8>,
    old: &[Item],
    new: &[Item],
    entries: &[Entry],
) -> Result<(), AllocError>
    ensures { OnOk result (out.new.items
        ≡ out.old.items ++ flat_map (declaration_lines old.now new.now) entries.now) }
{
    for entry in entries {
        write_declaration(alloc, out, old, new, *entry)?;
    }
    Ok(())
}

/// Appends what is told of a declaration.
fn write_declaration(
    alloc: Global,
    out: &mut Vec<u8>,
    old: &[Item],
    new: &[Item],
    entry: Entry,
) -> Result<(), AllocError>
    ensures { OnOk result (out.new.items
        ≡ out.old.items ++ declaration_lines old.now new.now entry) }
{
    match entry {
        Entry::Same(_, place) => write_item(alloc, out, b'=', " ", item_at(new, place)),
        Entry::Changed(before, after) => {
            write_item(alloc, out, b'~', " was ", item_at(old, before))?;
            write_item(alloc, out, b'~', " now ", item_at(new, after))
        }
        Entry::Gone(place) => write_item(alloc, out, b'-', " ", item_at(old, place)),
        Entry::New(place) => write_item(alloc, out, b'+', " ", item_at(new, place)),
    }
}

/// The declaration at a place, where there is one.
pub(crate) fn item_at(items: &[Item], place: usize) -> Option<&Item>
    ensures { option_map (λ x. x.now) result ≡ slice_get items.now place }
{
    items.get(place)
}

/// Appends a declaration behind a sign, with a word between its name and its text.
fn write_item(
    alloc: Global,
    out: &mut Vec<u8>,
    sign: u8,
    word: &str,
    item: Option<&Item>,
) -> Result<(), AllocError>
    ensures { OnOk result (out.new.items
        ≡ out.old.items ++ item_lines sign word.now (option_map (λ x. x.now) item.entry)) }
{
    let Some(item) = item else {
        return Ok(());
    };
    let name = item.name();
    let lead = format!(in alloc; "{name}{word}")?;
    write_signed(out, sign, lead.as_bytes(), item.text())
}

/// Appends what is told of methods.
fn write_methods(
    alloc: Global,
    out: &mut Vec<u8>,
    old: &[MethodOutline],
    new: &[MethodOutline],
    methods: &[MethodComparison],
) -> Result<(), AllocError>
    ensures { OnOk result (out.new.items
        ≡ out.old.items ++ flat_map (shown_method old.now new.now) methods.now) }
{
    for method in methods {
        let sign = entry_sign(method.method);
        let old = method_at(old, method.method.old_place());
        let new = method_at(new, method.method.new_place());
        write_sided(alloc, out, sign, old, new, &method.lines)?;
    }
    Ok(())
}

/// The method at a place, where there is one.
pub(crate) fn method_at(methods: &[MethodOutline], place: Option<usize>) -> Option<&MethodOutline>
    ensures { option_map (λ m. m.now) result ≡ option_and_then (slice_get methods.now) place }
{
    methods.get(place?)
}

/// The sign of an entry.
fn entry_sign(entry: Entry) -> u8
    ensures { result ≡ entry_sign entry }
{
    match entry {
        Entry::Same(..) => b'=',
        Entry::Changed(..) => b'~',
        Entry::Gone(_) => b'-',
        Entry::New(_) => b'+',
    }
}

/// Appends a method that stands in one flowchart or in both.
fn write_sided(
    alloc: Global,
    out: &mut Vec<u8>,
    sign: u8,
    old: Option<&MethodOutline>,
    new: Option<&MethodOutline>,
    lines: &[Entry],
) -> Result<(), AllocError>
    ensures { OnOk result (out.new.items ≡ out.old.items
        ++ sided sign (option_map (λ m. m.now) old.entry) (option_map (λ m. m.now) new.entry)
        lines.now) }
{
    match (old, new) {
        (Some(old), Some(new)) => write_method(alloc, out, sign, old, new, lines),
        (Some(one), None) | (None, Some(one)) => write_method(alloc, out, sign, one, one, lines),
        (None, None) => Ok(()),
    }
}

/// Appends a method with its lines.
fn write_method(
    alloc: Global,
    out: &mut Vec<u8>,
    sign: u8,
    old: &MethodOutline,
    new: &MethodOutline,
    lines: &[Entry],
) -> Result<(), AllocError>
    ensures { OnOk result (out.new.items
        ≡ out.old.items ++ method_with sign old.now new.now lines.now) }
{
    let name = renamed(alloc, old.name(), new.name())?;
    write_signed(out, sign, b"method ", name.as_bytes())?;
    for entry in lines {
        write_entry(alloc, out, old, new, *entry)?;
    }
    Ok(())
}

/// The name of a method, with its old name where that was another.
pub(crate) fn renamed(alloc: Global, old: Name, new: Name) -> Result<String, AllocError>
    ensures { IfOk result (λ text. string_bytes text ≡ renamed old new) }
{
    if old.bytes() == new.bytes() {
        format!(in alloc; "{new}")
    } else {
        format!(in alloc; "{new} was {old}")
    }
}

/// Appends what is told of a line.
fn write_entry(
    alloc: Global,
    out: &mut Vec<u8>,
    old: &MethodOutline,
    new: &MethodOutline,
    entry: Entry,
) -> Result<(), AllocError>
    ensures { OnOk result (out.new.items
        ≡ out.old.items ++ entry_lines old.now new.now entry) }
{
    let (old_name, new_name) = (old.name(), new.name());
    let (old, new) = (old.lines(), new.lines());
    match entry {
        Entry::Same(before, after) => {
            write_same(
                alloc,
                out,
                old_name,
                new_name,
                line_at(old, before),
                line_at(new, after),
            )
        }
        Entry::Changed(before, after) => {
            write_line(alloc, out, b'~', old_name, "was ", line_at(old, before))?;
            write_line(alloc, out, b'~', new_name, "now ", line_at(new, after))
        }
        Entry::Gone(place) => write_line(alloc, out, b'-', old_name, "", line_at(old, place)),
        Entry::New(place) => write_line(alloc, out, b'+', new_name, "", line_at(new, place)),
    }
}

/// The line at a place, where there is one.
pub(crate) fn line_at(lines: &[Line], place: usize) -> Option<&Line>
    ensures { option_map (λ l. l.now) result ≡ slice_get lines.now place }
{
    lines.get(place)
}

/// Appends a line that is the same, behind both its places.
fn write_same(
    alloc: Global,
    out: &mut Vec<u8>,
    old_name: Name,
    new_name: Name,
    old: Option<&Line>,
    new: Option<&Line>,
) -> Result<(), AllocError>
    ensures { OnOk result (out.new.items ≡ out.old.items
        ++ same_lines old_name new_name (option_map (λ l. l.now) old.entry)
        (option_map (λ l. l.now) new.entry)) }
{
    let (Some(old), Some(new)) = (old, new) else {
        return Ok(());
    };
    let before = place_lead(alloc, old_name, old.number())?;
    let after = place_lead(alloc, new_name, new.number())?;
    let lead = format!(in alloc; "{before}{after}")?;
    write_signed(out, b'=', lead.as_bytes(), new.text())
}

/// Appends a line of one method behind a sign, its place and a word.
fn write_line(
    alloc: Global,
    out: &mut Vec<u8>,
    sign: u8,
    method: Name,
    word: &str,
    line: Option<&Line>,
) -> Result<(), AllocError>
    ensures { OnOk result (out.new.items ≡ out.old.items
        ++ line_lines sign method word.now (option_map (λ l. l.now) line.entry)) }
{
    let Some(line) = line else {
        return Ok(());
    };
    let place = place_lead(alloc, method, line.number())?;
    let lead = format!(in alloc; "{place}{word}")?;
    write_signed(out, sign, lead.as_bytes(), line.text())
}

/// The place of a statement and a space, and nothing for a line that begins no statement.
pub(crate) fn place_lead(
    alloc: Global,
    method: Name,
    number: Option<usize>,
) -> Result<String, AllocError>
    ensures { IfOk result (λ text. string_bytes text ≡ place_lead method number) }
{
    match number {
        Some(number) => format!(in alloc; "{method}:{number} "),
        None => Ok(String::new(alloc)),
    }
}
