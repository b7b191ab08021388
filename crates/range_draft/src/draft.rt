//! The text of the range file.
ghost use Rattle.std.specs.Prelude.{◌≡◌, ◌≤◌, ◌++◌, length, map, IfOk, OnOk, string_bytes};
ghost use Rattle.std.specs.Str.{chars};
ghost use Rattle.pap_tree.specs.Limits.{most_inputs};
ghost use Rattle.pap_reader.specs.Trees.{tree_of, raw_declaration_of};
ghost use Rattle.limits_file.specs.Limits.{longest_limits};
ghost use Rattle.range_draft.specs.Draft.{IsDraft, entry_of, is_comment_char, comment_char, front, comment_line, comment_lines, longest_comment, table};
ghost use Rattle.range_draft.specs.private.DraftViews.{texts_of};

use crate::bounds::widest;
use pap_reader::{Elements, RawDeclared};
use plan_notes::{Element, Notes};
use std::alloc::{AllocError, Global};
use std::collections::BTreeSet;

/// The most bytes of an input's comments that are taken over: those of 256 inputs stay within the longest range file.
const LONGEST_COMMENT: usize = 200;

/// What stands first.
const HEAD: &str =
    "# Ranges to begin with: for each input the widest that makes sense for its type. A flowchart is accepted only if no run on
# inputs within their ranges can fail, so narrow them to what the payroll needs. An input that takes its value from
# earlier runs of the year needs a table [bind.NAME] with a kind, and of an output (sum, last) its name, besides.
";

/// A range file for a plan: a table for each input in declared order, with the comments that stand before it in the plan, and
/// what to narrow. A name that is declared again has no second table. A comment has a space for each control character, since
/// TOML refuses them in comments. The text is no longer than a range file may be.
pub fn draft_ranges(alloc: Global, elements: &Elements, notes: &Notes) -> Result<String, AllocError>
    requires few { length elements.now.inputs.items ≤ most_inputs }
    ensures draft { IfOk result (λ text.
        IsDraft (tree_of elements.now).inputs notes.now (string_bytes text)) }
    ensures short { IfOk result (λ text. length (string_bytes text) ≤ longest_limits) }
{
    let mut text = String::from_str(alloc, HEAD)?;
    let mut walk = notes.walk();
    let mut names = BTreeSet::new(alloc);
    for input in elements.inputs.as_slice() {
        let comments = walk.skip_to(Element::Input);
        if names.insert(input.name.bytes())? {
            write_input(&mut text, input, comments)?;
        }
    }
    Ok(text)
}

/// Appends the entry of an input.
fn write_input(
    text: &mut String,
    input: &RawDeclared,
    comments: &[String],
) -> Result<(), AllocError>
    ensures { OnOk result (string_bytes text.new ≡ string_bytes text.old
        ++ entry_of (raw_declaration_of input.now) (texts_of comments.now)) }
{
    text.push('\n')?;
    write_comments(text, comments)?;
    write_table(text, input)
}

/// Appends comments, as many as have room.
fn write_comments(text: &mut String, comments: &[String]) -> Result<(), AllocError>
    ensures { OnOk result (string_bytes text.new ≡ string_bytes text.old
        ++ comment_lines longest_comment (texts_of comments.now)) }
{
    let end = text.len() + LONGEST_COMMENT;
    for comment in comments {
        let room = end.saturating_sub(text.len());
        write_comment(text, comment, room)?;
    }
    Ok(())
}

/// Appends the table of an input.
fn write_table(text: &mut String, input: &RawDeclared) -> Result<(), AllocError>
    ensures { OnOk result (string_bytes text.new
        ≡ string_bytes text.old ++ table input.now.name input.now.kind) }
{
    let name = input.name;
    let bounds = widest(input.kind);
    let advice = bounds.advice;
    let low = bounds.low;
    let high = bounds.high;
    let places = bounds.places;
    write!(
        text,
        "# {advice}\n[input.{name}]\nlow = {low}\nhigh = {high}\nplaces = {places}\n"
    )
}

/// Appends the line of a comment, of a long one the prefix that has room. Without any room there is no line.
fn write_comment(text: &mut String, comment: &str, room: usize) -> Result<(), AllocError>
    ensures { OnOk result (string_bytes text.new
        ≡ string_bytes text.old ++ comment_line room comment.now) }
{
    if room == 0 {
        return Ok(());
    }
    text.push_str("# ")?;
    write_front(text, comment, room)?;
    text.push('\n')
}

/// Appends a text in one line, of a long one the prefix that has room.
fn write_front(text: &mut String, comment: &str, room: usize) -> Result<(), AllocError>
    ensures { OnOk result (string_bytes text.new
        ≡ string_bytes text.old ++ front room (map comment_char (chars comment.now))) }
{
    let mut left = room;
    for c in comment.chars() {
        if left < 4 {
            return text.push_str("..");
        }
        let shown = shown_char(c);
        text.push(shown)?;
        left = left.saturating_sub(shown.len_utf8());
    }
    Ok(())
}

/// A character of a comment: a space for a control character.
fn shown_char(c: char) -> char
    ensures { result ≡ comment_char c }
{
    if is_comment_char(c) { c } else { ' ' }
}

/// Whether a character may stand in a comment of TOML: it is no control character.
fn is_comment_char(c: char) -> bool
    ensures { result ≡ is_comment_char c }
{
    c >= ' ' && c != '\u{7F}'
}
