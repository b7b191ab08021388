//! The text of findings.
ghost use Rattle.std.specs.Prelude.{◌≡◌, ◌++◌, IfOk, IfSome, OnOk};
ghost use Rattle.plain_words.specs.Places.{named_text, place_text};
ghost use Rattle.flowchart_findings.specs.Texts.{words_line, finding_lines};
ghost use Rattle.flowchart_findings.specs.private.PlaceViews.{IsCursor, HasPositionOf};

use crate::cursor::Cursor;
use crate::finding::Finding;
use crate::tags::TagPlaces;
use crate::words::finding_words;
use plain_words::TextFile;
use plan_notes::Mark;
use std::alloc::{AllocError, Global};

/// A line for each finding in the flowchart of a file with these tags, as an editor reads it: NAME:LINE:COLUMN, a word for the kind of
/// finding, and a sentence, which says whether it follows from the text alone or from the ranges of the inputs.
///
/// Takes time linear in the file, the tags and the text, where the findings stand in the order of the file; where one stands before the
/// one that is told before it, the file is read again from its first byte. Fails only for lack of memory.
#[tactic(auto, using(crate::proofs::TextLemmas::one_line))]
pub fn findings_text(
    alloc: Global,
    file: TextFile<'_>,
    marks: &[Mark],
    findings: &[Finding],
) -> Result<Vec<u8>, AllocError>
    ensures { IfOk result (λ text. text.items
        ≡ finding_lines (named_text file.entry) marks.now findings.now) }
{
    let places = TagPlaces::of(alloc, marks)?;
    let mut cursor = Cursor::first(file.bytes);
    let mut out = Vec::new(alloc);
    for finding in findings {
        let at = places.byte_of(finding);
        cursor = follow(file.bytes, cursor, at);
        write_place(alloc, &mut out, file, cursor, at)?;
        write_words(alloc, &mut out, finding)?;
    }
    Ok(out)
}

/// The cursor at a byte, if there is one.
fn follow(text: &[u8], cursor: Cursor, at: Option<usize>) -> Cursor
    requires { IsCursor text.now cursor }
    ensures cursor { IsCursor text.now result }
    ensures place { IfSome at (HasPositionOf text.now result) }
{
    match at {
        Some(at) => cursor.moved_to(text, at),
        None => cursor,
    }
}

/// Appends the place of a byte in a file, as NAME:LINE:COLUMN; without a byte the file's name.
fn write_place(
    alloc: Global,
    out: &mut Vec<u8>,
    file: TextFile<'_>,
    cursor: Cursor,
    at: Option<usize>,
) -> Result<(), AllocError>
    requires { IfSome at (HasPositionOf file.bytes.now cursor) }
    ensures { OnOk result (out.new.items
        ≡ out.old.items ++ place_text (named_text file.entry) at) }
{
    let name = file.name;
    match at {
        Some(_) => {
            let position = cursor.position();
            let text = format!(in alloc; "{name}:{position}")?;
            out.extend_from_slice(text.as_bytes())
        }
        None => out.extend_from_slice(name.as_bytes()),
    }
}

/// Appends the words of a finding, to the end of its line.
fn write_words(alloc: Global, out: &mut Vec<u8>, finding: &Finding) -> Result<(), AllocError>
    ensures { OnOk result (out.new.items ≡ out.old.items ++ words_line finding.now) }
{
    let words = finding_words(alloc, finding)?;
    let line = format!(in alloc; ": {words}\n")?;
    out.extend_from_slice(line.as_bytes())
}
