//! The top call over objects in memory.
ghost use Rattle.std.specs.Prelude.{◌≡◌};

use outside::{Files, MemFiles, MemSink, MemSource, Sink, Source};
use pap_cli::{Status, papcalc};
use std::alloc::{AllocError, Global};
use std::marker::Brand;
use std::str::from_utf8;
use std::sync::ledger::{Blank, Ledger};
use std::test::Fail;
use steps::Steps;

/// The top call with a counter of its own.
fn counted<L: Ledger, F: Files, R: Source, W: Sink>(
    alloc: Global,
    words: &[String],
    files: &mut F,
    source: &mut R,
    sink: &mut W,
    blank: Blank,
) -> Status
    requires name { blank.name ≡ L.name }
    requires parts { blank.parts ≡ L.parts }
    requires one { blank.parts ≡ 1 }
{
    let mut steps = Steps::<L>::new(blank);
    papcalc(alloc, words, files, source, sink, &mut steps)
}

/// The words of a text.
pub(crate) fn words_of(alloc: Global, text: &str) -> Result<Vec<String>, AllocError> {
    let mut words = Vec::new(alloc);
    for word in text.split_whitespace() {
        words.push(String::from_str(alloc, word)?)?;
    }
    Ok(words)
}

/// Carries out words over this outside, with a counter of its own, and gives the status.
pub(crate) fn carried_out(
    alloc: Global,
    words: &[String],
    files: &mut MemFiles,
    source: &mut MemSource,
    sink: &mut MemSink,
) -> Status {
    counted::<Brand, _, _, _>(alloc, words, files, source, sink, Blank::new(1))
}

/// Writes lines with ` / ` between them.
pub(crate) fn write_lines(written: &[u8], text: &mut String) -> Result<(), Fail> {
    let lines = from_utf8(written).map_err(|_| Fail::from("a text"))?;
    for line in lines.lines() {
        if !text.is_empty() {
            text.push_str(" / ")?;
        }
        text.push_str(line)?;
    }
    Ok(())
}
