//! What a call puts to its notes, once. What is said of other refusals, and of a script's lines, stands in `examples/answers`.
ghost use Rattle.std.specs.Prelude.{◌≡◌, ◌≢◌, AllPairs, IfOk};
ghost use Rattle.outside.specs.Memory.{named_files};

use crate::answers::words_of;
use outside::{MemFiles, MemSink, MemSource, SureSink};
use pap_cli::{LineCounts, Status, papcalc_told};
use std::alloc::{AllocError, Global};
use std::marker::Brand;
use std::str::from_utf8;
use std::sync::ledger::{Blank, Ledger};
use std::test::Fail;
use steps::Steps;

/// What is said of an empty flowchart.
const REASON: &str =
    "a:1:1: expected another element or another end tag; the file ends too early; an end tag or a needed element is missing\n";

/// An empty flowchart and an empty range file.
fn empty_files(alloc: Global) -> Result<Vec<(String, Vec<u8>)>, AllocError>
    ensures { IfOk result (λ files. AllPairs (λ a b. a.0 ≢ b.0) (named_files files.items)) }
{
    let mut files = Vec::new(alloc);
    files.push((String::from_str(alloc, "a")?, Vec::new(alloc)))?;
    files.push((String::from_str(alloc, "l")?, Vec::new(alloc)))?;
    Ok(files)
}

/// The top call over files in memory, with a counter of its own. Its notes are put to this sink.
fn noted<L: Ledger>(
    alloc: Global,
    words: &[String],
    files: &mut MemFiles,
    notes: &mut MemSink,
    blank: Blank,
) -> Status
    requires name { blank.name ≡ L.name }
    requires parts { blank.parts ≡ L.parts }
    requires one { blank.parts ≡ 1 }
{
    let mut steps = Steps::<L>::new(blank);
    let mut source = MemSource::new(Vec::new(alloc), 1, Vec::new(alloc));
    let mut sink = SureSink::new();
    let mut counts = LineCounts::new();
    papcalc_told(
        alloc,
        words,
        files,
        &mut source,
        &mut sink,
        notes,
        &mut counts,
        &mut steps,
    )
}

/// Carries out words over these files, with a counter of its own, and gives the status.
fn status_of(alloc: Global, words: &[String], files: &mut MemFiles, notes: &mut MemSink) -> Status {
    noted::<Brand>(alloc, words, files, notes, Blank::new(1))
}

#[test]
fn a_refusal_has_a_reason(rt: HostRuntime) -> Result<(), Fail> {
    let alloc = rt.alloc();
    let mut files = MemFiles::new(empty_files(alloc)?, Vec::new(alloc));
    let mut notes = MemSink::new(alloc, 1000, Vec::new(alloc))?;
    let words = words_of(alloc, "check a l")?;
    let status = status_of(alloc, &words, &mut files, &mut notes);
    assert_eq!(rt; status, Status::Refused);
    assert_eq!(rt; from_utf8(notes.written()).unwrap_or(""), REASON);
    Ok(())
}
