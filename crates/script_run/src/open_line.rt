//! The line of a script that is being read.
ghost use Rattle.std.specs.Prelude.{◌≡◌, ◌==◌, ◌+◌, ◌-◌, List, ℕ, [], ◌++◌, length, OnOk};
ghost use Rattle.std.specs.Str.Lines.{strip_carriage_return};
ghost use Rattle.script_run.specs.Limits.{most_line};
ghost use Rattle.script_run.specs.private.OpenLines.{Holds, HoldsEnd, SaysSame};

use script_lang::MOST_LINE;
use std::alloc::{AllocError, Global};

/// What is kept of the line that is being read.
#[derive(Drop)]
pub(crate) struct OpenLine {
    /// The line's bytes so far, at most one more than `MOST_LINE`.
    pub(crate) bytes: Vec<u8>,
    /// Whether the line has more bytes than these.
    pub(crate) long: bool,
}

impl OpenLine {
    /// Before the first byte of a line.
    pub(crate) fn new(alloc: Global) -> OpenLine
        ensures { Holds result [] }
    {
        OpenLine {
            bytes: Vec::new(alloc),
            long: false,
        }
    }

    /// Keeps more bytes of the line, as far as there is room for them.
    pub(crate) fn keep(&mut self, more: &[u8]) -> Result<(), AllocError>
        ensures { OnOk result ((line : List ℕ) → Holds self.old line
            → Holds self.new (line ++ more.now)) }
    {
        let room = self.space();
        if more.len() <= room {
            self.bytes.extend_from_slice(more)?;
        } else {
            self.bytes.extend_from_slice(&more[..room])?;
            self.long = true;
        }
        Ok(())
    }

    /// For how many more bytes there is room.
    fn space(&self) -> usize
        ensures { result ≡ (most_line + 1) - length self.now.bytes.items }
    {
        (MOST_LINE + 1).saturating_sub(self.bytes.len())
    }

    /// Keeps the last bytes of the line where bytes before them are kept. A line that is there whole isn't copied.
    pub(crate) fn keep_end(&mut self, last: &[u8]) -> Result<(), AllocError>
        ensures { OnOk result ((line : List ℕ) → Holds self.old line
            → HoldsEnd self.new last.now (line ++ last.now)) }
    {
        if self.bytes.is_empty() {
            return Ok(());
        }
        self.keep(last)
    }

    /// What is answered of the line that ends with these bytes and an LF.
    pub(crate) fn ended<'a>(&'a self, last: &'a [u8]) -> &'a [u8]
        ensures { (line : List ℕ) → HoldsEnd self.now last.now line
            → SaysSame result.now (strip_carriage_return line) }
    {
        let kept = self.bytes.as_slice();
        if kept.is_empty() {
            return without_cr(last);
        }
        if self.long {
            return kept;
        }
        without_cr(kept)
    }

    /// Begins the next line.
    pub(crate) fn clear(&mut self)
        ensures { Holds self.new [] }
    {
        self.bytes.clear();
        self.long = false;
    }

    /// Whether nothing of the line was read.
    pub(crate) fn is_empty(&self) -> bool
        ensures { (line : List ℕ) → Holds self.now line → result ≡ (length line == 0) }
    {
        self.bytes.is_empty()
    }

    /// What is answered of the line where the script ends with it.
    pub(crate) fn as_last(&self) -> &[u8]
        ensures { (line : List ℕ) → Holds self.now line → SaysSame result.now line }
    {
        &self.bytes
    }
}

/// The line without a CR at its end.
fn without_cr(line: &[u8]) -> &[u8]
    ensures { result.now ≡ strip_carriage_return line.now }
{
    match line {
        [front @ .., b'\r'] => front,
        _ => line,
    }
}
