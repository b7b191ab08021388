//! A script's bytes, piece by piece, and its lines as they end.
ghost use Rattle.std.specs.Prelude.{◌≡◌, ◌≢◌, [], ◌∷◌, ◌++◌, Err, OnOk, is_some};
ghost use Rattle.std.specs.Result.{ForErr};
ghost use Rattle.outside.specs.Causes.{Caused};
ghost use Rattle.script_steps.specs.Steps.{first_standing};
ghost use Rattle.script_run.specs.private.RunClauses.{KeepsRefusals, beside};
ghost use Rattle.script_run.specs.private.OpenLines.{HasNoLf};
ghost use Rattle.script_run.specs.private.RunViews.{IsAtStart};
ghost use Rattle.script_run.specs.private.RunViews.{GoesOn, Breaks, Closes, ClosesAt, last_result};

use crate::deliver::deliver;
use crate::line_counts::LineCounts;
use crate::open_line::OpenLine;
use memchr::memchr;
use outside::{Files, Sink};
use script_steps::{LineStop, Script};
use std::alloc::Global;
use std::sync::ledger::Ledger;
use steps::Steps;

/// What is kept of the line that is being read, and what the lines before it have made.
#[derive(Drop)]
pub(crate) struct Reading {
    /// The line that is being read.
    pub(crate) line: OpenLine,
    /// What the lines before it have made.
    pub(crate) script: Script,
    /// How many lines were answered and refused.
    pub(crate) counts: LineCounts,
    /// The answers that were refusals, where they are kept and no answer is written.
    pub(crate) refusals: Option<Vec<u8>>,
}

impl Reading {
    /// Before the first byte of a script whose refusals are put to these, or else whose answers are written.
    pub(crate) fn new(alloc: Global, refusals: Option<Vec<u8>>) -> Reading
        requires { KeepsRefusals refusals [] }
        ensures start { IsAtStart result }
        ensures kept { result.refusals ≡ refusals }
    {
        Reading {
            line: OpenLine::new(alloc),
            script: Script::new(alloc),
            counts: LineCounts::new(),
            refusals,
        }
    }

    /// Answers the line that ends with these bytes and an LF, and puts to the notes why it is refused, where it is. The next line
    /// begins.
    fn end_line<F: Files, W: Sink, N: Sink, L: Ledger>(
        &mut self,
        alloc: Global,
        last: &[u8],
        files: &mut F,
        sink: &mut W,
        notes: &mut N,
        steps: &mut Steps<L>,
    ) -> Result<(), LineStop>
        requires { HasNoLf last.now }
        ensures ok { OnOk result (GoesOn
            (beside self.old.refusals F.Files W.Sink N.Sink files.old sink.old notes.old steps.old)
            (beside self.new.refusals F.Files W.Sink N.Sink files.new sink.new notes.new steps.new)
            self.old self.new (last.now ++ 10 ∷ [])) }
        ensures err { ForErr result (λ stop. Breaks
            (beside self.old.refusals F.Files W.Sink N.Sink files.old sink.old notes.old steps.old)
            (beside self.new.refusals F.Files W.Sink N.Sink files.new sink.new notes.new steps.new)
            self.old self.new.counts (last.now ++ 10 ∷ []) stop) }
        ensures mode { is_some self.new.refusals ≡ is_some self.old.refusals }
        ensures same { F.told files.new ≡ F.told files.old }
        ensures kept { result ≢ Err LineStop.File → F.failed files.new ≡ F.failed files.old }
        ensures file { Caused LineStop.File (F.faults files.old) (F.faults files.new) result }
        ensures write { Caused LineStop.Write (W.faults sink.old) (W.faults sink.new) result }
    {
        self.line.keep_end(last)?;
        let wrong = deliver(
            alloc,
            &mut self.refusals,
            &mut self.script,
            self.line.ended(last),
            files,
            sink,
            steps,
        )?;
        self.counts.note(alloc, notes, wrong)?;
        self.line.clear();
        Ok(())
    }

    /// Takes these bytes of the script, and answers the lines that end in them.
    pub(crate) fn feed<F: Files, W: Sink, N: Sink, L: Ledger>(
        &mut self,
        alloc: Global,
        piece: &[u8],
        files: &mut F,
        sink: &mut W,
        notes: &mut N,
        steps: &mut Steps<L>,
    ) -> Result<(), LineStop>
        ensures ok { OnOk result (GoesOn
            (beside self.old.refusals F.Files W.Sink N.Sink files.old sink.old notes.old steps.old)
            (beside self.new.refusals F.Files W.Sink N.Sink files.new sink.new notes.new steps.new)
            self.old self.new piece.now) }
        ensures err { ForErr result (λ stop. Breaks
            (beside self.old.refusals F.Files W.Sink N.Sink files.old sink.old notes.old steps.old)
            (beside self.new.refusals F.Files W.Sink N.Sink files.new sink.new notes.new steps.new)
            self.old self.new.counts piece.now stop) }
        ensures mode { is_some self.new.refusals ≡ is_some self.old.refusals }
        ensures same { F.told files.new ≡ F.told files.old }
        ensures kept { result ≢ Err LineStop.File → F.failed files.new ≡ F.failed files.old }
        ensures file { Caused LineStop.File (F.faults files.old) (F.faults files.new) result }
        ensures write { Caused LineStop.Write (W.faults sink.old) (W.faults sink.new) result }
    {
        let mut rest = piece;
        while let Some(end) = memchr(b'\n', rest) {
            self.end_line(alloc, &rest[..end], files, sink, notes, steps)?;
            rest = &rest[end + 1..];
        }
        self.line.keep(rest)?;
        Ok(())
    }

    /// Answers a last line that no LF ends.
    pub(crate) fn last_line<F: Files, W: Sink, N: Sink, L: Ledger>(
        &mut self,
        alloc: Global,
        files: &mut F,
        sink: &mut W,
        notes: &mut N,
        steps: &mut Steps<L>,
    ) -> Result<(), LineStop>
        ensures closes { Closes
            (beside self.old.refusals F.Files W.Sink N.Sink files.old sink.old notes.old steps.old)
            (beside self.new.refusals F.Files W.Sink N.Sink files.new sink.new notes.new steps.new)
            self.old (last_result result self.new.counts) }
        ensures standing { OnOk result (ClosesAt
            (beside self.old.refusals F.Files W.Sink N.Sink files.old sink.old notes.old steps.old)
            self.old self.new.script self.new.refusals self.new.counts) }
        ensures mode { is_some self.new.refusals ≡ is_some self.old.refusals }
        ensures same { F.told files.new ≡ F.told files.old }
        ensures kept { result ≢ Err LineStop.File → F.failed files.new ≡ F.failed files.old }
        ensures file { Caused LineStop.File (F.faults files.old) (F.faults files.new) result }
        ensures write { Caused LineStop.Write (W.faults sink.old) (W.faults sink.new) result }
    {
        if self.line.is_empty() {
            return Ok(());
        }
        let wrong = deliver(
            alloc,
            &mut self.refusals,
            &mut self.script,
            self.line.as_last(),
            files,
            sink,
            steps,
        )?;
        self.counts.note(alloc, notes, wrong)?;
        Ok(())
    }
}
