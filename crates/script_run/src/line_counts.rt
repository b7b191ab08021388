//! How many lines of a script were answered and refused, and what is said of a refused line.
ghost use Rattle.std.specs.Prelude.{◌≡◌, ◌∷◌, [], is_some, IfOk, OnOk, string_bytes};
ghost use Rattle.script_run.specs.LineCounts.{AreCounted, counts_one};
ghost use Rattle.script_run.specs.Notes.{notes_shown};
ghost use Rattle.script_run.specs.private.LineCounts.{IsReasonText, Notes};

use outside::{Sink, put_all};
use plain_words::one_line;
use std::alloc::{AllocError, Global};

/// How many lines of a script were answered, and how many of them were refused.
///
/// No number here grows beyond the greatest of 64 bits.
#[derive(Clone, Copy, Debug)]
pub struct LineCounts {
    /// How many lines were answered.
    pub answered: u64,
    /// How many of them were refused.
    pub refused: u64,
}

impl LineCounts {
    /// Before the first line.
    pub fn new() -> LineCounts
        ensures { AreCounted 0 [] result }
    {
        LineCounts {
            answered: 0,
            refused: 0,
        }
    }

    /// Whether a line was refused.
    pub fn any(self) -> bool
        ensures { result ≡ counts_one self }
    {
        self.refused > 0
    }

    /// One more line was answered; this is wrong with it, where its answer is a refusal, and is put to the notes: a line
    /// `stdin:NUMBER: WHY`. That a call of the notes may fail changes nothing.
    pub(crate) fn note<N: Sink>(
        &mut self,
        alloc: Global,
        notes: &mut N,
        wrong: Option<String>,
    ) -> Result<(), AllocError>
        ensures { OnOk result (Notes self.old (notes_shown N.Sink notes.old)
            self.new (notes_shown N.Sink notes.new) (is_some wrong)) }
    {
        self.answered = self.answered.saturating_add(1);
        let Some(wrong) = wrong else {
            return Ok(());
        };
        self.refused = self.refused.saturating_add(1);
        let line = reason_line(alloc, self.answered, &wrong)?;
        let _ = put_all(notes, line.as_bytes());
        Ok(())
    }
}

/// The line of a refused line's reason.
fn reason_line(alloc: Global, number: u64, wrong: &str) -> Result<String, AllocError>
    ensures { IfOk result (λ line. IsReasonText number (string_bytes line)) }
{
    let words = one_line(alloc, wrong)?;
    format!(in alloc; "stdin:{number}: {words}\n")
}
