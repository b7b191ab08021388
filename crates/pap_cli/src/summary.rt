//! What is said at the end of a script.
ghost use Rattle.std.specs.Prelude.{◌≡◌, ◌++◌, if◌then◌else◌, IfOk, OnOk, string_bytes};
ghost use Rattle.open_runs.specs.OpenRuns.{open_line};
ghost use Rattle.script_run.specs.Notes.{AreNoted, notes_shown};
ghost use Rattle.pap_cli.specs.Notes.{refused_summary};

use open_runs::open_line;
use outside::{Sink, put_all};
use recalc_engine::Book;
use script_run::LineCounts;
use std::alloc::{AllocError, Global};

/// Puts to the notes how many lines of a script were refused, where several were, and how many runs of the book that it leaves
/// have no amounts, where one has none. That a call of the notes may fail changes nothing.
pub(crate) fn sum_up<N: Sink>(
    alloc: Global,
    counts: LineCounts,
    book: &Book,
    notes: &mut N,
) -> Result<(), AllocError>
    ensures { OnOk result (AreNoted (notes_shown N.Sink notes.old) (notes_shown N.Sink notes.new)
        (refused_summary counts.refused ++ open_line book.now)) }
{
    let mut text = refused_summary(alloc, counts.refused)?;
    let runs = open_line(alloc, book)?;
    text.push_str(runs.as_str())?;
    let _ = put_all(notes, text.as_bytes());
    Ok(())
}

/// How many lines were refused: a line where several were.
fn refused_summary(alloc: Global, refused: u64) -> Result<String, AllocError>
    ensures { IfOk result (λ text. string_bytes text ≡ refused_summary refused) }
{
    if refused > 1 {
        format!(in alloc; "papcalc: {refused} lines were refused\n")
    } else {
        Ok(String::new(alloc))
    }
}
