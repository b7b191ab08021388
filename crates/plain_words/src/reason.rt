//! The reason of a refusal as one line.
ghost use Rattle.std.specs.Prelude.{◌≡◌, ◌++◌, IfOk, codes};
ghost use Rattle.std.specs.String.{string_bytes};
ghost use Rattle.plain_words.specs.Lines.{shown_text, IsOneLine, EndsWith};
ghost use Rattle.plain_words.specs.Places.{files_of, place_in_words, words_at};
ghost use Rattle.plain_words.specs.private.FoundViews.{place_of, help_text};

use crate::found::{FileKind, Found};
use crate::lines::one_line;
use crate::place::{TextFile, place_text};
use std::alloc::{AllocError, Global};

/// The reason of a refusal in one line: the place, what is wrong, and what helps.
pub(crate) fn reason_line(
    alloc: Global,
    plan: TextFile<'_>,
    limits: TextFile<'_>,
    found: Found,
    wrong: &str,
) -> Result<String, AllocError>
    ensures line { IfOk result (λ words. IsOneLine (string_bytes words)) }
    ensures text { IfOk result (λ words. string_bytes words
        ≡ words_at (files_of plan.entry limits.entry) (place_of found)
        (wrong.now ++ (codes "; " ++ help_text found))) }
    ensures end { IfOk result (λ words.
        EndsWith (shown_text (codes "; " ++ help_text found)) (string_bytes words)) }
{
    let place = found_place(alloc, plan, limits, found)?;
    let Found { help, also, .. } = found;
    let text = format!(in alloc; "{place}: {wrong}; {help}{also}")?;
    one_line(alloc, &text)
}

/// The place of what was found, in its file.
fn found_place(
    alloc: Global,
    plan: TextFile<'_>,
    limits: TextFile<'_>,
    found: Found,
) -> Result<String, AllocError>
    ensures { IfOk result (λ text. string_bytes text
        ≡ place_in_words (files_of plan.entry limits.entry) (place_of found)) }
{
    match found.file {
        FileKind::Plan => place_text(alloc, plan, found.at),
        FileKind::Ranges => place_text(alloc, limits, found.at),
    }
}
