//! Several faults, a line each.
ghost use Rattle.std.specs.Prelude.{◌≡◌, ◌∷◌, ◌++◌, ◌≤◌, [], IfOk, OnOk, length, take};
ghost use Rattle.std.specs.String.{string_bytes};
ghost use Rattle.plain_words.specs.Places.{files_of};
ghost use Rattle.diagnostics.specs.FaultLines.{IsPlanLine, IsStateLine, TellsEach, lines_with, more_line};
ghost use Rattle.diagnostics.specs.private.LineViews.{AddsLines, GivesWords};

use pap_plan::PlanRefusal;
use plain_words::{RunReason, TextFile, plan_words, state_words};
use std::alloc::{AllocError, Global};

/// So many faults are told, each in a line; of the others it is said how many they are.
pub const MOST_TOLD: usize = 20;

/// What is wrong with a plan or its range file, in lines: the words of the refusal, then those of further faults, with it at most 20,
/// and then how many more there are. Fails only for lack of memory.
pub fn plan_lines(
    alloc: Global,
    plan: TextFile<'_>,
    limits: TextFile<'_>,
    refusal: &PlanRefusal,
    further: &[PlanRefusal],
) -> Result<String, AllocError>
    ensures { IfOk result (λ text. TellsEach (IsPlanLine (files_of plan.entry limits.entry))
        (refusal.now ∷ further.now) (string_bytes text)) }
{
    let mut text = String::new(alloc);
    let first = plan_words(alloc, plan, limits, refusal)?;
    put_line(&mut text, &first)?;
    put_lines(&mut text, further, MOST_TOLD - 1, |fault| {
        plan_words(alloc, plan, limits, fault)
    })?;
    Ok(text)
}

/// Why a run of a plan with its range file has no inputs, in lines: the words of the first 20 reasons, and then how many more there
/// are. Fails only for lack of memory.
pub fn state_lines(
    alloc: Global,
    plan: TextFile<'_>,
    limits: TextFile<'_>,
    reasons: &[RunReason],
) -> Result<String, AllocError>
    ensures { IfOk result (λ text. TellsEach (IsStateLine (files_of plan.entry limits.entry))
        reasons.now (string_bytes text)) }
{
    let mut text = String::new(alloc);
    put_lines(&mut text, reasons, MOST_TOLD, |reason| {
        state_words(alloc, plan, limits, reason)
    })?;
    Ok(text)
}

/// Appends the words of the first of some faults, at most so many, each as a line, and then how many more there are.
pub(crate) fn put_lines<T, F: Fn(&T) -> Result<String, AllocError>>(
    text: &mut String,
    faults: &[T],
    most: usize,
    words_of: F,
) -> Result<(), AllocError>
    requires { F.IsAlwaysCallable words_of }
    ensures { OnOk result (AddsLines (GivesWords F.Fn words_of) most faults.now
        (string_bytes text.old) (string_bytes text.new)) }
{
    let told = front(faults, most);
    for fault in told {
        let words = words_of(fault)?;
        put_line(text, &words)?;
    }
    put_more(text, faults.len() - told.len())
}

/// The first of some faults, at most so many.
fn front<T>(faults: &[T], most: usize) -> &[T]
    ensures first { result.now ≡ take most faults.now }
    ensures fewer { length result.now ≤ length faults.now }
{
    if faults.len() > most {
        &faults[..most]
    } else {
        faults
    }
}

/// Appends words as a line.
fn put_line(text: &mut String, words: &str) -> Result<(), AllocError>
    ensures { OnOk result
        (string_bytes text.new ≡ string_bytes text.old ++ (words.now ++ 10 ∷ [])) }
{
    text.push_str(words)?;
    text.push_str("\n")
}

/// Appends how many faults aren't told, where there are any.
fn put_more(text: &mut String, more: usize) -> Result<(), AllocError>
    ensures { OnOk result (string_bytes text.new ≡ string_bytes text.old ++ more_line more) }
{
    if more == 0 {
        return Ok(());
    }
    write!(text, "papcalc: and {more} more\n")
}
