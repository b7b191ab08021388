//! The words of items but for runs.
ghost use Rattle.std.specs.Prelude.{◌≡◌, ◌≢◌, ◌^◌, ◌<◌, ◌≤◌, ℕ, [], ◌∷◌, MatchBool, MatchOption};
ghost use Rattle.scaled_decimal.specs.PlainTexts.{whole_text};
ghost use Rattle.payroll_records.specs.declared.day.Day.{Day as Date};
ghost use Rattle.saved_items.specs.private.LineViews.{texts};
ghost use Rattle.saved_items.specs.SavedBooks.{IsWork, plan_words, title_words, work_words};

use crate::lines::behind;
use crate::numbers::read_number;
use payroll_records::Day;

/// Whether the words are the title.
pub(crate) fn is_title(words: &[&[u8]]) -> bool
    ensures { MatchBool result (texts words.now ≡ title_words) (texts words.now ≢ title_words) }
{
    let Some(rest) = behind(b"papbook", words) else {
        return false;
    };
    let Some(rest) = behind(b"1", rest) else {
        return false;
    };
    rest.is_empty()
}

/// The last work: how many runs it ran, in how many steps.
pub(crate) fn read_work(words: &[&[u8]]) -> Option<(u64, u64)>
    ensures { MatchOption result
        ((runs steps : ℕ) → IsWork runs steps → texts words.now ≢ work_words runs steps)
        (λ w. IsWork w.0 w.1 × (texts words.now ≡ work_words w.0 w.1)) }
{
    let rest = behind(b"work", words)?;
    let [runs, steps] = rest else {
        return None;
    };
    let runs = read_number(runs)?;
    let steps = read_number(steps)?;
    Some((runs, steps))
}

/// The number behind a first word, if it is at most `most`.
pub(crate) fn read_count(first: &[u8], most: u64, words: &[&[u8]]) -> Option<u64>
    ensures { MatchOption result
        ((n : ℕ) → n ≤ most → texts words.now ≢ first.now ∷ whole_text n ∷ [])
        (λ n. (n ≤ most) × (texts words.now ≡ first.now ∷ whole_text n ∷ [])) }
{
    let rest = behind(first, words)?;
    let [count] = rest else {
        return None;
    };
    let count = read_number(count)?;
    if count > most {
        return None;
    }
    Some(count)
}

/// What a plan's line says.
#[derive(Clone, Copy)]
pub(crate) struct PlanLine {
    /// The day from which the plan holds.
    pub(crate) day: Day,
    /// How many bytes the plan's text has.
    pub(crate) plan: u64,
    /// How many bytes its range file has.
    pub(crate) limits: u64,
}

/// The line of a plan.
pub(crate) fn read_plan_line(words: &[&[u8]]) -> Option<PlanLine>
    ensures { MatchOption result
        ((day : Date) (plan limits : ℕ) → plan < 2 ^ 64 → limits < 2 ^ 64
        → texts words.now ≢ plan_words day plan limits)
        (λ l. texts words.now ≡ plan_words l.day l.plan l.limits) }
{
    let rest = behind(b"plan", words)?;
    let [day, plan, limits] = rest else {
        return None;
    };
    let Some(day) = Day::read(day) else {
        return None;
    };
    let plan = read_number(plan)?;
    let limits = read_number(limits)?;
    Some(PlanLine { day, plan, limits })
}
