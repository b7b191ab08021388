//! The words of the command line.
ghost use Rattle.std.specs.Prelude.{◌≡◌, ◌∷◌, [], codes, IfOk, MatchOption, List};
ghost use Rattle.payroll_records.specs.declared.values.NamedValue.{NamedValue as Value};
ghost use Rattle.payroll_records.specs.ValueWords.{AreValueWords};
ghost use Rattle.author_cli.specs.Words.{texts, NamedPlans as Plans, plan_names, behind_compare, HasForm, IsBad};
ghost use Rattle.author_cli.specs.private.WordViews.{medium_of, plans_of, form_of, text_words};

use crate::covered_words::read_covered;
use payroll_records::{InsertFault, NamedValue, Values};
use std::alloc::{AllocError, Global};

/// In which form a comparison is written.
#[derive(Clone, Copy)]
pub(crate) enum Medium {
    /// A text for a terminal.
    Text,
    /// A page of HTML.
    Page,
}

/// The files that are compared, by their names.
#[derive(Clone, Copy)]
pub(crate) enum NamedPlans<'a> {
    /// `OLD NEW`
    TwoPlans {
        old: &'a str,
        new: &'a str,
    },
    /// `OLD OLD_LIMITS NEW NEW_LIMITS`
    WithLimits {
        old: &'a str,
        old_limits: &'a str,
        new: &'a str,
        new_limits: &'a str,
    },
}

/// What the words ask for, each file by its name.
#[derive(Drop)]
pub(crate) enum Request<'a> {
    /// `chart PLAN`
    Chart {
        plan: &'a str,
    },
    /// `chart PLAN LIMITS`
    ChartWithin {
        plan: &'a str,
        limits: &'a str,
    },
    /// `ranges PLAN`
    Ranges {
        plan: &'a str,
    },
    /// `compare OLD NEW`, `compare OLD OLD_LIMITS NEW NEW_LIMITS`, or either behind the word `text`
    Compare {
        medium: Medium,
        plans: NamedPlans<'a>,
    },
    /// `text trace PLAN LIMITS NAME=VALUE ..`, with the values.
    Trace {
        plan: &'a str,
        limits: &'a str,
        values: Values,
    },
    /// `trace PLAN LIMITS NAME=VALUE ..`, with the values.
    Draw {
        plan: &'a str,
        limits: &'a str,
        values: Values,
    },
    /// `example PLAN LIMITS`
    Example {
        plan: &'a str,
        limits: &'a str,
    },
    /// `lint PLAN LIMITS`
    Lint {
        plan: &'a str,
        limits: &'a str,
    },
    /// `cover PLAN LIMITS TABLE`, and the N of `--at-least N` where that stands behind it, or either behind the word `text`.
    Cover {
        medium: Medium,
        plan: &'a str,
        limits: &'a str,
        table: &'a str,
        least: Option<u8>,
    },
}

/// What the words ask for. `None` where they have no form.
pub(crate) fn read_words(alloc: Global, words: &[String]) -> Result<Option<Request<'_>>, AllocError>
    ensures { IfOk result (λ found. MatchOption found (IsBad (texts words.now))
        (λ request. HasForm (texts words.now) (form_of request))) }
{
    match words {
        [command, plan] => Ok(read_two(command.as_str(), plan.as_str())),
        [command, first, second, rest @ ..] => read_files(
            alloc,
            command.as_str(),
            first.as_str(),
            second.as_str(),
            rest,
        ),
        _ => Ok(None),
    }
}

/// What a command and one name ask for.
fn read_two<'a>(command: &str, plan: &'a str) -> Option<Request<'a>>
    ensures { MatchOption result (IsBad (command.now ∷ plan.now ∷ []))
        (λ request. HasForm (command.now ∷ plan.now ∷ []) (form_of request)) }
{
    match command {
        "chart" => Some(Request::Chart { plan }),
        "ranges" => Some(Request::Ranges { plan }),
        _ => None,
    }
}

/// What three words and some more ask for.
fn read_files<'a>(
    alloc: Global,
    command: &str,
    first: &'a str,
    second: &'a str,
    rest: &'a [String],
) -> Result<Option<Request<'a>>, AllocError>
    ensures { let words = command.now ∷ first.now ∷ second.now ∷ texts rest.now in
        IfOk result (λ found. MatchOption found (IsBad words)
        (λ request. HasForm words (form_of request))) }
{
    match command {
        "trace" => read_drawn(alloc, first, second, rest),
        "compare" => Ok(read_compared(Medium::Page, first, second, rest)),
        "cover" => read_covered(alloc, Medium::Page, first, second, rest),
        _ => read_others(alloc, command, first, second, rest),
    }
}

/// What three words and some more ask for, where the first is neither `trace` nor `compare` nor `cover`.
fn read_others<'a>(
    alloc: Global,
    command: &str,
    first: &'a str,
    second: &'a str,
    rest: &'a [String],
) -> Result<Option<Request<'a>>, AllocError>
    requires no_trace { ¬ (command.now ≡ codes "trace") }
    requires no_compare { ¬ (command.now ≡ codes "compare") }
    requires no_cover { ¬ (command.now ≡ codes "cover") }
    ensures { let words = command.now ∷ first.now ∷ second.now ∷ texts rest.now in
        IfOk result (λ found. MatchOption found (IsBad words)
        (λ request. HasForm words (form_of request))) }
{
    match rest {
        [] => Ok(read_three(command, first, second)),
        [third, rest @ ..] => read_more(alloc, command, first, second, third.as_str(), rest),
    }
}

/// What `trace`, two names and some words ask for.
fn read_drawn<'a>(
    alloc: Global,
    plan: &'a str,
    limits: &'a str,
    rest: &[String],
) -> Result<Option<Request<'a>>, AllocError>
    ensures { let words = codes "trace" ∷ plan.now ∷ limits.now ∷ texts rest.now in
        IfOk result (λ found. MatchOption found (IsBad words)
        (λ request. HasForm words (form_of request))) }
{
    match read_values(alloc, rest)? {
        Some(values) => Ok(Some(Request::Draw {
            plan,
            limits,
            values,
        })),
        None => Ok(None),
    }
}

/// What a command and two names ask for.
fn read_three<'a>(command: &str, plan: &'a str, limits: &'a str) -> Option<Request<'a>>
    requires no_trace { ¬ (command.now ≡ codes "trace") }
    requires no_compare { ¬ (command.now ≡ codes "compare") }
    ensures { MatchOption result (IsBad (command.now ∷ plan.now ∷ limits.now ∷ []))
        (λ request. HasForm (command.now ∷ plan.now ∷ limits.now ∷ []) (form_of request)) }
{
    match command {
        "chart" => Some(Request::ChartWithin { plan, limits }),
        "example" => Some(Request::Example { plan, limits }),
        "lint" => Some(Request::Lint { plan, limits }),
        _ => None,
    }
}

/// What a form, a command, two names and some words ask for.
fn read_more<'a>(
    alloc: Global,
    form: &str,
    command: &str,
    first: &'a str,
    second: &'a str,
    rest: &'a [String],
) -> Result<Option<Request<'a>>, AllocError>
    requires no_trace { ¬ (form.now ≡ codes "trace") }
    requires no_compare { ¬ (form.now ≡ codes "compare") }
    requires no_cover { ¬ (form.now ≡ codes "cover") }
    ensures { let words = form.now ∷ command.now ∷ first.now ∷ second.now ∷ texts rest.now in
        IfOk result (λ found. MatchOption found (IsBad words)
        (λ request. HasForm words (form_of request))) }
{
    match (form, command) {
        ("text", "compare") => Ok(read_compared(Medium::Text, first, second, rest)),
        ("text", "trace") => read_trace(alloc, first, second, rest),
        ("text", "cover") => read_covered(alloc, Medium::Text, first, second, rest),
        _ => Ok(None),
    }
}

/// What the words for a comparison, two names and some words ask for.
fn read_compared<'a>(
    medium: Medium,
    first: &'a str,
    second: &'a str,
    rest: &'a [String],
) -> Option<Request<'a>>
    ensures { let words = behind_compare (medium_of medium) (first.now ∷ second.now ∷ texts rest.now) in
        MatchOption result (IsBad words) (λ request. HasForm words (form_of request)) }
{
    let plans = read_plans(first, second, rest)?;
    Some(Request::Compare { medium, plans })
}

/// The files that are compared, by their names. `None` where they are neither two nor four.
fn read_plans<'a>(first: &'a str, second: &'a str, rest: &'a [String]) -> Option<NamedPlans<'a>>
    ensures { let names = first.now ∷ second.now ∷ texts rest.now in
        MatchOption result ((plans : Plans) → ¬ (names ≡ plan_names plans))
        (λ found. names ≡ plan_names (plans_of found)) }
{
    match rest {
        [] => Some(NamedPlans::TwoPlans {
            old: first,
            new: second,
        }),
        [third, fourth] => Some(NamedPlans::WithLimits {
            old: first,
            old_limits: second,
            new: third.as_str(),
            new_limits: fourth.as_str(),
        }),
        _ => None,
    }
}

/// What `text trace`, two names and some words ask for.
fn read_trace<'a>(
    alloc: Global,
    plan: &'a str,
    limits: &'a str,
    rest: &[String],
) -> Result<Option<Request<'a>>, AllocError>
    ensures { IfOk result (λ found. MatchOption found
        (IsBad (text_words (codes "trace") plan.now limits.now (texts rest.now)))
        (λ request. HasForm (text_words (codes "trace") plan.now limits.now (texts rest.now))
        (form_of request))) }
{
    match read_values(alloc, rest)? {
        Some(values) => Ok(Some(Request::Trace {
            plan,
            limits,
            values,
        })),
        None => Ok(None),
    }
}

/// The values of words. `None` where a word is no value word, a name stands twice, or there are more than 256 words.
fn read_values(alloc: Global, words: &[String]) -> Result<Option<Values>, AllocError>
    ensures { IfOk result (λ found. MatchOption found
        ((values : List Value) → ¬ (AreValueWords (texts words.now) values))
        (AreValueWords (texts words.now))) }
{
    let mut values = Values::new(alloc);
    for word in words {
        let Some(value) = NamedValue::read(word.as_bytes()) else {
            return Ok(None);
        };
        match values.insert(value) {
            Ok(()) => {}
            Err(InsertFault::Twice) => return Ok(None),
            Err(InsertFault::Full) => return Ok(None),
            Err(InsertFault::Memory(error)) => return Err(error),
        }
    }
    Ok(Some(values))
}
