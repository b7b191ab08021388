//! Inputs on which a run of a plan fails.
ghost use Rattle.std.specs.Prelude.{◌≡◌, IfOk, All, string_bytes};
ghost use Rattle.pap_tree.specs.Flowchart.{flowchart_of};
ghost use Rattle.limits_file.specs.Limits.{HasSoundBounds};
ghost use Rattle.call_order.specs.Orders.{IsOrdered};
ghost use Rattle.interval_walk.specs.Admission.{HaveLimits};
ghost use Rattle.plain_words.specs.Places.{named_text};
ghost use Rattle.author_cli.specs.Ends.{words_of};
ghost use Rattle.author_cli.specs.Examples.{IsExample, IsFoundText, failure_words, found_words};

use crate::answer::Answer;
use crate::traced::answer_refused;
use failing_input::{Failure, Search, failing_input, search_text};
use pap_plan::{BoundPlan, PlanRefusal, read_bound};
use plain_words::TextFile;
use std::alloc::{AllocError, Global};

/// What a search finds of a plan's bytes and a range file's, or why they are refused before their ranges are judged.
pub(crate) fn seek_example(
    alloc: Global,
    plan: TextFile<'_>,
    limits: TextFile<'_>,
) -> Result<Answer, AllocError>
    ensures { IfOk result (λ answer. IsExample (named_text plan.entry) (named_text limits.entry)
        answer.text.items (words_of answer.reason)) }
{
    match read_bound(alloc, plan.bytes, limits.bytes) {
        Ok(bound) => tell_search(alloc, &bound),
        Err(PlanRefusal::Memory) => Err(AllocError),
        Err(fault) => answer_refused(alloc, plan, limits, &fault),
    }
}

/// What a search finds of a plan with its limits.
fn tell_search(alloc: Global, bound: &BoundPlan) -> Result<Answer, AllocError>
    requires ordered { IsOrdered (flowchart_of bound.now.typed) bound.now.order.items }
    requires limits { HaveLimits (flowchart_of bound.now.typed) bound.now.limits }
    requires sound { All HasSoundBounds bound.now.limits.inputs }
    ensures { IfOk result (λ answer. IsFoundText (flowchart_of bound.now.typed) bound.now.limits
        answer.text.items (words_of answer.reason)) }
{
    let found = failing_input(alloc, &bound.typed, &bound.order, &bound.limits)?;
    let text = search_text(alloc, &bound.typed, &bound.limits, &found)?;
    let reason = found_words(alloc, &found)?;
    Ok(Answer { text, reason })
}

/// What is said of what was found.
fn found_words(alloc: Global, found: &Search) -> Result<Option<String>, AllocError>
    ensures { IfOk result (λ words. words_of words ≡ found_words found.now) }
{
    match found {
        Search::Fails { failure, .. } => Ok(Some(failure_words(alloc, failure)?)),
        Search::Safe(_) => Ok(None),
        Search::NotFound(_) => Ok(Some(String::from_str(
            alloc,
            "no inputs that fail were found, and whether there are any stays open",
        )?)),
    }
}

/// What is said of what goes wrong in a run.
fn failure_words(alloc: Global, failure: &Failure) -> Result<String, AllocError>
    ensures { IfOk result (λ words. string_bytes words ≡ failure_words failure.now) }
{
    match failure {
        Failure::Node { place, cause } => {
            format!(in alloc; "a run on these inputs fails at {place}: {cause}")
        }
        Failure::Output { name } => {
            format!(in alloc; "a run on these inputs ends with an output out of its bound: {name}")
        }
    }
}
