//! The words for what runs cover.
ghost use Rattle.std.specs.Prelude.{◌≡◌, ◌∷◌, [], ℕ, codes, IfOk, MatchOption};
ghost use Rattle.author_cli.specs.Words.{texts, behind_cover, HasForm, IsBad};
ghost use Rattle.author_cli.specs.private.CoveredViews.{IsPercentWord, IsPercent};
ghost use Rattle.author_cli.specs.private.WordViews.{medium_of, form_of};

use crate::words::{Medium, Request};
use std::alloc::{AllocError, Global};

/// What the words for what runs cover, two names and some words ask for.
pub(crate) fn read_covered<'a>(
    alloc: Global,
    medium: Medium,
    plan: &'a str,
    limits: &'a str,
    rest: &'a [String],
) -> Result<Option<Request<'a>>, AllocError>
    ensures { let words = behind_cover (medium_of medium)
        (plan.now ∷ limits.now ∷ texts rest.now) in
        IfOk result (λ found. MatchOption found (IsBad words)
        (λ request. HasForm words (form_of request))) }
{
    match rest {
        [table] => Ok(Some(Request::Cover {
            medium,
            plan,
            limits,
            table: table.as_str(),
            least: None,
        })),
        [table, option, share] => read_bounded(
            alloc,
            medium,
            plan,
            limits,
            table.as_str(),
            option.as_str(),
            share.as_str(),
        ),
        _ => Ok(None),
    }
}

/// What the words for what runs cover, three names and two more words ask for.
fn read_bounded<'a>(
    alloc: Global,
    medium: Medium,
    plan: &'a str,
    limits: &'a str,
    table: &'a str,
    option: &str,
    share: &str,
) -> Result<Option<Request<'a>>, AllocError>
    ensures { let words = behind_cover (medium_of medium)
        (plan.now ∷ limits.now ∷ table.now ∷ option.now ∷ share.now ∷ []) in
        IfOk result (λ found. MatchOption found (IsBad words)
        (λ request. HasForm words (form_of request))) }
{
    match option {
        "--at-least" => read_least(alloc, medium, plan, limits, table, share),
        _ => Ok(None),
    }
}

/// What the words for what runs cover, three names, `--at-least` and one more word ask for.
fn read_least<'a>(
    alloc: Global,
    medium: Medium,
    plan: &'a str,
    limits: &'a str,
    table: &'a str,
    share: &str,
) -> Result<Option<Request<'a>>, AllocError>
    ensures { let words = behind_cover (medium_of medium)
        (plan.now ∷ limits.now ∷ table.now ∷ codes "--at-least" ∷ share.now ∷ []) in
        IfOk result (λ found. MatchOption found (IsBad words)
        (λ request. HasForm words (form_of request))) }
{
    match read_percent(alloc, share)? {
        Some(least) => Ok(Some(Request::Cover {
            medium,
            plan,
            limits,
            table,
            least: Some(least),
        })),
        None => Ok(None),
    }
}

/// A number from 0 to 100, in decimal without leading zeros.
fn read_percent(alloc: Global, word: &str) -> Result<Option<u8>, AllocError>
    ensures { IfOk result (λ found. MatchOption found
        ((percent : ℕ) → ¬ (IsPercentWord word.now percent)) (IsPercentWord word.now)) }
{
    let Ok(percent) = word.parse::<u8>() else {
        return Ok(None);
    };
    let spelled = format!(in alloc; "{percent}")?;
    if spelled.as_str() == word {
        return Ok(in_percent(percent));
    }
    Ok(None)
}

/// The number, where it is at most 100.
fn in_percent(percent: u8) -> Option<u8>
    ensures { MatchOption result (¬ (IsPercent percent))
        (λ found. (found ≡ percent) × IsPercent percent) }
{
    if percent <= 100 { Some(percent) } else { None }
}
