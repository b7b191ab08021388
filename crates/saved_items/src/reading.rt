//! Reading a saved book.
ghost use Rattle.std.specs.Prelude.{◌≡◌, ◌<◌, IfOk, IfErr, MatchBool};
ghost use Rattle.payroll_records.specs.Tables.{Text};
ghost use Rattle.saved_items.specs.Fronts.{AreFirstItems, items_in};
ghost use Rattle.saved_items.specs.private.ItemDecisions.{Ends};
ghost use Rattle.saved_items.specs.private.ItemViews.{EndsWith, IsComplete, StandsStill, front_in};
ghost use Rattle.saved_items.specs.SavedBooks.{IsSavedText};
ghost use Rattle.saved_items.specs.Texts.{SavedTextHasOneAnswer};
ghost use Rattle.saved_items.specs.ItemFaults.{IsItemFaultOrMemory, saved_in};

use crate::front::{Front, Stage};
use crate::next::next_item;
use crate::{ItemFault, SavedBook};
use std::alloc::{AllocError, Global};

/// The saved book that a text is, or the first item that isn't of its form.
pub fn read_items<'a>(alloc: Global, bytes: &'a [u8]) -> Result<SavedBook<'a>, ItemFault<'a>>
    ensures ok { IfOk result (λ items. IsSavedText bytes.now (saved_in items)) }
    ensures err { IfErr result (IsItemFaultOrMemory bytes.now) }
{
    let (front, rest) = read_front(alloc, bytes)?;
    if is_end(&front, rest) {
        return Ok(front.items);
    }
    Err(ItemFault::Form {
        item: item_count(&front) + 1,
        at: bytes.len() - rest.len(),
        plans: front.items.plans,
    })
}

/// The first items of a text, as many as are of their form one behind the other, and what follows them.
pub(crate) fn read_front<'a>(
    alloc: Global,
    bytes: &'a [u8],
) -> Result<(Front<'a>, &'a [u8]), AllocError>
    ensures { IfOk result (λ read. StandsStill bytes.now read.0 read.1.now) }
{
    let mut front = Front::new(alloc);
    let mut rest = bytes;
    while let Some((item, left)) = next_item(alloc, &front, rest)? {
        front.add(item)?;
        rest = left;
    }
    Ok((front, rest))
}

/// A law, with nothing to run: a text says one thing.
pub fn each_text_has_one_answer()
    ensures { (bytes : Text) → SavedTextHasOneAnswer bytes }
{}

/// Whether all runs were read, and the last line follows with nothing after it.
pub(crate) fn is_end(front: &Front, rest: &[u8]) -> bool
    ensures { MatchBool result (EndsWith front.now rest.now)
        (Ends (front_in front.now) rest.now → ⊥) }
{
    if !is_complete(front) {
        return false;
    }
    rest == b"end\n".as_slice()
}

/// Whether all runs were read.
fn is_complete(front: &Front) -> bool
    ensures { MatchBool result (IsComplete front.now) (IsComplete front.now → ⊥) }
{
    match front.stage {
        Stage::Runs { count } => front.items.records.len() as u64 == count,
        _ => false,
    }
}

/// How many items were read.
pub(crate) fn item_count(front: &Front) -> u32
    requires { AreFirstItems (front_in front.now) }
    ensures count { result ≡ items_in (front_in front.now) }
    ensures few { result < 100000 }
{
    match front.stage {
        Stage::Title => 0,
        Stage::Work => 1,
        Stage::PlanCount => 2,
        Stage::Plans { .. } => 3 + front.items.plans.len() as u32,
        Stage::Runs { .. } => 4 + front.items.plans.len() as u32 + front.items.records.len() as u32,
    }
}
