//! The pairs of two lists whose order may differ.
ghost use Rattle.std.specs.Prelude.{◌≡◌, ◌<◌, ◌∷◌, [], ◌++◌, false, IfOk, OnOk, length, slice_index_or};
ghost use Rattle.flowchart_comparison.specs.Comparisons.{item_names, item_texts};
ghost use Rattle.flowchart_comparison.specs.Entries.{IsPairing, IsTold, PairsNames, old_place, new_of};
ghost use Rattle.flowchart_comparison.specs.private.AlignmentViews.{AreFlags, IsTaken, free_one, gone_where};
ghost use Rattle.flowchart_comparison.specs.private.NameViews.{ProposesPartners};

use crate::proposals::proposal_at;
use crate::{Entry, Item};
use std::alloc::{AllocError, Global};

/// The entries of two lists: each new item with the old one that is proposed for it, where that one is still free, and at the end
/// the old items that are left. `proposed` has for each new item the place of an old one.
pub(crate) fn pair_up(
    alloc: Global,
    old: &[Item],
    new: &[Item],
    proposed: &[Option<usize>],
) -> Result<Vec<Entry>, AllocError>
    requires { ProposesPartners (item_names old.now) (item_names new.now) proposed.now }
    ensures paired { IfOk result (λ entries.
        IsPairing (item_texts old.now) (item_texts new.now) entries.items) }
    ensures by_name { IfOk result (λ entries.
        PairsNames (item_names old.now) (item_names new.now) entries.items) }
{
    let mut free = all_free(alloc, old.len())?;
    pair_free(alloc, old, new, proposed, &mut free)
}

/// The same, with a flag for each old item, which are all free.
fn pair_free(
    alloc: Global,
    old: &[Item],
    new: &[Item],
    proposed: &[Option<usize>],
    free: &mut [bool],
) -> Result<Vec<Entry>, AllocError>
    requires flags { AreFlags (length old.now) free.old }
    requires partners { ProposesPartners (item_names old.now) (item_names new.now) proposed.now }
    ensures paired { IfOk result (λ entries.
        IsPairing (item_texts old.now) (item_texts new.now) entries.items) }
    ensures by_name { IfOk result (λ entries.
        PairsNames (item_names old.now) (item_names new.now) entries.items) }
{
    let mut entries = Vec::with_capacity(alloc, new.len())?;
    for new_place in 0..new.len() {
        let proposal = proposal_at(proposed, new_place);
        let entry = pair_new(old, new, free, proposal, new_place);
        entries.push(entry)?;
    }
    for old_place in 0..old.len() {
        push_free(&mut entries, free, old_place)?;
    }
    Ok(entries)
}

/// Appends that the old item at a place is gone, where it is still free.
fn push_free(entries: &mut Vec<Entry>, free: &[bool], place: usize) -> Result<(), AllocError>
    requires { place < length free.now }
    ensures { OnOk result (entries.new.items
        ≡ entries.old.items ++ gone_where (slice_index_or free.now place false) place) }
{
    if free[place] {
        entries.push(Entry::Gone(place))?;
    }
    Ok(())
}

/// What is told of the new item at a place: the proposed old one with it where that one is free.
fn pair_new(
    old: &[Item],
    new: &[Item],
    free: &mut [bool],
    proposal: Option<usize>,
    place: usize,
) -> Entry
    requires many { length free.old ≡ length old.now }
    requires within { place < length new.now }
    ensures told { IsTold (item_texts old.now) (item_texts new.now) result }
    ensures new_of { new_of result ≡ place ∷ [] }
    ensures taken { IsTaken free.old free.new (old_place result) }
    ensures proposed { old_place result ≡ free_one free.old proposal }
{
    match take_free(free, proposal) {
        Some(partner) => tell(old, new, partner, place),
        None => Entry::New(place),
    }
}

/// As many flags, each set.
fn all_free(alloc: Global, count: usize) -> Result<Vec<bool>, AllocError>
    ensures { IfOk result (λ free. AreFlags count free.items) }
{
    let mut free = Vec::with_capacity(alloc, count)?;
    for _ in 0..count {
        free.push(true)?;
    }
    Ok(free)
}

/// The proposed place where it is free; it isn't free from then on.
fn take_free(free: &mut [bool], proposal: Option<usize>) -> Option<usize>
    ensures taken { IsTaken free.old free.new result }
    ensures proposed { result ≡ free_one free.old proposal }
{
    let place = proposal?;
    if place >= free.len() || !free[place] {
        return None;
    }
    free[place] = false;
    Some(place)
}

/// What is told of two items.
fn tell(old: &[Item], new: &[Item], partner: usize, place: usize) -> Entry
    requires old_within { partner < length old.now }
    requires new_within { place < length new.now }
    ensures told { IsTold (item_texts old.now) (item_texts new.now) result }
    ensures old_place { old_place result ≡ Some partner }
    ensures new_of { new_of result ≡ place ∷ [] }
{
    if old[partner].text() == new[place].text() {
        Entry::Same(partner, place)
    } else {
        Entry::Changed(partner, place)
    }
}
