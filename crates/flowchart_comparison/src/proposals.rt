//! Which old item a new one may be.
ghost use Rattle.std.specs.Prelude.{◌≡◌, ◌<◌, IfOk, OnOk, length, None, slice_index_or};
ghost use Rattle.std.specs.Option.{option_or};
ghost use Rattle.flowchart_comparison.specs.Comparisons.{item_names};
ghost use Rattle.flowchart_comparison.specs.private.NameViews.{ArePlaces, AreGone, ProposesNames, ProposesPartners, place_in};

use crate::Item;
use std::alloc::{AllocError, Global};
use std::collections::BTreeMap;

/// The place of each text of a list.
type Places<'a> = BTreeMap<&'a [u8], usize>;

/// For each new item the place of the old one of its name.
pub(crate) fn same_names<'a>(
    alloc: Global,
    old: &'a [Item],
    new: &'a [Item],
) -> Result<Vec<Option<usize>>, AllocError>
    ensures { IfOk result (λ proposed.
        ProposesNames (item_names old.now) (item_names new.now) proposed.items) }
{
    let places = places_of(alloc, old)?;
    let mut proposed = Vec::with_capacity(alloc, new.len())?;
    for item in new {
        proposed.push(place_in(&places, item.name_bytes()))?;
    }
    Ok(proposed)
}

/// The same, but a new item whose name is new gets an old one of the same text whose name is gone.
pub(crate) fn same_names_or_texts<'a>(
    alloc: Global,
    old: &'a [Item],
    new: &'a [Item],
) -> Result<Vec<Option<usize>>, AllocError>
    ensures { IfOk result (λ proposed.
        ProposesPartners (item_names old.now) (item_names new.now) proposed.items) }
{
    let names = places_of(alloc, new)?;
    let gone = gone_texts(alloc, old, &names)?;
    let named = same_names(alloc, old, new)?;
    let mut proposed = Vec::with_capacity(alloc, new.len())?;
    for place in 0..new.len() {
        let proposal = named_or_gone(&named, &gone, new[place].text(), place);
        proposed.push(proposal)?;
    }
    Ok(proposed)
}

/// What is proposed by the name of the new item at a place, or else by its text.
fn named_or_gone<'a>(
    named: &[Option<usize>],
    gone: &Places<'a>,
    text: &'a [u8],
    place: usize,
) -> Option<usize>
    ensures { result
        ≡ option_or (slice_index_or named.now place None) (place_in gone.now text.now) }
{
    match proposal_at(named, place) {
        Some(partner) => Some(partner),
        None => place_in(gone, text),
    }
}

/// What is proposed for the new item at a place.
pub(crate) fn proposal_at(proposed: &[Option<usize>], place: usize) -> Option<usize>
    ensures { result ≡ slice_index_or proposed.now place None }
{
    if place < proposed.len() {
        proposed[place]
    } else {
        None
    }
}

/// The place of a text, where it has one.
fn place_in<'a>(places: &Places<'a>, text: &'a [u8]) -> Option<usize>
    ensures { result ≡ place_in places.now text.now }
{
    places.get(&text).copied()
}

/// The place of each name; of a name that stands several times the last.
fn places_of<'a>(alloc: Global, items: &'a [Item]) -> Result<Places<'a>, AllocError>
    ensures { IfOk result (λ places.
        ArePlaces (item_names items.now) (length items.now) (place_in places)) }
{
    let mut places = BTreeMap::new(alloc);
    for place in 0..items.len() {
        places.insert(items[place].name_bytes(), place)?;
    }
    Ok(places)
}

/// The places of the texts of items whose names aren't among these.
fn gone_texts<'a>(
    alloc: Global,
    items: &'a [Item],
    names: &Places<'a>,
) -> Result<Places<'a>, AllocError>
    ensures { IfOk result (λ gone.
        AreGone (item_names items.now) (place_in names.now) (place_in gone)) }
{
    let mut gone = BTreeMap::new(alloc);
    for place in 0..items.len() {
        add_gone(&mut gone, items, names, place)?;
    }
    Ok(gone)
}

/// Adds the text of the item at a place, where its name isn't among these.
fn add_gone<'a>(
    gone: &mut Places<'a>,
    items: &'a [Item],
    names: &Places<'a>,
    place: usize,
) -> Result<(), AllocError>
    requires { place < length items.now }
    ensures { OnOk result (AreGone (item_names items.now) (place_in names.now) (place_in gone.old)
        → AreGone (item_names items.now) (place_in names.now) (place_in gone.new)) }
{
    let item = &items[place];
    match place_in(names, item.name_bytes()) {
        Some(_) => Ok(()),
        None => {
            gone.insert(item.text(), place)?;
            Ok(())
        }
    }
}
