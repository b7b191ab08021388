//! The order in which names come in the words of a line.
ghost use Rattle.std.specs.Prelude.{◌≡◌, ◌++◌, codes, length, map, IfOk, IfSome, IsTrue};
ghost use Rattle.std.specs.Rc.{rc_slice_items};
ghost use Rattle.pap_tree.specs.Names.{is_name};
ghost use Rattle.payroll_records.specs.KeptValues.{AreNames};
ghost use Rattle.payroll_records.specs.ValueWords.{AreValueWords, IsValueWord};
ghost use Rattle.payroll_records.specs.private.GivenViews.{GivesOne, given_values};

use crate::value_word::name_length;
use crate::{MOST_VALUES, Values};
use pap_tree::Name;
use scaled_decimal::{Dec, read_dec};
use std::alloc::{AllocError, Global};
use std::marker::Model;
use std::rc::RcSlice;

/// The names that the value words of a line have, word by word. A line whose words have the same names in the same order needs no search for
/// the places of its values, and shares the list of the names.
#[derive(Drop)]
pub struct NameOrder {
    /// The names in order of their bytes.
    names: RcSlice<Name>,
    /// Where the name of each word stands among them. The words are tried there; nothing else depends on it.
    places: Vec<usize>,
    /// For each name where that of the next word stands.
    after: RcSlice<usize>,
}

impl Model for NameOrder {
    ghost use Rattle.std.specs.Prelude.{ℕ, List};
    ghost use Rattle.std.specs.Rc.{rc_slice_items};
    ghost use Rattle.payroll_records.specs.KeptValues.{AreNames};

    ghost Value = { List (List ℕ) };

    ghost view = { λ o. rc_slice_items o.names };

    ghost invariant = { λ o. AreNames (rc_slice_items o.names) };
}

impl NameOrder {
    /// The order of the names in the words that gave these values, and the same values, which share its list of names.
    pub fn of_words(
        alloc: Global,
        words: &[&[u8]],
        values: Values,
    ) -> Result<(Values, NameOrder), AllocError>
        ensures { IfOk result (λ both. both.0 ≡ values) }
    {
        let (values, names) = values.with_list()?;
        let places = places_of(alloc, names.as_slice(), words)?;
        let after = RcSlice::from_vec(followers(alloc, places.as_slice())?)?;
        let order = NameOrder {
            names,
            places,
            after: after.clone()?,
        };
        Ok((values.given_in(after), order))
    }

    /// The values of value words that have the same names in the same order, and share the list of the names. `None` also where a word
    /// is not readable.
    pub fn read(&self, alloc: Global, words: &[&[u8]]) -> Result<Option<Values>, AllocError>
        ensures { IfOk result (λ found. IfSome found
            (AreValueWords (map (λ word. word.now) words.now))) }
    {
        let names = self.names.as_slice();
        if words.len() != names.len() || words.len() != self.places.len() {
            return Ok(None);
        }
        let mut numbers = vec![in alloc; Dec::new(0, 0); names.len()]?;
        let mut given = [false; MOST_VALUES];
        let mut at = 0;
        for word in words {
            if !give(names, &mut numbers, &mut given, self.places[at], word) {
                return Ok(None);
            }
            at += 1;
        }
        let after = self.after.clone()?;
        let values = Values::of_list(self.names.clone()?, numbers);
        Ok(Some(values.given_in(after)))
    }
}

/// Puts the number that a word gives to the name at a place. `false` where the word has another name or is not readable, or where the
/// name has a number.
fn give(
    names: &[Name],
    numbers: &mut Vec<Dec>,
    given: &mut [bool; MOST_VALUES],
    place: usize,
    word: &[u8],
) -> bool
    requires are { AreNames names.now }
    requires long { length numbers.old.items ≡ length names.now }
    ensures long { length numbers.new.items ≡ length numbers.old.items }
    ensures one { IsTrue result → GivesOne word.now
        (given_values names.now numbers.old.items given.old)
        (given_values names.now numbers.new.items given.new) }
{
    if place >= names.len() || given[place] {
        return false;
    }
    let Some(value) = number_under(word, &names[place]) else {
        return false;
    };
    numbers[place] = value;
    given[place] = true;
    true
}

/// The number that a word gives to this name. `None` where it has another name or is not readable.
fn number_under(word: &[u8], name: &Name) -> Option<Dec>
    ensures { IfSome result (λ d. IsValueWord word.now (record { name = name.now; value = d })) }
{
    let number = behind_name(word, name)?;
    match read_dec(number) {
        Ok(value) => Some(value),
        Err(_) => None,
    }
}

/// What stands in a word behind this name and `=`, if it begins so.
fn behind_name<'a>(word: &'a [u8], name: &Name) -> Option<&'a [u8]>
    ensures split { IfSome result (λ text. word.now ≡ name.now ++ (codes "=" ++ text.now)) }
    ensures named { IfSome result (λ text. IsTrue (is_name name.now)) }
{
    match word.strip_prefix(name.bytes())? {
        [b'=', number @ ..] => Some(number),
        _ => None,
    }
}

/// For each place the one that comes after it in a list of places, and 0 after the last.
pub(crate) fn followers(alloc: Global, places: &[usize]) -> Result<Vec<usize>, AllocError> {
    let mut after = vec![in alloc; 0; places.len()]?;
    let mut last = None;
    for place in places {
        if let Some(next) = last.and_then(|last| after.get_mut(last)) {
            *next = *place;
        }
        last = Some(*place);
    }
    Ok(after)
}

/// Where the name of each word stands in a list of names.
fn places_of(alloc: Global, names: &[Name], words: &[&[u8]]) -> Result<Vec<usize>, AllocError> {
    let mut places = Vec::with_capacity(alloc, words.len())?;
    for word in words {
        places.push(place_of(names, word))?;
    }
    Ok(places)
}

/// Where the name of a word stands, or 0.
fn place_of(names: &[Name], word: &[u8]) -> usize {
    let Some(at) = name_length(word) else {
        return 0;
    };
    match Name::read(&word[..at]) {
        Some(name) => names.binary_search(&name).unwrap_or(0),
        None => 0,
    }
}
