//! Values under names.
ghost use Rattle.std.specs.Prelude.{◌≡◌, ◌↔◌, ◌<◌, ◌≤◌, [], length, map, IsSome, IsNone, OnOk, OnErr, IfOk, IfErr, IfSome, Err, option_map};
ghost use Rattle.std.specs.Rc.{rc_slice_items};
ghost use Rattle.rising_lists.specs.Places.{Finds, Misses};
ghost use Rattle.payroll_records.specs.Limits.{most_values};
ghost use Rattle.payroll_records.specs.NamedValues.{AreValues, name_cmp, name_of, place_at, value_at, with_value};
ghost use Rattle.payroll_records.specs.KeptValues.{AreNames, IsKeptAs, named_numbers};
ghost use Rattle.payroll_records.specs.private.ValueViews.{goes_at, is_before, is_beyond, stands_at};

use crate::MOST_VALUES;
use crate::names::Names;
use pap_tree::Name;
use scaled_decimal::Dec;
use std::alloc::{AllocError, Global};
use std::marker::Model;
use std::rc::RcSlice;
use thiserror::Error;

/// A value under a name: an input of a run, or an output.
#[derive(Clone, Copy, Debug)]
pub struct NamedValue {
    /// The name of the input or output: 1 to 32 bytes.
    pub name: Name,
    /// The value: at most 30 decimal places, and at most 10^37 without its point.
    pub value: Dec,
}

/// The values of a record: at most 256, each under a name of its own. They are kept in order of the names' bytes, whatever
/// order they came in, and contracts see them as the list of them.
///
/// The names are a list apart, so that the records of a table can share it.
#[derive(Debug, Drop)]
pub struct Values {
    names: Names,
    /// The value of each name.
    numbers: Vec<Dec>,
    /// For each name the place of the one that was given after it, where it is known. A name is only looked for there first.
    after: Option<RcSlice<usize>>,
}

impl Model for Values {
    ghost use Rattle.std.specs.Prelude.{List};
    ghost use Rattle.payroll_records.specs.NamedValues.{AreValues};
    ghost use Rattle.payroll_records.specs.KeptValues.{IsKeptAs, listed, named_numbers};
    ghost use Rattle.payroll_records.specs.declared.values.NamedValue.{NamedValue};

    ghost Value = { List NamedValue };

    ghost view = { λ v. named_numbers (listed v.names) v.numbers.items };

    ghost invariant = { λ v. IsKeptAs (listed v.names) v.numbers.items };
}

/// Where a name that is asked for after others is looked for first. Whatever it is, the answers are the same.
#[derive(Clone, Copy)]
pub struct Guess {
    /// Where it may stand.
    pub place: usize,
    /// Where it would go, if it doesn't stand among the names.
    pub gap: usize,
}

/// Why a value was not inserted.
#[derive(Debug, Drop, Error)]
pub enum InsertFault {
    /// A value stands under the name.
    #[error("the name has a value already")]
    Twice,
    /// No value stands under the name, and there are as many values as a record may have.
    #[error("there are 256 values already")]
    Full,
    /// There was no memory for one more.
    #[error("out of memory")]
    Memory(AllocError),
}

impl Values {
    /// No values.
    pub fn new(alloc: Global) -> Values
        ensures { result ≡ [] }
    {
        Values {
            names: Names::Own(Vec::new(alloc)),
            numbers: Vec::new(alloc),
            after: None,
        }
    }

    /// No values, with room for `count`.
    pub fn with_room(alloc: Global, count: usize) -> Result<Values, AllocError>
        ensures { IfOk result (λ values. values ≡ []) }
    {
        Ok(Values {
            names: Names::Own(Vec::with_capacity(alloc, count)?),
            numbers: Vec::with_capacity(alloc, count)?,
            after: None,
        })
    }

    /// The values of these names, each at its place. Where `before` has the same names, both share one list of them.
    pub(crate) fn from_columns(
        names: Vec<Name>,
        numbers: Vec<Dec>,
        before: Option<&Values>,
    ) -> Result<Values, AllocError>
        requires { IsKeptAs names.items numbers.items }
        ensures { IfOk result (λ values. values ≡ named_numbers names.items numbers.items) }
    {
        let values = Values {
            names: Names::Own(names),
            numbers,
            after: None,
        };
        values.sharing_names(before)
    }

    /// The same values. Where `before` has the same names, both share one list of them.
    pub(crate) fn sharing_names(self, before: Option<&Values>) -> Result<Values, AllocError>
        ensures { IfOk result (λ values. values ≡ self) }
    {
        let Values {
            names,
            numbers,
            after,
        } = self;
        let names = names.sharing(before.map(|values| &values.names))?;
        let after = match before {
            Some(values) => shared(&values.after)?,
            None => after,
        };
        Ok(Values {
            names,
            numbers,
            after,
        })
    }

    /// The same values, whose names were given in the order in which each name stands at its place of `after` behind the one
    /// before it.
    pub(crate) fn given_in(self, after: RcSlice<usize>) -> Values
        ensures { result ≡ self }
    {
        Values {
            names: self.names,
            numbers: self.numbers,
            after: Some(after),
        }
    }

    /// The same values, and the list of their names, which they share.
    pub(crate) fn with_list(self) -> Result<(Values, RcSlice<Name>), AllocError>
        ensures same { IfOk result (λ both. both.0 ≡ self) }
        ensures names { IfOk result (λ both. AreNames (rc_slice_items both.1)) }
    {
        let Values {
            names,
            numbers,
            after,
        } = self;
        let list = names.into_list()?;
        let names = Names::Shared(list.clone()?);
        let values = Values {
            names,
            numbers,
            after,
        };
        Ok((values, list))
    }

    /// The values of the names of a list, which they share, each at its place.
    pub(crate) fn of_list(list: RcSlice<Name>, numbers: Vec<Dec>) -> Values
        requires { IsKeptAs (rc_slice_items list) numbers.items }
        ensures { result ≡ named_numbers (rc_slice_items list) numbers.items }
    {
        Values {
            names: Names::Shared(list),
            numbers,
            after: None,
        }
    }

    /// The names of the values, in order.
    pub fn names(&self) -> &[Name]
        ensures all { result.now ≡ map name_of self.now }
        ensures are { AreValues self.now }
    {
        self.names.as_slice()
    }

    /// The values in order of their names, each at the place of its name.
    pub fn numbers(&self) -> &[Dec]
        ensures all { result.now ≡ map (λ v. v.value) self.now }
        ensures are { AreValues self.now }
    {
        self.numbers.as_slice()
    }

    /// The value under a name.
    pub fn find(&self, name: &Name) -> Option<Dec>
        ensures { result ≡ option_map (λ v. v.value) (value_at self.now name.now) }
    {
        match self.place(name) {
            Ok(at) => Some(self.numbers[at]),
            Err(_) => None,
        }
    }

    /// Where the value of a name stands. It is looked for at `guess` first: names that are asked
    /// for in order often stand there, or would go there.
    pub fn place_of(&self, name: &Name, guess: usize) -> Option<usize>
        ensures place { result ≡ place_at self.now name.now }
        ensures few { IfSome result (λ at. at < most_values) }
    {
        let guess = Guess {
            place: guess,
            gap: guess,
        };
        self.look_up(name, guess).0
    }

    /// Where the value of a name stands, and where the name that is asked for next may stand. Where names are asked for in the
    /// order in which they were given, none is searched for.
    pub fn look_up(&self, name: &Name, guess: Guess) -> (Option<usize>, Guess)
        ensures place { result.0 ≡ place_at self.now name.now }
        ensures few { IfSome result.0 (λ at. at < most_values) }
    {
        let names = self.names.as_slice();
        if stands_at(names, guess.place, name) {
            return (Some(guess.place), self.guess_after(guess.place, guess.gap));
        }
        if goes_at(names, guess.place, name) {
            return (None, guess);
        }
        if goes_at(names, guess.gap, name) {
            return (None, guess);
        }
        match names.binary_search(name) {
            Ok(at) => (Some(at), self.guess_after(at, guess.gap)),
            Err(at) => {
                let next = Guess {
                    place: guess.place,
                    gap: at,
                };
                (None, next)
            }
        }
    }

    /// Where the name that is asked for after the one at a place may stand: the name that was given after it, if that is known.
    fn guess_after(&self, at: usize, gap: usize) -> Guess {
        let known = self.after.as_ref().and_then(|after| after.get(at));
        let place = match known {
            Some(place) => *place,
            None => at.wrapping_add(1),
        };
        Guess { place, gap }
    }

    /// Puts a value under its name. After a refusal the values are as before.
    pub fn insert(&mut self, item: NamedValue) -> Result<(), InsertFault>
        ensures ok { OnOk result (self.new ≡ with_value item self.old) }
        ensures err { OnErr result (self.new ≡ self.old) }
        ensures twice { (result ≡ Err InsertFault.Twice) ↔ IsSome (value_at self.old item.name) }
        ensures full { (result ≡ Err InsertFault.Full)
            ↔ (IsNone (value_at self.old item.name) × (length self.old ≡ most_values)) }
    {
        match self.place(&item.name) {
            Ok(_) => Err(InsertFault::Twice),
            Err(at) => {
                if self.len() == MOST_VALUES {
                    return Err(InsertFault::Full);
                }
                match self.insert_at(at, item) {
                    Ok(()) => Ok(()),
                    Err(error) => Err(InsertFault::Memory(error)),
                }
            }
        }
    }

    /// How many values there are.
    fn len(&self) -> usize
        ensures all { result ≡ length self.now }
        ensures few { result ≤ most_values }
    {
        self.numbers.len()
    }

    /// Puts a value under a new name, at its place. Without memory the values are as before.
    fn insert_at(&mut self, at: usize, item: NamedValue) -> Result<(), AllocError>
        requires gap { Misses name_cmp name_of self.old item.name at }
        requires few { length self.old < most_values }
        ensures ok { OnOk result (self.new ≡ with_value item self.old) }
        ensures err { OnErr result (self.new ≡ self.old) }
    {
        let alloc = *self.numbers.allocator();
        self.numbers.reserve(1)?;
        self.names.insert(alloc, at, item.name)?;
        self.numbers.insert(at, item.value)?;
        Ok(())
    }

    /// Where the value of a name stands, or would go.
    fn place(&self, name: &Name) -> Result<usize, usize>
        ensures found { IfOk result (Finds name_cmp name_of self.now name.now) }
        ensures absent { IfErr result (Misses name_cmp name_of self.now name.now) }
    {
        let names = self.names.as_slice();
        if is_beyond(names, name) {
            return Err(names.len());
        }
        names.binary_search(name)
    }
}

/// The same places, if they are known.
fn shared(after: &Option<RcSlice<usize>>) -> Result<Option<RcSlice<usize>>, AllocError> {
    match after {
        Some(places) => Ok(Some(places.clone()?)),
        None => Ok(None),
    }
}

/// Whether a name stands at a place of a list.
fn stands_at(names: &[Name], at: usize, name: &Name) -> bool
    ensures { result ≡ stands_at names.now at name.now }
{
    match names.get(at) {
        Some(there) => *there == *name,
        None => false,
    }
}

/// Whether a name goes behind all names of a list in order, as where values come in order.
fn is_beyond(names: &[Name], name: &Name) -> bool
    ensures { result ≡ is_beyond names.now name.now }
{
    match names.last() {
        Some(last) => *last < *name,
        None => true,
    }
}

/// Whether a name goes before all names of a list in order.
fn is_before(names: &[Name], name: &Name) -> bool
    ensures { result ≡ is_before names.now name.now }
{
    match names.first() {
        Some(first) => *name < *first,
        None => true,
    }
}

/// Whether a name would go to a place of a list in order: behind the names before that place, and
/// before those from there on.
fn goes_at(names: &[Name], at: usize, name: &Name) -> bool
    ensures { result ≡ goes_at names.now at name.now }
{
    at <= names.len() && is_beyond(&names[..at], name) && is_before(&names[at..], name)
}
