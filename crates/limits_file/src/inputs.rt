//! `[input]`: the range of each input.
ghost use Rattle.std.specs.Prelude.{◌≡◌, ◌↔◌, IsTrue, MatchOption, IfOk, map, Some, not, option_map};
ghost use Rattle.scaled_decimal.specs.Decimals.{Decimal};
ghost use Rattle.toml.specs.View.{view, table_view};
ghost use Rattle.limits_file.specs.private.AnswerViews.{Tells};
ghost use Rattle.limits_file.specs.Entries.{first_unsuited, has_key, has_needed_keys};
ghost use Rattle.limits_file.specs.Inputs.{suits_input, is_bound_key, input_form, IsBound, IsBoundAt, IsLimitOf, GivesNoLimit, InputSays, HasNoBoundAt, SaysPlaces, HasNoPlaces};
ghost use Rattle.limits_file.specs.RangeFiles.{NamesAscend};
ghost use Rattle.limits_file.specs.Walks.{AllOrFirstFault};
ghost use Rattle.limits_file.specs.Limits.{HasSoundBounds};

use crate::entries::{has_key, value_at};
use crate::{InputLimit, Items, LimitsFault};
use pap_tree::{MOST_INPUTS, Name, is_kept_at};
use scaled_decimal::{Dec, MOST_PLACES, read_dec};
use std::alloc::Global;
use std::cmp::Ordering;
use toml::{Table, Value};

/// The limits of `[input]`.
pub(crate) fn read_inputs(alloc: Global, entries: &Table) -> Result<Items<InputLimit>, LimitsFault>
    ensures says { Tells (AllOrFirstFault InputSays 0 (table_view entries.now)) result }
    ensures in_order { IfOk result (λ inputs. NamesAscend (map (λ limit. limit.name) inputs)) }
{
    let mut inputs = Vec::new(alloc);
    for (key, value) in entries {
        let limit = read_input(inputs.len(), key, value)?;
        inputs.push(limit)?;
    }
    Ok(Items::from_vec(inputs))
}

/// What the entry of an input says, which `before` others stand before.
fn read_input(before: usize, key: &str, value: &Value) -> Result<InputLimit, LimitsFault>
    ensures { Tells (InputSays before key.now (view value.now)) result }
{
    let Value::Table(entry) = value else {
        return Err(LimitsFault::key(key));
    };
    let Some(name) = Name::read(key.as_bytes()) else {
        return Err(LimitsFault::key(key));
    };
    if let Some(unsuited) = unsuited_input_key(entry) {
        return Err(LimitsFault::key(unsuited));
    }
    if lacks_key(entry) {
        return Err(LimitsFault::key(key));
    }
    if before >= MOST_INPUTS as usize {
        return Err(LimitsFault::bound(key));
    }
    match limit_of(name, entry) {
        Some(limit) => Ok(limit),
        None => Err(LimitsFault::bound(key)),
    }
}

/// The first key that has no place in an input's entry, or whose value is of another type.
pub fn unsuited_input_key(entry: &Table) -> Option<&str>
    ensures { option_map (λ key. key.now) result
        ≡ first_unsuited suits_input (table_view entry.now) }
{
    for (key, value) in entry {
        if !suits(key, value) {
            return Some(key.as_str());
        }
    }
    None
}

/// Whether an input's entry may have this key with this value.
fn suits(key: &str, value: &Value) -> bool
    ensures { result ≡ suits_input key.now (view value.now) }
{
    match value {
        Value::Integer(_) => is_bound_key(key) || key == "places",
        Value::String(_) => is_bound_key(key),
        _ => false,
    }
}

fn is_bound_key(key: &str) -> bool
    ensures { result ≡ is_bound_key key.now }
{
    key == "low" || key == "high"
}

/// Whether one of the three keys is missing.
fn lacks_key(entry: &Table) -> bool
    ensures { result ≡ not (has_needed_keys input_form (table_view entry.now)) }
{
    !(has_key(entry, "low") && has_key(entry, "high") && has_key(entry, "places"))
}

/// The limit of an input, where its bounds are readable and keep their rule.
fn limit_of(name: Name, entry: &Table) -> Option<InputLimit>
    ensures { MatchOption result (GivesNoLimit name (table_view entry.now))
        (IsLimitOf name (table_view entry.now)) }
{
    let low = bound_at(entry, "low")?;
    let high = bound_at(entry, "high")?;
    let places = places_at(entry)?;
    let limit = InputLimit {
        name,
        low,
        high,
        places,
    };
    if has_sound_bounds(&limit) {
        Some(limit)
    } else {
        None
    }
}

/// The bound at a key of an entry, where there is one that is readable.
pub fn bound_at(entry: &Table, key: &str) -> Option<Dec>
    ensures { MatchOption result (HasNoBoundAt key.now (table_view entry.now))
        (IsBoundAt key.now (table_view entry.now)) }
{
    bound_of(value_at(entry, key)?)
}

/// The number of places of an entry, where it is a whole number from 0 to 255.
pub fn places_at(entry: &Table) -> Option<u8>
    ensures { MatchOption result (HasNoPlaces (table_view entry.now))
        (SaysPlaces (table_view entry.now)) }
{
    match value_at(entry, "places")? {
        Value::Integer(places) => u8::try_from(*places).ok(),
        _ => None,
    }
}

/// The decimal of a bound, which is a whole number or a text that spells it.
fn bound_of(value: &Value) -> Option<Dec>
    ensures { (bound : Decimal) → (result ≡ Some bound) ↔ IsBound (view value.now) bound }
{
    match value {
        Value::Integer(whole) => Some(Dec::new(i128::from(*whole), 0)),
        Value::String(text) => read_dec(text.as_bytes()).ok(),
        _ => None,
    }
}

/// Whether the bounds keep their rule.
fn has_sound_bounds(limit: &InputLimit) -> bool
    ensures { IsTrue result ↔ HasSoundBounds limit.now }
{
    limit.places <= MOST_PLACES
        && limit.low.compare(limit.high) != Ordering::Greater
        && is_kept_at(limit.low, limit.places)
        && is_kept_at(limit.high, limit.places)
}
