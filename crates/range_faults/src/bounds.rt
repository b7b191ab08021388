//! Whether an input's entry gives a limit.
ghost use Rattle.std.specs.Prelude.{◌↔◌, IsTrue, MatchOption};
ghost use Rattle.toml.specs.View.{table_view, view};
ghost use Rattle.limits_file.specs.Entries.{entry_members};
ghost use Rattle.limits_file.specs.Inputs.{GivesNoLimit, IsLimitOf};
ghost use Rattle.limits_file.specs.Limits.{HasSoundBounds};
ghost use Rattle.range_faults.specs.private.FaultViews.{LacksLimit};

use crate::forms::named_entry;
use limits_file::{InputLimit, bound_at, places_at};
use pap_tree::{Name, is_kept_at};
use scaled_decimal::MOST_PLACES;
use std::cmp::Ordering;
use toml::{Table, Value};

/// The limit that an entry of this key gives, if it does.
pub(crate) fn limit_at(name: &str, value: &Value) -> Option<InputLimit>
    ensures { MatchOption result (LacksLimit name.now (view value.now))
        (IsLimitOf name.now (entry_members (view value.now))) }
{
    let entry = named_entry(name, value)?;
    let name = Name::read(name.as_bytes())?;
    limit_of(name, entry)
}

/// The limit of an input, where its bounds are readable and keep their rule.
fn limit_of(name: Name, entry: &Table) -> Option<InputLimit>
    ensures { MatchOption result (GivesNoLimit name (table_view entry.now))
        (IsLimitOf name (table_view entry.now)) }
{
    let low = bound_at(entry, "low")?;
    let high = bound_at(entry, "high")?;
    let places = places_at(entry)?;
    let limit = InputLimit {
        name,
        low,
        high,
        places,
    };
    if has_sound_bounds(&limit) {
        Some(limit)
    } else {
        None
    }
}

/// Whether the bounds keep their rule.
fn has_sound_bounds(limit: &InputLimit) -> bool
    ensures { IsTrue result ↔ HasSoundBounds limit.now }
{
    limit.places <= MOST_PLACES
        && limit.low.compare(limit.high) != Ordering::Greater
        && is_kept_at(limit.low, limit.places)
        && is_kept_at(limit.high, limit.places)
}
