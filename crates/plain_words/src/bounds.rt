//! What is wrong with the bounds of an input.
ghost use Rattle.std.specs.Prelude.{◌≡◌, ◌≤◌};
ghost use Rattle.scaled_decimal.specs.Limits.{most_places};
ghost use Rattle.plain_words.specs.EntryPlaces.{bound_key_name};

use crate::number_slip::{NumberSlip, SlipWords};
use crate::quotes::write_quoted;
use limits_file::{bound_at, places_at};
use pap_tree::is_kept_at;
use scaled_decimal::{Dec, MOST_PLACES};
use std::alloc::AllocError;
use std::cmp::Ordering;
use toml::{Table, Value};

/// What helps against a bound that is none of the numbers that may stand there.
const BOUND_HELP: &str =
    "write a whole number, or a decimal in quotation marks with at most 30 digits after its point and at most 10^37 without it";

/// What helps where a bound has signs between its digits.
const GROUPED_HELP: &str =
    "write a point before the decimals and nothing between thousands, as \"1234.50\"";

/// A key of an input's entry that its bounds have.
#[derive(Clone, Copy)]
pub(crate) enum BoundKey {
    /// The least value.
    Low,
    /// The greatest value.
    High,
    /// The most digits after the point.
    Places,
}

impl BoundKey {
    /// The key as it stands in the file.
    pub(crate) fn name(self) -> &'static str
        ensures { result.now ≡ bound_key_name self }
    {
        match self {
            BoundKey::Low => "low",
            BoundKey::High => "high",
            BoundKey::Places => "places",
        }
    }
}

/// A fault of the bounds of an entry, beside what is told of it.
#[derive(Clone, Copy)]
pub(crate) struct BoundFault {
    /// The key at which it is, where it is at one.
    pub key: Option<BoundKey>,
    /// What helps.
    pub help: &'static str,
}

/// Appends what is wrong, and gives the key at which that is, and what helps.
pub(crate) fn write_fault(
    told: &mut String,
    key: Option<BoundKey>,
    wrong: &str,
    help: &'static str,
) -> Result<BoundFault, AllocError> {
    told.push_str(wrong)?;
    Ok(BoundFault { key, help })
}

/// Appends what is wrong with the bounds of an input's entry.
pub(crate) fn write_bounds_fault(
    told: &mut String,
    entry: &Table,
) -> Result<BoundFault, AllocError> {
    let Some(low) = bound_at(entry, "low") else {
        return write_no_number(told, BoundKey::Low, entry);
    };
    let Some(high) = bound_at(entry, "high") else {
        return write_no_number(told, BoundKey::High, entry);
    };
    match places_at(entry) {
        Some(places) if places <= MOST_PLACES => write_range_fault(told, low, high, places),
        _ => write_fault(
            told,
            Some(BoundKey::Places),
            "places isn't from 0 to 30",
            "places is the number of digits that a value may have after its point",
        ),
    }
}

/// Appends that the value of a bound isn't a number that may stand there.
fn write_no_number(
    told: &mut String,
    key: BoundKey,
    entry: &Table,
) -> Result<BoundFault, AllocError> {
    let wrong = "isn't a number that may stand there";
    let name = key.name();
    let Some(Value::String(text)) = entry.get(name) else {
        write!(told, "{name} ")?;
        return write_fault(told, Some(key), wrong, BOUND_HELP);
    };
    let text = text.as_bytes();
    if text.is_empty() {
        write!(told, "{name} has nothing in its quotation marks")?;
        return write_fault(told, Some(key), "", "write its number there, as \"9.5\"");
    }
    write!(told, "{name}, which is ")?;
    write_quoted(told, text, 0)?;
    if is_grouped(text) {
        told.push_str(", ")?;
        return write_fault(told, Some(key), wrong, GROUPED_HELP);
    }
    match bound_slip(text) {
        Some(SlipWords { has, help }) => {
            told.push_str(", has ")?;
            write_fault(told, Some(key), has, help)
        }
        None => {
            told.push_str(", ")?;
            write_fault(told, Some(key), wrong, BOUND_HELP)
        }
    }
}

/// What a text has that is no number, where that is known; of one without digits round its comma that is more than the comma.
fn bound_slip(text: &[u8]) -> Option<SlipWords> {
    match NumberSlip::of(text) {
        NumberSlip::Comma => None,
        slip => slip.words(),
    }
}

/// Whether a text has digits, and a comma, a blank, an apostrophe, a `_` or more than one point.
fn is_grouped(text: &[u8]) -> bool {
    let points = text.iter().filter(|byte| **byte == b'.').count();
    let is_divided = points > 1 || text.iter().any(|byte| divides(*byte));
    is_divided && text.iter().any(|byte| byte.is_ascii_digit())
}

/// Whether a byte is one that may be written between the digits of a number.
fn divides(byte: u8) -> bool {
    matches!(byte, b',' | b' ' | b'\'' | b'_')
}

/// Appends what is wrong with a range of so many places. Where nothing is, there are too many inputs.
fn write_range_fault(
    told: &mut String,
    low: Dec,
    high: Dec,
    places: u8,
) -> Result<BoundFault, AllocError>
    requires { places ≤ most_places }
{
    if low.compare(high) == Ordering::Greater {
        write!(told, "low, which is {low}, is above high, which is {high}")?;
        return Ok(BoundFault {
            key: None,
            help: "exchange them, or correct one of them",
        });
    }
    if !is_kept_at(low, places) {
        return write_places_fault(told, BoundKey::Low, low, places);
    }
    if !is_kept_at(high, places) {
        return write_places_fault(told, BoundKey::High, high, places);
    }
    write_fault(
        told,
        None,
        "nothing is wrong but that it is the 257th input",
        "a range file has at most 256 inputs: take out what the flowchart doesn't have",
    )
}

/// Appends that a bound has no such number of places.
fn write_places_fault(
    told: &mut String,
    key: BoundKey,
    bound: Dec,
    places: u8,
) -> Result<BoundFault, AllocError> {
    let name = key.name();
    write!(
        told,
        "{name}, which is {bound}, has more digits after its point than places, which is {places}, or is beyond 10^37 with so many"
    )?;
    Ok(BoundFault {
        key: Some(key),
        help: "write more places, or a bound that has no more",
    })
}
