//! What a row of a table has too much of.
use crate::table_row::TableRow;
use std::alloc::AllocError;

/// How many fields come before the values: employee, month and day.
const BEFORE_VALUES: usize = 3;

/// Appends what helps against a row that has more fields than its header: a value whose decimal comma made two fields of it, commas at
/// the end of the row, or what a value is.
pub(crate) fn write_surplus_help(
    told: &mut String,
    row: &TableRow,
    wanted: usize,
) -> Result<(), AllocError> {
    let surplus = row.len().saturating_sub(wanted);
    let ends_empty = (wanted..row.len()).all(|place| row.field(place).is_empty());
    match split_value(row) {
        Some(place) => {
            write_split_value(told, row, place)?;
            if !ends_empty {
                return Ok(());
            }
            told.push_str(", and else ")?;
            write_end_commas(told, surplus)
        }
        None if ends_empty => {
            write_end_commas(told, surplus)?;
            told.push_str(", where each value stands under its own name")
        }
        None => told.push_str(
            "a value has a point before its decimal places, not a comma, and nothing between thousands, as 2500.55",
        ),
    }
}

/// Appends that the commas at the end of a row are to be taken out.
fn write_end_commas(told: &mut String, count: usize) -> Result<(), AllocError> {
    if count == 1 {
        return told.push_str("take out the comma at its end");
    }
    write!(told, "take out the {count} commas at its end")
}

/// Appends how the value is written that two fields are, from the one at a place on.
fn write_split_value(told: &mut String, row: &TableRow, place: usize) -> Result<(), AllocError> {
    let alloc = *told.allocator();
    let behind = place.saturating_add(1);
    let whole = String::from_utf8_lossy(alloc, row.field(place))?;
    let decimals = String::from_utf8_lossy(alloc, row.field(behind))?;
    let digits = whole.replace(alloc, ".", "")?;
    write!(
        told,
        "if `{whole},{decimals}` in its fields {behind} and {} is one value, write {digits}.{decimals}",
        behind.saturating_add(1)
    )
}

/// The place of the first of two fields that look like a value with a comma before its decimal places: two places, or else one behind at
/// least three digits.
fn split_value(row: &TableRow) -> Option<usize> {
    match find_decimals(row, 2, 1) {
        Some(place) => Some(place),
        None => find_decimals(row, 1, 3),
    }
}

/// The place of the first field with a whole number, of at least so many bytes, before a field with so many digits.
fn find_decimals(row: &TableRow, count: usize, least: usize) -> Option<usize> {
    (BEFORE_VALUES..row.len().saturating_sub(1)).find(|place| row.field(*place).len() >= least
        && has_decimals(row, *place, count))
}

/// Whether the field at a place is the whole part of a number, and the next has so many digits.
fn has_decimals(row: &TableRow, place: usize, count: usize) -> bool {
    let decimals = row.field(place.saturating_add(1));
    decimals.len() == count && is_digits(decimals) && is_whole(row.field(place))
}

/// Whether a text is a whole number, with points between its thousands or without.
fn is_whole(text: &[u8]) -> bool {
    let unsigned = text.strip_prefix(b"-").unwrap_or(text);
    unsigned.split(|byte| *byte == b'.').enumerate().all(|(before, group)| is_digits(group)
        && (before == 0 || group.len() == 3))
}

/// Whether a text has a digit, and nothing else.
fn is_digits(text: &[u8]) -> bool {
    !text.is_empty() && text.iter().all(|byte| byte.is_ascii_digit())
}
