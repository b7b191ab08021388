//! The text of a range.
ghost use Rattle.std.specs.Prelude.{◌≡◌, ◌++◌, IfOk, OnOk, replicate};
ghost use Rattle.range_marks.specs.RangeTexts.{widened_text, ends_text};

use interval_analysis::ValueRange;
use scaled_decimal::{Dec, write_dec};
use std::alloc::{AllocError, Global};
use std::cmp::Ordering;

/// A range: its least and its greatest value, as `0.00 .. 140000.00`, or the one value that it has. Both have as many places as the
/// range has at most.
pub(crate) fn ends_text(alloc: Global, range: &ValueRange) -> Result<Vec<u8>, AllocError>
    ensures { IfOk result (λ text. text.items ≡ ends_text range.now) }
{
    let mut text = Vec::new(alloc);
    push_widened(alloc, &mut text, range.least, range.most_places)?;
    match range.least.compare(range.greatest) {
        Ordering::Equal => Ok(text),
        Ordering::Less | Ordering::Greater => {
            text.extend_from_slice(b" .. ")?;
            push_widened(alloc, &mut text, range.greatest, range.most_places)?;
            Ok(text)
        }
    }
}

/// Appends a decimal with zeros behind it, up to so many places.
fn push_widened(alloc: Global, text: &mut Vec<u8>, value: Dec, places: u8) -> Result<(), AllocError>
    ensures { OnOk result (text.new.items ≡ text.old.items ++ widened_text places value) }
{
    let scale = value.scale();
    write_dec(alloc, value, text)?;
    if scale >= places {
        return Ok(());
    }
    if scale == 0 {
        text.extend_from_slice(b".")?;
    }
    push_zeros(text, places - scale)
}

/// Appends zeros.
fn push_zeros(text: &mut Vec<u8>, count: u8) -> Result<(), AllocError>
    ensures { OnOk result (text.new.items ≡ text.old.items ++ replicate count 0x30) }
{
    for _ in 0..count {
        text.extend_from_slice(b"0")?;
    }
    Ok(())
}
