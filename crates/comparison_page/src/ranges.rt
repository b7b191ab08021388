//! What a range file changed as a text.
ghost use Rattle.std.specs.Prelude.{◌≡◌, ◌++◌, IfOk, OnOk, string_bytes};
ghost use Rattle.std.specs.List.{flat_map};
ghost use Rattle.comparison_page.specs.RangeTexts.{range_words, carry_words, range_entry_words, range_entry_lines, range_change_lines, range_changes_text};

use crate::lines::write_signed;
use limits_file::{Carry, InputLimit};
use range_comparison::{RangeChange, RangeEntry};
use std::alloc::{AllocError, Global};

/// Appends what a range file changed, below a heading: a line for each entry that is new or gone, and two for one that is changed.
/// Each begins with its sign, as those of the flowchart do, and the name of the input. Nothing where nothing changed.
#[tactic(auto, using(crate::proofs::RangeLemmas::no_changes, crate::proofs::RangeLemmas::some_changes))]
pub fn write_range_changes(
    alloc: Global,
    out: &mut Vec<u8>,
    changes: &[RangeChange],
) -> Result<(), AllocError>
    ensures { OnOk result (out.new.items ≡ out.old.items ++ range_changes_text changes.now) }
{
    if changes.is_empty() {
        return Ok(());
    }
    out.extend_from_slice(b"ranges\n")?;
    write_changes(alloc, out, changes)?;
    Ok(())
}

/// Appends changes.
fn write_changes(
    alloc: Global,
    out: &mut Vec<u8>,
    changes: &[RangeChange],
) -> Result<(), AllocError>
    ensures { OnOk result (out.new.items
        ≡ out.old.items ++ flat_map range_change_lines changes.now) }
{
    for change in changes {
        write_change(alloc, out, change)?;
    }
    Ok(())
}

/// Appends a change.
fn write_change(alloc: Global, out: &mut Vec<u8>, change: &RangeChange) -> Result<(), AllocError>
    ensures { OnOk result (out.new.items ≡ out.old.items ++ range_change_lines change.now) }
{
    match change {
        RangeChange::New(entry) => write_entry(alloc, out, b'+', " ", entry),
        RangeChange::Changed(before, after) => {
            write_entry(alloc, out, b'~', " was ", before)?;
            write_entry(alloc, out, b'~', " now ", after)
        }
        RangeChange::Gone(entry) => write_entry(alloc, out, b'-', " ", entry),
    }
}

/// Appends an entry behind a sign, with a word between its input and what it says.
fn write_entry(
    alloc: Global,
    out: &mut Vec<u8>,
    sign: u8,
    word: &str,
    entry: &RangeEntry,
) -> Result<(), AllocError>
    ensures { OnOk result (out.new.items
        ≡ out.old.items ++ range_entry_lines sign word.now entry.now) }
{
    let input = *entry.input();
    let lead = format!(in alloc; "{input}{word}")?;
    let text = range_entry_words(alloc, entry)?;
    write_signed(out, sign, lead.as_bytes(), text.as_bytes())
}

/// What an entry says of its input.
pub(crate) fn range_entry_words(alloc: Global, entry: &RangeEntry) -> Result<String, AllocError>
    ensures { IfOk result (λ text. string_bytes text ≡ range_entry_words entry.now) }
{
    match entry {
        RangeEntry::Input(limit) => range_words(alloc, limit),
        RangeEntry::Bind(binding) => carry_words(alloc, &binding.carry),
    }
}

/// The range of an input.
fn range_words(alloc: Global, limit: &InputLimit) -> Result<String, AllocError>
    ensures { IfOk result (λ text. string_bytes text ≡ range_words limit.now) }
{
    let low = limit.low;
    let high = limit.high;
    let places = limit.places;
    format!(in alloc; "range {low} .. {high}, places {places}")
}

/// What an input carries over.
fn carry_words(alloc: Global, carry: &Carry) -> Result<String, AllocError>
    ensures { IfOk result (λ text. string_bytes text ≡ carry_words carry.now) }
{
    match carry {
        Carry::Sum(output) => {
            let output = *output;
            format!(in alloc; "carries the sum of {output}")
        }
        Carry::Last(output) => {
            let output = *output;
            format!(in alloc; "carries the last {output}")
        }
        Carry::Count => String::from_str(alloc, "carries the number of runs"),
    }
}
