//! How much changed, counted.
ghost use Rattle.std.specs.Prelude.{◌≡◌, ◌++◌, IfOk, count_by, string_bytes};
ghost use Rattle.comparison_page.specs.Counts.{is_changed, is_gone, is_new, is_changed_range, is_gone_range, is_new_range, change_counts, entry_counts, range_counts, method_words};

use flowchart_comparison::Entry;
use range_comparison::RangeChange;
use std::alloc::{AllocError, Global};

/// How many of some entries changed, are new and are gone, in words.
pub(crate) fn entry_counts(alloc: Global, entries: &[Entry]) -> Result<String, AllocError>
    ensures { IfOk result (λ words. string_bytes words ≡ entry_counts entries.now) }
{
    let changed = changed_entries(entries);
    let new = new_entries(entries);
    let gone = gone_entries(entries);
    change_counts(alloc, changed, new, gone)
}

/// Three counts in words.
fn change_counts(
    alloc: Global,
    changed: usize,
    new: usize,
    gone: usize,
) -> Result<String, AllocError>
    ensures { IfOk result (λ words. string_bytes words ≡ change_counts changed new gone) }
{
    format!(in alloc; "{changed} changed, {new} new, {gone} gone")
}

/// How many of some entries are of two texts that differ.
fn changed_entries(entries: &[Entry]) -> usize
    ensures { result ≡ count_by is_changed entries.now }
{
    entries.iter().filter(|entry| is_changed(*entry)).count()
}

/// How many are of a text that is new.
fn new_entries(entries: &[Entry]) -> usize
    ensures { result ≡ count_by is_new entries.now }
{
    entries.iter().filter(|entry| is_new(*entry)).count()
}

/// How many are of a text that is gone.
fn gone_entries(entries: &[Entry]) -> usize
    ensures { result ≡ count_by is_gone entries.now }
{
    entries.iter().filter(|entry| is_gone(*entry)).count()
}

/// Whether an entry is of two texts that differ.
fn is_changed(entry: &Entry) -> bool
    ensures { result ≡ is_changed entry.now }
{
    matches!(entry, Entry::Changed(..))
}

/// Whether an entry is of a text that is new.
fn is_new(entry: &Entry) -> bool
    ensures { result ≡ is_new entry.now }
{
    matches!(entry, Entry::New(_))
}

/// Whether an entry is of a text that is gone.
fn is_gone(entry: &Entry) -> bool
    ensures { result ≡ is_gone entry.now }
{
    matches!(entry, Entry::Gone(_))
}

/// How many entries of range files changed, are new and are gone, in words.
pub(crate) fn range_counts(alloc: Global, changes: &[RangeChange]) -> Result<String, AllocError>
    ensures { IfOk result (λ words. string_bytes words ≡ range_counts changes.now) }
{
    let changed = changed_ranges(changes);
    let new = new_ranges(changes);
    let gone = gone_ranges(changes);
    change_counts(alloc, changed, new, gone)
}

/// How many changes are of an entry that both range files have.
fn changed_ranges(changes: &[RangeChange]) -> usize
    ensures { result ≡ count_by is_changed_range changes.now }
{
    changes.iter().filter(|c| is_changed_range(*c)).count()
}

/// How many are of an entry that is new.
fn new_ranges(changes: &[RangeChange]) -> usize
    ensures { result ≡ count_by is_new_range changes.now }
{
    changes.iter().filter(|c| is_new_range(*c)).count()
}

/// How many are of an entry that is gone.
fn gone_ranges(changes: &[RangeChange]) -> usize
    ensures { result ≡ count_by is_gone_range changes.now }
{
    changes.iter().filter(|c| is_gone_range(*c)).count()
}

/// Whether a change is of an entry that both range files have.
fn is_changed_range(change: &RangeChange) -> bool
    ensures { result ≡ is_changed_range change.now }
{
    matches!(change, RangeChange::Changed(..))
}

/// Whether a change is of an entry that is new.
fn is_new_range(change: &RangeChange) -> bool
    ensures { result ≡ is_new_range change.now }
{
    matches!(change, RangeChange::New(_))
}

/// Whether a change is of an entry that is gone.
fn is_gone_range(change: &RangeChange) -> bool
    ensures { result ≡ is_gone_range change.now }
{
    matches!(change, RangeChange::Gone(_))
}

/// What is said of a method: how many of its lines changed, are new and are gone, where it isn't the same.
pub(crate) fn method_words(
    alloc: Global,
    method: Entry,
    lines: &[Entry],
) -> Result<String, AllocError>
    ensures { IfOk result (λ words. string_bytes words ≡ method_words method lines.now) }
{
    match method {
        Entry::Same(..) => String::from_str(alloc, "same"),
        Entry::Changed(..) => counted(alloc, "changed: ", lines),
        Entry::Gone(_) => counted(alloc, "gone: ", lines),
        Entry::New(_) => counted(alloc, "new: ", lines),
    }
}

/// A word, and how many lines changed, are new and are gone.
fn counted(alloc: Global, word: &str, lines: &[Entry]) -> Result<String, AllocError>
    ensures { IfOk result (λ words. string_bytes words ≡ word.now ++ entry_counts lines.now) }
{
    let counts = entry_counts(alloc, lines)?;
    format!(in alloc; "{word}{counts}")
}
