//! A year's records with several new ones: references to them, and the records themselves.
ghost use Rattle.std.specs.Prelude.{◌≡◌, ◌+◌, ◌≤◌, IfOk, length, take, vec_len, vec_capacity};
ghost use Rattle.rising_lists.specs.Keyed.{IsRising};
ghost use Rattle.payroll_records.specs.Orders.{day_cmp};
ghost use Rattle.book_year.specs.Records.{record_day, ReferTo};
ghost use Rattle.book_edits.specs.private.Groups.{put_runs};

use book_year::{put_in_room, put_reference, references, runs_before};
use payroll_records::Record;
use std::alloc::{AllocError, Global};

/// References to the records and to the new ones, each at its day.
pub(crate) fn references_with<'a>(
    alloc: Global,
    records: &'a [Record],
    items: &'a [Record],
) -> Result<Vec<&'a Record>, AllocError>
    requires { IsRising day_cmp record_day records.now }
    ensures { IfOk result (λ runs. ReferTo (put_runs items.now records.now) runs.items) }
{
    let mut runs = references(alloc, records)?;
    for item in items {
        put_reference(&mut runs, item)?;
    }
    Ok(runs)
}

/// How many of the records stand before each of the new ones.
pub(crate) fn runs_before_all(records: &[Record], items: &[Record]) -> usize
    requires { IsRising day_cmp record_day records.now }
    ensures within { result ≤ length records.now }
    ensures same { take result (put_runs items.now records.now) ≡ take result records.now }
{
    let mut kept = records.len();
    for item in items {
        kept = kept.min(runs_before(records, item.day));
    }
    kept
}

/// Puts each of these records at its day, where there is room for all of them.
pub(crate) fn put_all(records: &mut Vec<Record>, items: Vec<Record>)
    requires rising { IsRising day_cmp record_day records.old.items }
    requires room { vec_len records.old + vec_len items ≤ vec_capacity records.old }
    ensures { records.new.items ≡ put_runs items.items records.old.items }
{
    for item in items {
        put_in_room(records, item);
    }
}
