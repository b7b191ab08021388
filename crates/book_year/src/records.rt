//! The records of a year, in order of day, and references to them.
ghost use Rattle.std.specs.Prelude.{◌≡◌, ◌+◌, ◌≤◌, IfOk, IfErr, OnOk, OnErr, vec_len, vec_capacity};
ghost use Rattle.rising_lists.specs.Keyed.{IsRising};
ghost use Rattle.rising_lists.specs.Places.{IsAt, IsGap};
ghost use Rattle.payroll_records.specs.Orders.{day_cmp};
ghost use Rattle.book_year.specs.Records.{record_day, records_of, ReferTo, put_run, without_run};
ghost use Rattle.book_year.specs.private.Records.{reference_day};
ghost use Rattle.book_year.specs.Records.{AreBefore};

use payroll_records::{Day, Record};
use std::alloc::{AllocError, Global};

/// Where the run of a day stands, or would go.
pub fn place_run(records: &[Record], day: Day) -> Result<usize, usize>
    requires { IsRising day_cmp record_day records.now }
    ensures found { IfOk result (IsAt day_cmp record_day records.now day) }
    ensures absent { IfErr result (IsGap day_cmp record_day records.now day) }
{
    records.binary_search_by_key(&day, |r| r.day)
}

/// How many of the records stand before a day.
pub fn runs_before(records: &[Record], day: Day) -> usize
    requires { IsRising day_cmp record_day records.now }
    ensures { AreBefore day records.now result }
{
    match place_run(records, day) {
        Ok(at) => at,
        Err(at) => at,
    }
}

/// Where the record of a day is among references, or would go.
fn place_reference(runs: &[&Record], day: Day) -> Result<usize, usize>
    requires { IsRising day_cmp record_day (records_of runs.now) }
    ensures found { IfOk result (IsAt day_cmp reference_day runs.now day) }
    ensures absent { IfErr result (IsGap day_cmp reference_day runs.now day) }
{
    runs.binary_search_by_key(&day, |r| r.day)
}

/// References to all records, with room for one more.
pub fn references(alloc: Global, records: &[Record]) -> Result<Vec<&Record>, AllocError>
    ensures { IfOk result (λ runs. ReferTo records.now runs.items) }
{
    let mut runs = Vec::with_capacity(alloc, records.len() + 1)?;
    for run in records {
        runs.push(run)?;
    }
    Ok(runs)
}

/// The records with one put at its day.
pub(crate) fn runs_with<'a>(
    alloc: Global,
    records: &'a [Record],
    item: &'a Record,
) -> Result<Vec<&'a Record>, AllocError>
    requires { IsRising day_cmp record_day records.now }
    ensures { IfOk result (λ runs. ReferTo (put_run item.now records.now) runs.items) }
{
    let mut runs = references(alloc, records)?;
    match place_run(records, item.day) {
        Ok(at) => runs[at] = item,
        Err(at) => runs.insert(at, item)?,
    }
    Ok(runs)
}

/// The records without that of a day.
pub(crate) fn runs_without(
    alloc: Global,
    records: &[Record],
    day: Day,
) -> Result<Vec<&Record>, AllocError>
    requires { IsRising day_cmp record_day records.now }
    ensures { IfOk result (λ runs. ReferTo (without_run day records.now) runs.items) }
{
    let mut runs = references(alloc, records)?;
    match place_run(records, day) {
        Ok(at) => {
            runs.remove(at);
            Ok(runs)
        }
        Err(_) => Ok(runs),
    }
}

/// Puts a record at its day, among references. Without memory they are as before.
pub fn put_reference<'a>(runs: &mut Vec<&'a Record>, item: &'a Record) -> Result<(), AllocError>
    requires { IsRising day_cmp record_day (records_of runs.old.items) }
    ensures ok { OnOk result
        (ReferTo (put_run item.now (records_of runs.old.items)) runs.new.items) }
    ensures err { OnErr result (runs.new.items ≡ runs.old.items) }
{
    match place_reference(runs.as_slice(), item.day) {
        Ok(at) => {
            runs[at] = item;
            Ok(())
        }
        Err(at) => Ok(runs.insert(at, item)?),
    }
}

/// Puts a record at its day. Without memory the records are as before.
pub(crate) fn put_record(records: &mut Vec<Record>, item: Record) -> Result<(), AllocError>
    requires { IsRising day_cmp record_day records.old.items }
    ensures ok { OnOk result (records.new.items ≡ put_run item records.old.items) }
    ensures err { OnErr result (records.new.items ≡ records.old.items) }
{
    match place_run(records.as_slice(), item.day) {
        Ok(at) => {
            records[at] = item;
            Ok(())
        }
        Err(at) => Ok(records.insert(at, item)?),
    }
}

/// Takes the record of a day away.
pub(crate) fn take_record(records: &mut Vec<Record>, day: Day)
    requires { IsRising day_cmp record_day records.old.items }
    ensures items { records.new.items ≡ without_run day records.old.items }
    ensures room { vec_len records.old + 1 ≤ vec_capacity records.old
        → vec_len records.new + 1 ≤ vec_capacity records.new }
{
    if let Ok(at) = place_run(records.as_slice(), day) {
        let _old = records.remove(at);
    }
}

/// Puts a record at its day, where there is room for it.
pub fn put_in_room(records: &mut Vec<Record>, item: Record)
    requires rising { IsRising day_cmp record_day records.old.items }
    requires room { vec_len records.old + 1 ≤ vec_capacity records.old }
    ensures items { records.new.items ≡ put_run item records.old.items }
    ensures len { vec_len records.new ≤ vec_len records.old + 1 }
    ensures capacity { vec_capacity records.old ≤ vec_capacity records.new }
{
    match place_run(records.as_slice(), item.day) {
        Ok(at) => records[at] = item,
        Err(at) => records.insert(at, item).unwrap(),
    }
}
