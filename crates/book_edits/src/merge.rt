//! The years of the book and the drafts made one list, without memory.
ghost use Rattle.std.specs.Prelude.{◌≡◌, ◌+◌, ◌<◌, ◌≤◌, [], List, None, IfSome, MatchOption, vec_len, vec_capacity};
ghost use Rattle.std.specs.List.{AllByRecursion};
ghost use Rattle.std.specs.VecDeque.{deque_len};
ghost use Rattle.std.specs.declared.cmp.Ordering.TheVariants.{Greater};
ghost use Rattle.rising_lists.specs.Keyed.{IsRising};
ghost use Rattle.payroll_records.specs.Orders.{day_cmp};
ghost use Rattle.plan_calendar.specs.Picking.{Entry};
ghost use Rattle.book_year.specs.Accepted.{Accepted};
ghost use Rattle.book_year.specs.Records.{record_day};
ghost use Rattle.book_edits.specs.Books.{year_cmp};
ghost use Rattle.book_edits.specs.Kept.{runs_in};
ghost use Rattle.book_edits.specs.private.Groups.{put_runs};
ghost use Rattle.book_edits.specs.private.Merges.{AreMergeable, CanMerge, IsFirst, IsKeptYear, merged_runs};

use crate::drafts::Draft;
use crate::records::put_all;
use book_year::{Year, YearKey};
use payroll_records::Record;
use std::alloc::Global;
use std::cmp::Ordering;
use std::collections::VecDeque;

/// The years with each draft at its key, in place of the year that stood there. `years` is empty, and has room for them.
pub(crate) fn merged(
    alloc: Global,
    olds: Vec<Year>,
    drafts: Vec<Draft>,
    mut years: Vec<Year>,
) -> Vec<Year>
    requires can { CanMerge olds.items drafts.items }
    requires empty { years.items ≡ [] }
    requires room { vec_len years + vec_len olds + vec_len drafts ≤ vec_capacity years }
    ensures runs { runs_in result.items ≡ merged_runs olds.items drafts.items }
    ensures kept { (plans : List (Entry Accepted)) → AreMergeable plans olds.items drafts.items
        → AllByRecursion (IsKeptYear plans) result.items }
{
    let mut olds = VecDeque::from_vec(olds);
    let mut drafts = VecDeque::from_vec(drafts);
    while let Some(year) = next_year(alloc, &mut olds, &mut drafts) {
        years.push_reserved(year);
    }
    years
}

/// Takes the first of the years and the drafts. Where both have one key the draft takes the year's records in.
fn next_year(alloc: Global, olds: &mut VecDeque<Year>, drafts: &mut VecDeque<Draft>) -> Option<Year>
    requires { CanMerge olds.old.items drafts.old.items }
    ensures none { result ≡ None → (olds.old.items ≡ []) × (drafts.old.items ≡ []) }
    ensures first { IfSome result
        (IsFirst olds.old.items drafts.old.items olds.new.items drafts.new.items) }
    ensures len { IfSome result (λ _. deque_len olds.new + deque_len drafts.new
        < deque_len olds.old + deque_len drafts.old) }
{
    let Some(draft) = drafts.front() else {
        return olds.pop_front();
    };
    match order(olds.front(), draft.key) {
        Ordering::Less => olds.pop_front(),
        Ordering::Equal => {
            let old = olds.pop_front().unwrap();
            let draft = drafts.pop_front().unwrap();
            Some(finished(draft, old.records))
        }
        Ordering::Greater => {
            let draft = drafts.pop_front().unwrap();
            Some(finished(draft, Vec::new(alloc)))
        }
    }
}

/// How a year stands to a key: before it, at it or behind it. Where no year is left, the key comes first.
fn order(year: Option<&Year>, key: YearKey) -> Ordering
    ensures { MatchOption year.entry (result ≡ Greater) (λ y. result ≡ year_cmp y.now.key key) }
{
    match year {
        Some(year) => year.key.cmp(&key),
        None => Ordering::Greater,
    }
}

/// A draft's year, with the records that stood in it.
fn finished(draft: Draft, mut old: Vec<Record>) -> Year
    requires rising { IsRising day_cmp record_day old.items }
    requires empty { draft.room.items ≡ [] }
    requires bare { vec_len draft.room ≡ 0 }
    requires room { vec_len old + vec_len draft.items ≤ vec_capacity draft.room }
    ensures key { result.key ≡ draft.key }
    ensures records { result.records.items ≡ put_runs draft.items.items old.items }
    ensures outcomes { result.outcomes.items ≡ draft.outcomes.items }
{
    let mut records = draft.room;
    records.append(&mut old).unwrap();
    put_all(&mut records, draft.items);
    Year {
        key: draft.key,
        records,
        outcomes: draft.outcomes,
    }
}
