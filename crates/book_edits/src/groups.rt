//! The new runs by the year in which they stand.
ghost use Rattle.std.specs.Prelude.{◌≡◌, ◌++◌, List, [], ◌∷◌, length, IfOk, IfErr, OnOk};
ghost use Rattle.rising_lists.specs.Keyed.{IsRising};
ghost use Rattle.rising_lists.specs.Places.{Finds, Misses};
ghost use Rattle.payroll_records.specs.Tables.{HaveOwnKeys};
ghost use Rattle.book_edits.specs.Books.{YearRuns, loaded, year_cmp};
ghost use Rattle.book_edits.specs.private.Groups.{AreGroups, IsPutGroup, group_key};

use crate::places::year_of;
use book_year::YearKey;
use payroll_records::Record;
use std::alloc::{AllocError, Global};

/// The new runs of one employee's calendar year.
#[derive(Drop)]
pub(crate) struct Group {
    pub(crate) key: YearKey,
    pub(crate) items: Vec<Record>,
}

/// The runs in groups, one for each year, in order of employee and year.
pub(crate) fn grouped(alloc: Global, mut items: Vec<Record>) -> Result<Vec<Group>, AllocError>
    requires { HaveOwnKeys items.items }
    ensures { IfOk result (λ groups. AreGroups items.items groups.items) }
{
    sort(&mut items);
    groups_of(alloc, items)
}

/// Puts the runs in order of their keys.
fn sort(items: &mut Vec<Record>)
    requires { HaveOwnKeys items.old.items }
    ensures same { (years : List YearRuns)
        → loaded items.new.items years ≡ loaded items.old.items years }
    ensures len { length items.new.items ≡ length items.old.items }
{
    items.sort_unstable_by_key(|item| item.key());
}

/// The groups of the runs. Where the runs stand in order of their keys, each of them goes behind all that came before.
fn groups_of(alloc: Global, items: Vec<Record>) -> Result<Vec<Group>, AllocError>
    ensures { IfOk result (λ groups. AreGroups items.items groups.items) }
{
    let mut groups = Vec::new(alloc);
    for item in items {
        put_item(alloc, &mut groups, item)?;
    }
    Ok(groups)
}

/// Puts a run into the group of its year.
fn put_item(alloc: Global, groups: &mut Vec<Group>, item: Record) -> Result<(), AllocError>
    requires { IsRising year_cmp group_key groups.old.items }
    ensures { OnOk result (IsPutGroup item groups.old.items groups.new.items) }
{
    let key = year_of(&item.key());
    match place_group(groups.as_slice(), key) {
        Ok(at) => append(&mut groups[at], item),
        Err(at) => {
            let group = group_of(alloc, key, item)?;
            Ok(groups.insert(at, group)?)
        }
    }
}

/// Where the group of a year is, or would go.
fn place_group(groups: &[Group], key: YearKey) -> Result<usize, usize>
    requires { IsRising year_cmp group_key groups.now }
    ensures found { IfOk result (Finds year_cmp group_key groups.now key) }
    ensures absent { IfErr result (Misses year_cmp group_key groups.now key) }
{
    groups.binary_search_by_key(&key, |g| g.key)
}

/// Puts a run behind those of a group.
fn append(group: &mut Group, item: Record) -> Result<(), AllocError>
    ensures key { group.new.key ≡ group.old.key }
    ensures items { OnOk result (group.new.items.items ≡ group.old.items.items ++ item ∷ []) }
{
    Ok(group.items.push(item)?)
}

/// A group of one run.
fn group_of(alloc: Global, key: YearKey, item: Record) -> Result<Group, AllocError>
    ensures key { IfOk result (λ group. group.key ≡ key) }
    ensures items { IfOk result (λ group. group.items.items ≡ item ∷ []) }
{
    let mut items = Vec::new(alloc);
    items.push(item)?;
    Ok(Group { key, items })
}
