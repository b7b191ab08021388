//! The touched years, computed anew beside the book.
ghost use Rattle.std.specs.Prelude.{◌≡◌, ◌≤◌, List, length, IfOk};
ghost use Rattle.std.specs.List.{AllByRecursion};
ghost use Rattle.rising_lists.specs.Keyed.{IsRising};
ghost use Rattle.plan_calendar.specs.Picking.{Entry, pick};
ghost use Rattle.book_year.specs.Accepted.{Accepted, plans_in};
ghost use Rattle.book_year.specs.Jobs.{Counts};
ghost use Rattle.book_year.specs.Kept.{IsOld};
ghost use Rattle.book_year.specs.Years.{IsYear};
ghost use Rattle.payroll_records.specs.Limits.{most_records};
ghost use Rattle.book_edits.specs.Books.{runs_of, year_cmp};
ghost use Rattle.book_edits.specs.Kept.{kept_key, runs_in};
ghost use Rattle.book_edits.specs.private.Groups.{IsGroup};
ghost use Rattle.book_edits.specs.private.Drafts.{AreDrafted, IsComputedGroup, group_cost, groups_cost};

use crate::groups::Group;
use crate::places::place_year;
use crate::records::{references_with, runs_before_all};
use book_year::{Old, Outcome, Picks, Work, Year, YearKey, recalculate};
use pap_plan::Plan;
use payroll_records::Record;
use plan_calendar::Calendar;
use std::alloc::{AllocError, Global};
use std::sync::ledger::Ledger;
use steps::Steps;

/// A touched year computed with its new runs.
#[derive(Drop)]
pub(crate) struct Draft {
    pub(crate) key: YearKey,
    /// The new runs.
    pub(crate) items: Vec<Record>,
    /// Empty, with room for all runs of the year.
    pub(crate) room: Vec<Record>,
    /// What each run of the year comes to.
    pub(crate) outcomes: Vec<Outcome>,
}

/// What a group's year comes to with its new runs, room for all its runs, and the work that it took.
#[derive(Drop)]
pub(crate) struct Computed {
    pub(crate) room: Vec<Record>,
    pub(crate) outcomes: Vec<Outcome>,
    pub(crate) work: Work,
}

/// The drafts of all groups, and the work that they took.
#[derive(Drop)]
pub(crate) struct Drafted {
    pub(crate) drafts: Vec<Draft>,
    pub(crate) work: Work,
}

/// Computes each group's year with its new runs, once, and runs those whose job isn't the old one of their day. The counter
/// rises by exactly their steps; where memory runs out it may have risen by some of them.
pub(crate) fn draft_all<L: Ledger>(
    alloc: Global,
    plans: &Calendar<Plan>,
    list: &[Year],
    groups: Vec<Group>,
    steps: &mut Steps<L>,
) -> Result<Drafted, AllocError>
    requires rising { IsRising year_cmp kept_key list.now }
    requires years { AllByRecursion (IsYear (plans_in plans.now)) list.now }
    requires groups { AllByRecursion IsGroup groups.items }
    requires few { length groups.items ≤ most_records }
    ensures done { IfOk result (AreDrafted (plans_in plans.now) (runs_in list.now) groups.items) }
    ensures counted { Counts result steps.old steps.new
        (groups_cost (plans_in plans.now) (runs_in list.now) groups.items) }
{
    let mut drafts = Vec::new(alloc);
    let mut runs = 0;
    let mut taken = 0;
    for group in groups {
        let done = compute(alloc, plans, list, &group, steps)?;
        runs += done.work.runs;
        taken += done.work.steps;
        drafts.push(Draft {
            key: group.key,
            items: group.items,
            room: done.room,
            outcomes: done.outcomes,
        })?;
    }
    Ok(Drafted {
        drafts,
        work: Work { runs, steps: taken },
    })
}

/// A group's year computed with its new runs.
fn compute<'a, L: Ledger>(
    alloc: Global,
    plans: &'a Calendar<Plan>,
    list: &'a [Year],
    group: &'a Group,
    steps: &mut Steps<L>,
) -> Result<Computed, AllocError>
    requires rising { IsRising year_cmp kept_key list.now }
    requires years { AllByRecursion (IsYear (plans_in plans.now)) list.now }
    requires group { IsGroup group.now }
    ensures done { IfOk result (IsComputedGroup (plans_in plans.now) (runs_in list.now) group.now) }
    ensures counted { Counts result steps.old steps.new
        (group_cost (plans_in plans.now) (runs_in list.now) group.now) }
{
    let old = old_of(list, group.key);
    let runs = references_with(alloc, old.records, group.items.as_slice())?;
    let room = Vec::with_capacity(alloc, old.records.len() + group.items.len())?;
    let kept = runs_before_all(old.records, group.items.as_slice());
    let picks = Picks { plans, edit: None };
    let done = recalculate(alloc, &picks, old, kept, runs.as_slice(), steps)?;
    Ok(Computed {
        room,
        outcomes: done.outcomes,
        work: done.work,
    })
}

/// What is kept of a year, which may not be there.
fn old_of(list: &[Year], key: YearKey) -> Old<'_>
    requires { IsRising year_cmp kept_key list.now }
    ensures records { result.records.now ≡ runs_of (runs_in list.now) key }
    ensures kept { (plans : List (Entry Accepted)) → AllByRecursion (IsYear plans) list.now
        → IsOld (pick plans) result }
{
    match place_year(list, &key) {
        Ok(at) => {
            let year = &list[at];
            Old {
                records: year.records.as_slice(),
                outcomes: year.outcomes.as_slice(),
            }
        }
        Err(_) => Old {
            records: &[],
            outcomes: &[],
        },
    }
}
