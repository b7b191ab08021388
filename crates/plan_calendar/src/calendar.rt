//! The calendar of plans.
ghost use Rattle.std.specs.Prelude.{◌≡◌, ◌↔◌, [], length, IfOk, IfErr, OnOk, OnErr, Err, IsNone, IsTrue, option_map};
ghost use Rattle.rising_lists.specs.Places.{Finds, IsAt, IsGap, Misses};
ghost use Rattle.payroll_records.specs.Orders.{day_cmp};
ghost use Rattle.plan_calendar.specs.Limits.{most_plans};
ghost use Rattle.plan_calendar.specs.Picking.{AreEntries, day_of, plan_of, entry_at, with_entry, without_day};
ghost use Rattle.plan_calendar.specs.Picking.{pick, pick_before};
ghost use Rattle.plan_calendar.specs.Edits.{EditsMovePicks, PicksLatest};
ghost use Rattle.plan_calendar.specs.Refusals.{refused_plan};
ghost use Rattle.plan_calendar.specs.private.Views.{last_of_year};
ghost use Rattle.plan_calendar.specs.Picks.{picked_entry};

use payroll_records::Day;
use std::alloc::Global;
use std::marker::Model;
use std::mem;

/// The most plans of a calendar.
pub const MOST_PLANS: usize = 64;

/// Plans by the day from which they hold, at most 64. A plan holds until the next plan's day, and at most to the end of its
/// calendar year. Contracts see a calendar as the list of its entries, whose days rise.
#[derive(Debug, Drop)]
pub struct Calendar<P> {
    entries: Vec<(Day, P)>,
}

impl<P> Model for Calendar<P> {
    ghost use Rattle.std.specs.Prelude.{List};
    ghost use Rattle.payroll_records.specs.declared.day.Day.{Day};
    ghost use Rattle.plan_calendar.specs.Picking.{AreEntries, Entry};

    ghost Value = { List (Entry P) };

    ghost view = { λ c. c.entries.items };

    ghost invariant = { λ c. AreEntries c.entries.items };
}

/// Why a plan was not put. The plan is handed back.
#[derive(Debug, Drop)]
pub enum PutRefusal<P> {
    /// There are 64 plans, and none of that day.
    Full(P),
    /// Memory ran out.
    Memory(P),
}

impl<P> Calendar<P> {
    /// No plans.
    pub fn new(alloc: Global) -> Calendar<P>
        ensures { result ≡ [] }
    {
        Calendar {
            entries: Vec::new(alloc),
        }
    }

    /// How many plans there are.
    pub fn len(&self) -> usize
        ensures { result ≡ length self.now }
    {
        self.entries.len()
    }

    /// Whether there is no plan.
    pub fn is_empty(&self) -> bool
        ensures { IsTrue result ↔ (self.now ≡ []) }
    {
        self.entries.is_empty()
    }

    /// The plans with their days, in order of day.
    pub fn entries(&self) -> &[(Day, P)]
        ensures all { result.now ≡ self.now }
        ensures are { AreEntries self.now }
    {
        self.entries.as_slice()
    }

    /// The entry with the latest day that isn't after the given one, among those of its calendar year. `None` where there is
    /// none.
    pub fn pick(&self, day: Day) -> Option<(Day, &P)>
        ensures { option_map picked_entry result ≡ pick self.now day }
    {
        pick(self.entries.as_slice(), day)
    }

    /// The entry with the latest day before the given one, among those of its calendar year. `None` where there is none.
    pub fn pick_before(&self, day: Day) -> Option<(Day, &P)>
        ensures { option_map picked_entry result ≡ pick_before self.now day }
    {
        pick_before(self.entries.as_slice(), day)
    }

    /// Puts a plan at its day, and gives the plan that stood there back. After a refusal the calendar is as before.
    pub fn put(&mut self, day: Day, plan: P) -> Result<Option<P>, PutRefusal<P>>
        ensures ok { OnOk result (self.new ≡ with_entry (day, plan) self.old) }
        ensures replaced { IfOk result (λ old. old ≡ option_map plan_of (entry_at self.old day)) }
        ensures err { OnErr result (self.new ≡ self.old) }
        ensures refused { IfErr result (λ e. refused_plan e ≡ plan) }
        ensures full { (result ≡ Err (PutRefusal.Full plan))
            ↔ (IsNone (entry_at self.old day) × (length self.old ≡ most_plans)) }
    {
        match place(self.entries.as_slice(), day) {
            Ok(at) => {
                let old = mem::replace(&mut self.entries[at], (day, plan));
                Ok(Some(old.1))
            }
            Err(at) => {
                if self.entries.len() == MOST_PLANS {
                    return Err(PutRefusal::Full(plan));
                }
                match self.entries.insert(at, (day, plan)) {
                    Ok(()) => Ok(None),
                    Err(failed) => Err(PutRefusal::Memory(failed.value.1)),
                }
            }
        }
    }

    /// Takes the plan of a day out, and gives it. `None` where no plan has that day.
    pub fn drop_day(&mut self, day: Day) -> Option<P>
        ensures after { self.new ≡ without_day day self.old }
        ensures found { result ≡ option_map plan_of (entry_at self.old day) }
    {
        match place(self.entries.as_slice(), day) {
            Ok(at) => {
                let old = self.entries.remove(at);
                Some(old.1)
            }
            Err(_) => None,
        }
    }
}

/// Where the entry of a day stands, or would go.
fn place<P>(entries: &[(Day, P)], day: Day) -> Result<usize, usize>
    requires { AreEntries entries.now }
    ensures at { IfOk result (IsAt day_cmp day_of entries.now day) }
    ensures found { IfOk result (Finds day_cmp day_of entries.now day) }
    ensures gap { IfErr result (IsGap day_cmp day_of entries.now day) }
    ensures absent { IfErr result (Misses day_cmp day_of entries.now day) }
{
    entries.binary_search_by_key(&day, |e| e.0)
}

/// The entry that serves a day: the last one up to it, if that is of the day's year.
fn pick<P>(entries: &[(Day, P)], day: Day) -> Option<(Day, &P)>
    requires { AreEntries entries.now }
    ensures { option_map picked_entry result ≡ pick entries.now day }
{
    let end = match place(entries, day) {
        Ok(at) => at + 1,
        Err(at) => at,
    };
    last_of_year(&entries[..end], day.year)
}

/// The entry that would serve a day if none stood at the day itself.
fn pick_before<P>(entries: &[(Day, P)], day: Day) -> Option<(Day, &P)>
    requires { AreEntries entries.now }
    ensures { option_map picked_entry result ≡ pick_before entries.now day }
{
    let end = match place(entries, day) {
        Ok(at) => at,
        Err(at) => at,
    };
    last_of_year(&entries[..end], day.year)
}

/// The last entry, where its day is of this year.
fn last_of_year<P>(entries: &[(Day, P)], year: u16) -> Option<(Day, &P)>
    ensures { option_map picked_entry result ≡ last_of_year entries.now year }
{
    let (from, plan) = entries.last()?;
    if from.year == year {
        Some((*from, plan))
    } else {
        None
    }
}

/// What an edit of a calendar does to the plan of each day.
pub fn edits_move_picks<P>()
    ensures { EditsMovePicks P }
{}

/// What `pick` and `pick_before` give is the entry of the latest day that they may give.
pub fn picks_are_latest<P>()
    ensures { PicksLatest P }
{}
