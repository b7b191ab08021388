//! The plan of each day in the calendar that will be, without a change of the one that is.
ghost use Rattle.std.specs.Prelude.{◌≡◌, Some, None, IfSome, ◌&&◌};
ghost use Rattle.std.specs.Option.{option_map};
ghost use Rattle.std.specs.Bool.{OnFalse, OnTrue};
ghost use Rattle.payroll_records.specs.declared.day.Day.{Day as Date};
ghost use Rattle.plan_calendar.specs.Picking.{day_of, pick, serves};
ghost use Rattle.plan_calendar.specs.Edits.{is_by, picked_after};
ghost use Rattle.book_year.specs.Accepted.{plans_in};
ghost use Rattle.book_year.specs.Picks.{planned_before, planned_after, is_edited, KnowsSame, ArePicks};
ghost use Rattle.book_year.specs.Picks.{lent_entry, picked_plan};

use pap_plan::Plan;
use payroll_records::Day;
use plan_calendar::Calendar;

/// A plan that is about to be put at a day, or taken away from it.
#[derive(Clone, Copy)]
pub struct Edit<'a> {
    /// The day at which a plan is put, or from which it is taken away.
    pub day: Day,
    /// What the days that the edit decides get: the plan with the day from which it holds, or none.
    pub entry: Option<(Day, &'a Plan)>,
    /// Whether that plan has the texts of the one that these days had.
    pub same: bool,
}

/// A calendar, and an edit of it that is about to be made.
#[derive(Clone, Copy)]
pub struct Picks<'a> {
    /// The calendar as it stands.
    pub plans: &'a Calendar<Plan>,
    /// The edit, where there is one.
    pub edit: Option<Edit<'a>>,
}

/// The plan of a day.
#[derive(Clone, Copy)]
pub struct Picked<'a> {
    /// The day from which it holds.
    pub day: Day,
    /// The plan itself.
    pub plan: &'a Plan,
    /// Whether it has the texts of the plan that the day had before the edit.
    pub same: bool,
}

impl<'a> Picks<'a> {
    /// The calendar once an edit at a day has left this plan, or none, to the days that it decides. Texts are compared here,
    /// once. A plan with the texts of the one that stood at its day changes nothing, so it is no edit.
    pub fn edited(plans: &'a Calendar<Plan>, day: Day, entry: Option<(Day, &'a Plan)>) -> Picks<'a>
        ensures are { ArePicks result }
        ensures before { (d : Date) → planned_before result d ≡ pick (plans_in plans.now) d }
        ensures after { (d : Date) → planned_after result d
            ≡ picked_after (plans_in plans.now) day (option_map lent_entry entry.entry) d }
    {
        let was = picked_now(plans, day);
        let same = keeps_texts(was, entry);
        if same && keeps_day(was, entry) {
            return Picks { plans, edit: None };
        }
        Picks {
            plans,
            edit: Some(Edit { day, entry, same }),
        }
    }

    /// The plan of a day after the edit.
    pub fn pick(&self, day: Day) -> Option<Picked<'a>>
        requires { ArePicks self.now }
        ensures after { option_map picked_plan result ≡ planned_after self.now day }
        ensures same { IfSome result
            (λ p. KnowsSame (planned_before self.now day) (planned_after self.now day) p.same) }
    {
        let now = picked_now(self.plans, day);
        if let Some(edit) = self.edit
            && moves(edit.day, day, now)
        {
            return match edit.entry {
                None => None,
                Some((from, plan)) => Some(Picked {
                    day: from,
                    plan,
                    same: edit.same,
                }),
            };
        }
        match now {
            None => None,
            Some((from, plan)) => Some(Picked {
                day: from,
                plan,
                same: true,
            }),
        }
    }

    /// Whether the edit may change the plans of a year's days: whether it is at a day of that year.
    pub fn may_move(&self, year: u16) -> bool
        ensures exact { result ≡ is_edited self.now year }
        ensures stays { OnFalse result
            ((d : Date) → d.year ≡ year → planned_after self.now d ≡ planned_before self.now d) }
    {
        match self.edit {
            None => false,
            Some(edit) => edit.day.year == year,
        }
    }
}

/// The plan of a day before the edit, with the day from which it holds.
fn picked_now(plans: &Calendar<Plan>, day: Day) -> Option<(Day, &Plan)>
    ensures { option_map lent_entry result ≡ pick (plans_in plans.now) day }
{
    plans.pick(day)
}

/// Whether an edit at a day decides the plan of another day, whose plan is now this one.
fn moves(edit: Day, day: Day, now: Option<(Day, &Plan)>) -> bool
    ensures { result ≡ (serves edit day && is_by (option_map lent_entry now.entry) edit) }
{
    if edit.year != day.year || day < edit {
        return false;
    }
    match now {
        None => true,
        Some((from, _)) => from <= edit,
    }
}

/// Whether both plans are there, with the same texts.
fn keeps_texts(was: Option<(Day, &Plan)>, now: Option<(Day, &Plan)>) -> bool
    ensures { KnowsSame (option_map lent_entry was.entry)
        (option_map lent_entry now.entry) result }
{
    let (Some((_, was)), Some((_, now))) = (was, now) else {
        return false;
    };
    was.same_texts(now)
}

/// Whether both plans are there, and hold from the same day.
fn keeps_day(was: Option<(Day, &Plan)>, now: Option<(Day, &Plan)>) -> bool
    ensures { OnTrue result (option_map day_of (option_map lent_entry was.entry)
        ≡ option_map day_of (option_map lent_entry now.entry)) }
{
    let (Some((was, _)), Some((now, _))) = (was, now) else {
        return false;
    };
    was == now
}
