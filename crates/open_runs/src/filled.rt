//! Inputs that the range file fills from earlier runs.
ghost use Rattle.std.specs.Prelude.{◌≡◌, false};
ghost use Rattle.std.specs.Option.{option_map, option_map_or};
ghost use Rattle.plan_calendar.specs.Picking.{plan_of};
ghost use Rattle.plan_calendar.specs.Picks.{picked_entry};
ghost use Rattle.book_year.specs.Accepted.{accepted, accepted_entry};
ghost use Rattle.open_runs.specs.OpenRuns.{fills, is_filled};
ghost use Rattle.open_runs.specs.private.Slots.{carries};

use limits_file::Slot;
use pap_plan::Plan;
use pap_tree::Name;
use payroll_records::Day;
use recalc_engine::Book;

/// Whether the flowchart that holds on a day has an input of this name, and its range file fills it.
pub(crate) fn is_filled(book: &Book, day: Day, name: &Name) -> bool
    ensures { result ≡ is_filled book.now day name.now }
{
    is_filled_in(book.plans().pick(day), name)
}

/// The same of the flowchart that is picked, if there is one.
fn is_filled_in(picked: Option<(Day, &Plan)>, name: &Name) -> bool
    ensures { result ≡ option_map_or (λ e. fills (plan_of e) name.now)
        (option_map accepted_entry (option_map picked_entry picked.entry)) false }
{
    match picked {
        Some((_, plan)) => fills(plan, name),
        None => false,
    }
}

/// Whether a flowchart has an input of this name, and its range file fills it.
fn fills(plan: &Plan, name: &Name) -> bool
    ensures { result ≡ fills (accepted plan.now) name.now }
{
    carries(plan.spec().slots.as_slice(), name)
}

/// Whether an input of this name carries over.
fn carries(slots: &[Slot], name: &Name) -> bool
    ensures { result ≡ carries slots.now name.now }
{
    slots
        .iter()
        .any(|slot| slot.name == *name && slot.carry.is_some())
}
