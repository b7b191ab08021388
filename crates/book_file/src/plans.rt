//! The plans of a saved book.
ghost use Rattle.std.specs.Prelude.{IfOk, IfErr, map};
ghost use Rattle.saved_items.specs.SavedBooks.{ArePlans};
ghost use Rattle.saved_items.specs.ItemFaults.{plan_in};
ghost use Rattle.book_year.specs.Accepted.{plans_in};
ghost use Rattle.book_file.specs.private.Views.{AreEntriesOf, HasNoPlan, IsNoPlan, IsPlanOf};

use crate::BookFault;
use pap_plan::{Plan, PlanRefusal, accept};
use plan_calendar::Calendar;
use saved_items::PlanItem;
use std::alloc::{AllocError, Global};

/// The calendar of these plans, or the day of the first that isn't accepted.
pub(crate) fn accept_plans(
    alloc: Global,
    items: &[PlanItem<'_>],
) -> Result<Calendar<Plan>, BookFault>
    requires { ArePlans (map plan_in items.now) }
    ensures ok { IfOk result (λ plans. AreEntriesOf (map plan_in items.now) (plans_in plans)) }
    ensures refused { IfErr result (HasNoPlan (map plan_in items.now)) }
{
    let mut plans = Calendar::new(alloc);
    for item in items {
        let plan = accept_plan(alloc, item)?;
        if plans.put(item.day, plan).is_err() {
            return Err(BookFault::Memory(AllocError));
        }
    }
    Ok(plans)
}

/// The plan of two texts, or its day, where they aren't accepted.
fn accept_plan(alloc: Global, item: &PlanItem<'_>) -> Result<Plan, BookFault>
    ensures ok { IfOk result (IsPlanOf (plan_in item.now)) }
    ensures refused { IfErr result (IsNoPlan (plan_in item.now)) }
{
    match accept(alloc, item.plan, item.limits) {
        Ok(plan) => Ok(plan),
        Err(PlanRefusal::Memory) => Err(BookFault::Memory(AllocError)),
        Err(_) => Err(BookFault::Plan { day: item.day }),
    }
}
