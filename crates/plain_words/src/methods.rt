//! Where the order of a plan's methods is refused.
ghost use Rattle.std.specs.Prelude.{IfOk};
ghost use Rattle.plain_words.specs.private.FoundViews.{IsOfPlan};

use crate::circles::write_circle;
use crate::found::Found;
use crate::sites::{Source, method_byte};
use call_order::OrderFault;
use std::alloc::AllocError;

/// Where the order of a plan's methods is refused, or its length; the circle of a method that executes itself is appended.
pub(crate) fn find_order(
    source: Source<'_>,
    fault: &OrderFault,
    quote: &mut String,
) -> Result<Found, AllocError>
    ensures { IfOk result (λ found. IsOfPlan found) }
{
    match fault {
        OrderFault::Cycle { method } => {
            write_circle(quote, source, method)?;
            Ok(Found::in_plan(method_byte(source, method)))
        }
        OrderFault::Chain { method } => Ok(Found::in_plan(method_byte(source, method))),
        OrderFault::TooLong { .. } => Ok(Found::in_plan(None)),
        OrderFault::Memory(_) => Err(AllocError),
    }
}
