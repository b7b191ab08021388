//! The expanded statements of methods.
ghost use Rattle.std.specs.Prelude.{◌≡◌, ◌+◌, ◌<◌, All, IfOk, length, min, slice_index};
ghost use Rattle.call_order.specs.Faults.{last_count};
ghost use Rattle.call_order.specs.Orders.{IsOrder};
ghost use Rattle.call_order.specs.private.LevelViews.{AllKnown};
ghost use Rattle.call_order.specs.private.LengthViews.{AreLengths, length_with};

use crate::contents::Contents;
use std::alloc::{AllocError, Global};

/// Where a count of expanded statements stops.
const LAST_COUNT: u64 = 1 << 63;

/// The sum of two counts, which stops at 2^63.
fn stopped_sum(a: u64, b: u64) -> u64
    ensures { result ≡ min (a + b) last_count }
{
    a.saturating_add(b).min(LAST_COUNT)
}

/// The expanded statements of a list, given those of each method. The count stops at 2^63.
pub(crate) fn length_with(contents: &Contents, lengths: &[u64]) -> u64
    requires { All (λ j. j < length lengths.now) contents.now.methods }
    ensures { result ≡ min (length_with contents.now (slice_index lengths.now)) last_count }
{
    let mut length = stopped_sum(contents.statements(), 0);
    for method in contents.methods() {
        length = stopped_sum(length, lengths[*method as usize]);
    }
    length
}

/// The expanded statements of each method, in the order of methods.
pub(crate) fn lengths_of(
    alloc: Global,
    graph: &[Contents],
    order: &[u32],
) -> Result<Vec<u64>, AllocError>
    requires known { AllKnown graph.now }
    requires order { IsOrder graph.now order.now }
    ensures { IfOk result (λ lengths. AreLengths graph.now order.now lengths.items) }
{
    let mut lengths = vec![in alloc; 0u64; graph.len()]?;
    for method in order {
        let number = *method as usize;
        lengths[number] = length_with(&graph[number], &lengths);
    }
    Ok(lengths)
}
