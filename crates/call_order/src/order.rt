//! The order of a plan's methods.
ghost use Rattle.std.specs.Prelude.{◌≡◌, ℕ, ◌+◌, ◌<◌, ◌≤◌, ◌^◌, Err, IfOk, OnOk, MatchOption, None, length, min};
ghost use Rattle.pap_tree.specs.Flowchart.{flowchart_of};
ghost use Rattle.pap_tree.specs.Limits.{most_methods};
ghost use Rattle.call_order.specs.Graphs.{graph_of};
ghost use Rattle.call_order.specs.Expanded.{expanded_in};
ghost use Rattle.call_order.specs.Faults.{IsFirstBelow, last_count};
ghost use Rattle.call_order.specs.OrderClauses.{OrderAnswer};
ghost use Rattle.call_order.specs.private.LevelViews.{level_at, HaveLevels, AreAllPlaced, IsPartly, IsByLevel};
ghost use Rattle.call_order.specs.private.OrderViews.{IsSorted, ChainsAnswer, IsLongFault};

use crate::OrderFault;
use crate::contents::{Contents, content_of, graph_of};
use crate::cycles::first_in_cycle;
use crate::lengths::{length_with, lengths_of};
use crate::levels::levels_of;
use pap_types::{LONGEST_CHAIN, Typed};
use std::alloc::{AllocError, Global};

/// The greatest number of expanded statements of MAIN.
const MOST_EXPANDED: u64 = 200_000;

/// The numbers of a plan's methods other than MAIN, from 0 in declared order: each once, after every method that it
/// executes.
///
/// Refused, in this order: `Cycle` with the first declared method that executes itself, directly or through others, whether
/// or not MAIN executes it; `Chain` with the first declared method that begins a chain of more than 64; `TooLong` where MAIN
/// has more than 200,000 expanded statements, with their number, which stops at 2^63. An EVAL is one expanded statement, an
/// IF is one with those of both its branches, an EXECUTE is one with those of the method's body.
pub fn order_methods(alloc: Global, t: &Typed) -> Result<Vec<u32>, OrderFault>
    ensures { OrderAnswer (flowchart_of t.now) result }
{
    let graph = graph_of(alloc, t)?;
    let order = by_chains(alloc, t, &graph)?;
    let count = count_of(alloc, t, &graph, &order)?;
    if count > MOST_EXPANDED {
        return Err(OrderFault::TooLong { count });
    }
    Ok(order)
}

/// The methods, those that begin the shorter chains first.
fn by_chains(alloc: Global, t: &Typed, graph: &[Contents]) -> Result<Vec<u32>, OrderFault>
    requires graph { graph.now ≡ graph_of (flowchart_of t.now).methods }
    requires few { length graph.now ≤ most_methods }
    ensures { ChainsAnswer (flowchart_of t.now) result }
{
    let levels = levels_of(alloc, graph)?;
    if let Some(first) = first_long(&levels) {
        return Err(refusal(alloc, t, graph, first));
    }
    Ok(by_level(alloc, &levels)?)
}

/// The expanded statements of MAIN. The count stops at 2^63.
fn count_of(alloc: Global, t: &Typed, graph: &[Contents], order: &[u32]) -> Result<u64, AllocError>
    requires graph { graph.now ≡ graph_of (flowchart_of t.now).methods }
    requires order { IsSorted (flowchart_of t.now) order.now }
    ensures { IfOk result (λ count. count ≡ min (expanded_in (flowchart_of t.now)) last_count) }
{
    let lengths = lengths_of(alloc, graph, order)?;
    let main = content_of(alloc, t, &t.plan().main)?;
    Ok(length_with(&main, &lengths))
}

/// The first method without a level.
fn first_long(levels: &[Option<u32>]) -> Option<usize>
    ensures { MatchOption result (HaveLevels levels.now)
        (λ i. IsFirstBelow (λ k. level_at levels.now k ≡ None) (length levels.now) i) }
{
    levels.iter().position(|level| level.is_none())
}

/// Why there is no order, where a method begins a chain of more than 64, the first of which is given.
fn refusal(alloc: Global, t: &Typed, graph: &[Contents], first: usize) -> OrderFault
    requires { IsLongFault (flowchart_of t.now) graph.now first }
    ensures { OrderAnswer (flowchart_of t.now) (Err result) }
{
    let methods = &t.plan().methods;
    match first_in_cycle(alloc, graph) {
        Ok(Some(number)) => OrderFault::Cycle {
            method: methods[number].name,
        },
        Ok(None) => OrderFault::Chain {
            method: methods[first].name,
        },
        Err(error) => OrderFault::Memory(error),
    }
}

/// The methods by level.
fn by_level(alloc: Global, levels: &[Option<u32>]) -> Result<Vec<u32>, AllocError>
    requires few { length levels.now < 2 ^ 32 }
    requires placed { AreAllPlaced levels.now }
    ensures { IfOk result (λ order. IsByLevel levels.now order.items) }
{
    let mut order = Vec::new(alloc);
    for level in 1..=LONGEST_CHAIN {
        push_level(&mut order, levels, level)?;
    }
    Ok(order)
}

/// Appends the methods of a level.
fn push_level(order: &mut Vec<u32>, levels: &[Option<u32>], level: u32) -> Result<(), AllocError>
    requires few { length levels.now < 2 ^ 32 }
    requires before { IsPartly levels.now level 0 order.old.items }
    ensures { OnOk result (IsPartly levels.now (level + 1) 0 order.new.items) }
{
    for i in 0..levels.len() {
        if levels[i] == Some(level) {
            order.push(i as u32)?;
        }
    }
    Ok(())
}
