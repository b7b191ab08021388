//! Why the walk of a plan stops.
ghost use Rattle.std.specs.Prelude.{◌≡◌, IfOk, Err};
ghost use Rattle.interval_walk.specs.Failures.{output_fails};
ghost use Rattle.interval_analysis.specs.declared.stop.WalkStop.TheVariants.{Refused};
ghost use Rattle.interval_analysis.specs.private.StopViews.{FaultOf, RefusesAt, range_fault, range_operands, refused_node};

use crate::expressions::Stop;
use crate::statements::Spot;
use crate::value_range::ValueRange;
use crate::{RangeFault, RefusedRanges};
use interval_num::{Abs, RangeCause};
use pap_tree::{Name, Place};
use std::alloc::{AllocError, Global};

/// Why the walk of a plan stops. What is told of it is in a box, since each level of the walk has room for its stop.
#[derive(Drop)]
pub(crate) enum WalkStop {
    /// A node may fail, or an output may be beyond its bound.
    Refused(Box<RefusedRanges>),
    /// Memory ran out.
    Memory,
}

impl WalkStop {
    /// That the node of an expression's stop may fail, whose statement stands there; or memory ran out for what is told of it.
    #[inline(never)]
    pub fn at_node(alloc: Global, stop: Stop, spot: Spot) -> WalkStop
        ensures { RefusesAt stop spot result }
    {
        match refusal_at(alloc, stop, spot) {
            Ok(refusal) => WalkStop::Refused(refusal),
            Err(_) => WalkStop::Memory,
        }
    }

    /// That an output may be beyond its bound; or memory ran out for what is told of it.
    pub fn of_output(alloc: Global, name: Name, range: Abs) -> WalkStop
        ensures { FaultOf (Err (output_fails name range)) result }
    {
        match output_refusal(alloc, name, range) {
            Ok(refusal) => WalkStop::Refused(refusal),
            Err(_) => WalkStop::Memory,
        }
    }

    /// The stop as callers see it.
    pub fn refused(self, alloc: Global) -> RefusedRanges
        ensures fault { result.fault ≡ range_fault self }
        ensures operands { result.operands.items ≡ range_operands self }
    {
        match self {
            WalkStop::Refused(refusal) => Box::into_inner(refusal),
            WalkStop::Memory => RefusedRanges::without_memory(alloc),
        }
    }
}

impl From<AllocError> for WalkStop {
    ghost use Rattle.interval_analysis.specs.declared.stop.WalkStop.TheVariants.{Memory};

    ghost from_gives = { λ _ stop. stop ≡ Memory };

    fn from(_error: AllocError) -> WalkStop {
        WalkStop::Memory
    }
}

/// The refusal of a node, with the ranges of its operands. Want of memory has none.
fn refusal_at(alloc: Global, stop: Stop, spot: Spot) -> Result<Box<RefusedRanges>, AllocError>
    ensures { IfOk result (λ refusal. RefusesAt stop spot (Refused refusal)) }
{
    let refusal = match stop {
        Stop::At { node, cause } => refused_node(spot, node, cause, Vec::new(alloc)),
        Stop::AtOne {
            node,
            cause,
            operand,
        } => {
            let operands = vec![in alloc; ValueRange::of(operand)]?;
            refused_node(spot, node, cause, operands)
        }
        Stop::AtTwo {
            node,
            cause,
            first,
            second,
        } => {
            let operands = vec![in alloc; ValueRange::of(first), ValueRange::of(second)]?;
            refused_node(spot, node, cause, operands)
        }
        Stop::Memory => return Err(AllocError),
    };
    Ok(Box::new(alloc, refusal)?)
}

/// The refusal of an output, with its range.
fn output_refusal(alloc: Global, name: Name, range: Abs) -> Result<Box<RefusedRanges>, AllocError>
    ensures { IfOk result (λ refusal. FaultOf (Err (output_fails name range)) (Refused refusal)) }
{
    let refusal = RefusedRanges {
        fault: RangeFault::Output { name },
        operands: vec![in alloc; ValueRange::of(range)]?,
    };
    Ok(Box::new(alloc, refusal)?)
}

/// The refusal of a node of a statement's expression.
fn refused_node(
    spot: Spot,
    node: u32,
    cause: RangeCause,
    operands: Vec<ValueRange>,
) -> RefusedRanges
    ensures { result ≡ refused_node spot node cause operands }
{
    let Spot { method, at, .. } = spot;
    let place = Place {
        method,
        stmt: at,
        node,
    };
    RefusedRanges {
        fault: RangeFault::At { place, cause },
        operands,
    }
}
