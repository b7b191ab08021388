//! The search: parts of the ranges are walked, tried and split.
ghost use Rattle.std.specs.Prelude.{◌++◌, ◌∷◌, [], ◌<◌, IfOk, IfSome, MatchOption, All};
ghost use Rattle.pap_tree.specs.Flowchart.{flowchart_of};
ghost use Rattle.limits_file.specs.Limits.{HasSoundBounds};
ghost use Rattle.call_order.specs.Orders.{IsOrdered};
ghost use Rattle.interval_walk.specs.Admission.{HaveLimits};
ghost use Rattle.range_parts.specs.Parts.{AreRangeParts};
ghost use Rattle.failing_input.specs.Limits.{most_walks};
ghost use Rattle.failing_input.specs.Searches.{IsSearchAnswer, PassesWalk};
ghost use Rattle.failing_input.specs.private.SampleViews.{IsSoundRange};
ghost use Rattle.failing_input.specs.private.PartViews.{IsWalked, IsEnd, IsStep, IsOutcome, BeginsWith, IsSearched};

use crate::failure::Failure;
use crate::samples::{FailingSample, InputRange, failing_sample, ranges_of};
use interval_analysis::{RangeFault, Verdict, analyse};
use limits_file::{InputLimit, Limits};
use pap_types::Typed;
use range_parts::{Parts, copied, split};
use scaled_decimal::Dec;
use std::alloc::{AllocError, Global};

/// How many walks a search takes at most, and how many parts it has at most.
const MOST_WALKS: u32 = 2000;

/// How many samples of a part are tried.
const SAMPLES: u64 = 64;

/// What a search answers.
#[derive(Drop)]
pub enum Search {
    /// Admitted inputs in declared order, and what goes wrong in the run on them.
    Fails { inputs: Vec<Dec>, failure: Failure },
    /// The parts into which the ranges were split. They hold all admitted inputs, and the walk passes each of them.
    Safe(Vec<Limits>),
    /// Neither was found in so many parts.
    NotFound(u32),
}

/// What comes of a part.
#[derive(Drop)]
enum Step {
    /// The walk passes it.
    Passes,
    /// A run fails on inputs that it admits.
    Fails(FailingSample),
    /// It is split.
    Splits(Parts),
    /// None of these.
    Stays,
}

/// What a search still may do, and which input it splits first.
#[derive(Drop)]
struct Effort {
    walks: u32,
    input: usize,
    turn: usize,
}

/// What a search knows: the parts that the walk passes, and those that are left.
#[derive(Drop)]
struct Known {
    done: Vec<Limits>,
    left: Vec<Limits>,
    effort: Effort,
}

/// Looks for admitted inputs on which a run of the plan fails, and for parts of the ranges that the walk passes and that hold
/// all admitted inputs. `order` has the methods after those that they execute. It takes at most 2,000 walks, each from the
/// resolved tree. A part that the walk refuses is tried by runs on some of its inputs, and then split.
pub fn failing_input(
    alloc: Global,
    t: &Typed,
    order: &[u32],
    limits: &Limits,
) -> Result<Search, AllocError>
    requires ordered { IsOrdered (flowchart_of t.now) order.now }
    requires limits { HaveLimits (flowchart_of t.now) limits.now }
    requires sound { All HasSoundBounds limits.now.inputs }
    ensures { IfOk result (IsSearchAnswer (flowchart_of t.now) limits.now) }
{
    let passed = is_passed(alloc, t, order, limits)?;
    if passed {
        safe_whole(alloc, t, limits)
    } else {
        search_parts(alloc, t, order, limits)
    }
}

/// The answer for ranges that the walk passes whole.
fn safe_whole(alloc: Global, t: &Typed, limits: &Limits) -> Result<Search, AllocError>
    requires limits { HaveLimits (flowchart_of t.now) limits.now }
    requires passed { PassesWalk (flowchart_of t.now) limits.now }
    ensures { IfOk result (IsSearchAnswer (flowchart_of t.now) limits.now) }
{
    // For the proof: the plan is well typed and within its counts.
    let _typed = t.plan();
    let mut parts = Vec::new(alloc);
    let part = copied(alloc, limits)?;
    parts.push(part)?;
    Ok(Search::Safe(parts))
}

/// The search in parts of the ranges.
fn search_parts(
    alloc: Global,
    t: &Typed,
    order: &[u32],
    limits: &Limits,
) -> Result<Search, AllocError>
    requires ordered { IsOrdered (flowchart_of t.now) order.now }
    requires limits { HaveLimits (flowchart_of t.now) limits.now }
    requires sound { All HasSoundBounds limits.now.inputs }
    ensures { IfOk result (IsOutcome (flowchart_of t.now) limits.now) }
{
    // For the proof: the plan is well typed and within its counts.
    let _typed = t.plan();
    let mut known = begin(alloc, limits)?;
    for turn in 0..MOST_WALKS {
        let Some(part) = known.left.pop() else {
            return Ok(Search::Safe(known.done));
        };
        if let Some(found) = advance(alloc, t, order, limits, &mut known, part, turn)? {
            return Ok(found);
        }
    }
    Ok(Search::NotFound(MOST_WALKS))
}

/// What a search begins with: the whole ranges are left.
fn begin(alloc: Global, limits: &Limits) -> Result<Known, AllocError>
    ensures { IfOk result (BeginsWith limits.now) }
{
    let mut left = Vec::new(alloc);
    let part = copied(alloc, limits)?;
    left.push(part)?;
    Ok(Known {
        done: Vec::new(alloc),
        left,
        effort: Effort {
            walks: MOST_WALKS - 1,
            input: 0,
            turn: 0,
        },
    })
}

/// Puts a part where it belongs, or answers.
fn advance(
    alloc: Global,
    t: &Typed,
    order: &[u32],
    limits: &Limits,
    known: &mut Known,
    part: Limits,
    turn: u32,
) -> Result<Option<Search>, AllocError>
    requires ordered { IsOrdered (flowchart_of t.now) order.now }
    requires known { IsSearched (flowchart_of t.now) limits.now
        known.old.done.items (known.old.left.items ++ part ∷ []) }
    requires turn { turn < most_walks }
    ensures { IfOk result (λ found. MatchOption found
        (IsSearched (flowchart_of t.now) limits.now known.new.done.items known.new.left.items)
        (IsOutcome (flowchart_of t.now) limits.now)) }
{
    match next_step(alloc, t, order, &part, &mut known.effort)? {
        Step::Passes => {
            known.done.push(part)?;
            Ok(None)
        }
        Step::Fails(FailingSample { inputs, failure }) => {
            Ok(Some(Search::Fails { inputs, failure }))
        }
        Step::Splits(Parts { first, second }) => {
            known.left.push(first)?;
            known.left.push(second)?;
            Ok(None)
        }
        Step::Stays => Ok(Some(Search::NotFound(turn + 1))),
    }
}

/// What comes of a part.
fn next_step(
    alloc: Global,
    t: &Typed,
    order: &[u32],
    part: &Limits,
    effort: &mut Effort,
) -> Result<Step, AllocError>
    requires ordered { IsOrdered (flowchart_of t.now) order.now }
    requires limits { HaveLimits (flowchart_of t.now) part.now }
    requires sound { All HasSoundBounds part.now.inputs }
    ensures { IfOk result (IsStep (flowchart_of t.now) part.now) }
{
    let Some(walks) = effort.walks.checked_sub(1) else {
        return Ok(Step::Stays);
    };
    effort.walks = walks;
    let passed = is_passed(alloc, t, order, part)?;
    if passed {
        return Ok(Step::Passes);
    }
    let ranges = ranges_of(alloc, t, part)?;
    if let Some(found) = failing_sample(alloc, t, part, &ranges, SAMPLES)? {
        return Ok(Step::Fails(found));
    }
    match best_split(alloc, t, order, part, &ranges, effort)? {
        Some(parts) => Ok(Step::Splits(parts)),
        None => Ok(Step::Stays),
    }
}

/// A split of the range of an input: the first of which the walk passes a half, from the input on that was split last; or else
/// that of an input whose turn it is. None where no range can be split, or no walks are left.
fn best_split(
    alloc: Global,
    t: &Typed,
    order: &[u32],
    part: &Limits,
    ranges: &[InputRange],
    effort: &mut Effort,
) -> Result<Option<Parts>, AllocError>
    requires ordered { IsOrdered (flowchart_of t.now) order.now }
    requires sound { All HasSoundBounds part.now.inputs }
    requires ranges { All IsSoundRange ranges.now }
    ensures { IfOk result (λ parts. IfSome parts (AreRangeParts (flowchart_of t.now) part.now)) }
{
    let first = effort.input;
    let mut other = None;
    for i in 0..ranges.len() {
        let number = first.wrapping_add(i) % ranges.len();
        let range = &ranges[number].limit;
        let Some(parts) = split(alloc, t, part, range, split_point(range))? else {
            continue;
        };
        if helps(alloc, t, order, &parts, effort)? {
            effort.input = number;
            return Ok(Some(parts));
        }
        if other.is_none() || i <= effort.turn % ranges.len() {
            other = Some(parts);
        }
    }
    effort.turn = effort.turn.wrapping_add(1);
    Ok(other)
}

/// Whether the walk passes one of two parts, while walks are left.
fn helps(
    alloc: Global,
    t: &Typed,
    order: &[u32],
    parts: &Parts,
    effort: &mut Effort,
) -> Result<bool, AllocError>
    requires ordered { IsOrdered (flowchart_of t.now) order.now }
    requires first { HaveLimits (flowchart_of t.now) parts.now.first }
    requires second { HaveLimits (flowchart_of t.now) parts.now.second }
{
    if effort.walks < 2 {
        return Ok(false);
    }
    effort.walks -= 2;
    Ok(is_passed(alloc, t, order, &parts.first)? || is_passed(alloc, t, order, &parts.second)?)
}

/// Whether the walk passes from these limits.
fn is_passed(alloc: Global, t: &Typed, order: &[u32], limits: &Limits) -> Result<bool, AllocError>
    requires ordered { IsOrdered (flowchart_of t.now) order.now }
    requires limits { HaveLimits (flowchart_of t.now) limits.now }
    ensures { IfOk result (IsWalked (flowchart_of t.now) limits.now) }
{
    has_passed(analyse(alloc, t, order, limits))
}

/// Whether a walk passed.
fn has_passed(answer: Result<Verdict, RangeFault>) -> Result<bool, AllocError>
    ensures { IfOk result (IsEnd answer) }
{
    match answer {
        Ok(_verdict) => Ok(true),
        Err(RangeFault::Memory(error)) => Err(error),
        Err(RangeFault::At { .. }) => Ok(false),
        Err(RangeFault::Output { .. }) => Ok(false),
    }
}

/// Behind which numerator a range is split: behind the last number below zero, behind zero, or in the middle, which is that of the
/// numbers of digits where the high end is many times the low end.
fn split_point(limit: &InputLimit) -> i128
    requires { HasSoundBounds limit.now }
{
    let low = limit.low.numerator_at(limit.places);
    let high = limit.high.numerator_at(limit.places);
    if low < 0 && 0 <= high {
        return -1;
    }
    if low == 0 {
        return 0;
    }
    if 0 < low {
        let ratio = high / low;
        if 16 < ratio {
            return low.saturating_mul(ratio.isqrt());
        }
    }
    low.wrapping_add(high) / 2
}
