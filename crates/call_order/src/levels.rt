//! The lengths of the longest chains that methods begin.
ghost use Rattle.std.specs.Prelude.{◌+◌, ◌<◌, All, IfOk, MatchBool, length};
ghost use Rattle.pap_types.specs.Limits.{longest_chain};
ghost use Rattle.call_order.specs.private.LevelViews.{AllKnown, AreLevels, IsPlaced, TellsPlaced};

use crate::contents::Contents;
use pap_types::LONGEST_CHAIN;
use std::alloc::{AllocError, Global};

/// Whether there is a level, of at most `longest`.
fn is_placed(level: Option<u32>, longest: u32) -> bool
    ensures { MatchBool result (IsPlaced longest level) (¬ (IsPlaced longest level)) }
{
    match level {
        Some(level) => level <= longest,
        None => false,
    }
}

/// Whether each method has a level of at most `longest`.
fn are_placed(methods: &[u32], levels: &[Option<u32>], longest: u32) -> bool
    requires { All (λ j. j < length levels.now) methods.now }
    ensures { TellsPlaced longest levels.now methods.now result }
{
    methods
        .iter()
        .all(|method| is_placed(levels[*method as usize], longest))
}

/// Gives the methods whose longest chain has one method more than `longest` their level.
fn raise(graph: &[Contents], longest: u32, levels: &mut [Option<u32>])
    requires known { AllKnown graph.now }
    requires levels { AreLevels graph.now longest levels.old }
    requires few { longest < longest_chain }
    ensures { AreLevels graph.now (longest + 1) levels.new }
{
    for i in 0..graph.len() {
        if levels[i].is_none() && are_placed(graph[i].methods(), levels, longest) {
            levels[i] = Some(longest + 1);
        }
    }
}

/// The level of each method: the number of methods in the longest chain that it begins, or none where that is too long.
pub(crate) fn levels_of(alloc: Global, graph: &[Contents]) -> Result<Vec<Option<u32>>, AllocError>
    requires { AllKnown graph.now }
    ensures { IfOk result (λ levels. AreLevels graph.now longest_chain levels.items) }
{
    let mut levels = vec![in alloc; None; graph.len()]?;
    for longest in 0..LONGEST_CHAIN {
        raise(graph, longest, &mut levels);
    }
    Ok(levels)
}
