//! The first method that reaches itself.
ghost use Rattle.std.specs.Prelude.{◌≡◌, ℕ, ◌<◌, IfOk, length, true, false};
ghost use Rattle.call_order.specs.private.LevelViews.{AllKnown};
ghost use Rattle.call_order.specs.private.MarkViews.{AreMarked, TellsCycle, IsFirstInCycle, is_marked};

use crate::contents::Contents;
use std::alloc::{AllocError, Global};

/// Marks a method, and each that it reaches by methods that aren't marked.
fn mark(graph: &[Contents], method: u32, seen: &mut [bool])
    requires known { AllKnown graph.now }
    requires all { length seen.old ≡ length graph.now }
    requires method { method < length graph.now }
    ensures marked { is_marked seen.new method ≡ true }
    ensures marks { AreMarked graph.now method seen.old seen.new }
{
    let i = method as usize;
    if seen[i] {
        return;
    }
    seen[i] = true;
    for next in graph[i].methods() {
        mark(graph, *next, seen);
    }
}

/// Whether a method reaches itself, where none is marked yet.
fn marks_itself(graph: &[Contents], method: usize, seen: &mut [bool]) -> bool
    requires known { AllKnown graph.now }
    requires all { length seen.old ≡ length graph.now }
    requires method { method < length graph.now }
    requires unmarked { (k : ℕ) → is_marked seen.old k ≡ false }
    ensures { TellsCycle graph.now method result }
{
    for next in graph[method].methods() {
        mark(graph, *next, seen);
    }
    seen[method]
}

/// Whether a method reaches itself.
fn reaches_itself(alloc: Global, graph: &[Contents], method: usize) -> Result<bool, AllocError>
    requires known { AllKnown graph.now }
    requires method { method < length graph.now }
    ensures { IfOk result (TellsCycle graph.now method) }
{
    let mut seen = vec![in alloc; false; graph.len()]?;
    Ok(marks_itself(graph, method, &mut seen))
}

/// The first method that reaches itself.
pub(crate) fn first_in_cycle(alloc: Global, graph: &[Contents]) -> Result<Option<usize>, AllocError>
    requires { AllKnown graph.now }
    ensures { IfOk result (IsFirstInCycle graph.now) }
{
    for i in 0..graph.len() {
        if reaches_itself(alloc, graph, i)? {
            return Ok(Some(i));
        }
    }
    Ok(None)
}
