//! How many calls are open at most.
ghost use Rattle.std.specs.Prelude.{◌≡◌, ◌≤◌, IfOk, max};
ghost use Rattle.pap_tree.specs.Flowchart.{flowchart_of, body_of, stmt_then, done};
ghost use Rattle.pap_types.specs.Limits.{longest_chain};
ghost use Rattle.call_order.specs.Orders.{IsOrdered};
ghost use Rattle.pap_compiler.specs.Depths.{depth_of};
ghost use Rattle.pap_compiler.specs.private.DepthViews.{depth_at, depth_in, AreSmall};

use pap_tree::{Name, Stmt};
use pap_types::Typed;
use std::alloc::{AllocError, Global};

/// The greatest number of open calls of a plan, given an order of its methods.
pub(crate) fn depth(alloc: Global, t: &Typed, order: &[u32]) -> Result<u32, AllocError>
    requires { IsOrdered (flowchart_of t.now) order.now }
    ensures { IfOk result (λ d. d ≡ depth_of (flowchart_of t.now)) }
{
    let methods = &t.plan().methods;
    let mut depths = vec![in alloc; 0u32; methods.len()]?;
    for number in order {
        let number = *number as usize;
        depths[number] = body_depth(t, &depths, &methods[number].body);
    }
    Ok(body_depth(t, &depths, &t.plan().main))
}

/// The greatest number of calls that are open in a list of statements, given that of each method.
#[cycle(depth)]
fn body_depth(t: &Typed, depths: &[u32], body: &[Stmt]) -> u32
    requires { AreSmall depths.now }
    ensures exact { result ≡ depth_in (flowchart_of t.now) depths.now (body_of body.now) }
    ensures small { result ≤ 65 }
{
    let mut depth = 0;
    for s in body {
        depth = stmt_depth(t, depths, s).max(depth);
    }
    depth
}

#[cycle(depth)]
fn stmt_depth(t: &Typed, depths: &[u32], s: &Stmt) -> u32
    requires { AreSmall depths.now }
    ensures exact { result ≡ depth_in (flowchart_of t.now) depths.now (stmt_then s.now done) }
    ensures small { result ≤ 65 }
{
    match s {
        Stmt::Eval { .. } => 0,
        Stmt::If { yes, no, .. } => branches_depth(t, depths, yes, no),
        Stmt::Execute { method } => method_depth(t, depths, method) + 1,
    }
}

#[cycle(depth)]
fn branches_depth(t: &Typed, depths: &[u32], yes: &[Stmt], no: &[Stmt]) -> u32
    requires { AreSmall depths.now }
    ensures exact { result ≡ max (depth_in (flowchart_of t.now) depths.now (body_of yes.now))
        (depth_in (flowchart_of t.now) depths.now (body_of no.now)) }
    ensures small { result ≤ 65 }
{
    body_depth(t, depths, yes).max(body_depth(t, depths, no))
}

/// That of a method; 0 where there is none of that name, which a well-typed plan executes nowhere.
fn method_depth(t: &Typed, depths: &[u32], method: &Name) -> u32
    requires { AreSmall depths.now }
    ensures exact { result ≡ depth_at (flowchart_of t.now) depths.now method.now }
    ensures small { result ≤ longest_chain }
{
    match t.method(method) {
        Some(number) => depths.get(number).copied().unwrap_or(0),
        None => 0,
    }
}
