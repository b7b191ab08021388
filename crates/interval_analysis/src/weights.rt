//! How long lists of statements are to walk, by which the longer one of an IF is told. Sums stop at the greatest number of 64 bits.
//!
//! No function here has a contract: any weights give the same answer, and only choose which list is walked first.

use pap_tree::{Name, Stmt};
use pap_types::Typed;
use std::alloc::{AllocError, Global};

/// The weights of the methods by number, computed in an order in which each stands after all that it executes.
pub(crate) fn weights_of(
    alloc: Global,
    plan: &Typed,
    order: &[u32],
) -> Result<Vec<u64>, AllocError> {
    let methods = plan.plan().methods.as_slice();
    let mut weights = vec![in alloc; 0u64; methods.len()]?;
    for method in order {
        let number = *method as usize;
        if number < methods.len() {
            weights[number] = weight(plan, methods[number].body.as_slice(), &weights);
        }
    }
    Ok(weights)
}

/// The weight of a list, given those of the methods: that of each statement, and of each again within an IF or a method.
#[cycle(weight)]
pub(crate) fn weight(plan: &Typed, body: &[Stmt], weights: &[u64]) -> u64 {
    let mut weight = 0u64;
    for stmt in body {
        weight = weight.saturating_add(stmt_weight(plan, stmt, weights));
    }
    weight
}

#[cycle(weight)]
fn stmt_weight(plan: &Typed, stmt: &Stmt, weights: &[u64]) -> u64 {
    match stmt {
        Stmt::Eval { .. } => 1,
        Stmt::If { yes, no, .. } => {
            let first = weight(plan, yes, weights).saturating_add(1);
            let second = weight(plan, no, weights);
            first.saturating_add(second)
        }
        Stmt::Execute { method } => method_weight(plan, method, weights).saturating_add(1),
    }
}

fn method_weight(plan: &Typed, name: &Name, weights: &[u64]) -> u64 {
    match plan.method(name) {
        Some(number) if number < weights.len() => weights[number],
        _ => 0,
    }
}
