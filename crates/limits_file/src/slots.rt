//! What a plan expects of each of its inputs.

use crate::{Carry, InputLimit, Items};
use pap_tree::{Kind, Name};
use scaled_decimal::Dec;

/// An input of an accepted plan.
#[derive(Clone, Copy)]
pub struct Slot {
    /// Its name in the plan.
    pub name: Name,
    /// The type that the plan declares it with.
    pub kind: Kind,
    /// Its range.
    pub limit: InputLimit,
    /// The value of an input that isn't given, where the plan declares one.
    pub value: Option<Dec>,
    /// What it carries over from earlier runs, where the range file binds it.
    pub carry: Option<Carry>,
}

/// The inputs of an accepted plan, in declared order.
#[derive(Drop)]
pub struct Spec {
    /// The inputs, at most 256.
    pub slots: Items<Slot>,
}
