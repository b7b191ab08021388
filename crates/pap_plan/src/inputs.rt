//! The inputs of an accepted plan.
ghost use Rattle.std.specs.Prelude.{◌≡◌, IfOk, None};
ghost use Rattle.std.specs.Option.{option_map};
ghost use Rattle.pap_tree.specs.Declarations.{declared_of, declaration_of};
ghost use Rattle.pap_tree.specs.Flowchart.{flowchart_of};
ghost use Rattle.pap_types.specs.Scopes.{literal_decimal};
ghost use Rattle.pap_plan.specs.Bindings.{input_without_limit};
ghost use Rattle.pap_plan.specs.Inputs.{carry_named, AreSlots};

use limits_file::{Carry, Items, Limits, Slot, Spec};
use pap_tree::{Declared, Literal, Name, PlanText};
use scaled_decimal::Dec;
use std::alloc::{AllocError, Global};

/// The inputs of a plan in declared order, where each has a limit.
pub(crate) fn spec_of(alloc: Global, plan: &PlanText, ranges: &Limits) -> Result<Spec, AllocError>
    ensures { IfOk result (λ spec. input_without_limit (flowchart_of plan.now) ranges.now ≡ None
        → AreSlots ranges.now (flowchart_of plan.now).inputs spec.slots) }
{
    let mut slots = Vec::new(alloc);
    for input in &plan.inputs {
        if let Some(limit) = ranges.limit_of(&input.name) {
            slots.push(Slot {
                name: input.name,
                kind: input.kind,
                limit: *limit,
                value: default_of(input),
                carry: carry_named(ranges, &input.name),
            })?;
        }
    }
    Ok(Spec {
        slots: Items::from_vec(slots),
    })
}

/// The decimal of a declared default.
fn default_of(input: &Declared) -> Option<Dec>
    ensures { result ≡ option_map literal_decimal (declaration_of input.now).value }
{
    match &input.value {
        Some(literal) => Some(decimal_of(literal)),
        None => None,
    }
}

fn decimal_of(literal: &Literal) -> Dec
    ensures { result ≡ literal_decimal (declared_of literal.now) }
{
    match literal {
        Literal::Int(number) => Dec::new(*number as i128, 0),
        Literal::Long(number) => Dec::new(*number as i128, 0),
        Literal::Point(number) | Literal::Big(number) => *number,
        Literal::Table(_) => Dec::new(0, 0),
    }
}

/// What an input carries over, where it is bound.
fn carry_named(ranges: &Limits, name: &Name) -> Option<Carry>
    ensures { result ≡ carry_named ranges.now name.now }
{
    for binding in ranges.bindings.as_slice() {
        if binding.input == *name {
            return Some(binding.carry);
        }
    }
    None
}
