//! Whether the limits and bindings of a range file are those of a plan.
ghost use Rattle.std.specs.Prelude.{◌≡◌, ◌↔◌, IsTrue, MatchOption};
ghost use Rattle.std.specs.List.{All};
ghost use Rattle.pap_tree.specs.Declarations.{declaration_of};
ghost use Rattle.pap_tree.specs.Flowchart.{flowchart_of};
ghost use Rattle.interval_walk.specs.Admission.{SuitsLimit};
ghost use Rattle.pap_plan.specs.Bindings.{unmatched_name, is_bound, carries_output, unbound_input, IsFirstUnsuited, HasSuitedLimit};
ghost use Rattle.pap_plan.specs.private.BindingViews.{declares, without_limit, without_input};

use limits_file::{Binding, Carry, InputLimit, Limits};
use pap_tree::{Declared, Kind, Name, PlanText};
use pap_types::{FACTOR_PLACES, has_few_places};
use scaled_decimal::{is_int, is_long};

/// Whether one of these declarations has the name.
pub(crate) fn declares(declared: &[Declared], name: &Name) -> bool
    ensures { result ≡ declares declared.now name.now }
{
    declared.iter().any(|declaration| *name == declaration.name)
}

/// The first declared input without a limit; where each has one, the first limit of a name that is no input.
pub(crate) fn unmatched_name(plan: &PlanText, ranges: &Limits) -> Option<Name>
    ensures { result ≡ unmatched_name (flowchart_of plan.now) ranges.now }
{
    match input_without_limit(&plan.inputs, ranges) {
        Some(name) => Some(name),
        None => limit_without_input(&plan.inputs, ranges.inputs.as_slice()),
    }
}

fn input_without_limit(inputs: &[Declared], ranges: &Limits) -> Option<Name>
    ensures { result ≡ without_limit inputs.now ranges.now }
{
    for input in inputs {
        if ranges.limit_of(&input.name).is_none() {
            return Some(input.name);
        }
    }
    None
}

fn limit_without_input(inputs: &[Declared], limits: &[InputLimit]) -> Option<Name>
    ensures { result ≡ without_input inputs.now limits.now }
{
    for limit in limits {
        if !declares(inputs, &limit.name) {
            return Some(limit.name);
        }
    }
    None
}

/// The input of the first binding of no input, or to an output that isn't declared.
pub(crate) fn unbound_input(plan: &PlanText, ranges: &Limits) -> Option<Name>
    ensures { result ≡ unbound_input (flowchart_of plan.now) ranges.now }
{
    for binding in ranges.bindings.as_slice() {
        if !is_bound(plan, ranges, binding) {
            return Some(binding.input);
        }
    }
    None
}

fn is_bound(plan: &PlanText, ranges: &Limits, binding: &Binding) -> bool
    ensures { result ≡ is_bound (flowchart_of plan.now) ranges.now binding.now }
{
    ranges.limit_of(&binding.input).is_some() && carries_output(plan, &binding.carry)
}

/// Whether the output that is carried over, where there is one, is one of the plan.
#[tactic(auto, using(crate::proofs::BindingLemmas::declared_names))]
pub(crate) fn carries_output(plan: &PlanText, carry: &Carry) -> bool
    ensures { result ≡ carries_output (flowchart_of plan.now) carry.now }
{
    match carry {
        Carry::Sum(output) | Carry::Last(output) => declares(&plan.outputs, output),
        Carry::Count => true,
    }
}

/// The first declared input whose limit doesn't suit its type.
pub(crate) fn first_unsuited(plan: &PlanText, ranges: &Limits) -> Option<Name>
    ensures { MatchOption result (All (HasSuitedLimit ranges.now) (flowchart_of plan.now).inputs)
        (IsFirstUnsuited (flowchart_of plan.now) ranges.now) }
{
    for input in &plan.inputs {
        if !has_suited_limit(input, ranges) {
            return Some(input.name);
        }
    }
    None
}

fn has_suited_limit(input: &Declared, ranges: &Limits) -> bool
    ensures { IsTrue result ↔ HasSuitedLimit ranges.now (declaration_of input.now) }
{
    match ranges.limit_of(&input.name) {
        Some(limit) => suits(input.kind, limit),
        None => false,
    }
}

/// Whether a limit suits an input of a type: a whole number's has no places and bounds within its bits, a `double`'s has at
/// most three places, in its bounds too.
pub(crate) fn suits(kind: Kind, limit: &InputLimit) -> bool
    ensures { IsTrue result ↔ SuitsLimit kind limit.now }
{
    match kind {
        Kind::Int => {
            limit.places == 0 && is_int(limit.low.numerator()) && is_int(limit.high.numerator())
        }
        Kind::Long => {
            limit.places == 0 && is_long(limit.low.numerator()) && is_long(limit.high.numerator())
        }
        Kind::Factor => {
            limit.places <= FACTOR_PLACES && has_few_places(limit.low) && has_few_places(limit.high)
        }
        Kind::Big | Kind::Table => true,
    }
}
