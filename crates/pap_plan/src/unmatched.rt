//! All faults of a range file's entries beside its plan.
ghost use Rattle.std.specs.Prelude.{◌≡◌, ◌∷◌, ◌++◌, [], IfOk, OnOk, if◌then◌else◌, map};
ghost use Rattle.pap_tree.specs.Declarations.{declaration_of};
ghost use Rattle.pap_tree.specs.Flowchart.{Flowchart, flowchart_of};
ghost use Rattle.limits_file.specs.declared.limits.Limits.{Limits};
ghost use Rattle.pap_plan.specs.Bindings.{has_limit, is_input};
ghost use Rattle.pap_plan.specs.LimitFaults.{is_unsuited, is_stray, unlimited_faults, nameless_faults, unsuited_faults, stray_faults, limit_faults, TellsSuitedLimits, FaultlessIsMatched, FirstIsUnmatched};

use crate::PlanRefusal;
use crate::bindings::{carries_output, declares, suits};
use call_order::OrderFault;
use interval_analysis::RangeFault;
use limits_file::{Binding, InputLimit, Limits, LimitsFault};
use pap_expr::ExprFault;
use pap_reader::ReadFault;
use pap_tree::{Declared, Name, PlanText};
use pap_types::TypeFault;
use plan_text::Spot;
use std::alloc::{AllocError, Global};

/// All faults of a range file's entries beside its plan, in the order in which acceptance looks for the first: each input without a limit,
/// each limit of no input, each input whose limit doesn't suit its type, and each binding of no input or to no output. A binding isn't told
/// where its input lacks only its limit, which is told before. It takes time in proportion to the entries times the inputs and outputs, of
/// which there are at most 256 each. Fails only for lack of memory.
pub fn limit_faults(
    alloc: Global,
    plan: &PlanText,
    ranges: &Limits,
) -> Result<Vec<PlanRefusal>, AllocError>
    ensures { IfOk result
        (λ faults. faults.items ≡ limit_faults (flowchart_of plan.now) ranges.now) }
{
    let mut faults = Vec::new(alloc);
    put_unlimited(&mut faults, &plan.inputs, ranges)?;
    put_nameless(&mut faults, plan, ranges.inputs.as_slice())?;
    put_unsuited(&mut faults, &plan.inputs, ranges)?;
    put_stray(&mut faults, plan, ranges)?;
    Ok(faults)
}

/// Appends a fault for each of these inputs without a limit.
fn put_unlimited(
    faults: &mut Vec<PlanRefusal>,
    inputs: &[Declared],
    ranges: &Limits,
) -> Result<(), AllocError>
    ensures { OnOk result (faults.new.items
        ≡ faults.old.items ++ unlimited_faults ranges.now (map declaration_of inputs.now)) }
{
    for input in inputs {
        let name = input.name;
        let limited = has_limit(ranges, &name);
        put_if(faults, !limited, PlanRefusal::LimitName { name })?;
    }
    Ok(())
}

/// Appends a fault for each of these limits that isn't an input's.
fn put_nameless(
    faults: &mut Vec<PlanRefusal>,
    plan: &PlanText,
    limits: &[InputLimit],
) -> Result<(), AllocError>
    ensures { OnOk result (faults.new.items
        ≡ faults.old.items ++ nameless_faults (flowchart_of plan.now) limits.now) }
{
    for limit in limits {
        let name = limit.name;
        let named = is_input(plan, &name);
        put_if(faults, !named, PlanRefusal::LimitName { name })?;
    }
    Ok(())
}

/// Appends a fault for each of these inputs whose limit doesn't suit its type.
fn put_unsuited(
    faults: &mut Vec<PlanRefusal>,
    inputs: &[Declared],
    ranges: &Limits,
) -> Result<(), AllocError>
    ensures { OnOk result (faults.new.items
        ≡ faults.old.items ++ unsuited_faults ranges.now (map declaration_of inputs.now)) }
{
    for input in inputs {
        let name = input.name;
        let unsuited = is_unsuited(input, ranges);
        put_if(faults, unsuited, PlanRefusal::LimitKind { name })?;
    }
    Ok(())
}

/// Appends a fault for each binding of no input or to no output.
fn put_stray(
    faults: &mut Vec<PlanRefusal>,
    plan: &PlanText,
    ranges: &Limits,
) -> Result<(), AllocError>
    ensures { OnOk result (faults.new.items
        ≡ faults.old.items ++ stray_faults (flowchart_of plan.now) ranges.now ranges.now.bindings) }
{
    for binding in ranges.bindings.as_slice() {
        let name = binding.input;
        let stray = is_stray(plan, ranges, binding);
        put_if(faults, stray, PlanRefusal::Bind { name })?;
    }
    Ok(())
}

/// Appends a fault where it is one.
fn put_if(faults: &mut Vec<PlanRefusal>, is_one: bool, fault: PlanRefusal) -> Result<(), AllocError>
    ensures { OnOk result (faults.new.items
        ≡ faults.old.items ++ (if is_one then fault ∷ [] else [])) }
{
    // Names each type that a refusal holds: without them the prover can't follow a refusal into a list.
    let _nothing: Option<
        (
            ReadFault,
            Spot,
            ExprFault,
            TypeFault,
            OrderFault,
            LimitsFault,
            RangeFault,
        ),
    > = None;
    if is_one {
        faults.push(fault)?;
    }
    Ok(())
}

fn has_limit(ranges: &Limits, name: &Name) -> bool
    ensures { result ≡ has_limit ranges.now name.now }
{
    ranges.limit_of(name).is_some()
}

#[tactic(auto, using(crate::proofs::BindingLemmas::declared_names))]
fn is_input(plan: &PlanText, name: &Name) -> bool
    ensures { result ≡ is_input (flowchart_of plan.now) name.now }
{
    declares(&plan.inputs, name)
}

/// Whether an input has a limit that doesn't suit its type.
fn is_unsuited(input: &Declared, ranges: &Limits) -> bool
    ensures { result ≡ is_unsuited ranges.now (declaration_of input.now) }
{
    match ranges.limit_of(&input.name) {
        Some(limit) => !suits(input.kind, limit),
        None => false,
    }
}

/// Whether a binding is to no output, or of a name that is neither a limit's nor an input's.
fn is_stray(plan: &PlanText, ranges: &Limits, binding: &Binding) -> bool
    ensures { result ≡ is_stray (flowchart_of plan.now) ranges.now binding.now }
{
    if has_limit(ranges, &binding.input) {
        !carries_output(plan, &binding.carry)
    } else {
        !is_input(plan, &binding.input)
    }
}

/// Laws, with nothing to run: the limits and bindings are those of the plan exactly where they have no fault, and else the first fault is
/// the one for which they are refused; the test of a limit that `limit_faults` names says whether the limit suits the type of its input.
pub fn limit_fault_laws()
    ensures none { (f : Flowchart) (l : Limits) → FaultlessIsMatched f l }
    ensures first { (f : Flowchart) (l : Limits) → FirstIsUnmatched f l }
    ensures suited { TellsSuitedLimits }
{}
