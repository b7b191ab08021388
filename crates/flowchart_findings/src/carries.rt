//! The findings of outputs that inputs carry over.
ghost use Rattle.std.specs.Prelude.{◌≡◌, ◌++◌, OnOk, map};
ghost use Rattle.std.specs.List.{flat_map};
ghost use Rattle.interval_analysis.specs.Answers.{named_range};
ghost use Rattle.flowchart_findings.specs.Carries.{is_carried, limit_finding, carry_finding, carry_findings};

use crate::finding::{DeclarationSite, Finding, Group};
use interval_analysis::OutputRange;
use limits_file::{Binding, Carry, InputLimit, Limits};
use pap_tree::Name;
use std::alloc::AllocError;

/// Appends which outputs may have more places than the limits of the inputs that carry them over take, given the ranges of all outputs in
/// declared order: exactly one finding for each such output and input. Takes for each output a look through the range file's table of
/// bindings, and for each finding one through its limits. Fails only for lack of memory.
#[tactic(auto, using(crate::proofs::CarryLemmas::one_output))]
pub fn add_carry_findings(
    out: &mut Vec<Finding>,
    limits: &Limits,
    outputs: &[OutputRange],
) -> Result<(), AllocError>
    ensures { OnOk result (out.new.items ≡ out.old.items
        ++ carry_findings limits.now 0 (map named_range outputs.now)) }
{
    for (number, output) in outputs.iter().enumerate() {
        let name = output.name;
        let site = DeclarationSite {
            group: Group::Output,
            number,
            name,
        };
        let range = output.range;
        add_output(out, limits, &site, range.s_hi())?;
    }
    Ok(())
}

/// Appends the findings of an output whose values have at most so many places.
#[tactic(auto, using(crate::proofs::CarryLemmas::one_binding))]
fn add_output(
    out: &mut Vec<Finding>,
    limits: &Limits,
    site: &DeclarationSite,
    places: u8,
) -> Result<(), AllocError>
    ensures { OnOk result (out.new.items ≡ out.old.items
        ++ flat_map (carry_finding limits.now site.now places) limits.now.bindings) }
{
    for binding in limits.bindings.as_slice() {
        add_carry(out, limits, site, places, binding)?;
    }
    Ok(())
}

/// Appends the finding of an output and a binding, if there is one.
fn add_carry(
    out: &mut Vec<Finding>,
    limits: &Limits,
    site: &DeclarationSite,
    places: u8,
    binding: &Binding,
) -> Result<(), AllocError>
    ensures { OnOk result (out.new.items ≡ out.old.items
        ++ carry_finding limits.now site.now places binding.now) }
{
    if !is_carried(&binding.carry, &site.name) {
        return Ok(());
    }
    match limits.limit_of(&binding.input) {
        Some(limit) => add_limit(out, site, places, limit),
        None => Ok(()),
    }
}

/// Appends the finding of an output and the limit of an input that carries it over, if the limit takes fewer places.
fn add_limit(
    out: &mut Vec<Finding>,
    site: &DeclarationSite,
    places: u8,
    limit: &InputLimit,
) -> Result<(), AllocError>
    ensures { OnOk result (out.new.items ≡ out.old.items
        ++ limit_finding site.now places limit.now) }
{
    if limit.places < places {
        out.push(Finding::LongCarry {
            site: *site,
            input: limit.name,
            places,
            takes: limit.places,
        })?;
    }
    Ok(())
}

/// Whether values of the output of a name are carried over.
fn is_carried(carry: &Carry, name: &Name) -> bool
    ensures { result ≡ is_carried carry.now name.now }
{
    match carry {
        Carry::Sum(output) | Carry::Last(output) => *output == *name,
        Carry::Count => false,
    }
}
