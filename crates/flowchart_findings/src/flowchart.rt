//! The findings of a flowchart.
ghost use Rattle.std.specs.Prelude.{◌≡◌, ◌<◌, ◌^◌, IfOk, OnOk, List, map};
ghost use Rattle.scaled_decimal.specs.Decimals.{Decimal};
ghost use Rattle.pap_tree.specs.Flowchart.{flowchart_of, routine_of};
ghost use Rattle.pap_types.specs.Counts.{IsWithinCounts, methods_written};
ghost use Rattle.interval_analysis.specs.Surveys.{HaveExecuted, HaveTaken};
ghost use Rattle.flowchart_findings.specs.ClosedExits.{TellClosedExits};
ghost use Rattle.flowchart_findings.specs.Findings.{findings_of};
ghost use Rattle.flowchart_findings.specs.NeverExecuted.{AreNeverExecuted, AreNeverTaken};
ghost use Rattle.flowchart_findings.specs.private.FindingViews.{AddsAll, AddsDeclarations, AddsMethods};

use crate::finding::{Finding, Group};
use crate::name_sets::NameSets;
use crate::statements::Inspection;
use pap_tree::{Method, Name, PlanText};
use pap_types::Typed;
use std::alloc::{AllocError, Global};
use std::collections::BTreeSet;

/// What an author of a flowchart may want to change, given the statements that a run may execute and the exits of IFs that one may take, as
/// [`interval_analysis::survey`] tells them: first of the declarations (inputs, outputs, internals, constants), then of the statements of
/// MAIN and of the other methods, in the order of the text. A test that never holds or always holds is told of exactly the reached IFs an
/// exit of which isn't among the given ones. No run whose executed statements are among the given ones executes a statement that is told
/// as dead, and none whose exits are among the given ones takes one that is told as never taken.
///
/// Takes time linear in the flowchart, with a factor logarithmic in its size; each statement is counted once for each IF around it. Fails
/// only for lack of memory.
pub fn findings(
    alloc: Global,
    plan: &Typed,
    reached: &BTreeSet<(Name, u32)>,
    exits: &BTreeSet<(Name, u32, bool)>,
) -> Result<Vec<Finding>, AllocError>
    ensures exact { IfOk result (λ found.
        found.items ≡ findings_of (flowchart_of plan.now) reached.now exits.now) }
    ensures tests { IfOk result (λ found.
        TellClosedExits (flowchart_of plan.now) reached.now exits.now found.items) }
    ensures sound { IfOk result (λ found. (inputs : List Decimal)
        → HaveExecuted (flowchart_of plan.now) inputs reached.now
        → AreNeverExecuted (flowchart_of plan.now) inputs found.items) }
    ensures taken { IfOk result (λ found. (inputs : List Decimal)
        → HaveTaken (flowchart_of plan.now) inputs exits.now
        → AreNeverTaken (flowchart_of plan.now) inputs found.items) }
{
    plan_findings(alloc, plan.plan(), reached, exits)
}

/// Those of a flowchart as it is written.
fn plan_findings(
    alloc: Global,
    plan: &PlanText,
    reached: &BTreeSet<(Name, u32)>,
    exits: &BTreeSet<(Name, u32, bool)>,
) -> Result<Vec<Finding>, AllocError>
    requires counted { IsWithinCounts (flowchart_of plan.now) }
    ensures exact { IfOk result (λ found.
        found.items ≡ findings_of (flowchart_of plan.now) reached.now exits.now) }
    ensures tests { IfOk result (λ found.
        TellClosedExits (flowchart_of plan.now) reached.now exits.now found.items) }
    ensures sound { IfOk result (λ found. (inputs : List Decimal)
        → HaveExecuted (flowchart_of plan.now) inputs reached.now
        → AreNeverExecuted (flowchart_of plan.now) inputs found.items) }
    ensures taken { IfOk result (λ found. (inputs : List Decimal)
        → HaveTaken (flowchart_of plan.now) inputs exits.now
        → AreNeverTaken (flowchart_of plan.now) inputs found.items) }
{
    let names = NameSets::of(alloc, plan)?;
    let mut out = Vec::new(alloc);
    add_findings(&mut out, &names, reached, exits, plan)?;
    Ok(out)
}

/// Appends the findings of a flowchart whose names these are.
fn add_findings(
    out: &mut Vec<Finding>,
    names: &NameSets,
    reached: &BTreeSet<(Name, u32)>,
    exits: &BTreeSet<(Name, u32, bool)>,
    plan: &PlanText,
) -> Result<(), AllocError>
    requires counted { IsWithinCounts (flowchart_of plan.now) }
    ensures { OnOk result (AddsAll names.now reached.now exits.now (flowchart_of plan.now)
        out.old.items out.new.items) }
{
    add_declarations(out, names, plan)?;
    let main = Inspection {
        reached,
        exits,
        names,
        method: Name::main(),
        method_number: 0,
    };
    main.add_body(out, &plan.main, 0)?;
    add_methods(out, names, reached, exits, &plan.methods)
}

/// Appends the findings of all declarations.
fn add_declarations(
    out: &mut Vec<Finding>,
    names: &NameSets,
    plan: &PlanText,
) -> Result<(), AllocError>
    ensures { OnOk result (AddsDeclarations names.now (flowchart_of plan.now)
        out.old.items out.new.items) }
{
    names.add_declarations(out, Group::Input, &plan.inputs)?;
    names.add_declarations(out, Group::Output, &plan.outputs)?;
    names.add_declarations(out, Group::Internal, &plan.internals)?;
    names.add_declarations(out, Group::Constant, &plan.constants)
}

/// Appends the findings of the methods other than MAIN.
#[tactic(auto, using(crate::proofs::FindingLemmas::one_method, crate::proofs::FindingLemmas::method_room))]
fn add_methods(
    out: &mut Vec<Finding>,
    names: &NameSets,
    reached: &BTreeSet<(Name, u32)>,
    exits: &BTreeSet<(Name, u32, bool)>,
    methods: &[Method],
) -> Result<(), AllocError>
    requires room { methods_written (map routine_of methods.now) < 2 ^ 32 }
    ensures { OnOk result (AddsMethods names.now reached.now exits.now (map routine_of methods.now)
        out.old.items out.new.items) }
{
    for (at, method) in methods.iter().enumerate() {
        let inspection = Inspection {
            reached,
            exits,
            names,
            method: method.name,
            method_number: at + 1,
        };
        inspection.add_method(out, &method.body)?;
    }
    Ok(())
}
