//! The plan of a file's bytes.
ghost use Rattle.std.specs.Prelude.{◌≡◌, ◌⊎◌, ℕ, List, IfOk, IfErr};
ghost use Rattle.pap_tree.specs.Flowchart.{Flowchart, flowchart_of};
ghost use Rattle.pap_reader.specs.Trees.{tree_of};
ghost use Rattle.pap_reader.specs.TreeLimits.{IsSmallTree};
ghost use Rattle.plan_text.specs.Plans.{IsPlan, HasFlowchart, IsPlanFault, IsFaultOrMemory};
ghost use Rattle.plan_text.specs.Sites.{sites_of};
ghost use Rattle.plan_text.specs.private.Views.{Tells};
ghost use Rattle.plan_text.specs.declared.fault.PlanFault.{PlanFault as Fault};

use crate::PlanFault;
use crate::declarations::read_declarations;
use crate::statements::{read_methods, read_statements};
use pap_reader::{Elements, ReadFault, read_elements};
use pap_tree::{Name, PlanText};
use std::alloc::Global;

/// Reads a plan: its elements, then its expressions in the order of its inputs, outputs, internals, constants, MAIN and the
/// other methods. The refusal is that of the elements, else that of the first expression that isn't one.
pub fn read_plan(alloc: Global, bytes: &[u8]) -> Result<PlanText, PlanFault>
    // The bytes are the text of a plan, and this is its flowchart.
    ensures read { IfOk result (λ plan. IsPlan bytes.now (flowchart_of plan)) }
    // This is what is wrong with them, or memory ran out.
    ensures refused { IfErr result (IsFaultOrMemory bytes.now) }
{
    match read_elements(alloc, bytes) {
        Ok(elements) => read_expressions(alloc, &elements),
        Err(ReadFault::Memory) => Err(PlanFault::Memory),
        Err(fault) => Err(PlanFault::Read(fault)),
    }
}

/// The plan of its elements.
fn read_expressions(alloc: Global, elements: &Elements) -> Result<PlanText, PlanFault>
    requires { IsSmallTree (tree_of elements.now) }
    ensures { Tells (sites_of (tree_of elements.now))
        (λ plan. HasFlowchart (tree_of elements.now) (flowchart_of plan)) result }
{
    let inputs = read_declarations(alloc, &elements.inputs)?;
    let outputs = read_declarations(alloc, &elements.outputs)?;
    let internals = read_declarations(alloc, &elements.internals)?;
    let constants = read_declarations(alloc, &elements.constants)?;
    let main = read_statements(alloc, Name::main(), &elements.main)?;
    let methods = read_methods(alloc, &elements.methods)?;
    Ok(PlanText {
        inputs,
        outputs,
        internals,
        constants,
        main,
        methods,
    })
}

/// The laws of plans' texts: bytes have either one flowchart or one fault, and never both.
pub fn plan_laws()
    ensures one_plan { (bytes : List ℕ) (f g : Flowchart)
        → IsPlan bytes f → IsPlan bytes g → f ≡ g }
    ensures one_fault { (bytes : List ℕ) (a b : Fault)
        → IsPlanFault bytes a → IsPlanFault bytes b → a ≡ b }
    ensures never_both { (bytes : List ℕ) (f : Flowchart) (a : Fault)
        → IsPlan bytes f → IsPlanFault bytes a → ⊥ }
    ensures always_one { (bytes : List ℕ)
        → ((f : Flowchart) × IsPlan bytes f) ⊎ ((a : Fault) × IsPlanFault bytes a) }
{}
