//! An accepted plan.
ghost use Rattle.std.specs.Prelude.{◌≡◌, ◌≤◌, ◌+◌, ◌↔◌, IsTrue, List, Some, IfOk, length};
ghost use Rattle.scaled_decimal.specs.Decimals.{Decimal};
ghost use Rattle.pap_compiler.specs.CodeDecisions.{compiled};
ghost use Rattle.pap_compiler.specs.Correct.{IsCodeOf};
ghost use Rattle.pap_machine.specs.Held.{IsMadeFor};
ghost use Rattle.pap_machine.specs.Machine.{HoldAt};
ghost use Rattle.pap_types.specs.Limits.{most_steps};
ghost use Rattle.pap_types.specs.Meaning.{IsSafeFor, outputs_of, cost_of, bound_of};
ghost use Rattle.pap_plan.specs.Acceptance.{IsAccepted};
ghost use Rattle.pap_plan.specs.Inputs.{AreSlots};
ghost use Rattle.pap_plan.specs.Plans.{Seen, flowchart, meaning, Admits};
ghost use Rattle.interval_walk.specs.Soundness.{AreOutputs};

use interval_analysis::{OutputRange, Verdict};
use limits_file::{Limits, Spec};
use pap_machine::{Code, Machine, Prepared};
use pap_types::Typed;
use scaled_decimal::Dec;
use std::alloc::{AllocError, Global};
use std::marker::Model;
use std::sync::ledger::Ledger;
use steps::Steps;

/// An accepted plan, ready to run: on inputs that its limits admit a run can't fail.
pub struct Plan {
    pub(crate) plan: Vec<u8>,
    pub(crate) limits: Vec<u8>,
    pub(crate) typed: Typed,
    pub(crate) ranges: Limits,
    pub(crate) spec: Spec,
    pub(crate) verdict: Verdict,
    pub(crate) code: Prepared,
}

impl Model for Plan {
    ghost use Rattle.std.specs.Coded.{codes};
    ghost use Rattle.pap_tree.specs.contracts.plan.Stmt as statement;
    ghost use Rattle.pap_tree.specs.contracts.expression.Expr as expression;
    ghost use Rattle.pap_plan.specs.Plans.{Seen, seen};
    ghost use Rattle.pap_plan.specs.StageRefusals.{IsKeptPlan};

    ghost Value = { Seen };

    ghost coded = { Prim.hlevel (codes, statement.the_row.coded, expression.the_row.coded) };

    ghost view = { λ p.
        seen p.plan.items p.limits.items p.typed p.ranges p.verdict.outputs.items p.code };

    ghost invariant = { λ p.
        IsKeptPlan
        (seen p.plan.items p.limits.items p.typed p.ranges p.verdict.outputs.items p.code)
        p.verdict.bound p.spec.slots };
}

// By hand, so that letting its parts go is proved here and not again wherever a plan is dropped.
impl Drop for Plan {
    fn drop(self) {
        let Self {
            plan: _,
            limits: _,
            typed: _,
            ranges: _,
            spec: _,
            verdict: _,
            code: _,
        } = self;
    }
}

impl Plan {
    /// The plan's text with its names by number. Every list of inputs that the plan admits is safe for it.
    pub fn text(&self) -> &Typed
        ensures text { result.now ≡ self.now.text }
        ensures safe { (inputs : List Decimal)
            → Admits self.now inputs → IsSafeFor (flowchart self.now) inputs }
    {
        &self.typed
    }

    /// The bytes of the plan's file.
    pub fn plan_bytes(&self) -> &[u8]
        ensures { result.now ≡ self.now.plan }
    {
        &self.plan
    }

    /// The bytes of the range file.
    pub fn limits_bytes(&self) -> &[u8]
        ensures { result.now ≡ self.now.limits }
    {
        &self.limits
    }

    /// Whether both texts are those of the other plan, which then means the same.
    pub fn same_texts(&self, other: &Plan) -> bool
        ensures same { IsTrue result
            ↔ ((self.now.plan ≡ other.now.plan) × (self.now.limits ≡ other.now.limits)) }
        ensures meaning { IsTrue result → meaning self.now ≡ meaning other.now }
    {
        same_bytes(&self.plan, &other.plan) && same_bytes(&self.limits, &other.limits)
    }

    /// A law, with nothing to run: the plan's two texts are accepted, and mean what it means.
    pub fn law(&self)
        ensures { IsAccepted self.now.plan self.now.limits (meaning self.now) }
    {
        // For the proof: a field that is read shows what the plan keeps.
        let _ = &self.verdict;
    }

    /// The most steps that a run takes, at most 1,000,000,000.
    pub fn bound(&self) -> u64
        ensures bound { result ≡ bound_of (flowchart self.now) }
        ensures most { result ≤ most_steps }
    {
        self.verdict.bound
    }

    /// The outputs in declared order, with the ranges in which their values lie.
    pub fn outputs(&self) -> &[OutputRange]
        ensures { result.now ≡ self.now.outputs }
    {
        &self.verdict.outputs
    }

    /// The inputs in declared order: type, limit, default, and what they carry over.
    pub fn spec(&self) -> &Spec
        ensures { AreSlots self.now.ranges (flowchart self.now).inputs result.now.slots }
    {
        &self.spec
    }

    /// The code of the plan's text: the compiled one, in which each method stands once.
    pub fn code(&self) -> &Code
        ensures code { result.now ≡ self.now.code }
        ensures compiled { self.now.code ≡ compiled (flowchart self.now) }
        ensures of_text { IsCodeOf (flowchart self.now) self.now.code }
    {
        self.code.code()
    }

    /// A machine for this plan. Its slots hold the first values that the code gives them.
    pub fn machine(&self, alloc: Global) -> Result<Machine, AllocError>
        ensures made { IfOk result (λ m. IsMadeFor m self.now.code) }
        ensures slots { IfOk result (λ m. m.slots ≡ self.now.code.start) }
        ensures last { IfOk result (λ m. m.last ≡ 0) }
    {
        self.code.machine(alloc)
    }

    /// Runs the plan on inputs that it admits: `outputs` are those of the flowchart's meaning, and the number of steps is
    /// answered, which the counter rises by. It can't refuse and takes no memory.
    pub fn run<L: Ledger>(
        &self,
        m: &mut Machine,
        inputs: &[Dec],
        outputs: &mut [Dec],
        steps: &mut Steps<L>,
    ) -> u64
        requires made { IsMadeFor m.old self.now.code }
        requires admitted { Admits self.now inputs.now }
        requires outputs { length outputs.old ≡ length (flowchart self.now).outputs }
        ensures outputs { outputs_of (flowchart self.now) inputs.now ≡ Some outputs.new }
        ensures ranges { AreOutputs (meaning self.now).outputs outputs.new }
        ensures cost { result ≡ cost_of (flowchart self.now) inputs.now }
        ensures bound { result ≤ bound_of (flowchart self.now) }
        ensures steps { steps.new ≡ steps.old + result }
        ensures made { IsMadeFor m.new self.now.code }
        ensures last { m.new.last ≡ result }
        ensures slots { HoldAt m.new.slots self.now.code.outputs outputs.new }
    {
        let code = self.code.code();
        m.run(code, inputs, outputs, steps)
    }
}

fn same_bytes(one: &[u8], other: &[u8]) -> bool
    ensures { IsTrue result ↔ (one.now ≡ other.now) }
{
    one == other
}
