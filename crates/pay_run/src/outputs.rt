//! The outputs of a run.
ghost use Rattle.std.specs.Prelude.{◌≡◌, ◌≤◌, ◌+◌, IfOk, OnErr, length, map, [], vec_len, vec_capacity};
ghost use Rattle.pap_tree.specs.Declarations.{declaration_of};
ghost use Rattle.pap_plan.specs.Plans.{Admits};
ghost use Rattle.pay_run.specs.Accepted.{accepted};
ghost use Rattle.pay_run.specs.RunClauses.{HasRun};
ghost use Rattle.pay_run.specs.Runs.{named_values};

use limits_file::Items;
use pap_plan::Plan;
use pap_tree::Declared;
use payroll_records::NamedValue;
use scaled_decimal::Dec;
use std::alloc::{AllocError, Global};
use std::sync::ledger::Ledger;
use steps::Steps;

/// The outputs of a run, and the steps that it took.
#[derive(Drop)]
pub struct Finished {
    /// The outputs in declared order.
    pub outputs: Items<NamedValue>,
    /// The steps that the run took.
    pub cost: u64,
}

/// Runs a plan on inputs that it admits. Where memory runs out nothing is counted.
pub fn run<L: Ledger>(
    alloc: Global,
    plan: &Plan,
    inputs: &[Dec],
    steps: &mut Steps<L>,
) -> Result<Finished, AllocError>
    requires { Admits plan.now inputs.now }
    ensures ran { IfOk result (HasRun (accepted plan.now) inputs.now) }
    ensures counted { IfOk result (λ f. steps.new ≡ steps.old + f.cost) }
    ensures memory { OnErr result (steps.new ≡ steps.old) }
{
    plan.law();
    let declared = plan.text().plan().outputs.as_slice();
    let mut machine = plan.machine(alloc)?;
    let mut values = vec![in alloc; Dec::new(0, 0); declared.len()]?;
    let mut outputs = Vec::with_capacity(alloc, declared.len())?;
    let cost = plan.run(&mut machine, inputs, &mut values, steps);
    name_values(declared, &values, &mut outputs);
    Ok(Finished {
        outputs: Items::from_vec(outputs),
        cost,
    })
}

/// Appends the values under the names of the declarations, where there is room for them.
fn name_values(declared: &[Declared], values: &[Dec], outputs: &mut Vec<NamedValue>)
    requires each { length values.now ≡ length declared.now }
    requires empty { outputs.old.items ≡ [] }
    requires none { vec_len outputs.old ≡ 0 }
    requires room { length declared.now ≤ vec_capacity outputs.old }
    ensures { outputs.new.items ≡ named_values (map declaration_of declared.now) values.now }
{
    for (at, output) in declared.iter().enumerate() {
        outputs.push_reserved(NamedValue {
            name: output.name,
            value: values[at],
        });
    }
}
