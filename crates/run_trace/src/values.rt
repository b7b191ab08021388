//! The values of a run's variables, by their numbers.
ghost use Rattle.std.specs.Prelude.{◌≡◌, ◌++◌, All, IfOk, OnOk, map};
ghost use Rattle.pap_tree.specs.Declarations.{declaration_of};
ghost use Rattle.pap_tree.specs.Flowchart.{flowchart_of};
ghost use Rattle.pap_types.specs.Scopes.{first_value};
ghost use Rattle.pap_types.specs.Typing.{HasItsType};
ghost use Rattle.run_trace.specs.VariableValues.{begin_values, variable_value, with_variable};

use pap_tree::{Declared, Name};
use pap_types::{Typed, first_value};
use scaled_decimal::Dec;
use std::alloc::{AllocError, Global};

/// The values with which a run begins: the inputs, and what the other variables begin with.
pub(crate) fn begin_values(
    alloc: Global,
    plan: &Typed,
    inputs: &[Dec],
) -> Result<Vec<Dec>, AllocError>
    ensures { IfOk result
        (λ values. values.items ≡ begin_values (flowchart_of plan.now) inputs.now) }
{
    let text = plan.plan();
    let mut values = Vec::new(alloc);
    values.extend_from_slice(inputs)?;
    add_first(&mut values, text.outputs.as_slice())?;
    add_first(&mut values, text.internals.as_slice())?;
    Ok(values)
}

/// Appends what variables begin with.
fn add_first(values: &mut Vec<Dec>, variables: &[Declared]) -> Result<(), AllocError>
    requires { All HasItsType (map declaration_of variables.now) }
    ensures { OnOk result (values.new.items
        ≡ values.old.items ++ map first_value (map declaration_of variables.now)) }
{
    for variable in variables {
        values.push(first_value(variable))?;
    }
    Ok(())
}

/// The value of a variable. `None` where the name is no variable's.
pub(crate) fn variable_value(plan: &Typed, values: &[Dec], name: &Name) -> Option<Dec>
    ensures { result ≡ variable_value (flowchart_of plan.now) values.now name.now }
{
    let number = plan.variable(name)?;
    values.get(number).copied()
}

/// Gives a variable a value.
pub(crate) fn put_value(plan: &Typed, values: &mut [Dec], name: &Name, value: Dec)
    ensures { values.new ≡ with_variable (flowchart_of plan.now) values.old name.now value }
{
    let Some(number) = plan.variable(name) else {
        return;
    };
    if number < values.len() {
        values[number] = value;
    }
}
