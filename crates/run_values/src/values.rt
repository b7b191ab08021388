//! The values of variables by number.
ghost use Rattle.std.specs.Prelude.{◌≡◌, ◌++◌, Some, IfSome, IfOk, OnOk, map};
ghost use Rattle.std.specs.List.{All};
ghost use Rattle.std.specs.Option.{option_map};
ghost use Rattle.pap_tree.specs.Declarations.{declaration_of};
ghost use Rattle.pap_tree.specs.Flowchart.{flowchart_of};
ghost use Rattle.pap_tree.specs.Term.{term_of};
ghost use Rattle.pap_types.specs.Meaning.{AreInputs};
ghost use Rattle.pap_types.specs.Runs.{assigned};
ghost use Rattle.pap_types.specs.Scopes.{scope_of, first_value, number_of, declared_as, kept_as, at_factor_scale};
ghost use Rattle.pap_types.specs.Typing.{HasItsType};
ghost use Rattle.pap_types.specs.private.ScopeViews.{scope_in, variables_in};
ghost use Rattle.run_values.specs.NumberedValues.{HasOneEach, IsStart, CanPut, variables_with, value_put};
ghost use Rattle.run_values.specs.private.ValueViews.{CanKeep, IsFactorOf};

use pap_tree::{Declared, Expr, Kind, Name};
use pap_types::{Typed, at_factor_scale, first_value};
use scaled_decimal::Dec;
use std::alloc::{AllocError, Global};

/// The values with which a run begins: the inputs, and what the other variables begin with.
pub fn start_values(alloc: Global, plan: &Typed, inputs: &[Dec]) -> Result<Vec<Dec>, AllocError>
    requires { AreInputs (flowchart_of plan.now).inputs inputs.now }
    ensures { IfOk result
        (λ values. IsStart (flowchart_of plan.now) inputs.now values.items) }
{
    let text = plan.plan();
    let mut values = Vec::new(alloc);
    values.extend_from_slice(inputs)?;
    push_first(&mut values, text.outputs.as_slice())?;
    push_first(&mut values, text.internals.as_slice())?;
    Ok(values)
}

/// Appends what variables begin with.
fn push_first(values: &mut Vec<Dec>, variables: &[Declared]) -> Result<(), AllocError>
    requires { All HasItsType (map declaration_of variables.now) }
    ensures { OnOk result (values.new.items
        ≡ values.old.items ++ map first_value (map declaration_of variables.now)) }
{
    for variable in variables {
        values.push(first_value(variable))?;
    }
    Ok(())
}

/// Gives a variable the value of an expression, as one of its kind keeps it, which is answered.
pub fn put(plan: &Typed, target: &Name, e: &Expr, value: Dec, values: &mut [Dec]) -> Dec
    requires values { HasOneEach (flowchart_of plan.now) values.old }
    requires fits { CanPut (flowchart_of plan.now) target.now (term_of e.now) values.old value }
    ensures value { result ≡ value_put (scope_of (flowchart_of plan.now)) target.now value }
    ensures values { variables_with (flowchart_of plan.now) values.new
        ≡ assigned (scope_of (flowchart_of plan.now)) target.now value
        (variables_with (flowchart_of plan.now) values.old) }
{
    let Some((number, declared)) = target_of(plan, target) else {
        unreachable!()
    };
    let kept = kept_as(declared.kind, e, value);
    values[number] = kept;
    kept
}

/// The number of a variable, and its declaration.
fn target_of<'a>(plan: &'a Typed, name: &Name) -> Option<(usize, &'a Declared)>
    ensures number { IfSome result (λ v. number_of (variables_in plan.now) name.now ≡ Some v.0) }
    ensures declared { option_map (λ v. declaration_of v.1.now) result
        ≡ declared_as (scope_in plan.now).variables name.now }
{
    match plan.variable(name) {
        Some(number) => match plan.variable_at(number) {
            Some(declared) => Some((number, declared)),
            None => None,
        },
        None => None,
    }
}

/// The value of an expression as a variable of a kind keeps it.
fn kept_as(kind: Kind, e: &Expr, value: Dec) -> Dec
    requires { CanKeep kind (term_of e.now) value }
    ensures { result ≡ kept_as kind value }
{
    match kind {
        Kind::Factor => factor(e, value),
        Kind::Int | Kind::Long | Kind::Big | Kind::Table => value,
    }
}

/// A literal that goes to a `double`, with three places.
fn factor(e: &Expr, value: Dec) -> Dec
    requires { IsFactorOf (term_of e.now) value }
    ensures { result ≡ at_factor_scale value }
{
    match e {
        Expr::Int(number) => at_factor_scale(Dec::new(*number as i128, 0)),
        Expr::Point(number) => at_factor_scale(*number),
        _ => value,
    }
}
