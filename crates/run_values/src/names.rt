//! What names stand for.
ghost use Rattle.std.specs.Prelude.{◌≡◌, Some, IsTrue, is_some};
ghost use Rattle.pap_tree.specs.Flowchart.{flowchart_of};
ghost use Rattle.pap_types.specs.Scopes.{scope_of, table_in, declaration_in};
ghost use Rattle.pap_types.specs.Values.{named_value};
ghost use Rattle.run_values.specs.NumberedValues.{HasOneEach, variables_with};

use pap_tree::Name;
use pap_types::{Typed, items_of};
use scaled_decimal::Dec;

/// The value of a variable, or that of a constant.
pub fn value_of_name(plan: &Typed, name: &Name, values: &[Dec]) -> Dec
    requires values { HasOneEach (flowchart_of plan.now) values.now }
    requires declared { IsTrue (is_some
        (declaration_in (scope_of (flowchart_of plan.now)) name.now)) }
    ensures { named_value (scope_of (flowchart_of plan.now)) name.now
        (variables_with (flowchart_of plan.now) values.now) ≡ Some result }
{
    match plan.variable(name) {
        Some(number) => values[number],
        None => match plan.constant_value(name) {
            Some(value) => value,
            None => unreachable!(),
        },
    }
}

/// The items of a table.
pub fn table<'a>(plan: &'a Typed, name: &Name) -> &'a [Dec]
    ensures { result.now ≡ table_in (scope_of (flowchart_of plan.now)) name.now }
{
    match plan.declaration(name) {
        Some(declared) => items_of(declared),
        None => &[],
    }
}
