//! What the names of a plan stand for.
ghost use Rattle.std.specs.Prelude.{◌≡◌};
ghost use Rattle.pap_tree.specs.Term.{term_of};
ghost use Rattle.pap_types.specs.Kinds.{name_kind};
ghost use Rattle.pap_types.specs.Scopes.{number_of};
ghost use Rattle.interval_walk.specs.Ranges.{single};
ghost use Rattle.interval_walk.specs.NodeRanges.{big_range};
ghost use Rattle.pap_types.specs.private.ScopeViews.{scope_in, variables_in};
ghost use Rattle.interval_analysis.specs.private.PlanViews.{kind_at};

use interval_num::Abs;
use pap_tree::{Expr, Name};
use pap_types::{NodeKind, Typed, shortened};
use scaled_decimal::Dec;

/// The range of a single value.
pub(crate) fn single(value: Dec) -> Abs
    ensures { result ≡ single value }
{
    Abs::new(
        value.numerator(),
        value.numerator(),
        value.scale(),
        value.scale(),
    )
}

/// The kind of a name, which is that of the variable of this number, if there is one.
pub(crate) fn kind_named(plan: &Typed, name: &Name, variable: Option<usize>) -> NodeKind
    requires { variable ≡ number_of (variables_in plan.now) name.now }
    ensures { result ≡ name_kind (scope_in plan.now) name.now }
{
    match variable {
        Some(number) => kind_at(plan, number),
        None => plan.kind_of_name(name),
    }
}

/// The kind of a variable by its number.
fn kind_at(plan: &Typed, number: usize) -> NodeKind
    ensures { result ≡ kind_at (scope_in plan.now) number }
{
    match plan.variable_at(number) {
        Some(declared) => NodeKind::of_declared(declared.kind),
        None => NodeKind::Int,
    }
}

/// The range of `BigDecimal.valueOf`: a literal with a point loses the zeros that end it but for one place, any other operand
/// keeps its range.
pub(crate) fn as_big(operand: &Expr, range: Abs) -> Abs
    ensures { result ≡ big_range (term_of operand.now) range }
{
    match operand {
        Expr::Point(number) => single(shortened(*number)),
        _ => range,
    }
}
