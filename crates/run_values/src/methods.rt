//! The bodies of methods.
ghost use Rattle.std.specs.Prelude.{◌≡◌, IfSome, slice_get};
ghost use Rattle.std.specs.Option.{option_map};
ghost use Rattle.pap_tree.specs.Flowchart.{routine_of, body_of, flowchart_of};
ghost use Rattle.pap_types.specs.Routines.{body_named};
ghost use Rattle.run_values.specs.MethodBodies.{IsMethodBody};

use pap_tree::{Method, Name, Stmt};
use pap_types::Typed;

/// The body of a method other than MAIN.
pub fn method_body<'a>(plan: &'a Typed, name: &Name) -> Option<&'a [Stmt]>
    ensures body { option_map (λ body. body_of body.now) result
        ≡ body_named (flowchart_of plan.now).methods name.now }
    ensures run { IfSome result
        (λ body. IsMethodBody (flowchart_of plan.now) (body_of body.now)) }
{
    let _counted = plan.plan();
    match plan.method(name) {
        Some(number) => match method_at(plan, number) {
            Some(method) => Some(method.body.as_slice()),
            None => None,
        },
        None => None,
    }
}

/// The method of a number.
fn method_at(plan: &Typed, number: usize) -> Option<&Method>
    ensures { option_map (λ m. routine_of m.now) result
        ≡ slice_get (flowchart_of plan.now).methods number }
{
    plan.plan().methods.get(number)
}
