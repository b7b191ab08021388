//! A plan that is well typed.
ghost use Rattle.std.specs.Prelude.{◌≡◌, IfOk, OnOk, IfErr, slice_get};
ghost use Rattle.std.specs.Option.{option_map};
ghost use Rattle.pap_tree.specs.Declarations.{declaration_of};
ghost use Rattle.pap_tree.specs.Flowchart.{flowchart_of};
ghost use Rattle.pap_tree.specs.Term.{term_of};
ghost use Rattle.pap_types.specs.Kinds.{name_kind, shown_divisor};
ghost use Rattle.pap_types.specs.Routines.{method_names};
ghost use Rattle.pap_types.specs.Scopes.{scope_of, variables_of, names_of, number_of, declaration_in, constant_in};
ghost use Rattle.pap_types.specs.Checks.{IsWellTyped};
ghost use Rattle.pap_types.specs.Faults.{IsTypeFault};
ghost use Rattle.pap_types.specs.NumberedNames.{IsNumbered};
ghost use Rattle.pap_types.specs.private.PlanViews.{statement_checks};
ghost use Rattle.pap_types.specs.private.StatementViews.{IsVerdict};
ghost use Rattle.pap_types.specs.Counts.{IsWithinCounts};

use crate::TypeFault;
use crate::kinds::NodeKind;
use crate::literals::first_value;
use crate::scope::{Names, Scope, variable_at};
use pap_tree::{Declared, Expr, Name, PlanText};
use scaled_decimal::Dec;
use std::alloc::Global;
use std::marker::Model;

/// A plan that is well typed, with its names by number.
#[derive(Drop)]
pub struct Typed {
    plan: PlanText,
    names: Names,
}

impl Model for Typed {
    ghost use Rattle.pap_tree.specs.declared.plan.PlanText.{PlanText};
    ghost use Rattle.pap_tree.specs.contracts.plan.Stmt as statement;
    ghost use Rattle.pap_tree.specs.contracts.expression.Expr as expression;
    ghost use Rattle.std.specs.Coded.{codes};
    ghost use Rattle.pap_types.specs.TypedPlans.{IsTyped};

    ghost Value = { PlanText };

    ghost coded = { Prim.hlevel (codes, statement.the_row.coded, expression.the_row.coded) };

    ghost view = { λ t. t.plan };

    ghost invariant = { λ t. IsTyped t.plan t.names };
}

/// Whether a plan is well typed (docs/PROFILE.md, "Kinds"): then the plan as it is given, with its names by number.
/// Else the first fault in this order: of the declarations (inputs, outputs, internals, constants), of the names of the
/// methods, of the statements of MAIN, and of those of the methods. Takes time linear in the plan, with a factor logarithmic
/// in the number of its names.
pub fn check_types(alloc: Global, plan: PlanText) -> Result<Typed, TypeFault>
    requires counted { IsWithinCounts (flowchart_of plan) }
    ensures kept { IfOk result (λ t. t ≡ plan) }
    ensures well_typed { OnOk result (IsWellTyped (flowchart_of plan)) }
    ensures fault { IfErr result (IsTypeFault (flowchart_of plan)) }
{
    let names = Names::of_plan(alloc, &plan)?;
    check_statements(&plan, &names)?;
    Ok(Typed { plan, names })
}

fn check_statements(plan: &PlanText, names: &Names) -> Result<(), TypeFault>
    requires numbered { IsNumbered plan.now names.now }
    requires counted { IsWithinCounts (flowchart_of plan.now) }
    ensures { IsVerdict (statement_checks (flowchart_of plan.now)) result }
{
    Scope { plan, names }.check_statements()
}

impl Typed {
    /// The plan as it is written.
    pub fn plan(&self) -> &PlanText
        ensures text { result.now ≡ self.now }
        ensures well_typed { IsWellTyped (flowchart_of self.now) }
        ensures counted { IsWithinCounts (flowchart_of self.now) }
    {
        &self.plan
    }

    /// The number of a variable, from 0, among inputs, outputs and internals in declared order.
    pub fn variable(&self, name: &Name) -> Option<usize>
        ensures { result ≡ number_of (names_of (variables_of (flowchart_of self.now))) name.now }
    {
        self.names.variables.number_of(name)
    }

    /// The declaration of the variable of a number, as `variable` numbers them, or none where no variable has it.
    pub fn variable_at(&self, number: usize) -> Option<&Declared>
        ensures { option_map (λ d. declaration_of d.now) result
            ≡ slice_get (variables_of (flowchart_of self.now)) number }
    {
        variable_at(&self.plan, number)
    }

    /// The number of a constant, from 0 in declared order.
    pub fn constant(&self, name: &Name) -> Option<usize>
        ensures { result ≡ number_of (names_of (flowchart_of self.now).constants) name.now }
    {
        self.names.constants.number_of(name)
    }

    /// The number of a method other than MAIN, from 0 in the order of the text.
    pub fn method(&self, name: &Name) -> Option<usize>
        ensures { result ≡ number_of (method_names (flowchart_of self.now).methods) name.now }
    {
        self.names.methods.number_of(name)
    }

    /// The declaration of a variable's or a constant's name.
    pub fn declaration(&self, name: &Name) -> Option<&Declared>
        ensures { option_map (λ d. declaration_of d.now) result
            ≡ declaration_in (scope_of (flowchart_of self.now)) name.now }
    {
        self.scope().declaration(name)
    }

    /// The value of a constant, that of a `double` with three places. A table has zero.
    pub fn constant_value(&self, name: &Name) -> Option<Dec>
        ensures { result ≡ constant_in (scope_of (flowchart_of self.now)) name.now }
    {
        match self.scope().constant(name) {
            Some(declared) => Some(first_value(declared)),
            None => None,
        }
    }

    /// The divisor of `divide(d)` that the text shows: a constant's decimal, or an `int` literal as one.
    pub fn shown_divisor(&self, divisor: &Expr) -> Option<Dec>
        ensures { result
            ≡ shown_divisor (scope_of (flowchart_of self.now)) (term_of divisor.now) }
    {
        self.scope().shown_divisor(divisor)
    }

    /// The kind of a name; an unknown one, which no statement of the plan has, counts as an `int`.
    pub fn kind_of_name(&self, name: &Name) -> NodeKind
        ensures { result ≡ name_kind (scope_of (flowchart_of self.now)) name.now }
    {
        match self.declaration(name) {
            Some(declared) => NodeKind::of_declared(declared.kind),
            None => NodeKind::Int,
        }
    }

    fn scope(&self) -> Scope<'_>
        ensures plan { result.plan.now ≡ self.now }
        ensures well_typed { IsWellTyped (flowchart_of self.now) }
        ensures numbered { IsNumbered result.plan.now result.names.now }
    {
        Scope {
            plan: &self.plan,
            names: &self.names,
        }
    }
}
