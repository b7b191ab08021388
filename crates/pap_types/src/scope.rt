//! What the names of a plan stand for.
ghost use Rattle.std.specs.Prelude.{◌≡◌, [], slice_get};
ghost use Rattle.std.specs.Option.{option_map};
ghost use Rattle.pap_tree.specs.Declarations.{declaration_of};
ghost use Rattle.pap_tree.specs.Flowchart.{flowchart_of};
ghost use Rattle.pap_tree.specs.Term.{term_of};
ghost use Rattle.pap_types.specs.Kinds.{shows_plain_divisor, shown_divisor, written_decimal, int_literal, is_plain_divisor};
ghost use Rattle.pap_types.specs.Scopes.{scope_of, variables_of, declaration_in, declared_as};
ghost use Rattle.pap_types.specs.NumberedNames.{IsNumbered};
ghost use Rattle.pap_types.specs.private.PlanViews.{AreEmpty, IsFilled, IsNamed};
ghost use Rattle.pap_types.specs.private.DeclarationViews.{AreDeclared};

use crate::TypeFault;
use crate::declarations::{declare, name_methods};
use crate::declared_names::DeclaredNames;
use crate::name_hashes::NameHashes;
use pap_tree::{Declared, Expr, Literal, Name, PlanText};
use scaled_decimal::Dec;
use std::alloc::Global;

/// The names of a plan by number, each sort from 0 in the order of the text: the variables are inputs, outputs and
/// internals, the methods those other than MAIN.
#[derive(Drop)]
pub(crate) struct Names {
    pub variables: DeclaredNames,
    pub constants: DeclaredNames,
    pub methods: DeclaredNames,
}

impl Names {
    /// No names of any sort.
    pub fn new(alloc: Global, hashes: NameHashes) -> Names
        ensures { AreEmpty result }
    {
        Names {
            variables: DeclaredNames::new(alloc, hashes),
            constants: DeclaredNames::new(alloc, hashes),
            methods: DeclaredNames::new(alloc, hashes),
        }
    }

    /// The names of a plan by number. Each is new and each literal is of its type, or the first that isn't so is
    /// answered.
    pub fn of_plan(alloc: Global, plan: &PlanText) -> Result<Names, TypeFault>
        ensures { IsNamed plan.now result }
    {
        let hashes = NameHashes::of_plan(plan);
        let mut names = Names::new(alloc, hashes);
        let none = DeclaredNames::new(alloc, hashes);
        names.fill(&none, plan)?;
        Ok(names)
    }

    fn fill(&mut self, none: &DeclaredNames, plan: &PlanText) -> Result<(), TypeFault>
        requires nothing { AreEmpty self.old }
        requires none { none.now ≡ [] }
        ensures { IsFilled plan.now self.new result }
    {
        name_variables(&mut self.variables, none, plan)?;
        declare(&mut self.constants, &self.variables, &plan.constants)?;
        name_methods(&mut self.methods, &plan.methods)
    }
}

fn name_variables(
    names: &mut DeclaredNames,
    none: &DeclaredNames,
    plan: &PlanText,
) -> Result<(), TypeFault>
    ensures { AreDeclared none.now names.old names.new
        (variables_of (flowchart_of plan.now)) result }
{
    declare(names, none, &plan.inputs)?;
    declare(names, none, &plan.outputs)?;
    declare(names, none, &plan.internals)
}

/// A plan with the numbers of its names.
#[derive(Clone, Copy)]
pub(crate) struct Scope<'a> {
    pub plan: &'a PlanText,
    pub names: &'a Names,
}

impl<'a> Scope<'a> {
    /// The declaration of a name.
    pub fn declaration(&self, name: &Name) -> Option<&'a Declared>
        requires { IsNumbered self.now.plan.now self.now.names.now }
        ensures { option_map (λ d. declaration_of d.now) result
            ≡ declaration_in (scope_of (flowchart_of self.now.plan.now)) name.now }
    {
        match self.variable(name) {
            Some(declared) => Some(declared),
            None => self.constant(name),
        }
    }

    /// The declaration of a variable's name.
    pub fn variable(&self, name: &Name) -> Option<&'a Declared>
        requires { IsNumbered self.now.plan.now self.now.names.now }
        ensures { option_map (λ d. declaration_of d.now) result
            ≡ declared_as (variables_of (flowchart_of self.now.plan.now)) name.now }
    {
        match self.names.variables.number_of(name) {
            Some(number) => variable_at(self.plan, number),
            None => None,
        }
    }

    /// The declaration of a constant's name.
    pub fn constant(&self, name: &Name) -> Option<&'a Declared>
        requires { IsNumbered self.now.plan.now self.now.names.now }
        ensures { option_map (λ d. declaration_of d.now) result
            ≡ declared_as (flowchart_of self.now.plan.now).constants name.now }
    {
        match self.names.constants.number_of(name) {
            Some(number) => constant_at(self.plan, number),
            None => None,
        }
    }

    /// Whether the divisor of `divide(d)` is one that the text shows, a constant or an `int` literal as a decimal, and
    /// a plain one: a whole number, at least 1, that divides 10^30.
    pub fn shows_plain_divisor(&self, divisor: &Expr) -> bool
        requires { IsNumbered self.now.plan.now self.now.names.now }
        ensures { result
            ≡ shows_plain_divisor (scope_of (flowchart_of self.now.plan.now))
            (term_of divisor.now) }
    {
        match self.shown_divisor(divisor) {
            Some(number) => is_plain_divisor(number),
            None => false,
        }
    }

    /// The divisor of `divide(d)` that the text shows.
    pub fn shown_divisor(&self, divisor: &Expr) -> Option<Dec>
        requires { IsNumbered self.now.plan.now self.now.names.now }
        ensures { result
            ≡ shown_divisor (scope_of (flowchart_of self.now.plan.now)) (term_of divisor.now) }
    {
        match divisor {
            Expr::Var(name) => match self.constant(name) {
                Some(declared) => written_decimal(declared),
                None => None,
            },
            Expr::Known(known) => Some(known.value()),
            Expr::ValueOf(operand) | Expr::NewInt(operand) => int_literal(operand),
            _ => None,
        }
    }
}

fn constant_at(plan: &PlanText, number: usize) -> Option<&Declared>
    ensures { option_map (λ d. declaration_of d.now) result
        ≡ slice_get (flowchart_of plan.now).constants number }
{
    plan.constants.get(number)
}

/// The declaration of the variable of a number.
pub(crate) fn variable_at(plan: &PlanText, number: usize) -> Option<&Declared>
    ensures { option_map (λ d. declaration_of d.now) result
        ≡ slice_get (variables_of (flowchart_of plan.now)) number }
{
    let inputs = plan.inputs.len();
    let outputs = plan.outputs.len();
    if number < inputs {
        return plan.inputs.get(number);
    }
    if number - inputs < outputs {
        return plan.outputs.get(number - inputs);
    }
    plan.internals.get(number - inputs - outputs)
}

/// The decimal that a declaration writes.
fn written_decimal(declared: &Declared) -> Option<Dec>
    ensures { result ≡ written_decimal (declaration_of declared.now) }
{
    match &declared.value {
        Some(Literal::Big(number)) => Some(*number),
        _ => None,
    }
}

/// An `int` literal as a decimal.
fn int_literal(e: &Expr) -> Option<Dec>
    ensures { result ≡ int_literal (term_of e.now) }
{
    match e {
        Expr::Int(number) => Some(Dec::new(*number as i128, 0)),
        _ => None,
    }
}

/// Whether a decimal is a whole number, at least 1, that divides 10^30.
fn is_plain_divisor(number: Dec) -> bool
    ensures { result ≡ is_plain_divisor number }
{
    number.scale() == 0 && scaled_decimal::is_plain_divisor(number.numerator())
}
