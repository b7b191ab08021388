//! What the names of a plan stand for in its code.
ghost use Rattle.std.specs.Prelude.{◌≡◌, ◌<◌, unwrap_or, length};
ghost use Rattle.pap_tree.specs.Term.{term_of};
ghost use Rattle.pap_types.specs.Scopes.{constant_in, zero};
ghost use Rattle.pap_compiler.specs.CodeDecisions.{slot, name_code, table_number, shown_number};
ghost use Rattle.pap_compiler.specs.private.NameViews.{IsMade, scope_of_names, entry_in};

use pap_machine::Instr;
use pap_tree::{Expr, Name};
use pap_types::Typed;
use scaled_decimal::Dec;

/// A plan with what its names stand for in its code.
#[derive(Clone, Copy)]
pub(crate) struct Names<'a> {
    pub typed: &'a Typed,
    /// The first instruction of each method.
    pub entries: &'a [u32],
}

impl Names<'_> {
    /// The slot of a variable; 0 for a name that is none, which a well-typed plan assigns to nowhere.
    #[tactic(auto, using(crate::proofs::NumberLemmas::number_within))]
    pub fn slot(&self, name: &Name) -> u32
        requires { IsMade self.now }
        ensures { result ≡ slot (scope_of_names self.now) name.now }
    {
        match self.typed.variable(name) {
            Some(number) => number as u32,
            None => 0,
        }
    }

    /// What puts the value of a variable or a constant on the stack.
    #[tactic(auto, using(crate::proofs::NumberLemmas::number_within))]
    pub fn load(&self, name: &Name) -> Instr
        requires { IsMade self.now }
        ensures { result ≡ name_code (scope_of_names self.now) name.now }
    {
        match self.typed.variable(name) {
            Some(number) => Instr::Load(number as u32),
            None => Instr::Lit(self.constant(name)),
        }
    }

    /// The value of a constant; zero for an unknown name, which a well-typed plan has nowhere.
    fn constant(&self, name: &Name) -> Dec
        ensures { result ≡ unwrap_or (constant_in (scope_of_names self.now) name.now) zero }
    {
        self.typed.constant_value(name).unwrap_or(Dec::new(0, 0))
    }

    /// The number of a table; 0 for an unknown name, which a well-typed plan has nowhere.
    #[tactic(auto, using(crate::proofs::NumberLemmas::number_within))]
    pub fn table(&self, name: &Name) -> u32
        requires { IsMade self.now }
        ensures { result ≡ table_number (scope_of_names self.now) name.now }
    {
        if let Some(number) = self.typed.variable(name) {
            return number as u32;
        }
        match self.typed.constant(name) {
            Some(number) => (self.variables() + number) as u32,
            None => 0,
        }
    }

    /// How many variables there are.
    fn variables(&self) -> usize
        requires { IsMade self.now }
        ensures { result ≡ length (scope_of_names self.now).variables }
    {
        let plan = self.typed.plan();
        plan.inputs.len() + plan.outputs.len() + plan.internals.len()
    }

    /// The first instruction of a method; 0 for an unknown name, which a well-typed plan executes nowhere.
    #[tactic(auto, using(crate::proofs::NumberLemmas::length_entries))]
    pub fn entry(&self, name: &Name) -> u32
        requires { IsMade self.now }
        ensures { result ≡ entry_in self.now name.now }
    {
        match self.typed.method(name) {
            Some(number) => self.entries[number],
            None => 0,
        }
    }

    /// The number of the divisor that the text of a `divide(d)` shows; 0 where it shows none, which is so nowhere in a
    /// well-typed plan.
    pub fn shown_number(&self, divisor: &Expr) -> i128
        ensures { result ≡ shown_number (scope_of_names self.now) (term_of divisor.now) }
    {
        match self.typed.shown_divisor(divisor) {
            Some(number) => number.numerator(),
            None => 0,
        }
    }
}
