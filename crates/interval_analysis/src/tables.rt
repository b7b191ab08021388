//! A plan with the ranges of its tables' items, computed once before the walk.
//!
//! The ranges of a table's items are joined once, each two neighbours, then each two of these, so that an item
//! whose index may be anything takes time with the logarithm of the table's length.
ghost use Rattle.std.specs.Prelude.{◌≡◌, ◌++◌, IfOk, OnOk};
ghost use Rattle.pap_types.specs.Scopes.{number_of, table_in};
ghost use Rattle.pap_types.specs.private.ScopeViews.{scope_in, variables_in};
ghost use Rattle.interval_analysis.specs.private.StartViews.{declarations};
ghost use Rattle.interval_analysis.specs.private.TableViews.{tables_of};

use interval_num::ItemRanges;
use pap_tree::{Declared, Name};
use pap_types::{Typed, items_of};
use std::alloc::{AllocError, Global};
use std::marker::Model;

/// A plan with the ranges of its tables' items. Contracts see the plan.
#[derive(Drop)]
pub(crate) struct TabledPlan<'a> {
    typed: &'a Typed,
    /// The tables of the variables by number, each empty where the variable isn't a table.
    variables: Vec<ItemRanges>,
    /// Those of the constants.
    constants: Vec<ItemRanges>,
    /// That of a name that isn't declared.
    none: ItemRanges,
}

impl<'a> Model for TabledPlan<'a> {
    ghost use Rattle.pap_tree.specs.declared.plan.PlanText.{PlanText};
    ghost use Rattle.pap_tree.specs.contracts.plan.Stmt as statement;
    ghost use Rattle.pap_tree.specs.contracts.expression.Expr as expression;
    ghost use Rattle.std.specs.Coded.{codes};
    ghost use Rattle.interval_analysis.specs.private.TableViews.{IsTabled};

    ghost Value = { PlanText };

    ghost coded = { Prim.hlevel (codes, statement.the_row.coded, expression.the_row.coded) };

    ghost view = { λ p. p.typed.now };

    ghost invariant = { λ p.
        IsTabled p.typed.now p.variables.items p.constants.items p.none };
}

impl<'a> TabledPlan<'a> {
    /// The plan with its tables. Takes time and memory as `ItemRanges::of` does for each of them.
    pub fn of(alloc: Global, typed: &'a Typed) -> Result<TabledPlan<'a>, AllocError>
        ensures { IfOk result (λ plan. plan ≡ typed.now) }
    {
        let text = typed.plan();
        let mut variables = Vec::new(alloc);
        push_tables(alloc, &mut variables, text.inputs.as_slice())?;
        push_tables(alloc, &mut variables, text.outputs.as_slice())?;
        push_tables(alloc, &mut variables, text.internals.as_slice())?;
        let mut constants = Vec::new(alloc);
        push_tables(alloc, &mut constants, text.constants.as_slice())?;
        let none = ItemRanges::of(alloc, &[])?;
        Ok(TabledPlan {
            typed,
            variables,
            constants,
            none,
        })
    }

    /// The plan itself.
    pub fn typed(&self) -> &Typed
        ensures { result.now ≡ self.now }
    {
        self.typed
    }

    /// The number of a variable.
    pub fn variable(&self, name: &Name) -> Option<usize>
        ensures { result ≡ number_of (variables_in self.now) name.now }
    {
        self.typed.variable(name)
    }

    /// The items of a table; a name that is none has no items.
    pub fn table(&self, name: &Name) -> &ItemRanges
        ensures { result.now ≡ table_in (scope_in self.now) name.now }
    {
        match self.typed.variable(name) {
            Some(number) => &self.variables[number],
            None => match self.typed.constant(name) {
                Some(number) => &self.constants[number],
                None => &self.none,
            },
        }
    }
}

/// Appends the tables of declared names.
fn push_tables(
    alloc: Global,
    tables: &mut Vec<ItemRanges>,
    declared: &[Declared],
) -> Result<(), AllocError>
    ensures { OnOk result
        (tables.new.items ≡ tables.old.items ++ tables_of (declarations declared.now)) }
{
    for name in declared {
        tables.push(ItemRanges::of(alloc, items_of(name))?)?;
    }
    Ok(())
}
