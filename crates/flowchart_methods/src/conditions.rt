//! Under which condition each statement of a method stands.
ghost use Rattle.std.specs.Prelude.{◌≡◌, ◌++◌, ◌∷◌, [], None, IfOk, OnOk};
ghost use Rattle.pap_reader.specs.Trees.{raw_body_of};
ghost use Rattle.chart_layout.specs.Statements.{statements_of, next_number, number_behind};
ghost use Rattle.flowchart_methods.specs.Conditions.{conditions_in, conditions_of};
ghost use Rattle.flowchart_methods.specs.private.Conditions.{statement_conditions, number_after};

use pap_reader::RawStmt;
use std::alloc::{AllocError, Global};

/// The test that is nearest to a statement, and on which of its ways the statement stands.
#[derive(Clone, Copy)]
pub struct Condition {
    /// The number of the test.
    pub test: u32,
    /// The test holds: the statement stands in its THEN, else in its ELSE.
    pub holds: bool,
}

/// Under which condition each statement of a method stands, by its number; `None` where it stands in no branch.
pub(crate) fn read_conditions(
    alloc: Global,
    statements: &[RawStmt],
) -> Result<Vec<Option<Condition>>, AllocError>
    ensures { IfOk result (λ conditions.
        conditions.items ≡ conditions_of (raw_body_of statements.now)) }
{
    let mut reading = Reading {
        next: 0,
        conditions: Vec::new(alloc),
    };
    reading.body(statements, None)?;
    Ok(reading.conditions)
}

/// What is read of a method.
#[derive(Drop)]
struct Reading {
    /// The number of the next statement.
    next: u32,
    /// The conditions of those before it.
    conditions: Vec<Option<Condition>>,
}

impl Reading {
    /// Reads the statements of a method or a branch.
    #[cycle(reading)]
    fn body(
        &mut self,
        statements: &[RawStmt],
        condition: Option<Condition>,
    ) -> Result<(), AllocError>
        ensures conditions { OnOk result (self.new.conditions.items ≡ self.old.conditions.items
            ++ conditions_in condition self.old.next (raw_body_of statements.now)) }
        ensures next { OnOk result
            (self.new.next ≡ number_behind self.old.next (statements_of (raw_body_of statements.now))) }
    {
        for statement in statements {
            self.statement(statement, condition)?;
        }
        Ok(())
    }

    /// Reads a statement, and those in its branches.
    #[cycle(reading)]
    fn statement(
        &mut self,
        statement: &RawStmt,
        condition: Option<Condition>,
    ) -> Result<(), AllocError>
        ensures conditions { OnOk result (self.new.conditions.items ≡ self.old.conditions.items
            ++ statement_conditions condition self.old.next statement.now) }
        ensures next { OnOk result (self.new.next ≡ number_after self.old.next statement.now) }
    {
        let test = self.next;
        self.note(condition)?;
        match statement {
            RawStmt::If { yes, no, .. } => {
                self.body(yes, Some(Condition { test, holds: true }))?;
                self.body(no, Some(Condition { test, holds: false }))?;
                Ok(())
            }
            RawStmt::Eval { .. } | RawStmt::Execute { .. } => Ok(()),
        }
    }

    /// Notes the condition of the next statement.
    fn note(&mut self, condition: Option<Condition>) -> Result<(), AllocError>
        ensures conditions { OnOk result
            (self.new.conditions.items ≡ self.old.conditions.items ++ condition ∷ []) }
        ensures next { OnOk result (self.new.next ≡ next_number self.old.next) }
    {
        self.conditions.push(condition)?;
        self.next = self.next.saturating_add(1);
        Ok(())
    }
}
