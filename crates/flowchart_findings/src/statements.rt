//! The findings of statements.
ghost use Rattle.std.specs.Prelude.{◌≡◌, ◌+◌, ◌++◌, ◌<◌, ◌^◌, false, OnOk};
ghost use Rattle.pap_tree.specs.Flowchart.{body_of, stmt_then, done};
ghost use Rattle.pap_tree.specs.Statements.{written};
ghost use Rattle.flowchart_findings.specs.Findings.{begins_dead, dead_first};
ghost use Rattle.flowchart_findings.specs.private.StatementViews.{dead_in, closed_in, site_in, dead_found, value_found, tests_found, never_true_found, never_false_found, FindsInBody, FindsInBranches, FindsInMethod};

use crate::finding::{Finding, StatementSite};
use crate::name_sets::NameSets;
use pap_tree::{Name, Stmt, written, written_in};
use std::alloc::AllocError;
use std::collections::BTreeSet;

/// A method whose statements are looked at, with what is known of the flowchart.
#[derive(Clone, Copy)]
pub(crate) struct Inspection<'a> {
    /// The statements that a run may execute.
    pub reached: &'a BTreeSet<(Name, u32)>,
    /// The exits of IFs that a run may take, each by whether its test holds there.
    pub exits: &'a BTreeSet<(Name, u32, bool)>,
    /// The flowchart's names.
    pub names: &'a NameSets,
    /// The method.
    pub method: Name,
    /// Its number: MAIN is 0, and the others are counted from 1.
    pub method_number: usize,
}

impl Inspection<'_> {
    /// Appends the findings of the method, which isn't MAIN: that it is dead, or those of its statements.
    pub fn add_method(&self, out: &mut Vec<Finding>, body: &[Stmt]) -> Result<(), AllocError>
        requires room { written (body_of body.now) < 2 ^ 32 }
        ensures { OnOk result (FindsInMethod self.now (body_of body.now)
            out.old.items out.new.items) }
    {
        if self.begins_dead(body, 0) {
            let method = self.method;
            let method_number = self.method_number;
            out.push(Finding::DeadMethod {
                method,
                method_number,
            })?;
            return Ok(());
        }
        self.add_body(out, body, 0)?;
        Ok(())
    }

    /// Appends the findings of a list of statements that are numbered from `at`; gives the number behind them.
    #[cycle(findings)]
    pub fn add_body(
        &self,
        out: &mut Vec<Finding>,
        body: &[Stmt],
        at: u32,
    ) -> Result<u32, AllocError>
        requires room { at + written (body_of body.now) < 2 ^ 32 }
        ensures { FindsInBody self.now at false (body_of body.now)
            out.old.items out.new.items result }
    {
        let mut number = at;
        let mut is_behind_dead = false;
        for stmt in body {
            let dead = self.is_dead(number);
            number = self.add_statement(out, stmt, number, is_behind_dead)?;
            is_behind_dead = dead;
        }
        Ok(number)
    }

    /// Appends the findings of a statement; gives the number behind it and those inside it. Of dead statements that follow one another
    /// in a list the first is told.
    #[cycle(findings)]
    fn add_statement(
        &self,
        out: &mut Vec<Finding>,
        stmt: &Stmt,
        number: u32,
        is_behind_dead: bool,
    ) -> Result<u32, AllocError>
        requires room { number + written (stmt_then stmt.now done) < 2 ^ 32 }
        ensures { FindsInBody self.now number is_behind_dead (stmt_then stmt.now done)
            out.old.items out.new.items result }
    {
        if self.is_dead(number) {
            self.add_dead(out, number, is_behind_dead)?;
            return Ok(number + written_in(stmt));
        }
        match stmt {
            Stmt::Eval { target, .. } => {
                self.add_value(out, target, number)?;
                Ok(number + 1)
            }
            Stmt::If { yes, no, .. } => self.add_branches(out, yes, no, number),
            Stmt::Execute { .. } => Ok(number + 1),
        }
    }

    /// Appends the findings of an IF that may be executed: those of its test, and those inside it.
    #[cycle(findings)]
    fn add_branches(
        &self,
        out: &mut Vec<Finding>,
        yes: &[Stmt],
        no: &[Stmt],
        number: u32,
    ) -> Result<u32, AllocError>
        requires room { number + 1 + written (body_of yes.now) + written (body_of no.now) < 2 ^ 32 }
        ensures { FindsInBranches self.now number (body_of yes.now) (body_of no.now)
            out.old.items out.new.items result }
    {
        let first = number + 1;
        let second = first + written(yes);
        self.add_tests(out, yes, no, number, second)?;
        self.add_body(out, yes, first)?;
        self.add_body(out, no, second)
    }

    /// Appends that the test of an IF never holds, or always, where that is so; the second list is numbered from `second`.
    fn add_tests(
        &self,
        out: &mut Vec<Finding>,
        yes: &[Stmt],
        no: &[Stmt],
        number: u32,
        second: u32,
    ) -> Result<(), AllocError>
        requires room { number + 1 < 2 ^ 32 }
        ensures { OnOk result (out.new.items ≡ out.old.items
            ++ tests_found self.now number (body_of yes.now) second (body_of no.now)) }
    {
        self.add_never_true(out, yes, number, number + 1)?;
        self.add_never_false(out, no, number, second)
    }

    /// Appends that the test of an IF never holds, if no run takes that exit; the first list is numbered from `first`.
    fn add_never_true(
        &self,
        out: &mut Vec<Finding>,
        yes: &[Stmt],
        number: u32,
        first: u32,
    ) -> Result<(), AllocError>
        ensures { OnOk result (out.new.items ≡ out.old.items
            ++ never_true_found self.now number first (body_of yes.now)) }
    {
        if self.is_closed(number, true) {
            let site = self.site(number);
            let first = self.dead_first(yes, first);
            out.push(Finding::NeverTrue { site, first })?;
        }
        Ok(())
    }

    /// Appends that it always holds, if no run takes the exit where it fails; the second list is numbered from `first`.
    fn add_never_false(
        &self,
        out: &mut Vec<Finding>,
        no: &[Stmt],
        number: u32,
        first: u32,
    ) -> Result<(), AllocError>
        ensures { OnOk result (out.new.items ≡ out.old.items
            ++ never_false_found self.now number first (body_of no.now)) }
    {
        if self.is_closed(number, false) {
            let site = self.site(number);
            let first = self.dead_first(no, first);
            out.push(Finding::NeverFalse { site, first })?;
        }
        Ok(())
    }

    /// Appends that a statement is dead, if the one before it isn't.
    fn add_dead(
        &self,
        out: &mut Vec<Finding>,
        number: u32,
        is_behind_dead: bool,
    ) -> Result<(), AllocError>
        ensures { OnOk result (out.new.items ≡ out.old.items
            ++ dead_found self.now number is_behind_dead) }
    {
        if !is_behind_dead {
            out.push(Finding::DeadStatement(self.site(number)))?;
        }
        Ok(())
    }

    /// Appends that an EVAL assigns to an internal name that no expression names, if it does.
    fn add_value(
        &self,
        out: &mut Vec<Finding>,
        target: &Name,
        number: u32,
    ) -> Result<(), AllocError>
        ensures { OnOk result (out.new.items ≡ out.old.items
            ++ value_found self.now target.now number) }
    {
        if self.names.is_unused(target) {
            let site = self.site(number);
            let target = *target;
            out.push(Finding::UnusedValue { site, target })?;
        }
        Ok(())
    }

    /// The number `at` of the first statement of a list, if it has one and that is dead.
    fn dead_first(&self, body: &[Stmt], at: u32) -> Option<u32>
        ensures { result ≡ dead_first (dead_in self.now) at (body_of body.now) }
    {
        if self.begins_dead(body, at) {
            Some(at)
        } else {
            None
        }
    }

    /// Whether a list of statements that are numbered from `at` has a first one, and that is dead.
    #[tactic(auto, using(crate::proofs::StatementLemmas::begins_none, crate::proofs::StatementLemmas::begins_some))]
    fn begins_dead(&self, body: &[Stmt], at: u32) -> bool
        ensures { result ≡ begins_dead (dead_in self.now) at (body_of body.now) }
    {
        !body.is_empty() && self.is_dead(at)
    }

    /// Whether no run executes the statement of a number.
    fn is_dead(&self, number: u32) -> bool
        ensures { result ≡ dead_in self.now number }
    {
        !self.reached.contains(&(self.method, number))
    }

    /// Whether no run takes that exit of the IF of a number.
    fn is_closed(&self, number: u32, holds: bool) -> bool
        ensures { result ≡ closed_in self.now number holds }
    {
        !self.exits.contains(&(self.method, number, holds))
    }

    fn site(&self, number: u32) -> StatementSite
        ensures { result ≡ site_in self.now number }
    {
        StatementSite {
            method: self.method,
            method_number: self.method_number,
            statement: number,
        }
    }
}
