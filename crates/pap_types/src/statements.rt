//! The checks of statements, in the order of their numbers.
ghost use Rattle.std.specs.Prelude.{◌≡◌, ◌+◌, ◌<◌, ◌^◌, All, map};
ghost use Rattle.pap_tree.specs.Term.{term_of};
ghost use Rattle.pap_tree.specs.Flowchart.{done, stmt_then, body_of, routine_of, flowchart_of};
ghost use Rattle.pap_tree.specs.Statements.{written};
ghost use Rattle.pap_types.specs.Checks.{last_node};
ghost use Rattle.pap_types.specs.Counts.{IsSmallTerm, AreSmallTerms, methods_written, IsWithinCounts};
ghost use Rattle.pap_types.specs.private.CheckViews.{HasNumbers, scope_of_statement};
ghost use Rattle.pap_types.specs.NumberedNames.{IsNumbered};
ghost use Rattle.pap_types.specs.private.PlanViews.{statement_checks, method_checks_in, other_checks_in};
ghost use Rattle.pap_types.specs.private.StatementViews.{IsVerdict, TargetAnswer, IsWrongTarget, place_in, eval_checks_in, test_checks_in, AreNumbered, statement_of, BodyAnswer, BranchesAnswer};

use crate::TypeFault;
use crate::kinds::suits;
use crate::nodes::Statement;
use crate::scope::Scope;
use crate::sizes::node_count;
use pap_tree::{Expr, Kind, Method, Name, Place, Stmt};

impl Statement<'_> {
    /// An assignment: its target is a variable, its nodes pass, and the value suits the target.
    pub fn check_eval(&self, target: &Name, value: &Expr) -> Result<(), TypeFault>
        requires numbered { HasNumbers self.now }
        requires small { IsSmallTerm (term_of value.now) }
        ensures { IsVerdict (eval_checks_in self.now target.now (term_of value.now)) result }
    {
        let kind = self.target_kind(target, value)?;
        let checked = self.check(value, 0)?;
        if suits(kind, value, checked.kind) {
            Ok(())
        } else {
            Err(TypeFault::Kind {
                place: self.place(checked.next - 1),
            })
        }
    }

    /// A test: its nodes pass, and it is a truth.
    pub fn check_test(&self, test: &Expr) -> Result<(), TypeFault>
        requires numbered { HasNumbers self.now }
        requires small { IsSmallTerm (term_of test.now) }
        ensures { IsVerdict (test_checks_in self.now (term_of test.now)) result }
    {
        let checked = self.check(test, 0)?;
        if checked.kind.is_truth() {
            Ok(())
        } else {
            Err(TypeFault::Kind {
                place: self.place(checked.next - 1),
            })
        }
    }

    /// The type of the variable that is assigned to.
    fn target_kind(&self, target: &Name, value: &Expr) -> Result<Kind, TypeFault>
        requires numbered { HasNumbers self.now }
        requires small { IsSmallTerm (term_of value.now) }
        ensures { TargetAnswer (scope_of_statement self.now) target.now
            (place_in self.now (last_node (term_of value.now))) result }
    {
        match self.scope.variable(target) {
            Some(declared) => Ok(declared.kind),
            None => Err(self.wrong_target(target, self.place(node_count(value) - 1))),
        }
    }

    /// What is wrong with a target that isn't a variable.
    fn wrong_target(&self, target: &Name, place: Place) -> TypeFault
        requires numbered { HasNumbers self.now }
        ensures { IsWrongTarget (scope_of_statement self.now) target.now place result }
    {
        match self.scope.constant(target) {
            Some(_) => TypeFault::ConstantWritten { place },
            None => TypeFault::Unknown {
                name: *target,
                place,
            },
        }
    }
}

/// The method whose statements are checked.
#[derive(Clone, Copy)]
pub(crate) struct Checking<'a> {
    pub scope: Scope<'a>,
    pub method: Name,
}

impl Checking<'_> {
    /// Statements that are numbered from `at`: the number that follows theirs, or their first fault.
    #[cycle(check)]
    pub fn check_body(&self, body: &[Stmt], at: u32) -> Result<u32, TypeFault>
        requires numbered { AreNumbered self.now }
        requires small { AreSmallTerms (body_of body.now) }
        requires room { at + written (body_of body.now) < 2 ^ 32 }
        ensures { BodyAnswer self.now at (body_of body.now) result }
    {
        let mut number = at;
        for stmt in body {
            number = self.check_statement(stmt, number)?;
        }
        Ok(number)
    }

    #[cycle(check)]
    fn check_statement(&self, stmt: &Stmt, number: u32) -> Result<u32, TypeFault>
        requires numbered { AreNumbered self.now }
        requires small { AreSmallTerms (stmt_then stmt.now done) }
        requires room { number + written (stmt_then stmt.now done) < 2 ^ 32 }
        ensures { BodyAnswer self.now number (stmt_then stmt.now done) result }
    {
        let statement = self.statement(number);
        match stmt {
            Stmt::Eval { target, value } => {
                statement.check_eval(target, value)?;
                Ok(number + 1)
            }
            Stmt::If { test, yes, no } => {
                statement.check_test(test)?;
                self.check_branches(yes, no, number + 1)
            }
            Stmt::Execute { method } => {
                if !self.scope.names.methods.contains(method) {
                    return Err(TypeFault::NoMethod {
                        place: statement.place(0),
                    });
                }
                Ok(number + 1)
            }
        }
    }

    /// The two lists of a branch, the second of which is numbered behind the first.
    #[cycle(check)]
    fn check_branches(&self, yes: &[Stmt], no: &[Stmt], at: u32) -> Result<u32, TypeFault>
        requires numbered { AreNumbered self.now }
        requires yes_small { AreSmallTerms (body_of yes.now) }
        requires no_small { AreSmallTerms (body_of no.now) }
        requires room { at + written (body_of yes.now) + written (body_of no.now) < 2 ^ 32 }
        ensures { BranchesAnswer self.now at (body_of yes.now) (body_of no.now) result }
    {
        let next = self.check_body(yes, at)?;
        self.check_body(no, next)
    }

    /// The statement of a number.
    pub fn statement(&self, number: u32) -> Statement<'_>
        ensures { result ≡ statement_of self.now number }
    {
        Statement {
            scope: self.scope,
            method: self.method,
            number,
        }
    }
}

impl Scope<'_> {
    /// The statements of MAIN, then those of the other methods.
    pub fn check_statements(&self) -> Result<(), TypeFault>
        requires numbered { IsNumbered self.now.plan.now self.now.names.now }
        requires counted { IsWithinCounts (flowchart_of self.now.plan.now) }
        ensures { IsVerdict (statement_checks (flowchart_of self.now.plan.now)) result }
    {
        self.check_method(Name::main(), &self.plan.main)?;
        self.check_others(&self.plan.methods)
    }

    fn check_others(&self, methods: &[Method]) -> Result<(), TypeFault>
        requires numbered { IsNumbered self.now.plan.now self.now.names.now }
        requires small { All (λ m. AreSmallTerms m.body) (map routine_of methods.now) }
        requires room { methods_written (map routine_of methods.now) < 2 ^ 32 }
        ensures { IsVerdict (other_checks_in self.now (map routine_of methods.now)) result }
    {
        for method in methods {
            self.check_method(method.name, &method.body)?;
        }
        Ok(())
    }

    fn check_method(&self, method: Name, body: &[Stmt]) -> Result<(), TypeFault>
        requires numbered { IsNumbered self.now.plan.now self.now.names.now }
        requires small { AreSmallTerms (body_of body.now) }
        requires room { written (body_of body.now) < 2 ^ 32 }
        ensures { IsVerdict (method_checks_in self.now method (body_of body.now)) result }
    {
        let scope = *self;
        Checking { scope, method }.check_body(body, 0)?;
        Ok(())
    }
}
