//! The statements of a plan, with their expressions.
ghost use Rattle.std.specs.Prelude.{◌≡◌, ◌+◌, ◌<◌, ◌^◌, [], ◌∷◌, OnOk, map};
ghost use Rattle.pap_tree.specs.Flowchart.{body_of, routine_of};
ghost use Rattle.pap_reader.specs.Trees.{done, raw_body_of, raw_stmt_then, raw_routine_of};
ghost use Rattle.pap_reader.specs.TreeLimits.{raw_written, methods_written};
ghost use Rattle.pap_tree.specs.Grammar.{Level, Assignment};
ghost use Rattle.plan_text.specs.Plans.{IsBody, AreRoutines};
ghost use Rattle.plan_text.specs.Sites.{text_site, body_sites, routine_sites};
ghost use Rattle.plan_text.specs.private.Views.{Tells, TellsStatement, IsAssignment, IsTest};
ghost use Rattle.plan_text.specs.declared.fault.Spot.TheVariants.{Statement};

use crate::PlanFault;
use crate::fault::{Spot, expr_fault};
use pap_expr::{parse_assign, parse_expr};
use pap_reader::{RawMethod, RawStmt};
use pap_tree::{Expr, Method, Name, Stmt};
use std::alloc::Global;

/// Reads the statements of one method, and numbers them.
#[derive(Drop)]
struct StatementReader {
    alloc: Global,
    method: Name,
    next: u32,
}

impl StatementReader {
    /// The statements of a list.
    #[cycle(read)]
    fn read_body(&mut self, raw: &[RawStmt]) -> Result<Vec<Stmt>, PlanFault>
        requires room { self.old.next + raw_written (raw_body_of raw.now) < 2 ^ 32 }
        ensures says { Tells (body_sites self.old.method self.old.next (raw_body_of raw.now))
            (λ read. IsBody (raw_body_of raw.now) (body_of read.items)) result }
        ensures next { OnOk result
            (self.new.next ≡ self.old.next + raw_written (raw_body_of raw.now)) }
        ensures method { self.new.method ≡ self.old.method }
    {
        let mut read = Vec::new(self.alloc);
        for statement in raw {
            read.push(self.read_statement(statement)?)?;
        }
        Ok(read)
    }

    /// A statement.
    #[cycle(read)]
    fn read_statement(&mut self, raw: &RawStmt) -> Result<Stmt, PlanFault>
        requires room { self.old.next + raw_written (raw_stmt_then raw.now done) < 2 ^ 32 }
        ensures says { TellsStatement self.old.method self.old.next self.new.next raw.now result }
        ensures method { self.new.method ≡ self.old.method }
    {
        match raw {
            RawStmt::Eval { exec } => self.read_eval(exec),
            RawStmt::If { test, yes, no } => {
                let test = self.read_test(test)?;
                let yes = self.read_body(yes)?;
                let no = self.read_body(no)?;
                Ok(Stmt::If { test, yes, no })
            }
            RawStmt::Execute { method } => {
                self.next += 1;
                Ok(Stmt::Execute { method: *method })
            }
        }
    }

    /// The place of the next statement, which is then behind.
    fn next_spot(&mut self) -> Spot
        requires { self.old.next + 1 < 2 ^ 32 }
        ensures spot { result ≡ Statement self.old.method self.old.next }
        ensures next { self.new.next ≡ self.old.next + 1 }
        ensures method { self.new.method ≡ self.old.method }
    {
        let stmt = self.next;
        self.next += 1;
        Spot::Statement {
            method: self.method,
            stmt,
        }
    }

    /// The assignment of an EVAL.
    fn read_eval(&mut self, text: &[u8]) -> Result<Stmt, PlanFault>
        requires { self.old.next + 1 < 2 ^ 32 }
        ensures says { Tells
            (text_site Assignment text.now (Statement self.old.method self.old.next) ∷ [])
            (IsAssignment text.now) result }
        ensures next { self.new.next ≡ self.old.next + 1 }
        ensures method { self.new.method ≡ self.old.method }
    {
        let spot = self.next_spot();
        match parse_assign(self.alloc, text) {
            Ok((target, value)) => Ok(Stmt::Eval { target, value }),
            Err(fault) => Err(expr_fault(spot, fault)),
        }
    }

    /// The test of an IF.
    fn read_test(&mut self, text: &[u8]) -> Result<Expr, PlanFault>
        requires { self.old.next + 1 < 2 ^ 32 }
        ensures says { Tells
            (text_site (Level 0) text.now (Statement self.old.method self.old.next) ∷ [])
            (IsTest text.now) result }
        ensures next { self.new.next ≡ self.old.next + 1 }
        ensures method { self.new.method ≡ self.old.method }
    {
        let spot = self.next_spot();
        match parse_expr(self.alloc, text) {
            Ok(test) => Ok(test),
            Err(fault) => Err(expr_fault(spot, fault)),
        }
    }
}

/// The statements of a method.
pub(crate) fn read_statements(
    alloc: Global,
    method: Name,
    raw: &[RawStmt],
) -> Result<Vec<Stmt>, PlanFault>
    requires { raw_written (raw_body_of raw.now) < 2 ^ 32 }
    ensures { Tells (body_sites method 0 (raw_body_of raw.now))
        (λ read. IsBody (raw_body_of raw.now) (body_of read.items)) result }
{
    let mut reader = StatementReader {
        alloc,
        method,
        next: 0,
    };
    reader.read_body(raw)
}

/// The methods beside MAIN.
pub(crate) fn read_methods(alloc: Global, raw: &[RawMethod]) -> Result<Vec<Method>, PlanFault>
    requires { methods_written (map raw_routine_of raw.now) < 2 ^ 32 }
    ensures { Tells (routine_sites (map raw_routine_of raw.now))
        (λ read. AreRoutines (map raw_routine_of raw.now) (map routine_of read.items)) result }
{
    let mut methods = Vec::new(alloc);
    for method in raw {
        let name = method.name;
        let body = read_statements(alloc, name, &method.body)?;
        methods.push(Method { name, body })?;
    }
    Ok(methods)
}
