//! The faults of all expressions of a plan.
ghost use Rattle.std.specs.Prelude.{◌≡◌, ◌∷◌, ◌+◌, ◌<◌, ◌^◌, [], IfOk, OnOk, map};
ghost use Rattle.pap_tree.specs.Grammar.{Assignment, Constant, Level};
ghost use Rattle.pap_reader.specs.Trees.{done, raw_body_of, raw_declaration_of, raw_routine_of, raw_stmt_then, tree_of};
ghost use Rattle.pap_reader.specs.TreeLimits.{IsSmallTree, methods_written, raw_written};
ghost use Rattle.plan_text.specs.Sites.{body_sites, declared_sites, literal_sites, routine_sites, text_site, sites_of};
ghost use Rattle.diagnostics.specs.ExpressionFaults.{AreExpressionFaults, AreFaultsOf, FirstFaultIsAnswered, HaveOneFaultList};
ghost use Rattle.diagnostics.specs.private.FaultViews.{Finds, FindsStatement, Keeps};

use pap_expr::{ExprFault, parse_assign, parse_constant, parse_expr};
use pap_reader::{Elements, RawDeclared, RawMethod, RawStmt, ReadFault, read_elements};
use pap_tree::Name;
use plan_text::{PlanFault, Spot};
use std::alloc::{AllocError, Global};

/// The fault of each text of a plan that isn't an expression, in the order in which acceptance looks for the first: the literals of its
/// inputs, outputs, internals and constants, then the tests and assignments of MAIN and of the other methods. None where the plan's
/// elements aren't read. Fails only for lack of memory.
pub fn expression_faults(alloc: Global, plan: &[u8]) -> Result<Vec<PlanFault>, AllocError>
    ensures { IfOk result (λ faults. AreExpressionFaults plan.now faults.items) }
{
    match read_elements(alloc, plan) {
        Ok(elements) => faults_of(alloc, &elements),
        Err(ReadFault::Memory) => Err(AllocError),
        Err(_) => Ok(Vec::new(alloc)),
    }
}

/// The faults of the expressions of some elements.
fn faults_of(alloc: Global, elements: &Elements) -> Result<Vec<PlanFault>, AllocError>
    requires { IsSmallTree (tree_of elements.now) }
    ensures { IfOk result (λ faults. AreFaultsOf (sites_of (tree_of elements.now)) faults.items) }
{
    let mut finder = FaultFinder {
        alloc,
        faults: Vec::new(alloc),
    };
    finder.find_declared(&elements.inputs)?;
    finder.find_declared(&elements.outputs)?;
    finder.find_declared(&elements.internals)?;
    finder.find_declared(&elements.constants)?;
    let _ = finder.find_in_body(Name::main(), 0, &elements.main)?;
    finder.find_in_methods(&elements.methods)?;
    Ok(finder.faults)
}

/// Looks at texts one after the other, and keeps the fault of each that isn't an expression.
#[derive(Drop)]
struct FaultFinder {
    alloc: Global,
    faults: Vec<PlanFault>,
}

impl FaultFinder {
    /// Looks at the literals of declarations.
    fn find_declared(&mut self, raw: &[RawDeclared]) -> Result<(), AllocError>
        ensures { OnOk result (Finds (declared_sites (map raw_declaration_of raw.now))
            self.old.faults.items self.new.faults.items) }
    {
        for declaration in raw {
            self.find_literal(declaration)?;
        }
        Ok(())
    }

    /// Looks at the literal of a declaration, where one is written.
    fn find_literal(&mut self, raw: &RawDeclared) -> Result<(), AllocError>
        ensures { OnOk result (Finds (literal_sites (raw_declaration_of raw.now))
            self.old.faults.items self.new.faults.items) }
    {
        match &raw.value {
            None => Ok(()),
            Some(text) => self.try_constant(Spot::Declared { name: raw.name }, text),
        }
    }

    /// Looks at the statements of a list, of which the first has this number in its method. `Ok` has the number of what follows.
    #[cycle(find)]
    fn find_in_body(&mut self, method: Name, at: u32, raw: &[RawStmt]) -> Result<u32, AllocError>
        requires room { at + raw_written (raw_body_of raw.now) < 2 ^ 32 }
        ensures finds { OnOk result (Finds (body_sites method at (raw_body_of raw.now))
            self.old.faults.items self.new.faults.items) }
        ensures next { IfOk result (λ next. next ≡ at + raw_written (raw_body_of raw.now)) }
    {
        let mut next = at;
        for statement in raw {
            next = self.find_in_statement(method, next, statement)?;
        }
        Ok(next)
    }

    /// Looks at a statement of this number. `Ok` has the number of what follows.
    #[cycle(find)]
    fn find_in_statement(&mut self, method: Name, at: u32, raw: &RawStmt) -> Result<u32, AllocError>
        requires room { at + raw_written (raw_stmt_then raw.now done) < 2 ^ 32 }
        ensures { IfOk result (λ next. FindsStatement method at next raw.now
            self.old.faults.items self.new.faults.items) }
    {
        let spot = Spot::Statement { method, stmt: at };
        match raw {
            RawStmt::Eval { exec } => {
                self.try_assignment(spot, exec)?;
                Ok(at + 1)
            }
            RawStmt::If { test, yes, no } => {
                self.try_test(spot, test)?;
                let next = self.find_in_body(method, at + 1, yes)?;
                self.find_in_body(method, next, no)
            }
            RawStmt::Execute { .. } => Ok(at + 1),
        }
    }

    /// Looks at the statements of the methods beside MAIN.
    fn find_in_methods(&mut self, raw: &[RawMethod]) -> Result<(), AllocError>
        requires { methods_written (map raw_routine_of raw.now) < 2 ^ 32 }
        ensures { OnOk result (Finds (routine_sites (map raw_routine_of raw.now))
            self.old.faults.items self.new.faults.items) }
    {
        for method in raw {
            let _ = self.find_in_body(method.name, 0, &method.body)?;
        }
        Ok(())
    }

    /// Looks at the text of a literal.
    fn try_constant(&mut self, spot: Spot, text: &[u8]) -> Result<(), AllocError>
        ensures { OnOk result (Finds (text_site Constant text.now spot ∷ [])
            self.old.faults.items self.new.faults.items) }
    {
        let found = parse_constant(self.alloc, text).err();
        self.put(spot, found)
    }

    /// Looks at the text of a test.
    fn try_test(&mut self, spot: Spot, text: &[u8]) -> Result<(), AllocError>
        ensures { OnOk result (Finds (text_site (Level 0) text.now spot ∷ [])
            self.old.faults.items self.new.faults.items) }
    {
        let found = parse_expr(self.alloc, text).err();
        self.put(spot, found)
    }

    /// Looks at the text of an assignment.
    fn try_assignment(&mut self, spot: Spot, text: &[u8]) -> Result<(), AllocError>
        ensures { OnOk result (Finds (text_site Assignment text.now spot ∷ [])
            self.old.faults.items self.new.faults.items) }
    {
        let found = parse_assign(self.alloc, text).err();
        self.put(spot, found)
    }

    /// Keeps the fault of a text, where it has one.
    fn put(&mut self, spot: Spot, found: Option<ExprFault>) -> Result<(), AllocError>
        ensures { OnOk result (Keeps spot found self.old.faults.items self.new.faults.items) }
    {
        match found {
            None => Ok(()),
            Some(ExprFault::Memory) => Err(AllocError),
            Some(fault) => {
                self.faults.push(PlanFault::Expr { spot, fault })?;
                Ok(())
            }
        }
    }
}

/// Laws, with nothing to run: the list of a plan's faults is determined, and its first is the one with which the plan is refused.
pub fn expression_laws()
    ensures one { HaveOneFaultList }
    ensures first { FirstFaultIsAnswered }
{}
