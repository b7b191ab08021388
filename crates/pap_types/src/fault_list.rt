//! All faults of a plan's names and kinds.
ghost use Rattle.std.specs.Prelude.{◌≡◌, ◌∷◌, ◌++◌, ◌+◌, ◌<◌, ◌^◌, [], false, if◌then◌else◌, IfOk, OnOk, All, map};
ghost use Rattle.std.specs.List.{list_any};
ghost use Rattle.pap_tree.specs.Declarations.{declaration_of};
ghost use Rattle.pap_tree.specs.Flowchart.{Flowchart, done, stmt_then, body_of, routine_of, flowchart_of};
ghost use Rattle.pap_tree.specs.Names.{main_name};
ghost use Rattle.pap_tree.specs.Statements.{written};
ghost use Rattle.pap_types.specs.AllFaults.{own_fault, type_faults, statement_faults, is_twice, RefusedByFirst, FaultlessIsWellTyped};
ghost use Rattle.pap_types.specs.Checks.{check};
ghost use Rattle.pap_types.specs.Counts.{AreSmallTerms, methods_written, IsWithinCounts};
ghost use Rattle.pap_types.specs.NumberedNames.{IsNumbered};
ghost use Rattle.pap_types.specs.Scopes.{variables_of};
ghost use Rattle.pap_types.specs.private.FaultViews.{KeepsFault, FindsNames, as_declaration, AreNameFaults, faults_from, method_faults_in, other_faults_in};
ghost use Rattle.pap_types.specs.private.PlanViews.{AreEmpty};
ghost use Rattle.pap_types.specs.private.StatementViews.{AreNumbered};

use crate::TypeFault;
use crate::declarations::{declare_one, name_method};
use crate::declared_names::DeclaredNames;
use crate::name_hashes::NameHashes;
use crate::scope::{Names, Scope};
use crate::statements::Checking;
use pap_tree::{Declared, Method, Name, PlanText, Stmt};
use std::alloc::{AllocError, Global};

/// All faults of a plan's names and kinds, in the order in which `check_types` looks for the first: each declaration, each name of a method
/// and each statement may have one. Where a name stands twice, there are none of statements. It takes time linear in the plan, with a
/// factor logarithmic in the number of its names. Fails only for lack of memory.
pub fn type_faults(alloc: Global, plan: &PlanText) -> Result<Vec<TypeFault>, AllocError>
    requires counted { IsWithinCounts (flowchart_of plan.now) }
    ensures { IfOk result (λ faults. faults.items ≡ type_faults (flowchart_of plan.now)) }
{
    let hashes = NameHashes::of_plan(plan);
    let none = DeclaredNames::new(alloc, hashes);
    let mut names = Names::new(alloc, hashes);
    let mut finder = FaultFinder {
        faults: Vec::new(alloc),
    };
    finder.find_in_names(&mut names, &none, plan)?;
    let names = &names;
    finder.find_in_statements(&Scope { plan, names })?;
    Ok(finder.faults)
}

/// Looks at declarations, names of methods and statements one after the other, and keeps the fault of each.
#[derive(Drop)]
struct FaultFinder {
    faults: Vec<TypeFault>,
}

impl FaultFinder {
    /// Looks at the names of a plan, and numbers them.
    fn find_in_names(
        &mut self,
        names: &mut Names,
        none: &DeclaredNames,
        plan: &PlanText,
    ) -> Result<(), AllocError>
        requires nothing { AreEmpty names.old }
        requires none { none.now ≡ [] }
        requires faultless { self.old.faults.items ≡ [] }
        ensures { OnOk result (AreNameFaults plan.now names.new self.new.faults.items) }
    {
        self.find_in_variables(&mut names.variables, none, plan)?;
        self.find_declared(&mut names.constants, &names.variables, &plan.constants)?;
        self.find_named(&mut names.methods, &plan.methods)
    }

    /// Looks at the inputs, outputs and internals of a plan.
    fn find_in_variables(
        &mut self,
        names: &mut DeclaredNames,
        none: &DeclaredNames,
        plan: &PlanText,
    ) -> Result<(), AllocError>
        ensures { OnOk result (FindsNames none.now names.old names.new
            self.old.faults.items self.new.faults.items (variables_of (flowchart_of plan.now))) }
    {
        self.find_declared(names, none, &plan.inputs)?;
        self.find_declared(names, none, &plan.outputs)?;
        self.find_declared(names, none, &plan.internals)
    }

    /// Looks at declarations, and adds their names behind earlier ones.
    fn find_declared(
        &mut self,
        names: &mut DeclaredNames,
        earlier: &DeclaredNames,
        declared: &[Declared],
    ) -> Result<(), AllocError>
        ensures { OnOk result (FindsNames earlier.now names.old names.new
            self.old.faults.items self.new.faults.items (map declaration_of declared.now)) }
    {
        for declaration in declared {
            self.find_in_declaration(names, earlier, declaration)?;
        }
        Ok(())
    }

    fn find_in_declaration(
        &mut self,
        names: &mut DeclaredNames,
        earlier: &DeclaredNames,
        declared: &Declared,
    ) -> Result<(), AllocError>
        ensures { OnOk result (FindsNames earlier.now names.old names.new
            self.old.faults.items self.new.faults.items (declaration_of declared.now ∷ [])) }
    {
        self.keep(declare_one(names, earlier, declared))
    }

    /// Looks at the names of methods, and adds them behind that of MAIN.
    fn find_named(
        &mut self,
        names: &mut DeclaredNames,
        methods: &[Method],
    ) -> Result<(), AllocError>
        ensures { OnOk result (FindsNames (main_name ∷ []) names.old names.new
            self.old.faults.items self.new.faults.items
            (map as_declaration (map routine_of methods.now))) }
    {
        for method in methods {
            self.find_in_name(names, method)?;
        }
        Ok(())
    }

    fn find_in_name(&mut self, names: &mut DeclaredNames, method: &Method) -> Result<(), AllocError>
        ensures { OnOk result (FindsNames (main_name ∷ []) names.old names.new
            self.old.faults.items self.new.faults.items
            (as_declaration (routine_of method.now) ∷ [])) }
    {
        self.keep(name_method(names, method.name))
    }

    /// Looks at the statements of MAIN, then at those of the methods, unless a name stands twice.
    fn find_in_statements(&mut self, scope: &Scope<'_>) -> Result<(), AllocError>
        requires numbered { list_any is_twice self.old.faults.items ≡ false
            → IsNumbered scope.now.plan.now scope.now.names.now }
        requires counted { IsWithinCounts (flowchart_of scope.now.plan.now) }
        ensures { OnOk result (self.new.faults.items ≡ self.old.faults.items
            ++ (if list_any is_twice self.old.faults.items then []
            else statement_faults (flowchart_of scope.now.plan.now))) }
    {
        if stands_twice(&self.faults) {
            return Ok(());
        }
        self.find_in_method(scope, Name::main(), &scope.plan.main)?;
        self.find_in_methods(scope, &scope.plan.methods)
    }

    fn find_in_methods(&mut self, scope: &Scope<'_>, methods: &[Method]) -> Result<(), AllocError>
        requires numbered { IsNumbered scope.now.plan.now scope.now.names.now }
        requires small { All (λ m. AreSmallTerms m.body) (map routine_of methods.now) }
        requires room { methods_written (map routine_of methods.now) < 2 ^ 32 }
        ensures { OnOk result (self.new.faults.items ≡ self.old.faults.items
            ++ other_faults_in scope.now (map routine_of methods.now)) }
    {
        for method in methods {
            self.find_in_method(scope, method.name, &method.body)?;
        }
        Ok(())
    }

    fn find_in_method(
        &mut self,
        scope: &Scope<'_>,
        method: Name,
        body: &[Stmt],
    ) -> Result<(), AllocError>
        requires numbered { IsNumbered scope.now.plan.now scope.now.names.now }
        requires small { AreSmallTerms (body_of body.now) }
        requires room { written (body_of body.now) < 2 ^ 32 }
        ensures { OnOk result (self.new.faults.items ≡ self.old.faults.items
            ++ method_faults_in scope.now method (body_of body.now)) }
    {
        let scope = *scope;
        let _ = self.find_in_body(&Checking { scope, method }, body, 0)?;
        Ok(())
    }

    /// Looks at the statements of a list, which are numbered from `at`. `Ok` has the number of what follows.
    #[cycle(find)]
    fn find_in_body(
        &mut self,
        checking: &Checking<'_>,
        body: &[Stmt],
        at: u32,
    ) -> Result<u32, AllocError>
        requires numbered { AreNumbered checking.now }
        requires small { AreSmallTerms (body_of body.now) }
        requires room { at + written (body_of body.now) < 2 ^ 32 }
        ensures finds { OnOk result (self.new.faults.items ≡ self.old.faults.items
            ++ faults_from checking.now at (body_of body.now)) }
        ensures next { IfOk result (λ next. next ≡ at + written (body_of body.now)) }
    {
        let mut number = at;
        for stmt in body {
            number = self.find_in_statement(checking, stmt, number)?;
        }
        Ok(number)
    }

    /// Looks at a statement of this number. `Ok` has the number of what follows.
    #[cycle(find)]
    fn find_in_statement(
        &mut self,
        checking: &Checking<'_>,
        stmt: &Stmt,
        number: u32,
    ) -> Result<u32, AllocError>
        requires numbered { AreNumbered checking.now }
        requires small { AreSmallTerms (stmt_then stmt.now done) }
        requires room { number + written (stmt_then stmt.now done) < 2 ^ 32 }
        ensures finds { OnOk result (self.new.faults.items ≡ self.old.faults.items
            ++ faults_from checking.now number (stmt_then stmt.now done)) }
        ensures next { IfOk result (λ next. next ≡ number + written (stmt_then stmt.now done)) }
    {
        let statement = checking.statement(number);
        match stmt {
            Stmt::Eval { target, value } => {
                self.keep(statement.check_eval(target, value))?;
                Ok(number + 1)
            }
            Stmt::If { test, yes, no } => {
                self.keep(statement.check_test(test))?;
                let next = self.find_in_body(checking, yes, number + 1)?;
                self.find_in_body(checking, no, next)
            }
            Stmt::Execute { method } => {
                let known = checking.scope.names.methods.contains(method);
                self.keep_unless(
                    known,
                    TypeFault::NoMethod {
                        place: statement.place(0),
                    },
                )?;
                Ok(number + 1)
            }
        }
    }

    /// Keeps the fault of a verdict, where it has one.
    fn keep(&mut self, verdict: Result<(), TypeFault>) -> Result<(), AllocError>
        ensures { OnOk result (KeepsFault verdict self.old.faults.items self.new.faults.items) }
    {
        match verdict {
            Ok(()) => Ok(()),
            Err(TypeFault::Memory(failed)) => Err(failed),
            Err(fault) => {
                self.faults.push(fault)?;
                Ok(())
            }
        }
    }

    /// Keeps the fault of a check that doesn't pass.
    fn keep_unless(&mut self, passes: bool, fault: TypeFault) -> Result<(), AllocError>
        ensures { OnOk result (self.new.faults.items
            ≡ self.old.faults.items ++ own_fault (check passes fault ∷ [])) }
    {
        if !passes {
            self.faults.push(fault)?;
        }
        Ok(())
    }
}

/// Whether one of these faults is that of a name that stands twice.
fn stands_twice(faults: &[TypeFault]) -> bool
    ensures { result ≡ list_any is_twice faults.now }
{
    faults.iter().any(is_twice)
}

fn is_twice(fault: &TypeFault) -> bool
    ensures { result ≡ is_twice fault.now }
{
    matches!(fault, TypeFault::Twice { .. })
}

/// Laws, with nothing to run: a plan is refused with the first of all its faults, and is well typed exactly where it has none.
pub fn type_fault_laws()
    ensures first { (f : Flowchart) → RefusedByFirst f }
    ensures none { (f : Flowchart) → FaultlessIsWellTyped f }
{}
