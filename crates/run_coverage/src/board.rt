//! The tallies of all statements.
ghost use Rattle.std.specs.Prelude.{◌≡◌, IfOk, map};
ghost use Rattle.std.specs.List.{fold};
ghost use Rattle.pap_tree.specs.Flowchart.{flowchart_of};
ghost use Rattle.run_coverage.specs.Coverage.{step_name, step_statement, numbered};
ghost use Rattle.run_coverage.specs.private.Tallies.{no_statements, touched, with_step, after_step};

use crate::statement::StatementTally;
use month_trace::TraceStep;
use pap_tree::Name;
use pap_types::Typed;
use std::alloc::{AllocError, Global};
use std::marker::Model;

/// The tallies of a method's statements, by their numbers.
#[derive(Drop)]
pub(crate) struct MethodTally {
    statements: Vec<StatementTally>,
}

impl Model for MethodTally {
    ghost use Rattle.std.specs.Prelude.{List};
    ghost use Rattle.run_coverage.specs.declared.statement.StatementTally.{StatementTally};

    ghost Value = { List StatementTally };

    ghost view = { λ m. m.statements.items };
}

impl MethodTally {
    /// No runs, for so many statements.
    fn none(alloc: Global, count: usize) -> Result<MethodTally, AllocError>
        ensures { IfOk result (λ m. m ≡ no_statements count) }
    {
        let mut statements = Vec::with_capacity(alloc, count)?;
        for _ in 0..count {
            statements.push(StatementTally::none())?;
        }
        Ok(MethodTally { statements })
    }

    /// The tallies of the statements.
    pub fn statements(&self) -> &[StatementTally]
        ensures { result.now ≡ self.now }
    {
        &self.statements
    }

    /// Counts a step of the run of a number at a statement. Nothing where there is no such statement.
    fn touch(&mut self, statement: usize, run: u64, step: &TraceStep)
        ensures { self.new ≡ touched statement (with_step run step.now) self.old }
    {
        touch_statement(&mut self.statements, statement, run, step);
    }
}

/// The tallies of methods with so many statements, before any run.
pub(crate) fn no_tallies(alloc: Global, counts: &[usize]) -> Result<Vec<MethodTally>, AllocError>
    ensures { IfOk result (λ methods. methods.items ≡ map no_statements counts.now) }
{
    let mut methods = Vec::with_capacity(alloc, counts.len())?;
    for count in counts {
        methods.push(MethodTally::none(alloc, *count)?)?;
    }
    Ok(methods)
}

/// Counts the steps of the run of a number. Most steps are of the same method as the step before, so a method is looked up by its
/// name only where another one begins or goes on.
pub(crate) fn count_steps(plan: &Typed, methods: &mut [MethodTally], run: u64, steps: &[TraceStep])
    ensures { methods.new ≡ fold (after_step (flowchart_of plan.now) run) methods.old steps.now }
{
    let mut last = NumberedMethod::of(plan, Name::main());
    for step in steps {
        last = count_step(plan, last, methods, run, step);
    }
}

/// Counts a step of the run of a number, and answers its method; `last` may be that of the step before.
fn count_step(
    plan: &Typed,
    last: NumberedMethod,
    methods: &mut [MethodTally],
    run: u64,
    step: &TraceStep,
) -> NumberedMethod
    requires { last.number ≡ numbered (flowchart_of plan.now) last.name }
    ensures counted { methods.new ≡ after_step (flowchart_of plan.now) run methods.old step.now }
    ensures number { result.number ≡ numbered (flowchart_of plan.now) result.name }
{
    let (name, statement) = place_of(step);
    let method = last.or_named(plan, name);
    if let Some(number) = method.number {
        touch_method(methods, number, statement as usize, run, step);
    }
    method
}

/// The method and the number of a step's statement.
fn place_of(step: &TraceStep) -> (&Name, u32)
    ensures name { result.0.now ≡ step_name step.now }
    ensures statement { result.1 ≡ step_statement step.now }
{
    match step {
        TraceStep::Set { method, stmt, .. }
        | TraceStep::Test { method, stmt, .. }
        | TraceStep::Enter { method, stmt, .. } => (method, *stmt),
    }
}

/// A method's name, with its number if the plan has the method.
#[derive(Clone, Copy)]
struct NumberedMethod {
    name: Name,
    number: Option<usize>,
}

impl NumberedMethod {
    /// The method of a name.
    fn of(plan: &Typed, name: Name) -> NumberedMethod
        ensures name { result.name ≡ name }
        ensures number { result.number ≡ numbered (flowchart_of plan.now) name }
    {
        let number = method_number(plan, &name);
        NumberedMethod { name, number }
    }

    /// The method of a name, which is looked up only where it isn't this one's.
    fn or_named(self, plan: &Typed, name: &Name) -> NumberedMethod
        requires { self.number ≡ numbered (flowchart_of plan.now) self.name }
        ensures name { result.name ≡ name.now }
        ensures number { result.number ≡ numbered (flowchart_of plan.now) name.now }
    {
        if self.name == *name {
            return self;
        }
        NumberedMethod::of(plan, *name)
    }
}

/// The number of a method: 0 is MAIN, and the others are counted from 1 in the order of the text.
fn method_number(plan: &Typed, name: &Name) -> Option<usize>
    ensures { result ≡ numbered (flowchart_of plan.now) name.now }
{
    if *name == Name::main() {
        return Some(0);
    }
    let _counted = plan.plan().methods.len();
    let number = plan.method(name)?;
    Some(number + 1)
}

/// Counts a step at a statement of a method. Nothing where there is no such statement.
fn touch_method(
    methods: &mut [MethodTally],
    method: usize,
    statement: usize,
    run: u64,
    step: &TraceStep,
)
    ensures { methods.new ≡ touched method (touched statement (with_step run step.now)) methods.old }
{
    if method < methods.len() {
        methods[method].touch(statement, run, step);
    }
}

/// Counts a step at a statement. Nothing where there is no such statement.
fn touch_statement(statements: &mut [StatementTally], at: usize, run: u64, step: &TraceStep)
    ensures { statements.new ≡ touched at (with_step run step.now) statements.old }
{
    if at < statements.len() {
        let tally = statements[at];
        statements[at] = tally.with_step(run, step);
    }
}
