//! What a run did at each statement of a flowchart, for its drawings.
ghost use Rattle.std.specs.Prelude.{◌≡◌, IfOk, OnOk, map};
ghost use Rattle.std.specs.List.{fold};
ghost use Rattle.pap_tree.specs.Flowchart.{flowchart_of};
ghost use Rattle.run_trace.specs.RunMarks.{execution, executions_from, marks_with};
ghost use Rattle.run_trace.specs.private.MarkViews.{none_of, with_execution, changed_at, after_execution, mark_in};
ghost use Rattle.run_trace.specs.private.TellingViews.{KnowsStatements};

use crate::entries::place_of;
use crate::step_text::follow;
use crate::tally::Tally;
use crate::telling::{Telling, method_number};
use flowchart_methods::MethodMarks;
use month_trace::TraceStep;
use scaled_decimal::Dec;
use statement_list::{ListedMethod, ListedStatement};
use std::alloc::{AllocError, Global};
use std::marker::Model;

/// What is kept of a method's statements, by their numbers.
#[derive(Drop)]
struct MethodTally {
    statements: Vec<Tally>,
}

impl Model for MethodTally {
    ghost use Rattle.std.specs.Prelude.{List};
    ghost use Rattle.run_trace.specs.private.MarkTallies.{MarkTally};

    ghost Value = { List MarkTally };

    ghost view = { λ m. m.statements.items };
}

impl MethodTally {
    /// No execution of these statements.
    fn none(alloc: Global, listed: &[ListedStatement]) -> Result<MethodTally, AllocError>
        ensures { IfOk result (λ m. m ≡ none_of listed.now) }
    {
        let mut statements = Vec::with_capacity(alloc, listed.len())?;
        for statement in listed {
            statements.push(Tally::none(alloc, statement.form()))?;
        }
        Ok(MethodTally { statements })
    }

    /// Counts an execution of the statement of a number. Nothing where there is no such statement.
    fn add(
        &mut self,
        telling: Telling<'_>,
        values: &[Dec],
        statement: usize,
        number: usize,
        step: &TraceStep,
    ) -> Result<(), AllocError>
        requires { KnowsStatements telling }
        ensures { OnOk result (self.new ≡ changed_at statement
            (with_execution (flowchart_of telling.entry.plan.now)
            (execution number values.now step.now)) self.old) }
    {
        add_at(
            &mut self.statements,
            telling,
            values,
            statement,
            number,
            step,
        )
    }

    /// The marks of the statements, in a run of so many steps.
    fn marks(&self, alloc: Global, total: usize) -> Result<MethodMarks, AllocError>
        ensures { IfOk result (λ marks. marks ≡ map (mark_in total) self.now) }
    {
        let mut marks = Vec::with_capacity(alloc, self.statements.len())?;
        for statement in &self.statements {
            marks.push(statement.mark(alloc, total)?)?;
        }
        Ok(MethodMarks::new(marks))
    }
}

/// What a run did at each statement, by the steps of the run: MAIN first, and then the other methods in the order of the text. The
/// values are those with which it begins, and in the end those behind the last step.
pub(crate) fn run_marks(
    telling: Telling<'_>,
    values: &mut [Dec],
    steps: &[TraceStep],
) -> Result<Vec<MethodMarks>, AllocError>
    requires { KnowsStatements telling }
    ensures { IfOk result (λ marks. marks.items ≡ marks_with (flowchart_of telling.entry.plan.now)
        (executions_from (flowchart_of telling.entry.plan.now) 1 values.old steps.now)) }
{
    let mut tallies = no_tallies(telling.alloc, telling.methods)?;
    add_steps(telling, &mut tallies, values, steps)?;
    tallied_marks(telling.alloc, &tallies, steps.len())
}

/// Nothing of these methods.
fn no_tallies(alloc: Global, methods: &[ListedMethod]) -> Result<Vec<MethodTally>, AllocError>
    ensures { IfOk result (λ tallies. tallies.items ≡ map none_of methods.now) }
{
    let mut tallies = Vec::with_capacity(alloc, methods.len())?;
    for method in methods {
        tallies.push(MethodTally::none(alloc, method.statements())?)?;
    }
    Ok(tallies)
}

/// Counts the executions of a run.
fn add_steps(
    telling: Telling<'_>,
    tallies: &mut [MethodTally],
    values: &mut [Dec],
    steps: &[TraceStep],
) -> Result<(), AllocError>
    requires { KnowsStatements telling }
    ensures { OnOk result (tallies.new ≡ fold
        (after_execution (flowchart_of telling.entry.plan.now)) tallies.old
        (executions_from (flowchart_of telling.entry.plan.now) 1 values.old steps.now)) }
{
    for (at, step) in steps.iter().enumerate() {
        add_step(telling, tallies, values, at + 1, step)?;
        follow(telling, values, step);
    }
    Ok(())
}

/// Counts the execution of a number.
fn add_step(
    telling: Telling<'_>,
    tallies: &mut [MethodTally],
    values: &[Dec],
    number: usize,
    step: &TraceStep,
) -> Result<(), AllocError>
    requires { KnowsStatements telling }
    ensures { OnOk result (tallies.new ≡ after_execution (flowchart_of telling.entry.plan.now)
        tallies.old (execution number values.now step.now)) }
{
    let (name, statement) = place_of(step);
    match method_number(telling.plan, &name) {
        Some(method) => add_in(
            tallies,
            telling,
            values,
            (method, statement as usize),
            number,
            step,
        ),
        None => Ok(()),
    }
}

/// Counts an execution of the statement of a number of the method of a number. Nothing where there is no such statement.
fn add_in(
    tallies: &mut [MethodTally],
    telling: Telling<'_>,
    values: &[Dec],
    place: (usize, usize),
    number: usize,
    step: &TraceStep,
) -> Result<(), AllocError>
    requires { KnowsStatements telling }
    ensures { OnOk result (tallies.new ≡ changed_at place.0 (changed_at place.1
        (with_execution (flowchart_of telling.entry.plan.now)
        (execution number values.now step.now))) tallies.old) }
{
    let (method, statement) = place;
    if method >= tallies.len() {
        return Ok(());
    }
    tallies[method].add(telling, values, statement, number, step)
}

/// Counts an execution of the statement of a number. Nothing where there is no such statement.
fn add_at(
    statements: &mut [Tally],
    telling: Telling<'_>,
    values: &[Dec],
    at: usize,
    number: usize,
    step: &TraceStep,
) -> Result<(), AllocError>
    requires { KnowsStatements telling }
    ensures { OnOk result (statements.new ≡ changed_at at
        (with_execution (flowchart_of telling.entry.plan.now)
        (execution number values.now step.now)) statements.old) }
{
    if at >= statements.len() {
        return Ok(());
    }
    statements[at].add(telling, values, number, step)
}

/// The marks of all statements, in a run of so many steps.
fn tallied_marks(
    alloc: Global,
    tallies: &[MethodTally],
    total: usize,
) -> Result<Vec<MethodMarks>, AllocError>
    ensures { IfOk result (λ marks. marks.items ≡ map (map (mark_in total)) tallies.now) }
{
    let mut marks = Vec::with_capacity(alloc, tallies.len())?;
    for tally in tallies {
        marks.push(tally.marks(alloc, total)?)?;
    }
    Ok(marks)
}
