//! What is kept of the executions of a statement while a run is gone through.
ghost use Rattle.std.specs.Prelude.{◌≡◌, ◌∷◌, [], ◌++◌, codes, IfOk, OnOk, map};
ghost use Rattle.scaled_decimal.specs.PlainTexts.{plain_text};
ghost use Rattle.pap_tree.specs.Flowchart.{flowchart_of};
ghost use Rattle.run_trace.specs.StepLines.{step_place};
ghost use Rattle.run_trace.specs.RunMarks.{execution, has_answer, step_mark, test_mark, more_words, entry_shown, exit_kind, led_by, mark_lines};
ghost use Rattle.run_trace.specs.private.MarkViews.{no_executions, first_number, told_with, with_execution, mark_in};
ghost use Rattle.run_trace.specs.private.TellingViews.{KnowsStatements};

use crate::entries::{ENTRIES_AT_AN_END, answer_arrow, is_listed};
use crate::telling::Telling;
use flowchart_methods::{ExitKind, Mark, MarkKind};
use month_trace::TraceStep;
use pap_tree::Name;
use scaled_decimal::Dec;
use statement_list::Form;
use std::alloc::{AllocError, Global};
use std::marker::Model;

/// How many executions of a statement are told one by one.
const TOLD_ONE_BY_ONE: usize = 3;

/// A point at half height between two spaces.
const MIDDLE_POINT: &[u8] = b" \xc2\xb7 ";

/// The executions of a statement so far.
#[derive(Drop)]
pub(crate) struct Tally {
    form: Form,
    count: usize,
    /// The number of the first one in the run.
    first: usize,
    /// What came of the first ones.
    told: Vec<Vec<u8>>,
    yes: bool,
    no: bool,
}

impl Model for Tally {
    ghost use Rattle.std.specs.Prelude.{map};
    ghost use Rattle.run_trace.specs.private.MarkTallies.{MarkTally};

    ghost Value = { MarkTally };

    ghost view = { λ t. record { what = t.form; count = t.count; first = t.first; told = map (λ l. l.items) t.told.items; yes = t.yes; no = t.no } };
}

impl Tally {
    /// No execution of a statement that does this.
    pub fn none(alloc: Global, form: Form) -> Tally
        ensures { result ≡ no_executions form }
    {
        Tally {
            form,
            count: 0,
            first: 0,
            told: Vec::new(alloc),
            yes: false,
            no: false,
        }
    }

    /// Counts an execution, which has this number in the run. The values are those before it.
    pub fn add(
        &mut self,
        telling: Telling<'_>,
        values: &[Dec],
        number: usize,
        step: &TraceStep,
    ) -> Result<(), AllocError>
        requires { KnowsStatements telling }
        ensures { OnOk result (self.new ≡ with_execution (flowchart_of telling.entry.plan.now)
            (execution number values.now step.now) self.old) }
    {
        tell(telling, &mut self.told, self.count, values, step)?;
        self.first = first_number(self.count, self.first, number);
        // No memory holds so many steps that their number doesn't fit.
        self.count = self.count.checked_add(1).ok_or(AllocError)?;
        let yes = has_answer(true, step);
        let no = has_answer(false, step);
        self.yes = self.yes || yes;
        self.no = self.no || no;
        Ok(())
    }

    /// The mark of the statement, in a run of so many steps.
    pub fn mark(&self, alloc: Global, total: usize) -> Result<Mark, AllocError>
        ensures { IfOk result (λ mark. mark ≡ mark_in total self.now) }
    {
        if self.count == 0 {
            return Ok(Mark::none(alloc));
        }
        let first = entry_shown(total, self.first);
        let texts = self.texts(alloc)?;
        let lines = mark_lines(alloc, &self.form, texts)?;
        let kind = MarkKind::Run(first as u64);
        Ok(Mark::new(kind, lines, exit_kind(self.yes), exit_kind(self.no)))
    }

    /// What came of the first executions, and how many more there are.
    fn texts(&self, alloc: Global) -> Result<Vec<Vec<u8>>, AllocError>
        ensures { IfOk result (λ texts. map (λ t. t.items) texts.items
            ≡ self.now.told ++ more_words self.now.count) }
    {
        let mut texts = copies_of(alloc, &self.told)?;
        add_more(alloc, &mut texts, self.count)?;
        Ok(texts)
    }
}

/// The same texts.
fn copies_of(alloc: Global, texts: &[Vec<u8>]) -> Result<Vec<Vec<u8>>, AllocError>
    ensures { IfOk result (λ copies. map (λ t. t.items) copies.items
        ≡ map (λ t. t.items) texts.now) }
{
    let mut copies = Vec::with_capacity(alloc, texts.len() + 1)?;
    for text in texts {
        copies.push(copy_of(alloc, text)?)?;
    }
    Ok(copies)
}

/// The same text.
fn copy_of(alloc: Global, text: &[u8]) -> Result<Vec<u8>, AllocError>
    ensures { IfOk result (λ copy. copy.items ≡ text.now) }
{
    let mut copy = Vec::with_capacity(alloc, text.len())?;
    copy.extend_from_slice(text)?;
    Ok(copy)
}

/// The number of the first execution, where there were so many before this one.
fn first_number(count: usize, first: usize, number: usize) -> usize
    ensures { result ≡ first_number count first number }
{
    if count == 0 { number } else { first }
}

/// The entry of the list of the run to which that of a number leads, of so many in all.
fn entry_shown(total: usize, number: usize) -> usize
    ensures { result ≡ entry_shown total number }
{
    if is_listed(total, number) {
        number
    } else {
        ENTRIES_AT_AN_END
    }
}

/// What is known of an exit of a test, by whether the run took it.
fn exit_kind(is_taken: bool) -> ExitKind
    ensures { result ≡ exit_kind is_taken }
{
    if is_taken {
        ExitKind::Taken
    } else {
        ExitKind::Open
    }
}

/// Appends what came of an execution, where there were few enough before it.
fn tell(
    telling: Telling<'_>,
    told: &mut Vec<Vec<u8>>,
    count: usize,
    values: &[Dec],
    step: &TraceStep,
) -> Result<(), AllocError>
    requires { KnowsStatements telling }
    ensures { OnOk result (map (λ t. t.items) told.new.items
        ≡ told_with count (map (λ t. t.items) told.old.items)
        (step_mark (flowchart_of telling.entry.plan.now) values.now step.now)) }
{
    if count >= TOLD_ONE_BY_ONE {
        return Ok(());
    }
    let text = step_mark(telling, values, step)?;
    told.push(text)?;
    Ok(())
}

/// What came of a step.
fn step_mark(telling: Telling<'_>, values: &[Dec], step: &TraceStep) -> Result<Vec<u8>, AllocError>
    requires { KnowsStatements telling }
    ensures { IfOk result (λ text. text.items
        ≡ step_mark (flowchart_of telling.entry.plan.now) values.now step.now) }
{
    match step {
        TraceStep::Set { value, .. } => value_bytes(telling.alloc, *value),
        TraceStep::Test { method, stmt, yes } => test_mark(telling, values, method, *stmt, *yes),
        TraceStep::Enter { .. } => Ok(Vec::new(telling.alloc)),
    }
}

/// A value as a text.
fn value_bytes(alloc: Global, value: Dec) -> Result<Vec<u8>, AllocError>
    ensures { IfOk result (λ text. text.items ≡ plain_text value) }
{
    let text = format!(in alloc; "{value}")?;
    Ok(text.into_bytes())
}

/// The values that a test read, and how it was answered.
fn test_mark(
    telling: Telling<'_>,
    values: &[Dec],
    method: &Name,
    statement: u32,
    yes: bool,
) -> Result<Vec<u8>, AllocError>
    requires { KnowsStatements telling }
    ensures { IfOk result (λ text. text.items ≡ test_mark
        (flowchart_of telling.entry.plan.now) values.now (step_place method.now statement) yes) }
{
    let listed = telling.listed(method, statement);
    let mut text = telling.test_operands(values, listed)?;
    text.extend_from_slice(answer_arrow(yes))?;
    Ok(text)
}

/// Whether a step is a test that was answered so.
fn has_answer(way: bool, step: &TraceStep) -> bool
    ensures { result ≡ has_answer way step.now }
{
    match step {
        TraceStep::Test { yes, .. } => { if way { *yes } else { !*yes } }
        TraceStep::Set { .. } | TraceStep::Enter { .. } => false,
    }
}

/// Appends how many executions aren't told one by one, where there are such.
fn add_more(alloc: Global, texts: &mut Vec<Vec<u8>>, count: usize) -> Result<(), AllocError>
    ensures { OnOk result (map (λ t. t.items) texts.new.items
        ≡ map (λ t. t.items) texts.old.items ++ more_words count) }
{
    if count <= TOLD_ONE_BY_ONE {
        return Ok(());
    }
    let more = count - TOLD_ONE_BY_ONE;
    let text = format!(in alloc; "{more} more")?;
    texts.push(text.into_bytes())?;
    Ok(())
}

/// The lines below a statement that does this.
fn mark_lines(alloc: Global, form: &Form, texts: Vec<Vec<u8>>) -> Result<Vec<Vec<u8>>, AllocError>
    ensures { IfOk result (λ lines. map (λ l. l.items) lines.items
        ≡ mark_lines form.now (map (λ t. t.items) texts.items)) }
{
    match form {
        Form::Set(_) => value_line(alloc, &texts),
        Form::Test => Ok(texts),
        Form::Enter(_) => Ok(Vec::new(alloc)),
    }
}

/// Texts in one line, behind an equals sign.
fn value_line(alloc: Global, texts: &[Vec<u8>]) -> Result<Vec<Vec<u8>>, AllocError>
    ensures { IfOk result (λ lines. map (λ l. l.items) lines.items
        ≡ led_by (codes "= ") (map (λ t. t.items) texts.now) ∷ []) }
{
    let mut line = Vec::new(alloc);
    let mut lead: &[u8] = b"= ";
    for text in texts {
        line.extend_from_slice(lead)?;
        line.extend_from_slice(text)?;
        lead = MIDDLE_POINT;
    }
    let mut lines = Vec::new(alloc);
    lines.push(line)?;
    Ok(lines)
}
