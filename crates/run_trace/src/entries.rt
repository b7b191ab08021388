//! The list of a run's statements in a page.
ghost use Rattle.std.specs.Prelude.{◌≡◌, ◌++◌, IfOk, OnOk, option_map};
ghost use Rattle.pap_tree.specs.Flowchart.{flowchart_of};
ghost use Rattle.run_trace.specs.StepLines.{step_place};
ghost use Rattle.run_trace.specs.RunPages.{place_of, listed_text, step_code, step_outcome, answer_arrow, entry_words, entry_text, is_listed, gap_text, numbered_entry, numbered_entries};
ghost use Rattle.run_trace.specs.private.PageViews.{place_of_entry, words_of_entry};
ghost use Rattle.run_trace.specs.private.TellingViews.{KnowsStatements};

use crate::step_text::follow;
use crate::telling::Telling;
use flowchart_markup::{Fill, Page};
use month_trace::TraceStep;
use pap_tree::Name;
use scaled_decimal::Dec;
use statement_list::ListedStatement;
use std::alloc::{AllocError, Global};

/// How many entries the list has at its beginning and at its end, where it hasn't all.
pub(crate) const ENTRIES_AT_AN_END: usize = 500;

/// Appends what the list has for each step, of so many in all. The values are those before the first step, and in the end those behind the last.
pub(crate) fn write_entries(
    telling: Telling<'_>,
    page: &mut Page,
    values: &mut [Dec],
    total: usize,
    steps: &[TraceStep],
) -> Result<(), AllocError>
    requires { KnowsStatements telling }
    ensures { OnOk result (page.new ≡ page.old ++ numbered_entries
        (flowchart_of telling.entry.plan.now) telling.entry.lines.now values.old
        total 1 steps.now) }
{
    for (at, step) in steps.iter().enumerate() {
        write_numbered(telling, page, values, total, at + 1, step)?;
        follow(telling, values, step);
    }
    Ok(())
}

/// Appends what the list has for the step of a number, of so many in all: its entry, or in place of the first that is left out how
/// many are.
fn write_numbered(
    telling: Telling<'_>,
    page: &mut Page,
    values: &[Dec],
    total: usize,
    number: usize,
    step: &TraceStep,
) -> Result<(), AllocError>
    requires { KnowsStatements telling }
    ensures { OnOk result (page.new ≡ page.old ++ numbered_entry
        (flowchart_of telling.entry.plan.now) telling.entry.lines.now values.now
        total number step.now) }
{
    if is_listed(total, number) {
        return write_entry(telling, page, values, number, step);
    }
    if number == ENTRIES_AT_AN_END + 1 {
        return write_gap(page, total);
    }
    Ok(())
}

/// Whether the list has the entry of a number, of so many in all.
pub(crate) fn is_listed(total: usize, number: usize) -> bool
    ensures { result ≡ is_listed total number }
{
    number <= ENTRIES_AT_AN_END || total.saturating_sub(number) < ENTRIES_AT_AN_END
}

/// Appends how many entries are left out.
fn write_gap(page: &mut Page, total: usize) -> Result<(), AllocError>
    ensures { OnOk result (page.new ≡ page.old ++ gap_text total) }
{
    let left_out = total.saturating_sub(ENTRIES_AT_AN_END + ENTRIES_AT_AN_END);
    let next = total.saturating_sub(ENTRIES_AT_AN_END - 1);
    page.put(
        "</ol>\n<p>% statements of the run are left out here: the text of the run has all.</p>\n<ol class=\"run\" start=\"%\">\n",
        &[Fill::Number(left_out as u64), Fill::Number(next as u64)],
    )
}

/// An entry of the list.
#[derive(Clone, Copy)]
struct Entry<'a> {
    number: usize,
    method: Name,
    statement: u32,
    /// The line of the file.
    line: &'a [u8],
    /// What is carried out.
    code: &'a [u8],
    /// What comes of it.
    outcome: &'a [u8],
    /// The values that it reads.
    operands: &'a [u8],
}

/// Appends the entry of a step.
fn write_entry(
    telling: Telling<'_>,
    page: &mut Page,
    values: &[Dec],
    number: usize,
    step: &TraceStep,
) -> Result<(), AllocError>
    requires { KnowsStatements telling }
    ensures { OnOk result (page.new ≡ page.old ++ entry_text number (place_of step.now)
        (entry_words (flowchart_of telling.entry.plan.now) telling.entry.lines.now values.now step.now)) }
{
    let (method, statement) = place_of(step);
    let listed = telling.listed(&method, statement);
    let line = telling.line_words(&method, statement)?;
    let code = step_code(telling.alloc, listed_text(listed), step)?;
    let outcome = step_outcome(telling.alloc, step)?;
    let operands = telling.operands(values, listed)?;
    let entry = Entry {
        number,
        method,
        statement,
        line: line.as_bytes(),
        code: &code,
        outcome: &outcome,
        operands: &operands,
    };
    put_entry(page, entry)
}

/// Appends an entry.
fn put_entry(page: &mut Page, entry: Entry<'_>) -> Result<(), AllocError>
    ensures { OnOk result (page.new ≡ page.old
        ++ entry_text entry.entry.number (place_of_entry entry.entry) (words_of_entry entry.entry)) }
{
    let statement = u64::from(entry.statement);
    page.put(
        "<li id=\"visit-%\"><a href=\"#%:%\">%:%</a> <span>%</span> <code>%</code> <em>%</em> <span>%</span></li>\n",
        &[
            Fill::Number(entry.number as u64),
            Fill::OfName(entry.method),
            Fill::Number(statement),
            Fill::OfName(entry.method),
            Fill::Number(statement),
            Fill::Text(entry.line),
            Fill::Text(entry.code),
            Fill::Text(entry.outcome),
            Fill::Text(entry.operands),
        ],
    )
}

/// The place of a step: its method, and the number of its statement there.
pub(crate) fn place_of(step: &TraceStep) -> (Name, u32)
    ensures { step_place result.0 result.1 ≡ place_of step.now }
{
    match step {
        TraceStep::Set { method, stmt, .. } => (*method, *stmt),
        TraceStep::Test { method, stmt, .. } => (*method, *stmt),
        TraceStep::Enter { method, stmt, .. } => (*method, *stmt),
    }
}

/// What a step carries out, by the text of its expression.
fn step_code(alloc: Global, text: &[u8], step: &TraceStep) -> Result<Vec<u8>, AllocError>
    ensures { IfOk result (λ code. code.items ≡ step_code text.now step.now) }
{
    let mut code = Vec::new(alloc);
    match step {
        TraceStep::Set { target, .. } => {
            let start = format!(in alloc; "{target} = ")?;
            code.extend_from_slice(start.as_bytes())?;
            code.extend_from_slice(text)?;
        }
        TraceStep::Test { .. } => code.extend_from_slice(text)?,
        TraceStep::Enter { callee, .. } => {
            let start = format!(in alloc; "EXECUTE {callee}")?;
            code.extend_from_slice(start.as_bytes())?;
        }
    }
    Ok(code)
}

/// The text of a statement's expression.
fn listed_text<'a>(listed: Option<&'a ListedStatement>) -> &'a [u8]
    ensures { result.now ≡ listed_text (option_map (λ s. s.now) listed.entry) }
{
    match listed {
        Some(listed) => listed.text(),
        None => &[],
    }
}

/// What comes of a step.
fn step_outcome(alloc: Global, step: &TraceStep) -> Result<Vec<u8>, AllocError>
    ensures { IfOk result (λ outcome. outcome.items ≡ step_outcome step.now) }
{
    let mut outcome = Vec::new(alloc);
    match step {
        TraceStep::Set { value, .. } => {
            let value = format!(in alloc; "= {value}")?;
            outcome.extend_from_slice(value.as_bytes())?;
        }
        TraceStep::Test { yes, .. } => outcome.extend_from_slice(answer_arrow(*yes))?,
        TraceStep::Enter { .. } => {}
    }
    Ok(outcome)
}

/// How a test is answered.
pub(crate) fn answer_arrow(yes: bool) -> &'static [u8]
    ensures { result.now ≡ answer_arrow yes }
{
    if yes {
        b"\xe2\x86\x92 yes"
    } else {
        b"\xe2\x86\x92 no"
    }
}
