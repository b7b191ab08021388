//! A run as a part of a page.
ghost use Rattle.std.specs.Prelude.{◌≡◌, ◌++◌, ◌≤◌, length, map, IfOk, OnOk, string_bytes};
ghost use Rattle.std.specs.List.{flat_map};
ghost use Rattle.scaled_decimal.specs.PlainTexts.{plain_text};
ghost use Rattle.pap_tree.specs.Declarations.{declaration_of};
ghost use Rattle.pap_tree.specs.Flowchart.{flowchart_of};
ghost use Rattle.pap_plan.specs.Plans.{Admits, flowchart};
ghost use Rattle.run_trace.specs.ShownRuns.{ShowsRun, run_pieces};
ghost use Rattle.run_trace.specs.RunPages.{word_row, input_row, input_rows, input_table, amount_row, output_row, output_table, cost_sentence, blocked_text, blocked_part, part_list};
ghost use Rattle.run_trace.specs.private.PageViews.{AddsTables, AddsList};
ghost use Rattle.run_trace.specs.private.TellingViews.{KnowsStatements};

use crate::entries::write_entries;
use crate::head::given_word;
use crate::marks::run_marks;
use crate::telling::Telling;
use crate::text::finish;
use crate::values::begin_values;
use flowchart_markup::{Fill, Page};
use flowchart_methods::MethodMarks;
use month_trace::{TraceStep, trace_run};
use pap_plan::Plan;
use pap_tree::{Declared, Name};
use payroll_records::{NamedValue, Values};
use scaled_decimal::Dec;
use source_lines::SourceLines;
use statement_list::list_statements;
use std::alloc::{AllocError, Global};
use std::marker::Brand;
use std::sync::ledger::Blank;

/// A run of a plan on a page: the part of the page that tells of it, and for the drawings what it did at each statement, by method:
/// MAIN first, and then the others in the order of the text.
#[derive(Drop)]
pub struct RunOnPage {
    pub part: Page,
    pub marks: Vec<MethodMarks>,
}

/// A run of a plan on a page. The part has a table of its inputs, each with its value and whether it was given, one of its outputs,
/// how many steps it took, and an ordered list of the statements that it executes. An entry of the list has its place, as a link to
/// it in the drawing of the plan, and what the text of the run has of it. Of more than 1,000 entries the list has the first 500 and
/// the last 500, and says how many are left out. The mark of a statement leads to its first entry, and has what came of its first
/// three executions. Takes time linear in the plan and in what the run executes, but for a look-up of each step's method.
pub fn run_on_page(
    alloc: Global,
    plan: &Plan,
    lines: &SourceLines,
    given: &Values,
    inputs: &[Dec],
) -> Result<RunOnPage, AllocError>
    requires { Admits plan.now inputs.now }
    ensures { IfOk result (λ run. ShowsRun (flowchart plan.now) lines.now given.now inputs.now
        (run_pieces run.part run.marks.items)) }
{
    let mut part = Page::new(alloc);
    write_tables(&mut part, plan, given, inputs)?;
    let marks = write_steps(&mut part, plan, lines, inputs)?;
    Ok(RunOnPage { part, marks })
}

/// The part of a page on a run that there is none of: why that is so, in words, and the line that `papcalc once` has for it.
pub fn blocked_part(alloc: Global, words: &str, line: &[u8]) -> Result<Page, AllocError>
    ensures { IfOk result (λ part. part ≡ blocked_part words.now line.now) }
{
    let mut part = Page::new(alloc);
    part.put(
        "<section id=\"run\"><h2>The run</h2>\n<div class=\"run\">",
        &[],
    )?;
    put_blocked(&mut part, words.as_bytes(), line)?;
    Ok(part)
}

/// Appends why there is no run.
fn put_blocked(part: &mut Page, words: &[u8], line: &[u8]) -> Result<(), AllocError>
    ensures { OnOk result (part.new ≡ part.old ++ blocked_text words.now line.now) }
{
    part.put(
        "<p class=\"blocked\"><strong>No run.</strong> %.</p>\n<p><code>%</code></p></div></section>\n",
        &[Fill::Text(words), Fill::Text(line)],
    )
}

/// Appends what stands above the statements.
fn write_tables(
    part: &mut Page,
    plan: &Plan,
    given: &Values,
    inputs: &[Dec],
) -> Result<(), AllocError>
    requires { Admits plan.now inputs.now }
    ensures { OnOk result
        (AddsTables (flowchart plan.now) given.now inputs.now part.old part.new) }
{
    let finished = finish::<Brand>(part.alloc(), plan, inputs, Blank::new(1))?;
    let declared = plan.text().plan().inputs.as_slice();
    part.put(
        "<section id=\"run\"><h2>The run</h2>\n<div class=\"run\">",
        &[],
    )?;
    write_inputs(part, given, declared, inputs)?;
    write_outputs(part, finished.outputs.as_slice())?;
    write_cost(part, finished.cost, plan.bound())
}

/// Appends the table of the inputs.
fn write_inputs(
    part: &mut Page,
    given: &Values,
    declared: &[Declared],
    inputs: &[Dec],
) -> Result<(), AllocError>
    requires { length declared.now ≤ length inputs.now }
    ensures { OnOk result (part.new ≡ part.old
        ++ input_table given.now (map declaration_of declared.now) inputs.now) }
{
    part.put(
        "<table><caption>Inputs</caption><thead><tr><th scope=\"col\">Name<th scope=\"col\">Value<th scope=\"col\">Given</tr></thead><tbody>\n",
        &[],
    )?;
    write_input_rows(part, given, declared, inputs)?;
    part.put("</tbody></table>\n", &[])
}

/// Appends a row for each input.
fn write_input_rows(
    part: &mut Page,
    given: &Values,
    declared: &[Declared],
    inputs: &[Dec],
) -> Result<(), AllocError>
    requires { length declared.now ≤ length inputs.now }
    ensures { OnOk result (part.new ≡ part.old
        ++ input_rows given.now (map declaration_of declared.now) inputs.now) }
{
    for (at, input) in declared.iter().enumerate() {
        write_input(part, given, &input.name, inputs[at])?;
    }
    Ok(())
}

/// Appends the row of an input.
fn write_input(part: &mut Page, given: &Values, name: &Name, value: Dec) -> Result<(), AllocError>
    ensures { OnOk result (part.new ≡ part.old ++ input_row given.now name.now value) }
{
    let text = value_text(part.alloc(), value)?;
    let word = given_word(given, name);
    put_input(part, name, text.as_bytes(), word.as_bytes())
}

/// A value as a text.
fn value_text(alloc: Global, value: Dec) -> Result<String, AllocError>
    ensures { IfOk result (λ text. string_bytes text ≡ plain_text value) }
{
    format!(in alloc; "{value}")
}

/// Appends a row of a name, a value and a word.
fn put_input<'a>(
    part: &mut Page,
    name: &Name,
    value: &'a [u8],
    word: &'a [u8],
) -> Result<(), AllocError>
    ensures { OnOk result (part.new ≡ part.old ++ word_row name.now value.now word.now) }
{
    part.put(
        "<tr><th scope=\"row\">%<td class=\"num\">%<td>%</tr>\n",
        &[Fill::OfName(*name), Fill::Text(value), Fill::Text(word)],
    )
}

/// Appends the table of the outputs.
fn write_outputs(part: &mut Page, outputs: &[NamedValue]) -> Result<(), AllocError>
    ensures { OnOk result (part.new ≡ part.old ++ output_table outputs.now) }
{
    part.put(
        "<table><caption>Outputs</caption><thead><tr><th scope=\"col\">Name<th scope=\"col\">Value</tr></thead><tbody>\n",
        &[],
    )?;
    write_output_rows(part, outputs)?;
    part.put("</tbody></table>\n", &[])
}

/// Appends a row for each output.
fn write_output_rows(part: &mut Page, outputs: &[NamedValue]) -> Result<(), AllocError>
    ensures { OnOk result (part.new ≡ part.old ++ flat_map output_row outputs.now) }
{
    for output in outputs {
        write_output(part, output)?;
    }
    Ok(())
}

/// Appends the row of an output.
fn write_output(part: &mut Page, output: &NamedValue) -> Result<(), AllocError>
    ensures { OnOk result (part.new ≡ part.old ++ output_row output.now) }
{
    let text = value_text(part.alloc(), output.value)?;
    put_output(part, &output.name, text.as_bytes())
}

/// Appends a row of a name and a value.
fn put_output(part: &mut Page, name: &Name, value: &[u8]) -> Result<(), AllocError>
    ensures { OnOk result (part.new ≡ part.old ++ amount_row name.now value.now) }
{
    part.put(
        "<tr><th scope=\"row\">%<td class=\"num\">%</tr>\n",
        &[Fill::OfName(*name), Fill::Text(value)],
    )
}

/// Appends how many steps a run took, and how many it may take at most.
fn write_cost(part: &mut Page, cost: u64, bound: u64) -> Result<(), AllocError>
    ensures { OnOk result (part.new ≡ part.old ++ cost_sentence cost bound) }
{
    part.put(
        "</div>\n<p>The run took % steps. A run takes at most %.</p>\n",
        &[Fill::Number(cost), Fill::Number(bound)],
    )
}

/// Appends the list of a run's statements; gives what the run did at each.
fn write_steps(
    part: &mut Page,
    plan: &Plan,
    lines: &SourceLines,
    inputs: &[Dec],
) -> Result<Vec<MethodMarks>, AllocError>
    requires { Admits plan.now inputs.now }
    ensures { IfOk result (λ marks. AddsList (flowchart plan.now) lines.now inputs.now
        part.old part.new marks.items) }
{
    let alloc = part.alloc();
    let text = plan.text();
    let steps = trace_run(alloc, plan, inputs)?;
    let methods = list_statements(alloc, text.plan())?;
    let telling = Telling {
        alloc,
        plan: text,
        methods: &methods,
        lines,
    };
    let mut values = begin_values(alloc, text, inputs)?;
    write_list(telling, part, &mut values, &steps)?;
    let mut again = begin_values(alloc, text, inputs)?;
    run_marks(telling, &mut again, &steps)
}

/// Appends the list of these statements of a run, which begins with these values.
fn write_list(
    telling: Telling<'_>,
    part: &mut Page,
    values: &mut [Dec],
    steps: &[TraceStep],
) -> Result<(), AllocError>
    requires { KnowsStatements telling }
    ensures { OnOk result (part.new ≡ part.old ++ part_list (flowchart_of telling.entry.plan.now)
        telling.entry.lines.now values.old steps.now) }
{
    part.put(
        "<h3>Its statements in order</h3>\n<ol class=\"run\">\n",
        &[],
    )?;
    let total = steps.len();
    write_entries(telling, part, values, total, steps)?;
    part.put("</ol></section>\n", &[])
}
