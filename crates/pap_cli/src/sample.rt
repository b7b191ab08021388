//! The answer of `sample`: what came of a generated script.
ghost use Rattle.std.specs.Prelude.{◌≡◌, ◌≤◌, ◌++◌, length, codes, IfOk, OnOk, string_bytes};
ghost use Rattle.recalc_engine.specs.MonthRows.{month_rows};
ghost use Rattle.outside.specs.Causes.{Caused};
ghost use Rattle.carry_bindings.specs.Carrying.{named};
ghost use Rattle.recalc_engine.specs.LentRows.{lent_row};
ghost use Rattle.script_run.specs.Limits.{most_employees};
ghost use Rattle.pap_cli.specs.Outside.{output};
ghost use Rattle.pap_cli.specs.SampleAnswers.{book_lines, work_lines};
ghost use Rattle.pap_cli.specs.SampleAnswers.{summary_text, tax_of, tax_sum};
ghost use Rattle.pap_cli.specs.SampleClauses.{LeavesOnSample};
ghost use Rattle.pap_cli.specs.private.SampleViews.{add_if, TaxFits};
ghost use Rattle.pap_cli.specs.Statuses.{status_of};

use outside::{Sink, put_all};
use payroll_records::NamedValue;
use recalc_engine::{Book, MonthRow, State, Work};
use scaled_decimal::Dec;
use script_run::{Stop, run_sample, sample_line_count};
use script_steps::Script;
use std::alloc::{AllocError, Global};
use std::sync::ledger::Ledger;
use steps::Steps;

/// Runs the script of a sample in memory, and writes what came of it. `Ok` says whether an answer of the script was a refusal.
pub(crate) fn sample<W: Sink, L: Ledger>(
    alloc: Global,
    employees: u32,
    sink: &mut W,
    steps: &mut Steps<L>,
) -> Result<bool, Stop>
    requires { employees ≤ most_employees }
    ensures leaves { LeavesOnSample employees
        (output (W.written sink.old) steps.old) (output (W.written sink.new) steps.new)
        (status_of result) }
    ensures write { Caused Stop.Write (W.faults sink.old) (W.faults sink.new) result }
{
    let ended = run_sample(alloc, employees, steps)?;
    let text = summary(alloc, employees, &ended.script)?;
    match put_all(sink, text.as_bytes()) {
        Ok(()) => Ok(ended.counts.any()),
        Err(_) => Err(Stop::Write),
    }
}

/// What came of the script of a sample, in five lines.
fn summary(alloc: Global, employees: u32, script: &Script) -> Result<String, AllocError>
    requires { employees ≤ most_employees }
    ensures { IfOk result (λ text. string_bytes text ≡ summary_text employees script.now) }
{
    let mut text = String::new(alloc);
    write_book(&mut text, employees, script.book())?;
    write_work(&mut text, script.made())?;
    let tax = tax_sum(script.book());
    write!(text, "LST {tax}\n")?;
    Ok(text)
}

/// Appends how many lines the script has, and how many runs the book.
fn write_book(text: &mut String, employees: u32, book: &Book) -> Result<(), AllocError>
    requires { employees ≤ most_employees }
    ensures { OnOk result
        (string_bytes text.new ≡ string_bytes text.old ++ book_lines employees book.now) }
{
    let lines = sample_line_count(employees);
    let records = run_count(book);
    write!(text, "lines {lines}\nrecords {records}\n")
}

/// Appends what all edits had to run.
fn write_work(text: &mut String, made: Work) -> Result<(), AllocError>
    ensures { OnOk result (string_bytes text.new ≡ string_bytes text.old ++ work_lines made) }
{
    let (runs, steps) = (made.runs, made.steps);
    write!(text, "runs {runs}\nsteps {steps}\n")
}

/// The number of a book's runs.
fn run_count(book: &Book) -> usize
    ensures { result ≡ length (month_rows book.now) }
{
    book.years().count
}

/// The LST of all runs of a book, added up.
fn tax_sum(book: &Book) -> Dec
    ensures { result ≡ tax_sum book.now }
{
    book.law();
    book.rows_law();
    let mut total = Dec::new(0, 0);
    for row in book.months() {
        total = with_tax(total, &row);
    }
    total
}

/// A sum with the LST of one more run, where it has one.
fn with_tax(total: Dec, row: &MonthRow) -> Dec
    requires { TaxFits total (lent_row row.now) }
    ensures { result ≡ add_if total (tax_of (lent_row row.now)) }
{
    match tax_of(row) {
        Some(tax) => total.add(tax),
        None => total,
    }
}

/// The LST of a run, where it has one.
fn tax_of(row: &MonthRow) -> Option<Dec>
    ensures { result ≡ tax_of (lent_row row.now) }
{
    match row.state {
        State::Done(outputs) => tax_in(outputs.as_slice()),
        State::NoPlan | State::Blocked(_) => None,
    }
}

/// The LST among a run's outputs.
fn tax_in(outputs: &[NamedValue]) -> Option<Dec>
    ensures { result ≡ named (codes "LST") outputs.now }
{
    for output in outputs {
        if output.name.as_str() == "LST" {
            return Some(output.value);
        }
    }
    None
}
