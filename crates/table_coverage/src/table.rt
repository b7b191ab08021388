//! The runs of a table.
ghost use Rattle.std.specs.Prelude.{◌≡◌, IfOk, IfErr, length, map};
ghost use Rattle.pap_plan.specs.Plans.{flowchart};
ghost use Rattle.table_coverage.specs.TableCoverages.{CoverFiles, TellsCoverage, IsCovered, IsCoverRefused, book_items};
ghost use Rattle.table_coverage.specs.TableCoverages.{found_with, found_text, found_share, found_part, found_marks};
ghost use Rattle.coverage_text.specs.FlowchartItems.{known_in};
ghost use Rattle.table_coverage.specs.private.Parts.{IsPlanned, IsBookCovered};

use crate::book::book_of;
use crate::plan::reachable;
use crate::refusal::CoverRefusal;
use coverage_page::{coverage_marks, coverage_part};
use coverage_text::{Known, MethodItems, coverage_text, flowchart_items, share_reached};
use flowchart_markup::Page;
use flowchart_methods::MethodMarks;
use open_runs::open_runs;
use pap_plan::{Plan, accept};
use pap_tree::Name;
use payroll_records::read_table;
use plan_notes::read_notes;
use recalc_engine::Book;
use run_coverage::cover_book;
use source_lines::source_lines;
use statement_list::{ListedMethod, list_statements};
use std::alloc::{AllocError, Global};
use std::collections::BTreeSet;
use std::marker::Model;

/// To which statements and exits of a flowchart the runs of a table came.
#[derive(Drop)]
pub struct TableCoverage {
    methods: Vec<MethodItems>,
    /// How many runs have no amounts.
    without: u64,
    /// How many runs there are.
    runs: u64,
}

impl Model for TableCoverage {
    ghost use Rattle.table_coverage.specs.TableCoverages.{RunsFound};

    ghost Value = { RunsFound };

    ghost view = { λ c. record { methods = c.methods.items; without = c.without; runs = c.runs } };
}

impl TableCoverage {
    /// That as a text.
    pub fn text(&self, alloc: Global) -> Result<Vec<u8>, AllocError>
        ensures { IfOk result (λ text. text.items ≡ found_text self.now) }
    {
        coverage_text(alloc, &self.methods, self.without, self.runs)
    }

    /// To which share of those that a run may come to, in whole percent, rounded down.
    pub fn share(&self) -> Result<u8, AllocError>
        ensures { IfOk result (λ share. share ≡ found_share self.now) }
    {
        share_reached(&self.methods)
    }

    /// That as the part of a page that stands above the drawings.
    pub fn part(&self, alloc: Global) -> Result<Page, AllocError>
        ensures { IfOk result (λ part. part ≡ found_part self.now) }
    {
        coverage_part(alloc, &self.methods, self.without, self.runs)
    }

    /// How many runs came to each statement, for the drawings: MAIN first, and then the other methods in the order of the text.
    pub fn marks(&self, alloc: Global) -> Result<Vec<MethodMarks>, AllocError>
        ensures { IfOk result (λ marks. marks.items ≡ found_marks self.now) }
    {
        coverage_marks(alloc, &self.methods)
    }
}

/// Follows the runs of a table through a plan. They are those of a book that has this plan alone, from the first day of the year of
/// the table's first run on; so runs of other years have no amounts. Refused in this order: the plan, the table, and a table of more
/// than 50,000 runs. Takes twice the time of acceptance and that of the runs, and time linear in the plan with a factor logarithmic
/// in it.
pub fn cover_table(
    alloc: Global,
    plan: &[u8],
    limits: &[u8],
    table: &[u8],
) -> Result<TableCoverage, CoverRefusal>
    ensures covered { let files : CoverFiles
        = record { plan = plan.now; limits = limits.now; table = table.now } in
        IfOk result (λ found. IsCovered files found) }
    ensures refused { IfErr result
        (IsCoverRefused (record { plan = plan.now; limits = limits.now; table = table.now })) }
{
    let reached = reachable(alloc, plan, limits)?;
    let accepted = accept(alloc, plan, limits)?;
    match read_table(alloc, table) {
        Ok(runs) => {
            let book = book_of(alloc, accepted, runs)?;
            Ok(cover_held(alloc, plan, &reached, &book)?)
        }
        Err(fault) => Err(CoverRefusal::from(fault)),
    }
}

/// What is found of the runs of a book that has a plan.
fn cover_held(
    alloc: Global,
    file: &[u8],
    reached: &BTreeSet<(Name, u32)>,
    book: &Book,
) -> Result<TableCoverage, AllocError>
    requires { IsPlanned book.now }
    ensures { IfOk result (IsBookCovered file.now reached.now book.now) }
{
    match book.plans().entries() {
        [(_, plan), ..] => cover_runs(alloc, file, plan, reached, book),
        [] => unreachable!(),
    }
}

/// What is found of the runs of a book, of this plan.
fn cover_runs(
    alloc: Global,
    file: &[u8],
    plan: &Plan,
    reached: &BTreeSet<(Name, u32)>,
    book: &Book,
) -> Result<TableCoverage, AllocError>
    ensures { IfOk result (λ found. TellsCoverage file.now (flowchart plan.now)
        reached.now book.now found) }
{
    let notes = read_notes(alloc, file)?;
    let lines = source_lines(alloc, file, &notes.marks)?;
    let places = Known {
        lines: &lines,
        reached,
    };
    let methods = cover_methods(alloc, plan, places, book)?;
    with_open_runs(alloc, methods, book)
}

/// The statements and exits of a plan, each with how many runs of a book came there.
fn cover_methods(
    alloc: Global,
    plan: &Plan,
    places: Known<'_>,
    book: &Book,
) -> Result<Vec<MethodItems>, AllocError>
    ensures { IfOk result (λ methods. methods.items
        ≡ book_items (flowchart plan.now) (known_in places.entry) book.now) }
{
    let flowchart = plan.text().plan();
    let listed = list_statements(alloc, flowchart)?;
    let counts = counts_of(alloc, &listed)?;
    let coverage = cover_book(alloc, plan, &counts, book)?;
    flowchart_items(alloc, flowchart, places, coverage.methods())
}

/// Statements and exits, with how many runs of a book have no amounts.
fn with_open_runs(
    alloc: Global,
    methods: Vec<MethodItems>,
    book: &Book,
) -> Result<TableCoverage, AllocError>
    ensures { IfOk result (λ found. found ≡ found_with methods.items book.now) }
{
    let open = open_runs(alloc, book)?;
    Ok(TableCoverage {
        methods,
        without: open.without,
        runs: open.runs,
    })
}

/// How many statements each of some methods has.
fn counts_of(alloc: Global, listed: &[ListedMethod]) -> Result<Vec<usize>, AllocError>
    ensures { IfOk result (λ counts. counts.items ≡ map length listed.now) }
{
    let mut counts = Vec::with_capacity(alloc, listed.len())?;
    for method in listed {
        counts.push(method.statements().len())?;
    }
    Ok(counts)
}
