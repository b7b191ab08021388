//! What the runs of a book cover.
ghost use Rattle.std.specs.Prelude.{◌≡◌, IfOk, OnOk, map};
ghost use Rattle.std.specs.List.{flat_map, fold};
ghost use Rattle.pap_tree.specs.Flowchart.{flowchart_of};
ghost use Rattle.pap_plan.specs.Plans.{flowchart};
ghost use Rattle.book_edits.specs.Kept.{runs_in_year};
ghost use Rattle.run_coverage.specs.Coverage.{coverage_of};
ghost use Rattle.run_coverage.specs.CoveredRuns.{key_traces, run_traces, year_traces, book_traces};
ghost use Rattle.run_coverage.specs.private.Tallies.{after_trace, board_state, no_statements, runs_in};

use crate::MethodRuns;
use crate::board::{MethodTally, count_steps, no_tallies};
use book_year::Year;
use month_trace::trace_run;
use pap_plan::Plan;
use pap_types::Typed;
use payroll_records::{Key, Record};
use recalc_engine::Book;
use std::alloc::{AllocError, Global};
use std::marker::Model;

/// How many runs came to each statement of a flowchart, and how many took each exit of its tests.
#[derive(Drop)]
pub struct Coverage {
    methods: Vec<MethodRuns>,
}

impl Model for Coverage {
    ghost use Rattle.std.specs.Prelude.{List};
    ghost use Rattle.run_coverage.specs.declared.runs.StatementRuns.{StatementRuns};

    ghost Value = { List (List StatementRuns) };

    ghost view = { λ c. c.methods.items };
}

impl Coverage {
    /// The methods: MAIN first, and then the others in the order of the text.
    pub fn methods(&self) -> &[MethodRuns]
        ensures { result.now ≡ self.now }
    {
        &self.methods
    }
}

/// How many of a book's runs came to each statement of a plan's flowchart, and how many took each exit of its tests. `counts` has
/// how many statements each method has: MAIN first, and then the others in the order of the text. Each run that has outputs is
/// carried out again. Takes time linear in what the runs execute, and memory linear in the statements and in one run's trace.
/// Fails only for lack of memory.
pub fn cover_book(
    alloc: Global,
    plan: &Plan,
    counts: &[usize],
    book: &Book,
) -> Result<Coverage, AllocError>
    ensures { IfOk result (λ coverage.
        coverage ≡ coverage_of (flowchart plan.now) counts.now (book_traces book.now)) }
{
    let mut board = Board::new(alloc, counts)?;
    board.count_years(alloc, plan.text(), book, book.years().list.as_slice())?;
    board.coverage(alloc)
}

/// The tallies after some runs.
#[derive(Drop)]
struct Board {
    /// The number of the last run.
    run: u64,
    methods: Vec<MethodTally>,
}

impl Model for Board {
    ghost use Rattle.run_coverage.specs.private.Tallies.{BoardState};

    ghost Value = { BoardState };

    ghost view = { λ b. record { run = b.run; methods = b.methods.items } };
}

impl Board {
    /// No runs.
    fn new(alloc: Global, counts: &[usize]) -> Result<Board, AllocError>
        ensures { IfOk result (λ board. board ≡ board_state 0 (map no_statements counts.now)) }
    {
        let methods = no_tallies(alloc, counts)?;
        Ok(Board { run: 0, methods })
    }

    /// What the tallies say.
    fn coverage(&self, alloc: Global) -> Result<Coverage, AllocError>
        ensures { IfOk result (λ coverage. coverage ≡ map (map runs_in) self.now.methods) }
    {
        let mut methods = Vec::with_capacity(alloc, self.methods.len())?;
        for method in &self.methods {
            methods.push(MethodRuns::of(alloc, method.statements())?)?;
        }
        Ok(Coverage { methods })
    }

    /// Counts the runs of some years.
    fn count_years(
        &mut self,
        alloc: Global,
        plan: &Typed,
        book: &Book,
        years: &[Year],
    ) -> Result<(), AllocError>
        ensures { OnOk result (self.new ≡ fold (after_trace (flowchart_of plan.now)) self.old
            (flat_map (λ y. year_traces book.now (runs_in_year y)) years.now)) }
    {
        for year in years {
            self.count_runs(alloc, plan, book, year.records.as_slice())?;
        }
        Ok(())
    }

    /// Counts some runs.
    fn count_runs(
        &mut self,
        alloc: Global,
        plan: &Typed,
        book: &Book,
        runs: &[Record],
    ) -> Result<(), AllocError>
        ensures { OnOk result (self.new ≡ fold (after_trace (flowchart_of plan.now)) self.old
            (flat_map (run_traces book.now) runs.now)) }
    {
        for run in runs {
            self.count_run(alloc, plan, book, &run.key())?;
        }
        Ok(())
    }

    /// Counts the run of a key, where it has outputs.
    fn count_run(
        &mut self,
        alloc: Global,
        plan: &Typed,
        book: &Book,
        key: &Key,
    ) -> Result<(), AllocError>
        ensures { OnOk result (self.new ≡ fold (after_trace (flowchart_of plan.now)) self.old
            (key_traces book.now key.now)) }
    {
        let Some(job) = book.job(key) else {
            return Ok(());
        };
        let steps = trace_run(alloc, job.plan, job.inputs)?;
        // No memory holds so many runs that their number doesn't fit.
        let run = self.run.checked_add(1).ok_or(AllocError)?;
        self.run = run;
        count_steps(plan, &mut self.methods, run, &steps);
        Ok(())
    }
}
