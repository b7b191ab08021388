//! How often runs came to a statement.
ghost use Rattle.std.specs.Prelude.{◌≡◌};
ghost use Rattle.run_coverage.specs.private.Tallies.{no_statement, with_step, runs_in};

use crate::StatementRuns;
use crate::tally::Tally;
use month_trace::TraceStep;

/// How many runs came to a statement, and how many took each exit where it is a test.
#[derive(Clone, Copy)]
pub(crate) struct StatementTally {
    pub all: Tally,
    pub yes: Tally,
    pub no: Tally,
}

impl StatementTally {
    /// No runs.
    pub fn none() -> StatementTally
        ensures { result ≡ no_statement }
    {
        StatementTally {
            all: Tally::none(),
            yes: Tally::none(),
            no: Tally::none(),
        }
    }

    /// The same with a step of the run of a number.
    pub fn with_step(self, run: u64, step: &TraceStep) -> StatementTally
        ensures { result ≡ with_step run step.now self }
    {
        let all = self.all.with_run(run);
        let StatementTally { yes, no, .. } = self;
        match step {
            TraceStep::Test { yes: true, .. } => StatementTally {
                all,
                yes: yes.with_run(run),
                no,
            },
            TraceStep::Test { yes: false, .. } => StatementTally {
                all,
                yes,
                no: no.with_run(run),
            },
            TraceStep::Set { .. } | TraceStep::Enter { .. } => StatementTally { all, yes, no },
        }
    }

    /// How many runs came to the statement, and how many took each exit.
    pub fn runs(&self) -> StatementRuns
        ensures { result ≡ runs_in self.now }
    {
        StatementRuns {
            runs: self.all.runs(),
            yes: self.yes.runs(),
            no: self.no.runs(),
        }
    }
}
