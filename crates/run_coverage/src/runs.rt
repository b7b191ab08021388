//! How many runs came to statements.
ghost use Rattle.std.specs.Prelude.{◌≡◌, IfOk, map};
ghost use Rattle.run_coverage.specs.private.Tallies.{runs_in};

use crate::statement::StatementTally;
use std::alloc::{AllocError, Global};
use std::marker::Model;

/// How many runs came to a statement, and of a test how many went on at each exit.
#[derive(Clone, Copy, Debug, PartialEq, Eq)]
pub struct StatementRuns {
    /// How many runs came there.
    pub runs: u64,
    /// How many of them went on at `yes`. 0 where the statement isn't a test.
    pub yes: u64,
    /// How many of them went on at `no`. 0 where the statement isn't a test.
    pub no: u64,
}

/// The statements of a method, each with how many runs came there.
#[derive(Drop)]
pub struct MethodRuns {
    statements: Vec<StatementRuns>,
}

impl Model for MethodRuns {
    ghost use Rattle.std.specs.Prelude.{List};
    ghost use Rattle.run_coverage.specs.declared.runs.StatementRuns.{StatementRuns};

    ghost Value = { List StatementRuns };

    ghost view = { λ m. m.statements.items };
}

impl MethodRuns {
    /// What the tallies of a method say.
    pub(crate) fn of(alloc: Global, tallies: &[StatementTally]) -> Result<MethodRuns, AllocError>
        ensures { IfOk result (λ m. m ≡ map runs_in tallies.now) }
    {
        let mut statements = Vec::with_capacity(alloc, tallies.len())?;
        for tally in tallies {
            statements.push(tally.runs())?;
        }
        Ok(MethodRuns { statements })
    }

    /// The statements by their numbers: in the order of the text, an IF before its THEN and this before its ELSE.
    pub fn statements(&self) -> &[StatementRuns]
        ensures { result.now ≡ self.now }
    {
        &self.statements
    }
}
