//! How many runs came somewhere.
ghost use Rattle.std.specs.Prelude.{◌≡◌};
ghost use Rattle.run_coverage.specs.private.Tallies.{no_tally, with_run};

use std::marker::Model;

/// How many runs came somewhere, and the number of the last of them; runs are numbered from 1.
#[derive(Clone, Copy)]
pub(crate) struct Tally {
    runs: u64,
    last: u64,
}

impl Model for Tally {
    ghost use Rattle.std.specs.Prelude.{◌≤◌};
    ghost use Rattle.run_coverage.specs.private.TallyStates.{TallyState};

    ghost Value = { TallyState };

    ghost view = { λ t. record { runs = t.runs; last = t.last } };

    ghost invariant = { λ t. t.runs ≤ t.last };

    ghost inverse = { λ t. record { runs = t.runs; last = t.last } };
}

impl Tally {
    /// No runs.
    pub fn none() -> Tally
        ensures { result ≡ no_tally }
    {
        Tally { runs: 0, last: 0 }
    }

    /// The same with the run of a number, which counts once.
    pub fn with_run(self, run: u64) -> Tally
        ensures { result ≡ with_run run self }
    {
        if self.last < run {
            Tally {
                runs: self.runs + 1,
                last: run,
            }
        } else {
            self
        }
    }

    /// How many runs.
    pub fn runs(self) -> u64
        ensures { result ≡ self.runs }
    {
        self.runs
    }
}
