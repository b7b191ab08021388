//! What runs can come to in a flowchart.
ghost use Rattle.std.specs.Prelude.{◌≡◌, ◌&&◌};
ghost use Rattle.coverage_text.specs.CoverageItems.{is_covered, is_exit, is_never_reached, is_reachable_statement, is_unreachable};

use pap_tree::Name;
use std::marker::Model;

/// How many runs took the exits of a test.
#[derive(Clone, Copy, Debug, PartialEq, Eq)]
pub struct ExitRuns {
    /// How many took the exit where the test holds.
    pub yes: u64,
    /// How many took the other one.
    pub no: u64,
}

/// A statement or an exit of a test.
#[derive(Drop)]
pub struct Item {
    /// The number of the statement in its method.
    pub(crate) statement: u32,
    /// Its place and its text.
    pub(crate) words: Vec<u8>,
    /// Whether it is an exit of a test.
    pub(crate) is_exit: bool,
    /// Whether a run within the ranges may come there.
    pub(crate) is_reachable: bool,
    /// How many runs came there.
    pub(crate) runs: u64,
    /// How many took the exits, where it is a test to which a run may come.
    pub(crate) exits: Option<ExitRuns>,
}

impl Model for Item {
    ghost use Rattle.coverage_text.specs.CoverageItems.{CoverageItem};

    ghost Value = { CoverageItem };

    ghost view = { λ i. record {
      statement = i.statement;
      words = i.words.items;
      is_exit = i.is_exit;
      is_reachable = i.is_reachable;
      runs = i.runs;
      exits = i.exits;
    } };
}

impl Item {
    /// The number of its statement in the method.
    pub fn statement(&self) -> u32
        ensures { result ≡ self.now.statement }
    {
        self.statement
    }

    /// Its place and its text.
    pub fn words(&self) -> &[u8]
        ensures { result.now ≡ self.now.words }
    {
        &self.words
    }

    /// How many runs came there.
    pub fn runs(&self) -> u64
        ensures { result ≡ self.now.runs }
    {
        self.runs
    }

    /// How many runs took the exits, where it is a test to which a run may come.
    pub fn exits(&self) -> Option<ExitRuns>
        ensures { result ≡ self.now.exits }
    {
        self.exits
    }

    /// Whether it is an exit of a test, and no statement.
    pub fn is_exit_item(&self) -> bool
        ensures { result ≡ self.now.is_exit }
    {
        self.is_exit
    }

    /// Whether a run may come there and none came.
    pub fn is_never_reached(&self) -> bool
        ensures { result ≡ is_never_reached self.now }
    {
        self.is_reachable && self.runs == 0
    }

    /// Whether it is a statement to which a run may come.
    pub fn is_statement(&self) -> bool
        ensures { result ≡ is_reachable_statement self.now }
    {
        self.is_reachable && !self.is_exit
    }

    /// Whether it is an exit that a run may take.
    pub fn is_exit(&self) -> bool
        ensures { result ≡ is_exit self.now }
    {
        self.is_reachable && self.is_exit
    }

    /// Whether it is a statement to which a run came.
    pub fn is_covered_statement(&self) -> bool
        ensures { result ≡ (is_reachable_statement self.now && is_covered self.now) }
    {
        self.is_statement() && self.runs > 0
    }

    /// Whether it is an exit that a run took.
    pub fn is_covered_exit(&self) -> bool
        ensures { result ≡ (is_exit self.now && is_covered self.now) }
    {
        self.is_exit() && self.runs > 0
    }

    /// Whether no run within the ranges may come there.
    pub fn is_unreachable(&self) -> bool
        ensures { result ≡ is_unreachable self.now }
    {
        !self.is_reachable
    }
}

/// A method with its statements and their exits.
#[derive(Drop)]
pub struct MethodItems {
    pub(crate) name: Name,
    pub(crate) items: Vec<Item>,
}

impl Model for MethodItems {
    ghost use Rattle.coverage_text.specs.CoverageItems.{CoveredMethod};

    ghost Value = { CoveredMethod };

    ghost view = { λ m. record { name = m.name; items = m.items.items } };
}

impl MethodItems {
    /// The name of the method.
    pub fn name(&self) -> Name
        ensures { result ≡ self.now.name }
    {
        self.name
    }

    /// Its statements, each with its exits behind it.
    pub fn items(&self) -> &[Item]
        ensures { result.now ≡ self.now.items }
    {
        &self.items
    }
}
