//! How much there is of what there may not be too much of.

ghost use Rattle.std.specs.Prelude.{◌≡◌, ◌-◌, ◌<◌, List, []};
ghost use Rattle.pap_reader.specs.Limits.{tested};
ghost use Rattle.pap_reader.specs.private.CountDecisions.{deeper};
ghost use Rattle.pap_reader.specs.private.VerdictDecisions.{first_over};
ghost use Rattle.pap_reader.specs.Structure.{Shape, closes};
ghost use Rattle.pap_reader.specs.private.Views.{Tallies, IsMore, IsSmall};

use crate::element::Element;
use crate::fault::Which;
use pap_tree::{
    MOST_CONSTANTS, MOST_INPUTS, MOST_INTERNALS, MOST_METHODS, MOST_NESTING, MOST_OUTPUTS,
    MOST_STATEMENTS,
};

/// How much is read so far.
#[derive(Clone, Copy)]
pub(crate) struct Counts {
    inputs: u32,
    outputs: u32,
    internals: u32,
    constants: u32,
    methods: u32,
    statements: u32,
    depth: u32,
}

impl Counts {
    /// Nothing is read.
    pub(crate) fn none() -> Counts
        ensures { Tallies result [] }
    {
        Counts {
            inputs: 0,
            outputs: 0,
            internals: 0,
            constants: 0,
            methods: 0,
            statements: 0,
            depth: 0,
        }
    }

    /// An element begins.
    pub(crate) fn open(&mut self, element: Element)
        ensures { IsSmall self.old → IsMore self.old self.new element }
    {
        match element {
            Element::Input => self.inputs = self.inputs.saturating_add(1),
            Element::Output => self.outputs = self.outputs.saturating_add(1),
            Element::Internal => self.internals = self.internals.saturating_add(1),
            Element::Constant => self.constants = self.constants.saturating_add(1),
            Element::Method => self.methods = self.methods.saturating_add(1),
            Element::Eval | Element::Execute => self.statements = self.statements.saturating_add(1),
            Element::If => {
                self.statements = self.statements.saturating_add(1);
                self.depth = self.depth.saturating_add(1);
            }
            _ => {}
        }
    }

    /// An element ends.
    pub(crate) fn close(&mut self, element: Element)
        ensures { self.new ≡ record self.old { depth = deeper self.old.depth (closes element) } }
    {
        if element == Element::If {
            self.depth = self.depth.saturating_sub(1);
        }
    }

    /// The first of the amounts that is beyond its limit.
    pub(crate) fn first_over(&self) -> Option<Which>
        ensures { (shapes : List Shape) → Tallies self.now shapes
            → result ≡ first_over shapes tested }
    {
        if self.inputs > MOST_INPUTS {
            Some(Which::Inputs)
        } else if self.outputs > MOST_OUTPUTS {
            Some(Which::Outputs)
        } else if self.internals > MOST_INTERNALS {
            Some(Which::Internals)
        } else if self.constants > MOST_CONSTANTS {
            Some(Which::Constants)
        } else if self.methods > MOST_METHODS {
            Some(Which::Methods)
        } else if self.statements > MOST_STATEMENTS {
            Some(Which::Statements)
        } else if self.depth > MOST_NESTING {
            Some(Which::Depth)
        } else {
            None
        }
    }
}
