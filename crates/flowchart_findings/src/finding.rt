//! What is found in a flowchart, and where.

use pap_tree::Name;

/// The declarations among which one stands.
#[derive(Clone, Copy)]
pub enum Group {
    /// The inputs.
    Input,
    /// The outputs.
    Output,
    /// The internal names.
    Internal,
    /// The constants.
    Constant,
}

/// A declaration: its group, its number there, from 0, and its name.
#[derive(Clone, Copy)]
pub struct DeclarationSite {
    pub group: Group,
    pub number: usize,
    pub name: Name,
}

/// A statement: its method with the method's number, where MAIN is 0 and the others are counted from 1, and its number there, from 0.
#[derive(Clone, Copy)]
pub struct StatementSite {
    pub method: Name,
    pub method_number: usize,
    pub statement: u32,
}

/// What an author may want to change. `Unread`, `Unassigned` and `UnusedValue` follow from the text alone, the others from the ranges
/// of the inputs.
#[derive(Clone, Copy)]
pub enum Finding {
    /// No expression names this input, internal name or constant.
    Unread(DeclarationSite),
    /// No EVAL assigns this output or internal name.
    Unassigned(DeclarationSite),
    /// No run executes this method: it doesn't come to its first statement.
    DeadMethod {
        method: Name,
        method_number: usize,
    },
    /// No run executes this statement.
    DeadStatement(StatementSite),
    /// No expression names the internal name that this EVAL assigns.
    UnusedValue {
        site: StatementSite,
        target: Name,
    },
    /// The test of this IF never holds. If its THEN has a first statement, that has this number, and no run executes it.
    NeverTrue {
        site: StatementSite,
        first: Option<u32>,
    },
    /// The test of this IF always holds. If its ELSE has a first statement, that has this number, and no run executes it.
    NeverFalse {
        site: StatementSite,
        first: Option<u32>,
    },
    /// The output's values may have this many places, and an input that carries them over takes fewer: then the next run of the year has
    /// no inputs.
    LongCarry {
        site: DeclarationSite,
        input: Name,
        places: u8,
        takes: u8,
    },
}
