//! What can be wrong with an entry of a range file.
ghost use Rattle.std.specs.Prelude.{◌≡◌};
ghost use Rattle.range_faults.specs.EntryFaults.{section_name};

use crate::KeyText;

/// A table of entries of a range file.
#[derive(Clone, Copy, PartialEq, Eq)]
pub enum Section {
    /// What inputs carry over from earlier runs.
    Bind,
    /// The ranges of inputs.
    Input,
}

/// A fault of a range file, by the key at which it is.
#[derive(Drop)]
pub enum EntryFault {
    /// A key of the file that is none of the two tables, or whose value is no table.
    NoSection {
        key: KeyText,
    },
    /// An entry that isn't a table, doesn't have the name of an input, or lacks a key.
    Entry {
        section: Section,
        entry: KeyText,
    },
    /// A key of an entry that isn't one of its keys, or whose value doesn't suit it.
    Key {
        section: Section,
        entry: KeyText,
        key: KeyText,
    },
    /// An input whose bounds break their rule, or one input too many.
    Bounds {
        entry: KeyText,
    },
}

impl Section {
    /// The key of its table.
    pub fn name(self) -> &'static str
        ensures { result.now ≡ section_name self }
    {
        match self {
            Section::Bind => "bind",
            Section::Input => "input",
        }
    }
}
