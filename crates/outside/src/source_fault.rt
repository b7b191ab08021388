//! Why the system gives no input.
use std::fmt;
use std::io::{Error, ErrorKind};

/// The system's number of the error that a descriptor isn't open.
const NOT_OPEN: i32 = 9;

/// Why the system gives no input, as far as it is told apart.
#[derive(Clone, Copy, Debug, PartialEq, Eq)]
pub enum SourceFault {
    /// The input is closed.
    Closed,
    /// The input is a folder.
    Folder,
    /// Any other cause.
    Unreadable,
}

impl SourceFault {
    /// What an error of the system comes to.
    pub(crate) fn of(error: &Error) -> SourceFault {
        if error.raw_os_error() == Some(NOT_OPEN) {
            return SourceFault::Closed;
        }
        match error.kind() {
            ErrorKind::IsADirectory => SourceFault::Folder,
            _ => SourceFault::Unreadable,
        }
    }
}

impl fmt::Display for SourceFault {
    ghost use Rattle.std.specs.Prelude.{Some};
    ghost use Rattle.outside.specs.SourceFaults.{source_fault_text};

    ghost output = { λ fault. Some (source_fault_text fault) };

    fn fmt<W: fmt::Write>(&self, f: &mut fmt::Formatter<W>) -> fmt::Result {
        match self {
            SourceFault::Closed => f.write_str("it is closed"),
            SourceFault::Folder => f.write_str("it is a folder"),
            SourceFault::Unreadable => f.write_str("the system refuses it"),
        }
    }
}
