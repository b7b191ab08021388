//! Why the system takes no output.
ghost use Rattle.std.specs.Prelude.{◌≡◌};
ghost use Rattle.outside.specs.SinkFaults.{sink_fault_of, sink_fault_of_kind};

use std::fmt;
use std::io::{Error, ErrorKind};

/// The system's number of the error that a descriptor isn't open.
const NOT_OPEN: i32 = 9;

/// Why the system takes no output, as far as it is told apart.
#[derive(Clone, Copy, Debug, PartialEq, Eq)]
pub enum SinkFault {
    /// The output isn't open.
    Shut,
    /// The output is a pipe whose reader has closed it.
    Closed,
    /// The device has no room, or a quota is used up, or the file is as long as it may be.
    Full,
    /// Any other cause.
    Unwritable,
}

impl SinkFault {
    /// What an error of the system comes to.
    pub fn of(error: &Error) -> SinkFault
        ensures { result ≡ sink_fault_of error.now }
    {
        match error.raw_os_error() {
            Some(code) if code == NOT_OPEN => SinkFault::Shut,
            _ => SinkFault::of_kind(error.kind()),
        }
    }

    /// What an error of this kind comes to, which isn't that a descriptor isn't open.
    fn of_kind(kind: ErrorKind) -> SinkFault
        ensures { result ≡ sink_fault_of_kind kind }
    {
        match kind {
            ErrorKind::BrokenPipe => SinkFault::Closed,
            ErrorKind::StorageFull | ErrorKind::QuotaExceeded | ErrorKind::FileTooLarge => {
                SinkFault::Full
            }
            _ => SinkFault::Unwritable,
        }
    }
}

impl fmt::Display for SinkFault {
    ghost use Rattle.std.specs.Prelude.{Some};
    ghost use Rattle.outside.specs.SinkFaults.{sink_fault_text};

    ghost output = { λ fault. Some (sink_fault_text fault) };

    fn fmt<W: fmt::Write>(&self, f: &mut fmt::Formatter<W>) -> fmt::Result {
        match self {
            SinkFault::Shut => f.write_str("it is closed"),
            SinkFault::Closed => f.write_str("its reader has closed the pipe"),
            SinkFault::Full => f.write_str("there is no room left on the device"),
            SinkFault::Unwritable => f.write_str("the system refuses it"),
        }
    }
}
