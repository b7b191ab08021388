//! Why the system doesn't read a file.
ghost use Rattle.std.specs.Prelude.{◌≡◌};
ghost use Rattle.outside.specs.private.FileFaults.{fault_of};

use std::fmt;
use std::io::ErrorKind;

/// Why the system doesn't read a file, as far as it is told apart.
#[derive(Clone, Copy, Debug, PartialEq, Eq)]
pub enum FileFault {
    /// There is no file of this name.
    Missing,
    /// The file is there, and this program may not read it.
    Forbidden,
    /// The name is that of a folder.
    Folder,
    /// Any other cause.
    Unreadable,
}

impl FileFault {
    /// What an error of the system comes to. `None` is lack of memory, which isn't a fault.
    pub(crate) fn of(kind: ErrorKind) -> Option<FileFault>
        ensures { result ≡ fault_of kind }
    {
        match kind {
            ErrorKind::OutOfMemory => None,
            ErrorKind::NotFound | ErrorKind::NotADirectory => Some(FileFault::Missing),
            ErrorKind::PermissionDenied => Some(FileFault::Forbidden),
            ErrorKind::IsADirectory => Some(FileFault::Folder),
            _ => Some(FileFault::Unreadable),
        }
    }
}

impl fmt::Display for FileFault {
    ghost use Rattle.std.specs.Prelude.{Some};
    ghost use Rattle.outside.specs.FileFaults.{fault_text};

    ghost output = { λ fault. Some (fault_text fault) };

    fn fmt<W: fmt::Write>(&self, f: &mut fmt::Formatter<W>) -> fmt::Result {
        match self {
            FileFault::Missing => f.write_str("there is no such file"),
            FileFault::Forbidden => f.write_str("permission denied"),
            FileFault::Folder => f.write_str("it is a folder"),
            FileFault::Unreadable => f.write_str("it can't be read"),
        }
    }
}

/// A file that the system didn't read.
#[derive(Drop)]
pub struct FailedFile {
    /// The name that the call asked for.
    pub name: String,
    /// Why the system didn't read it.
    pub fault: FileFault,
}
