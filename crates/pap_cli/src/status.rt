//! How a call ends.
ghost use Rattle.std.specs.Prelude.{◌≡◌};
ghost use Rattle.pap_cli.specs.Statuses.{status_number};

/// How a call of [`papcalc`](crate::papcalc) ended.
#[derive(Clone, Copy, Debug, PartialEq, Eq)]
pub enum Status {
    /// 0: all was written, and nothing was refused.
    Done,
    /// 1: all was written, and something was refused.
    Refused,
    /// 2: the words are none of the forms; nothing was written.
    BadWords,
    /// 3: a file that the words, or a line of the script, name could not be read.
    FileFault,
    /// 4: the source failed.
    ReadFault,
    /// 5: the sink failed.
    WriteFault,
    /// 6: memory ran out.
    NoMemory,
    /// 7: the script is longer than 67,108,864 bytes.
    ScriptLong,
}

impl Status {
    /// The number with which the program ends, from 0 to 7.
    pub fn number(self) -> u8
        ensures { result ≡ status_number self }
    {
        match self {
            Status::Done => 0,
            Status::Refused => 1,
            Status::BadWords => 2,
            Status::FileFault => 3,
            Status::ReadFault => 4,
            Status::WriteFault => 5,
            Status::NoMemory => 6,
            Status::ScriptLong => 7,
        }
    }
}
