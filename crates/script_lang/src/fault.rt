//! Why a line is refused.
ghost use Rattle.std.specs.Prelude.{◌≡◌};
ghost use Rattle.script_lang.specs.declared.fault.LineFault.TheVariants.{Memory};

use pap_tree::Name;
use std::alloc::AllocError;
use thiserror::Error;

/// Why a line of a script is refused. Words are counted from 1, the command being word 1.
#[derive(Debug, Drop, Error)]
pub enum LineFault {
    #[error("the first word is no command: plan, drop, add, change, withdraw, load, report, work, trace, file, owed, open or try; a script has no byte order mark before its first word")]
    Command,
    #[error("the command takes other words: their number is wrong, or a file's name is not at most 255 visible ASCII characters; `papcalc --help` shows its form")]
    Words,
    #[error("the employee is not 1 to 32 ASCII letters, digits, `_`, `-` and `.`")]
    Employee,
    #[error("the month is not of the form YYYY-MM, or not of the years 1900 to 2999")]
    Month,
    #[error("the day is not of the form YYYY-MM-DD, not in the calendar, not of the years 1900 to 2999 or not in the month; for withdraw and trace it may also be a month, as 2025-01")]
    Day,
    #[error("word {word} is not of the form NAME=VALUE with a name and a number of at most 30 decimal places and at most 10^37 without its point; a number has a point before decimal places and nothing between thousands, as 2500.55")]
    Value { word: u32 },
    #[error("an earlier word gives {name} a value already")]
    Twice { name: Name },
    #[error("the line has more than 65536 bytes")]
    LineLong,
    #[error("out of memory")]
    Memory(AllocError),
}

impl From<AllocError> for LineFault {
    ghost from_gives = { λ error fault. fault ≡ Memory error };

    fn from(error: AllocError) -> LineFault {
        LineFault::Memory(error)
    }
}
