//! Lines of a script: which command each is, or why it is refused.
use script_lang::{Command, read_line};
use std::test::Fail;
use trial_rows::all_rows;

/// Lines with their commands, or with the text of their first fault. The others stand in
/// `examples/answers`.
const LINES: &str = r#" => nothing
# a comment => nothing
plan 2025-01-01 a.xml b.toml => plan
plan 2024-02-29 # ! => plan
drop 1900-01-01 => drop
add E1 2025-01 2025-01-31 => add
add E1 2025-01 2025-01-31 STKL=1 RE4=2500.50 => add
change E1 2025-01 2025-01-31 N=-1 => change
withdraw E1 2025-01 => withdraw
withdraw E1 2025-01-31 => withdraw
load runs.csv => load
report => report
work => work
trace E1 2025-01 => trace
trace E1 2025-01-31 => trace
file 2025-01 => file
owed => owed
open saved.book => open
try 2025-01-01 a.xml b.toml => try
Report => the first word is no command: plan, drop, add, change, withdraw, load, report, work, trace, file, owed, open or try; a script has no byte order mark before its first word
report now => the command takes other words: their number is wrong, or a file's name is not at most 255 visible ASCII characters; `papcalc --help` shows its form
add ? 2025-1 x y => the employee is not 1 to 32 ASCII letters, digits, `_`, `-` and `.`
add E1 2025-1 x y => the month is not of the form YYYY-MM, or not of the years 1900 to 2999
add E1 2025-01 2025-02-01 y => the day is not of the form YYYY-MM-DD, not in the calendar, not of the years 1900 to 2999 or not in the month; for withdraw and trace it may also be a month, as 2025-01
add E1 2025-01 2025-01-31 N=1 N=x N=2 => word 6 is not of the form NAME=VALUE with a name and a number of at most 30 decimal places and at most 10^37 without its point; a number has a point before decimal places and nothing between thousands, as 2500.55
change E1 2025-01 2025-01-31 N=1 M=1 N=2 M=x => an earlier word gives N a value already
1024 x ################################################################ => nothing
1024 x ################################################################ ~ # => the line has more than 65536 bytes"#;

/// The word by which a command is asked for.
fn first_word(command: &Command) -> &'static str {
    match command {
        Command::Nothing => "nothing",
        Command::Plan { .. } => "plan",
        Command::Drop { .. } => "drop",
        Command::Add(_) => "add",
        Command::Change(_) => "change",
        Command::Withdraw { .. } => "withdraw",
        Command::Load { .. } => "load",
        Command::Report => "report",
        Command::Work => "work",
        Command::Trace { .. } => "trace",
        Command::File { .. } => "file",
        Command::Owed => "owed",
        Command::Open { .. } => "open",
        Command::Try { .. } => "try",
    }
}

/// Writes which command a line asks for, or why it is refused.
fn asked_for(asked: &str, text: &mut String) -> Result<(), Fail> {
    match read_line(*text.allocator(), asked.as_bytes()) {
        Ok(command) => text.push_str(first_word(&command))?,
        Err(fault) => write!(text, "{fault}")?,
    }
    Ok(())
}

#[test]
fn a_line_asks_for_a_command_or_is_refused(rt: HostRuntime) -> Result<(), Fail> {
    all_rows(rt.alloc(), LINES, asked_for)
}
