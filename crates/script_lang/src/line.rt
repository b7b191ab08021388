//! A line of a script.
ghost use Rattle.std.specs.Prelude.{◌≡◌, ◌↔◌, ◌<◌, ◌∷◌, codes, IfErr, IfOk, IsTrue, MatchResult, length, slice_index, string_bytes};
ghost use Rattle.payroll_records.specs.Tables.{Text};
ghost use Rattle.script_lang.specs.Commands.{asked_of};
ghost use Rattle.script_lang.specs.Lines as lines;
ghost use Rattle.script_lang.specs.Lines.{Ask, HasOneAnswer, IsLine, IsOfFile, IsOfPlan, IsOfRun, IsLineFaultOrMemory};
ghost use Rattle.script_lang.specs.private.Views.{Answers, IsFaultOf, texts};

use crate::run::{read_day, read_employee, read_month, read_record, read_when};
use crate::words::{Verb, file, read_verb, words};
use crate::{Command, LineFault};
use payroll_records::{Day, Employee, NameOrder, When};
use std::alloc::Global;

/// The most bytes of a line.
pub const MOST_LINE: usize = 65_536;

/// What a line asks for, of at most 65,536 bytes without its line end. A line is refused by its length, then by its first
/// word, then by the number of its words and the names of files, then by the leftmost word with a fault. Memory is asked for
/// only where the line is not too long.
pub fn read_line(alloc: Global, line: &[u8]) -> Result<Command, LineFault>
    ensures ok { IfOk result (λ command. IsLine line.now (asked_of command)) }
    ensures err { IfErr result (IsLineFaultOrMemory line.now) }
{
    read_next_line(alloc, line, &mut None)
}

/// Reads a line as [`read_line`] does. `order` is that of the names in an earlier line, and then in this one where it gives values: a line
/// with the same names in the same order is read by it, which is faster, and shares the list of the names. The answer is the same whatever
/// it is.
pub fn read_next_line(
    alloc: Global,
    line: &[u8],
    order: &mut Option<NameOrder>,
) -> Result<Command, LineFault>
    ensures ok { IfOk result (λ command. IsLine line.now (asked_of command)) }
    ensures err { IfErr result (IsLineFaultOrMemory line.now) }
{
    if line.len() > MOST_LINE {
        return Err(LineFault::LineLong);
    }
    let words = words(alloc, line)?;
    read_words(alloc, words.as_slice(), order)
}

/// A line has one answer: what it asks for or why it is refused, and not both.
pub fn each_line_has_one_answer()
    ensures { (line : Text) → HasOneAnswer line }
{}

/// What the words of a line ask for.
fn read_words(
    alloc: Global,
    words: &[&[u8]],
    order: &mut Option<NameOrder>,
) -> Result<Command, LineFault>
    ensures { Answers (texts words.now) result }
{
    let [first, rest @ ..] = words else {
        return Ok(Command::Nothing);
    };
    if is_comment(first) {
        return Ok(Command::Nothing);
    }
    match read_verb(first).ok_or(LineFault::Command)? {
        Verb::Plan => {
            let (day, plan, limits) = read_plan(alloc, rest)?;
            Ok(Command::Plan { day, plan, limits })
        }
        Verb::Drop => read_drop(rest),
        Verb::Add => Ok(Command::Add(read_record(alloc, rest, order)?)),
        Verb::Change => Ok(Command::Change(read_record(alloc, rest, order)?)),
        Verb::Withdraw => {
            let (employee, when) = read_run(rest)?;
            Ok(Command::Withdraw { employee, when })
        }
        Verb::Load => {
            let file = read_file(alloc, rest)?;
            Ok(Command::Load { file })
        }
        Verb::Report => read_alone(rest, Command::Report),
        Verb::Work => read_alone(rest, Command::Work),
        Verb::Trace => {
            let (employee, when) = read_run(rest)?;
            Ok(Command::Trace { employee, when })
        }
        Verb::File => read_filing(rest),
        Verb::Owed => read_alone(rest, Command::Owed),
        Verb::Open => {
            let file = read_file(alloc, rest)?;
            Ok(Command::Open { file })
        }
        Verb::Try => {
            let (day, plan, limits) = read_plan(alloc, rest)?;
            Ok(Command::Try { day, plan, limits })
        }
    }
}

/// Whether a line that begins with this word is a comment.
fn is_comment(word: &[u8]) -> bool
    ensures { IsTrue result ↔ (slice_index word.now 0 ≡ 35) }
{
    word.first() == Some(&b'#')
}

/// The words behind `plan` and `try`: `DAY PLANFILE LIMITFILE`.
fn read_plan(alloc: Global, rest: &[&[u8]]) -> Result<(Day, String, String), LineFault>
    ensures ok { (command : Text) → IfOk result
        (λ plan. IsOfPlan command (command ∷ texts rest.now) plan.0
        (string_bytes plan.1) (string_bytes plan.2)) }
    ensures err { IfErr result (IsFaultOf lines.plan (texts rest.now)) }
{
    let [day, plan, limits] = rest else {
        return Err(LineFault::Words);
    };
    let plan = file(plan).ok_or(LineFault::Words)?;
    let limits = file(limits).ok_or(LineFault::Words)?;
    Ok((
        read_day(day)?,
        String::from_str(alloc, plan)?,
        String::from_str(alloc, limits)?,
    ))
}

/// The word behind `drop`: `DAY`.
fn read_drop(rest: &[&[u8]]) -> Result<Command, LineFault>
    ensures ok { IfOk result (λ command. Ask (codes "drop" ∷ texts rest.now) (asked_of command)) }
    ensures err { IfErr result (IsFaultOf lines.drop (texts rest.now)) }
{
    let [day] = rest else {
        return Err(LineFault::Words);
    };
    Ok(Command::Drop {
        day: read_day(day)?,
    })
}

/// The words behind `withdraw` and `trace`: `EMP WHEN`.
fn read_run(rest: &[&[u8]]) -> Result<(Employee, When), LineFault>
    ensures ok { (command : Text) → IfOk result
        (λ run. IsOfRun command (command ∷ texts rest.now) run.0 run.1) }
    ensures err { IfErr result (IsFaultOf lines.withdraw (texts rest.now)) }
{
    let [employee, when] = rest else {
        return Err(LineFault::Words);
    };
    Ok((read_employee(employee)?, read_when(when)?))
}

/// The word behind `load` and `open`: `FILE`.
fn read_file(alloc: Global, rest: &[&[u8]]) -> Result<String, LineFault>
    ensures ok { (command : Text) → IfOk result
        (λ file. IsOfFile command (command ∷ texts rest.now) (string_bytes file)) }
    ensures err { IfErr result (IsFaultOf lines.load (texts rest.now)) }
{
    let [name] = rest else {
        return Err(LineFault::Words);
    };
    let name = file(name).ok_or(LineFault::Words)?;
    Ok(String::from_str(alloc, name)?)
}

/// The word behind `file`: `MONTH`.
fn read_filing(rest: &[&[u8]]) -> Result<Command, LineFault>
    ensures ok { IfOk result (λ command. Ask (codes "file" ∷ texts rest.now) (asked_of command)) }
    ensures err { IfErr result (IsFaultOf lines.filing (texts rest.now)) }
{
    let [month] = rest else {
        return Err(LineFault::Words);
    };
    Ok(Command::File {
        month: read_month(month)?,
    })
}

/// A command of one word.
fn read_alone(rest: &[&[u8]], command: Command) -> Result<Command, LineFault>
    ensures { MatchResult result (λ c. (length rest.now ≡ 0) × (c ≡ command))
        (λ f. (0 < length rest.now) × (f ≡ LineFault.Words)) }
{
    if !rest.is_empty() {
        return Err(LineFault::Words);
    }
    Ok(command)
}
