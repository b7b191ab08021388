//! What is said of the runs that have no amounts.
ghost use Rattle.std.specs.Prelude.{◌≡◌, [], ◌∷◌, ◌++◌, IfOk, OnOk, string_bytes};
ghost use Rattle.std.specs.List.{flat_map};
ghost use Rattle.open_runs.specs.OpenRuns.{cause_part, causes_part, count_part, counted_in, counted_line, counts_part};
ghost use Rattle.open_runs.specs.OpenRuns.{filling_words, filled_words, open_line, other_part, others_part};

use crate::cause::Cause;
use crate::filled::is_filled;
use crate::tally::{CauseCount, OpenRuns, open_runs};
use pap_tree::Name;
use payroll_records::Day;
use recalc_engine::Book;
use std::alloc::{AllocError, Global};

/// How many runs of a book have no amounts, for which causes, and which is the first of each, with the entry of its range file
/// that fills an input for which it gives a value. Nothing where all have them.
pub fn open_line(alloc: Global, book: &Book) -> Result<String, AllocError>
    ensures { IfOk result (λ line. string_bytes line ≡ open_line book.now) }
{
    let tally = open_runs(alloc, book)?;
    counted_line(alloc, book, &tally)
}

/// The line of such runs.
fn counted_line(alloc: Global, book: &Book, tally: &OpenRuns) -> Result<String, AllocError>
    ensures { IfOk result
        (λ line. string_bytes line ≡ counted_line book.now (counted_in tally.now)) }
{
    let mut line = String::new(alloc);
    if tally.without == 0 {
        return Ok(line);
    }
    write_counts(&mut line, tally.without, tally.runs)?;
    write_causes(&mut line, book, tally.causes.as_slice())?;
    write_end(&mut line, tally.others)?;
    Ok(line)
}

/// Appends how many of all runs have no amounts.
fn write_counts(line: &mut String, without: u64, runs: u64) -> Result<(), AllocError>
    ensures { OnOk result
        (string_bytes line.new ≡ string_bytes line.old ++ counts_part without runs) }
{
    if without == 1 {
        write!(line, "papcalc: {without} of {runs} runs has no amounts")
    } else {
        write!(line, "papcalc: {without} of {runs} runs have no amounts")
    }
}

/// Appends whether there are other causes, and the line's end.
fn write_end(line: &mut String, others: bool) -> Result<(), AllocError>
    ensures { OnOk result
        (string_bytes line.new ≡ string_bytes line.old ++ (others_part others ++ 10 ∷ [])) }
{
    if others {
        line.push_str("; and others\n")
    } else {
        line.push_str("\n")
    }
}

/// Appends the causes, behind a colon.
fn write_causes(line: &mut String, book: &Book, causes: &[CauseCount]) -> Result<(), AllocError>
    ensures { OnOk result
        (string_bytes line.new ≡ string_bytes line.old ++ causes_part book.now causes.now) }
{
    let [first, others @ ..] = causes else {
        return Ok(());
    };
    line.push_str(": ")?;
    write_cause(line, book, first)?;
    write_others(line, book, others)
}

/// Appends further causes, each behind a semicolon.
fn write_others(line: &mut String, book: &Book, others: &[CauseCount]) -> Result<(), AllocError>
    ensures { OnOk result (string_bytes line.new
        ≡ string_bytes line.old ++ flat_map (other_part book.now) others.now) }
{
    for other in others {
        write_other(line, book, other)?;
    }
    Ok(())
}

/// Appends a further cause behind a semicolon.
fn write_other(line: &mut String, book: &Book, other: &CauseCount) -> Result<(), AllocError>
    ensures { OnOk result
        (string_bytes line.new ≡ string_bytes line.old ++ other_part book.now other.now) }
{
    line.push_str("; ")?;
    write_cause(line, book, other)
}

/// Appends a cause, with the number of its runs, the first of them, and the entry that fills its input there.
fn write_cause(line: &mut String, book: &Book, known: &CauseCount) -> Result<(), AllocError>
    ensures { OnOk result
        (string_bytes line.new ≡ string_bytes line.old ++ cause_part book.now known.now) }
{
    write_count(line, known)?;
    write_filled(line, book, known.first.day, &known.cause)
}

/// Appends a cause, with the number of its runs and the first of them.
fn write_count(line: &mut String, known: &CauseCount) -> Result<(), AllocError>
    ensures { OnOk result
        (string_bytes line.new ≡ string_bytes line.old ++ count_part known.now) }
{
    let count = known.count;
    let employee = known.first.employee;
    let day = known.first.day;
    match known.cause {
        Cause::NoPlan => write!(line, "noplan {count}, first {employee} {day}"),
        Cause::Waits => write!(line, "waits {count}, first {employee} {day}"),
        Cause::Unknown(name) => write!(line, "unknown {name} {count}, first {employee} {day}"),
        Cause::Missing(name) => write!(line, "missing {name} {count}, first {employee} {day}"),
        Cause::Range(name) => write!(line, "range {name} {count}, first {employee} {day}"),
    }
}

/// Appends which entry fills the input of a cause, where one does on this day, and what helps.
fn write_filled(line: &mut String, book: &Book, day: Day, cause: &Cause) -> Result<(), AllocError>
    ensures { OnOk result (string_bytes line.new
        ≡ string_bytes line.old ++ filled_words book.now day cause.now) }
{
    match cause {
        Cause::Unknown(name) => write_filling(line, is_filled(book, day, name), name),
        _ => Ok(()),
    }
}

/// Appends which entry fills the input of a name, where one does, and what helps.
fn write_filling(line: &mut String, is_filled: bool, name: &Name) -> Result<(), AllocError>
    ensures { OnOk result
        (string_bytes line.new ≡ string_bytes line.old ++ filling_words is_filled name.now) }
{
    if !is_filled {
        return Ok(());
    }
    write!(
        line,
        ", where the entry [bind.{name}] fills this input from earlier runs: leave the value out"
    )
}
