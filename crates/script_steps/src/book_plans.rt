//! The plans of a saved book, and why one is refused, in plain words.
ghost use Rattle.std.specs.Prelude.{◌≤◌, length};

use crate::plan::{Judged, judge_texts};
use payroll_records::Day;
use plain_words::{Position, TextFile, position};
use plan_calendar::MOST_PLANS;
use std::alloc::{AllocError, Global};
use std::str;

/// How many lines stand before the first plan: the title, the last work and the number of plans.
const LINES_BEFORE: usize = 3;

/// The names of the two texts of a plan, as words of its refusal begin with.
const NAMES: [&str; 2] = ["flowchart", "ranges"];

/// The line `plan DAY A B` of a saved book.
#[derive(Clone, Copy)]
struct PlanLine {
    /// From when on the plan holds.
    day: Day,
    /// How many bytes its flowchart's file has.
    plan: usize,
    /// How many bytes its range file has.
    limits: usize,
}

impl PlanLine {
    /// What a line of this form says. None where it isn't one.
    fn read(line: &[u8]) -> Option<PlanLine> {
        let line = str::from_utf8(line).ok()?;
        let mut words = line.split(' ');
        if words.next()? != "plan" {
            return None;
        }
        let day = Day::read(words.next()?.as_bytes())?;
        let plan = words.next()?.parse::<usize>().ok()?;
        let limits = words.next()?.parse::<usize>().ok()?;
        Some(PlanLine { day, plan, limits })
    }
}

/// How many bytes the texts of a plan have, as its line `plan DAY A B` says. None where a line isn't of this form.
pub(crate) fn texts_length(line: &[u8]) -> Option<usize> {
    let PlanLine { plan, limits, .. } = PlanLine::read(line)?;
    plan.checked_add(limits)
}

/// What stands behind so many lines of a text.
pub(crate) fn behind_lines(text: &[u8], count: usize) -> &[u8] {
    let mut rest = text;
    for _line in 0..count {
        rest = rest
            .get(line_length(rest).saturating_add(1)..)
            .unwrap_or(&[]);
    }
    rest
}

/// How many bytes the first line of a text has, without its line feed.
fn line_length(text: &[u8]) -> usize
    ensures { result ≤ length text.now }
{
    text.iter().take_while(|byte| **byte != b'\n').count()
}

/// The two texts of a plan in a saved book.
#[derive(Clone, Copy)]
struct PlanTexts<'a> {
    /// The flowchart's.
    plan: &'a [u8],
    /// The range file's.
    limits: &'a [u8],
    /// The byte of the book at which the plan's line begins.
    line_at: usize,
    /// The byte at which its flowchart begins.
    plan_at: usize,
    /// The byte at which its range file begins.
    limits_at: usize,
}

/// The texts of the plan of a day in a saved book.
fn find_texts(book: &[u8], day: Day) -> Option<PlanTexts<'_>> {
    let mut line_at = book
        .len()
        .saturating_sub(behind_lines(book, LINES_BEFORE).len());
    for _plan in 0..MOST_PLANS {
        let rest = book.get(line_at..)?;
        let line = &rest[..line_length(rest)];
        let lengths = PlanLine::read(line)?;
        let plan_at = line_at.saturating_add(line.len()).saturating_add(1);
        let limits_at = plan_at.saturating_add(lengths.plan);
        let end = limits_at.saturating_add(lengths.limits);
        if lengths.day == day {
            return Some(PlanTexts {
                plan: book.get(plan_at..limits_at)?,
                limits: book.get(limits_at..end)?,
                line_at,
                plan_at,
                limits_at,
            });
        }
        line_at = end.saturating_add(1);
    }
    None
}

/// Why the plan of a day in the saved book of this file is refused, with the place in the book, and what helps. Its texts are judged
/// once more for that.
pub(crate) fn refused_words(
    alloc: Global,
    file: TextFile<'_>,
    day: Day,
) -> Result<String, AllocError> {
    match find_texts(file.bytes, day) {
        Some(texts) => texts_words(alloc, file, day, texts),
        None => unplaced_words(alloc, file, day),
    }
}

/// That the plan of a day is refused, where the book doesn't have its texts.
fn unplaced_words(alloc: Global, file: TextFile<'_>, day: Day) -> Result<String, AllocError> {
    let name = file.name;
    format!(in alloc; "{name}: the plan of {day} is refused")
}

/// Why these texts of the plan of a day are refused.
fn texts_words(
    alloc: Global,
    file: TextFile<'_>,
    day: Day,
    texts: PlanTexts<'_>,
) -> Result<String, AllocError> {
    let [plan_name, limits_name] = NAMES;
    let plan = TextFile {
        name: plan_name,
        bytes: texts.plan,
    };
    let limits = TextFile {
        name: limits_name,
        bytes: texts.limits,
    };
    let Judged::Refused(reply) = judge_texts(alloc, plan, limits)? else {
        return unplaced_words(alloc, file, day);
    };
    match &reply.wrong {
        Some(words) => in_book(alloc, file, day, texts, words),
        None => unplaced_words(alloc, file, day),
    }
}

/// The words of the refusal of a plan, which begin with the name of one of its texts, with their place in the book in place of that.
fn in_book(
    alloc: Global,
    file: TextFile<'_>,
    day: Day,
    texts: PlanTexts<'_>,
    words: &str,
) -> Result<String, AllocError> {
    let [plan_name, limits_name] = NAMES;
    let (start, behind) = match words.strip_prefix(limits_name) {
        Some(behind) => (texts.limits_at, behind),
        None => (
            texts.plan_at,
            words.strip_prefix(plan_name).unwrap_or(words),
        ),
    };
    let (place, wrong) = match read_place(behind) {
        Some((place, wrong)) => (moved(position(file.bytes, start), place), wrong),
        None => (
            position(file.bytes, texts.line_at),
            behind.strip_prefix(": ").unwrap_or(behind),
        ),
    };
    let name = file.name;
    format!(in alloc; "{name}:{place}: the plan of {day} is refused: {wrong}")
}

/// The place with which words begin behind the name of a file, as `:3:9: `, and what stands behind it. None where they begin with none.
fn read_place(words: &str) -> Option<(Position, &str)> {
    let (line, rest) = words.strip_prefix(':')?.split_once(':')?;
    let (column, wrong) = rest.split_once(": ")?;
    let line = line.parse::<usize>().ok()?;
    let column = column.parse::<usize>().ok()?;
    Some((Position { line, column }, wrong))
}

/// A place in a text, as a place in the book in which that text begins there.
fn moved(start: Position, place: Position) -> Position {
    let Position { line, column } = place;
    Position {
        line: start.line.saturating_add(line).saturating_sub(1),
        column: if line == 1 {
            start.column.saturating_add(column).saturating_sub(1)
        } else {
            column
        },
    }
}
