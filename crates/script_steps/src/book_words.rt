//! What is wrong with a saved book, in plain words.
use crate::book_plans::{behind_lines, refused_words, texts_length};
use crate::shown::write_shown;
use crate::takes::Takes;
use crate::time_words::write_no_day;
use book_file::BookFault;
use payroll_records::Day;
use plain_words::TextFile;
use saved_items::{Wanted, WrongItem, wrong_item};
use std::alloc::{AllocError, Global};

/// How many items stand before the first plan.
const BEFORE_PLANS: u32 = 3;

/// What is wrong with the saved book of this file, and what helps.
pub(crate) fn book_words(
    alloc: Global,
    file: TextFile<'_>,
    fault: &BookFault,
) -> Result<String, AllocError> {
    let name = file.name;
    match fault {
        BookFault::Long => format!(in alloc;
            "{name}: {fault}; `save` writes none that is longer: split the runs by employee into several books"
        ),
        BookFault::Form { item } => form_words(alloc, file, *item),
        BookFault::Plan { day } => refused_words(alloc, file, *day),
        fault => format!(in alloc; "{name}: {fault}"),
    }
}

/// What is wrong with an item of a saved book, with the line in which it would begin, and what helps. The text is read once more
/// for that.
fn form_words(alloc: Global, file: TextFile<'_>, item: u32) -> Result<String, AllocError> {
    let name = file.name;
    match wrong_item(alloc, file.bytes)? {
        Some(wrong) => {
            let line = wrong.line;
            let mut told = format!(in alloc; "{name}:{line}:1: ")?;
            write_item(&mut told, file.bytes, &wrong)?;
            Ok(told)
        }
        None => format!(in alloc; "{name}: item {item} is not of its form"),
    }
}

/// Appends what stands in place of an item of a saved book, and what has to stand there.
fn write_item(told: &mut String, book: &[u8], wrong: &WrongItem<'_>) -> Result<(), AllocError> {
    let item = wrong.item;
    if wrong.is_cut {
        return write_cut(told, item, wrong.found);
    }
    if let Some(fault) = texts_fault(book, wrong) {
        return write_texts_fault(told, wrong, fault);
    }
    write!(told, "item {item}, ")?;
    write_line(told, wrong.found)?;
    write_form_fault(told, wrong)
}

/// Appends why a line isn't that of an item, and what helps.
fn write_form_fault(told: &mut String, wrong: &WrongItem<'_>) -> Result<(), AllocError> {
    let line = wrong.found;
    if line.ends_with(b"\r") {
        return told.push_str(
            ", ends in a carriage return and a line feed, as on Windows; a saved book has line feeds alone: copy it as it was saved",
        );
    }
    if has_empty_word(line) {
        return told.push_str(
            ", has a blank too many; one blank stands between words, and none before or behind them",
        );
    }
    match wrong.wanted {
        Wanted::End if line.starts_with(b"run ") => told.push_str(
            " is one more run than the line `runs R` says; correct its number, or take the run out",
        ),
        Wanted::Run if is_run_without_day(line) => {
            told.push_str(", has no day as its third word: ")?;
            write_no_day(told, word_of(line, 2), Takes::Day)
        }
        wanted => {
            let needed = wanted.words();
            write!(told, ", is not of its form; {needed}")
        }
    }
}

/// Whether a line that isn't empty has a blank at an end, or two blanks one behind the other.
fn has_empty_word(line: &[u8]) -> bool {
    for word in line.split(|byte| *byte == b' ') {
        if word.is_empty() {
            return !line.is_empty();
        }
    }
    false
}

/// Whether a line has the words of a run, but no day as the third.
fn is_run_without_day(line: &[u8]) -> bool {
    let day = word_of(line, 2);
    line.starts_with(b"run ") && !day.is_empty() && Day::read(day).is_none()
}

/// The word of a line at a place, counted from 0. Empty beyond the last.
fn word_of(line: &[u8], place: usize) -> &[u8] {
    for (at, word) in line.split(|byte| *byte == b' ').enumerate() {
        if at == place {
            return word;
        }
    }
    &[]
}

/// Appends where the text of a saved book was cut off.
fn write_cut(told: &mut String, item: u32, found: &[u8]) -> Result<(), AllocError> {
    if !found.is_empty() {
        write!(told, "the text ends in item {item}, ")?;
        write_line(told, found)?;
        return told.push_str(
            ", before its line feed; it was cut off: write or copy the book again",
        );
    }
    if item == 1 {
        return told.push_str(
            "the file is empty; `save` leaves it so where it writes to the very file that its script opens: write to a new file",
        );
    }
    write!(
        told,
        "the text ends before item {item}; it was cut off: write or copy the book again"
    )
}

/// Appends how a line begins.
fn write_line(told: &mut String, line: &[u8]) -> Result<(), AllocError> {
    if line.is_empty() {
        return told.push_str("an empty line");
    }
    write_shown(told, line)
}

/// What is wrong with the texts of a plan, whose lengths its line says.
#[derive(Clone, Copy)]
enum TextsFault {
    /// The book ends within them.
    Cut,
    /// They don't end where its line says, so that no line feed stands there.
    NoEnd,
    /// They don't end where its line says, so that what stands there is no item.
    NoItem,
}

/// Appends what is wrong with the texts of a plan, and what helps.
fn write_texts_fault(
    told: &mut String,
    wrong: &WrongItem<'_>,
    fault: TextsFault,
) -> Result<(), AllocError> {
    let item = wrong.item;
    match fault {
        TextsFault::Cut => {
            write!(told, "the text ends within the two files of item {item}, ")?;
            write_line(told, wrong.found)?;
            told.push_str("; it was cut off: write or copy the book again")
        }
        TextsFault::NoEnd => {
            write!(told, "the lengths in item {item}, ")?;
            write_line(told, wrong.found)?;
            told.push_str(
                ", don't fit the two files behind it; they were changed: write the book again by `save`",
            )
        }
        TextsFault::NoItem => {
            write_line(told, wrong.found)?;
            let plan = item.saturating_sub(1);
            write!(
                told,
                " stands behind the two files of item {plan}, whose line says lengths that don't fit them; they were changed: write the book again by `save`"
            )
        }
    }
}

/// What is wrong with the texts of a plan, where that is why an item isn't of its form.
fn texts_fault(book: &[u8], wrong: &WrongItem<'_>) -> Option<TextsFault> {
    let is_plan = matches!(wrong.wanted, Wanted::Plan);
    if is_plan && let Some(length) = texts_length(wrong.found) {
        return match behind_lines(book, wrong.line).get(length) {
            None => Some(TextsFault::Cut),
            Some(byte) if *byte == b'\n' => None,
            Some(_) => Some(TextsFault::NoEnd),
        };
    }
    let is_behind_plan = wrong.item > BEFORE_PLANS + 1;
    let is_item = wrong.found.starts_with(b"plan ") || wrong.found.starts_with(b"runs ");
    if is_behind_plan && !is_item && (is_plan || matches!(wrong.wanted, Wanted::RunCount)) {
        return Some(TextsFault::NoItem);
    }
    None
}
