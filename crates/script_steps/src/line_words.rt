//! What is wrong with a line of a script that is refused, in plain words.
ghost use Rattle.std.specs.Prelude.{IfOk, string_bytes};
ghost use Rattle.plain_words.specs.Lines.{IsOneLine};

use crate::shown::write_shown;
use crate::takes::Takes;
use crate::time_words::{write_day_fault, write_month_fault};
use pap_tree::Name;
use payroll_records::MOST_VALUES;
use plain_words::{one_line, value_words};
use script_lang::LineFault;
use std::alloc::{AllocError, Global};

/// The commands of a script.
const COMMANDS: [&str; 13] = [
    "plan", "drop", "add", "change", "withdraw", "load", "report", "work", "trace", "file", "owed",
    "open", "try",
];

/// The same in words.
const THERE_ARE: &str =
    "there are plan, drop, add, change, withdraw, load, report, work, trace, file, owed, open and try";

/// The mark with which a text of UTF-8 may begin.
const MARK: &[u8] = b"\xEF\xBB\xBF";

/// Characters in UTF-8 that look like a blank and join what stands beside them: no-break spaces of several widths.
const JOINING_BLANKS: [&[u8]; 3] = [b"\xC2\xA0", b"\xE2\x80\x87", b"\xE2\x80\xAF"];

/// How a comment begins in other languages.
const FOREIGN_COMMENTS: [&[u8]; 3] = [b"//", b"/*", b";"];

/// The place of a line's first value, the command being at 0.
const FIRST_VALUE: usize = 4;

/// What is wrong with a line, in one line of plain words that shows the word at fault and ends with what helps. Fails only
/// for lack of memory.
pub(crate) fn line_words(
    alloc: Global,
    line: &[u8],
    fault: &LineFault,
) -> Result<String, AllocError>
    ensures { IfOk result (λ words. IsOneLine (string_bytes words)) }
{
    let mut told = String::new(alloc);
    match fault {
        LineFault::LineLong => write!(told, "{fault}")?,
        LineFault::Memory(_) => return Err(AllocError),
        _ => write_fault(&mut told, line, fault)?,
    }
    one_line(alloc, &told)
}

/// Appends what is wrong with the words of a line.
fn write_fault(told: &mut String, line: &[u8], fault: &LineFault) -> Result<(), AllocError> {
    let found: Vec<&[u8]> = words_of(*told.allocator(), line)?;
    let words = found.as_slice();
    let first = word_at(words, 0);
    let Some(takes) = Takes::of(first) else {
        return write_command_fault(told, first);
    };
    if let Some(joined) = joined_word(words, fault, takes) {
        write_shown(told, joined)?;
        return told.push_str(" has a no-break space in it; write a blank in its place");
    }
    match fault {
        LineFault::Words => write_words_fault(told, words, takes),
        LineFault::Employee => write_employee_fault(told, word_at(words, 1)),
        LineFault::Month => write_month_fault(told, words, takes),
        LineFault::Day => write_day_fault(told, words, takes),
        LineFault::Value { word } => write_value_fault(told, words, *word),
        LineFault::Twice { name } => write_repeat(told, words, *name),
        _ => write!(told, "{fault}"),
    }
}

/// The word with a no-break space that may be why a line is refused: the one at fault, or where their number may be wrong the first.
fn joined_word<'a>(words: &[&'a [u8]], fault: &LineFault, takes: Takes) -> Option<&'a [u8]> {
    let place = match fault {
        LineFault::Words => return words.iter().copied().find(|word| has_joining_blank(word)),
        LineFault::Employee => 1,
        LineFault::Month => takes.month_place(),
        LineFault::Day => takes.day_place(),
        LineFault::Value { word } => place_of(*word),
        _ => return None,
    };
    let word = word_at(words, place);
    has_joining_blank(word).then_some(word)
}

/// Whether a character stands in a word that looks like a blank and joins what stands beside it.
fn has_joining_blank(word: &[u8]) -> bool {
    for at in 0..word.len() {
        if begins_with_one(&word[at..], &JOINING_BLANKS) {
            return true;
        }
    }
    false
}

/// Whether a word begins with one of these texts.
fn begins_with_one(word: &[u8], texts: &[&[u8]]) -> bool {
    texts.iter().any(|text| word.starts_with(text))
}

/// The place of the word of a number, the command being word 1, and at 0.
fn place_of(number: u32) -> usize {
    (number as usize).saturating_sub(1)
}

/// The words of a line.
fn words_of(alloc: Global, line: &[u8]) -> Result<Vec<&[u8]>, AllocError> {
    let mut words = Vec::new(alloc);
    for part in line.split(|byte| *byte == b' ' || *byte == b'\t') {
        if !part.is_empty() {
            words.push(part)?;
        }
    }
    Ok(words)
}

/// The word at a place, the command being at 0. Empty beyond the last.
pub(crate) fn word_at<'a>(words: &[&'a [u8]], place: usize) -> &'a [u8] {
    match words.get(place) {
        Some(word) => *word,
        None => &[],
    }
}

/// Appends that a first word is not a command, and what helps.
fn write_command_fault(told: &mut String, word: &[u8]) -> Result<(), AllocError> {
    if word.starts_with(MARK) {
        return told.push_str(
            "the line begins with a byte order mark; save the script in UTF-8 without that mark",
        );
    }
    if word.contains(&0) {
        return told.push_str(
            "the line has a zero byte, as a text in UTF-16 has; save the script in UTF-8",
        );
    }
    if word.ends_with(b"\r") {
        return told.push_str("a carriage return alone ends the line; end it with a line feed");
    }
    write_shown(told, word)?;
    if has_joining_blank(word) {
        return told.push_str(" has a no-break space in it; write a blank in its place");
    }
    told.push_str(" is not a command; ")?;
    write_command_help(told, word)
}

/// Appends what helps where a first word is not a command.
fn write_command_help(told: &mut String, word: &[u8]) -> Result<(), AllocError> {
    if begins_with_one(word, &FOREIGN_COMMENTS) {
        return told.push_str("a comment begins with #");
    }
    if matches!(word, b">" | b"$") {
        return told.push_str("leave it out, so that the line begins with its command");
    }
    if word.contains(&b'=') {
        return told.push_str("write all values of a run in the line of its add or change");
    }
    let letters = letters_of(word);
    for command in COMMANDS.iter() {
        if letters.eq_ignore_ascii_case(command.as_bytes()) {
            return match word.len().saturating_sub(letters.len()) {
                0 => write!(told, "write {command} in small letters"),
                1 => write!(told, "write {command} without the sign behind it"),
                _ => write!(told, "write {command} and a blank behind it"),
            };
        }
    }
    told.push_str(THERE_ARE)
}

/// The letters with which a word begins.
fn letters_of(word: &[u8]) -> &[u8] {
    let count = word
        .iter()
        .take_while(|byte| byte.is_ascii_alphabetic())
        .count();
    &word[..count]
}

/// Appends that a command takes other words, and what helps.
fn write_words_fault(told: &mut String, words: &[&[u8]], takes: Takes) -> Result<(), AllocError> {
    let count = words.len().saturating_sub(1);
    if takes.least() <= count && count <= takes.most() {
        return write_file_fault(told, words, takes);
    }
    let command = String::from_utf8_lossy(*told.allocator(), word_at(words, 0))?;
    if let Some(comment) = words.iter().copied().find(|word| is_comment(word)) {
        return write_comment(told, comment);
    }
    let is_long = count > takes.most();
    if is_long && takes == Takes::Run {
        let values = count.saturating_sub(takes.least());
        return write!(
            told,
            "`{command}` takes at most {MOST_VALUES} values, and has {values}"
        );
    }
    let needed = takes.words();
    let example = takes.example();
    let noun = if count == 1 { "word" } else { "words" };
    let hint = if is_long { takes.hint() } else { "" };
    write!(
        told,
        "`{command}` takes {needed}, and has {count} {noun} behind it; {hint}write {command} {example}"
    )
}

/// Appends which word is not the name of a file, and what helps.
fn write_file_fault(told: &mut String, words: &[&[u8]], takes: Takes) -> Result<(), AllocError> {
    let mut longest: &[u8] = &[];
    for place in takes.first_file()..words.len() {
        let word = word_at(words, place);
        if !word.iter().all(|byte| byte.is_ascii_graphic()) {
            told.push_str("the file's name ")?;
            write_shown(told, word)?;
            return told.push_str(
                " has other characters than letters, digits and signs of ASCII; give the file another name",
            );
        }
        if word.len() > longest.len() {
            longest = word;
        }
    }
    told.push_str("the file's name ")?;
    write_shown(told, longest)?;
    told.push_str(" has more than 255 characters; give the file a shorter name")
}

/// Appends that a word is not an employee, and what helps.
fn write_employee_fault(told: &mut String, word: &[u8]) -> Result<(), AllocError> {
    told.push_str("the employee is ")?;
    write_shown(told, word)?;
    told.push_str(
        ", and not 1 to 32 ASCII letters, digits, `_`, `-` and `.`; correct it, also in later lines, since runs are found by it",
    )
}

/// Appends what is wrong with the value word of a number, the command being word 1, and what helps.
fn write_value_fault(told: &mut String, words: &[&[u8]], number: u32) -> Result<(), AllocError> {
    let word = word_at(words, place_of(number));
    write!(told, "word {number}: ")?;
    if is_comment(word) {
        return write_comment(told, word);
    }
    if matches!(word, b"\\") {
        return told.push_str("`\\` doesn't go on with the line; write the run in one line");
    }
    let wrong = value_words(*told.allocator(), word)?;
    told.push_str(wrong.as_str())
}

/// Whether a word behind a command is meant to begin a comment.
fn is_comment(word: &[u8]) -> bool {
    word.starts_with(b"#") || word.starts_with(b"//")
}

/// Appends that a word begins a comment where none may stand, and what helps.
fn write_comment(told: &mut String, word: &[u8]) -> Result<(), AllocError> {
    write_shown(told, word)?;
    told.push_str(
        " stands behind a command, where no comment may stand; write the comment in a line of its own, which begins with #",
    )
}

/// Appends which word gives a name a second value, and what helps.
fn write_repeat(told: &mut String, words: &[&[u8]], name: Name) -> Result<(), AllocError> {
    let mut is_given = false;
    for place in FIRST_VALUE..words.len() {
        let word = word_at(words, place);
        if name_in(word) != name.bytes() {
            continue;
        }
        if is_given {
            let number = place.saturating_add(1);
            write!(told, "word {number}: ")?;
            write_shown(told, word)?;
            return write!(told, " gives {name} a second value; give each name once");
        }
        is_given = true;
    }
    write!(told, "{name} has two values; give each name once")
}

/// What stands before the first `=` of a word.
fn name_in(word: &[u8]) -> &[u8] {
    let count = word.iter().take_while(|byte| **byte != b'=').count();
    &word[..count]
}
