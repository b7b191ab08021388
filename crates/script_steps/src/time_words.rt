//! What is wrong with the month or the day of a line, in plain words.
use crate::line_words::word_at;
use crate::shown::write_shown;
use crate::takes::Takes;
use payroll_records::{Day, Month};
use std::alloc::AllocError;

/// The length of a written month.
const MONTH_LENGTH: usize = 7;

/// The length of a written day.
const DAY_LENGTH: usize = 10;

/// Appends what is wrong with the month of a line, and what helps.
pub(crate) fn write_month_fault(
    told: &mut String,
    words: &[&[u8]],
    takes: Takes,
) -> Result<(), AllocError> {
    let place = takes.month_place();
    let word = word_at(words, place);
    write_shown(told, word)?;
    if let Some(day) = Day::read(word) {
        return write_day_for_month(told, words, takes, day);
    }
    if is_written(word, MONTH_LENGTH) {
        return told.push_str(if is_of_years(word) {
            " is not a month; months go from 01 to 12"
        } else {
            " is not of the years 1900 to 2999"
        });
    }
    if takes == Takes::Run && word.contains(&b'=') {
        return told.push_str(
            " is a value, and a month has to stand there; write a month and a day before the values, as 2026-01 2026-01-31",
        );
    }
    told.push_str(" isn't written as a month is; ")?;
    told.push_str(if takes == Takes::Run && has_month_behind(words, place) {
        "an employee is one word: join its parts with - or _"
    } else {
        "write it as 2026-01"
    })
}

/// Appends that this day stands in place of a month, and what helps.
fn write_day_for_month(
    told: &mut String,
    words: &[&[u8]],
    takes: Takes,
    day: Day,
) -> Result<(), AllocError> {
    let month = Month::of_day(day);
    told.push_str(" is a day, and a month has to stand there; ")?;
    if takes == Takes::Run && Day::read(word_at(words, takes.day_place())).is_none() {
        write!(
            told,
            "write the month, and the day behind it: {month} {day}"
        )
    } else {
        write!(told, "write {month}")
    }
}

/// Whether a month stands behind a place of a line.
fn has_month_behind(words: &[&[u8]], place: usize) -> bool {
    for later in place.saturating_add(1)..words.len() {
        if Month::read(word_at(words, later)).is_some() {
            return true;
        }
    }
    false
}

/// Appends what is wrong with the day of a line, and what helps.
pub(crate) fn write_day_fault(
    told: &mut String,
    words: &[&[u8]],
    takes: Takes,
) -> Result<(), AllocError> {
    let word = word_at(words, takes.day_place());
    write_shown(told, word)?;
    if Day::read(word).is_some() {
        told.push_str(" isn't in the month ")?;
        write_shown(told, word_at(words, takes.month_place()))?;
        return told.push_str("; correct one of the two");
    }
    if let Some(month) = Month::read(word) {
        return write!(
            told,
            " is a month, and a day has to stand there; write one, as {month}-01"
        );
    }
    if takes == Takes::Run && word.contains(&b'=') {
        told.push_str(" is a value, and a day has to stand there; write one, as ")?;
        return match Month::read(word_at(words, takes.month_place())) {
            Some(month) => write!(told, "{month}-01"),
            None => told.push_str("2026-01-31"),
        };
    }
    write_form_of_day(told, word, takes)
}

/// Appends a word that isn't a day, why, and what helps.
pub(crate) fn write_no_day(told: &mut String, word: &[u8], takes: Takes) -> Result<(), AllocError> {
    write_shown(told, word)?;
    write_form_of_day(told, word, takes)
}

/// Appends why a word that is shown isn't a day, nor a month, and what helps.
fn write_form_of_day(told: &mut String, word: &[u8], takes: Takes) -> Result<(), AllocError> {
    if let Some(day) = day_with_points(word) {
        return write!(told, " isn't written as a day is; write it as {day}");
    }
    told.push_str(if is_written(word, DAY_LENGTH) {
        if is_of_years(word) {
            " is not a day of the calendar"
        } else {
            " is not of the years 1900 to 2999"
        }
    } else if takes == Takes::When {
        " isn't written as a month or a day is; write it as 2026-01 or 2026-01-31"
    } else {
        " isn't written as a day is; write it as 2026-01-31"
    })
}

/// The day that a word `DD.MM.YYYY` means.
fn day_with_points(word: &[u8]) -> Option<Day> {
    let [a, b, b'.', c, d, b'.', e, f, g, h] = word else {
        return None;
    };
    let written = [*e, *f, *g, *h, b'-', *c, *d, b'-', *a, *b];
    Day::read(&written)
}

/// Whether a word of this length has digits as a month and a day have, with `-` between them.
fn is_written(word: &[u8], length: usize) -> bool {
    if word.len() != length {
        return false;
    }
    for (at, byte) in word.iter().enumerate() {
        let fits = if at == 4 || at == 7 {
            *byte == b'-'
        } else {
            byte.is_ascii_digit()
        };
        if !fits {
            return false;
        }
    }
    true
}

/// Whether a written month or day is of the years 1900 to 2999.
fn is_of_years(word: &[u8]) -> bool {
    word.starts_with(b"19") || word.starts_with(b"2")
}
