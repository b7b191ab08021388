//! What is wrong with a table of pay runs.
ghost use Rattle.std.specs.Prelude.{IfOk};
ghost use Rattle.std.specs.String.{string_bytes};
ghost use Rattle.plain_words.specs.Lines.{IsOneLine};

use crate::encoding::is_utf16;
use crate::lines::one_line;
use crate::number_slip::{NumberSlip, SlipWords};
use crate::place::TextFile;
use crate::position;
use crate::quotes::write_quoted;
use crate::surplus::write_surplus_help;
use crate::table_row::{TableRow, earlier_row, find_row};
use pap_tree::Name;
use payroll_records::{Day, Employee, MOST_VALUES, Month, TableFault};
use std::alloc::{AllocError, Global};
use std::collections::BTreeSet;

/// The fields with which a header begins.
const FIRST_FIELDS: [&str; 3] = ["employee", "month", "day"];

/// What a header is, and how its fields are separated.
const HEADER_HELP: &str =
    "the first row is employee,month,day and then at most 256 different names of inputs, with commas between them";

/// What is wrong with the table of a file, in one line of plain words that begins with the file and the place in it, and ends with
/// what helps. Lines are counted from 1, with the header and empty lines. Fails only for lack of memory.
pub fn table_words(
    alloc: Global,
    file: TextFile<'_>,
    fault: &TableFault,
) -> Result<String, AllocError>
    ensures { IfOk result (λ words. IsOneLine (string_bytes words)) }
{
    let name = file.name;
    let mut told = format!(in alloc; "{name}")?;
    match fault {
        TableFault::TableLong => write!(
            told,
            ": {fault}; split it by employee into several files"
        )?,
        TableFault::Header => write_header_fault(&mut told, file.bytes)?,
        TableFault::Width { row }
        | TableFault::Employee { row }
        | TableFault::Month { row }
        | TableFault::Day { row }
        | TableFault::Value { row, .. }
        | TableFault::Repeat { row } => write_row_fault(&mut told, file.bytes, *row, fault)?,
        TableFault::Memory(_) => return Err(AllocError),
    }
    one_line(alloc, &told)
}

/// Appends the place of a row in its file and its number, counted from 1 behind the header, what is wrong there, and what helps.
fn write_row_fault(
    told: &mut String,
    table: &[u8],
    number: u64,
    fault: &TableFault,
) -> Result<(), AllocError> {
    let alloc = *told.allocator();
    let Some(row) = find_row(alloc, table, number)? else {
        return write!(told, ": {fault}");
    };
    let place = fault_place(alloc, table, &row, fault)?;
    let position = position(table, row.field_byte(table, place));
    write!(told, ":{position}: row {number}: ")?;
    if place.saturating_add(1) == row.len() && row.is_unclosed(table) {
        return told.push_str(
            "the quotation mark here isn't closed; write one behind the value too, or take it out",
        );
    }
    let field = row.field(place);
    match fault {
        TableFault::Width { .. } => write_width_fault(told, table, &row),
        TableFault::Employee { .. } => write_employee_fault(told, field),
        TableFault::Month { .. } => write_month_fault(told, field),
        TableFault::Day { .. } => write_day_fault(told, &row),
        TableFault::Value { name, .. } => write_value_fault(told, field, *name),
        _ => write_repeat(told, table, &row, number),
    }
}

/// The place of the field at which a row is refused, counted from 0. Of one with too few or too many fields that is the last, where its
/// quotation marks aren't closed, and else the first.
fn fault_place(
    alloc: Global,
    table: &[u8],
    row: &TableRow,
    fault: &TableFault,
) -> Result<usize, AllocError> {
    match fault {
        TableFault::Width { .. } if row.is_unclosed(table) => Ok(row.len().saturating_sub(1)),
        TableFault::Month { .. } => Ok(1),
        TableFault::Day { .. } => Ok(2),
        TableFault::Value { name, .. } => match find_row(alloc, table, 0)? {
            Some(header) => Ok(header.place_of(name.bytes()).unwrap_or(0)),
            None => Ok(0),
        },
        _ => Ok(0),
    }
}

/// Appends how many fields a row has, and how many the header has, and what helps.
fn write_width_fault(told: &mut String, table: &[u8], row: &TableRow) -> Result<(), AllocError> {
    if begins_comment(row) {
        return told.push_str(
            "it begins as a comment does, and a table has no comments; take the row out",
        );
    }
    let found = row.len();
    let noun = if found == 1 { "field" } else { "fields" };
    let wanted = match find_row(*told.allocator(), table, 0)? {
        Some(header) => header.len(),
        None => 0,
    };
    write!(told, "it has {found} {noun}, and the header has {wanted}; ")?;
    if row.field(0).contains(&b';') {
        return told.push_str(
            "write commas between the fields, not semicolons, and a point before decimal places",
        );
    }
    if found > wanted {
        return write_surplus_help(told, row, wanted);
    }
    told.push_str("a field without a value is empty, and its comma stands")
}

/// Whether a row begins with a sign that begins comments elsewhere.
fn begins_comment(row: &TableRow) -> bool {
    let text = row.field(0).trim_ascii_start();
    text.starts_with(b"#") || text.starts_with(b"//")
}

/// What is said of a field that is right but for blanks round it.
const BLANKS: &str = ", with a blank; take the blank out";

/// Whether a field has blanks round what is to stand there.
fn has_blanks(field: &[u8]) -> bool {
    field.trim_ascii().len() < field.len()
}

/// Appends what a row has in place of an employee, and what helps.
fn write_employee_fault(told: &mut String, field: &[u8]) -> Result<(), AllocError> {
    told.push_str("the employee is ")?;
    write_quoted(told, field, 0)?;
    if has_blanks(field) && Employee::read(field.trim_ascii()).is_some() {
        return told.push_str(BLANKS);
    }
    told.push_str(
        ", and not 1 to 32 ASCII letters, digits, `_`, `-` and `.`; correct it, also in later files, since runs are found by it",
    )
}

/// Appends what a row has in place of a month, and what helps.
fn write_month_fault(told: &mut String, field: &[u8]) -> Result<(), AllocError> {
    told.push_str("the month is ")?;
    write_quoted(told, field, 0)?;
    if has_blanks(field) && Month::read(field.trim_ascii()).is_some() {
        return told.push_str(BLANKS);
    }
    told.push_str(
        ", and not of the form YYYY-MM, or not of the years 1900 to 2999; write it as 2025-01",
    )
}

/// Appends what a row has in place of a day, and what helps.
fn write_day_fault(told: &mut String, row: &TableRow) -> Result<(), AllocError> {
    let day = row.field(2);
    told.push_str("the day is ")?;
    write_quoted(told, day, 0)?;
    if Day::read(day).is_some() {
        told.push_str(", which isn't in the month ")?;
        write_quoted(told, row.field(1), 0)?;
        return told.push_str("; correct one of the two");
    }
    if has_blanks(day) && Day::read(day.trim_ascii()).is_some() {
        return told.push_str(BLANKS);
    }
    told.push_str(
        ", and not of the form YYYY-MM-DD, not in the calendar or not of the years 1900 to 2999",
    )?;
    told.push_str(if day.contains(&b'.') {
        "; write the year first, then month and day with - between them, as 2025-01-31"
    } else {
        "; write it as 2025-01-31"
    })
}

/// Appends what a row has in place of a number under a name, and what helps.
fn write_value_fault(told: &mut String, cell: &[u8], name: Name) -> Result<(), AllocError> {
    write!(told, "the value of {name} is ")?;
    write_quoted(told, cell, 0)?;
    if stands_for_none(cell) {
        return told.push_str(", and no number; where a run has no value leave the field empty");
    }
    match NumberSlip::of(cell).words() {
        Some(SlipWords { has, help }) => write!(told, ", with {has}; {help}"),
        None => told.push_str(
            ", and no number; write digits, a point before decimal places and nothing between thousands, as 2500.55",
        ),
    }
}

/// The words that stand elsewhere for no value.
const NO_VALUES: [&str; 9] = ["-", "--", "?", "none", "null", "nil", "nan", "na", "n/a"];

/// Whether a text stands for no value elsewhere: one of these words, in any letters, or a dash of print (U+2010 to U+2015, or U+2212).
fn stands_for_none(text: &[u8]) -> bool {
    let word = text.trim_ascii();
    matches!(word, [0xE2, 0x80, 0x90..=0x95] | [0xE2, 0x88, 0x92])
        || NO_VALUES
            .iter()
            .any(|none| word.eq_ignore_ascii_case(none.as_bytes()))
}

/// Appends which earlier row has the employee and the day of a row, and what helps.
fn write_repeat(
    told: &mut String,
    table: &[u8],
    row: &TableRow,
    number: u64,
) -> Result<(), AllocError> {
    match earlier_row(*told.allocator(), table, row, number)? {
        Some(earlier) => write!(told, "row {earlier} has the same employee and day")?,
        None => told.push_str("an earlier row has the same employee and day")?,
    }
    told.push_str("; an employee has one run on a day: take one of them out, or correct its day")
}

/// Appends what is wrong with the first row, and what helps.
fn write_header_fault(told: &mut String, table: &[u8]) -> Result<(), AllocError> {
    if is_utf16(table) {
        return told.push_str(":1:1: the table is written in UTF-16; save it as CSV in UTF-8");
    }
    let Some(header) = find_row(*told.allocator(), table, 0)? else {
        return write!(told, ":1:1: the table is empty; {HEADER_HELP}");
    };
    let mut wrong = String::new(*told.allocator());
    let place = write_heading(&mut wrong, &header)?;
    let position = position(table, header.field_byte(table, place));
    write!(told, ":{position}: {wrong}; {HEADER_HELP}")
}

/// Appends what is wrong with the first row, which isn't empty, and gives the place of the field that is wrong, counted from 0.
fn write_heading(wrong: &mut String, header: &TableRow) -> Result<usize, AllocError> {
    if header.len() < FIRST_FIELDS.len() {
        wrong.push_str(if header.field(0).contains(&b';') {
            "semicolons stand between the fields of the first row"
        } else if header.field(0).contains(&b'\t') {
            "tabs stand between the fields of the first row"
        } else if begins_comment(header) {
            "the first row begins as a comment does, and a table has no comments"
        } else {
            "the first row has fewer than three fields"
        })?;
        return Ok(0);
    }
    for (place, word) in FIRST_FIELDS.iter().enumerate() {
        let field = header.field(place);
        if field != word.as_bytes() {
            let number = place.saturating_add(1);
            write!(wrong, "field {number} of the first row is ")?;
            write_quoted(wrong, field, 0)?;
            write!(wrong, ", and not `{word}`")?;
            wrong.push_str(spelling_words(field, word))?;
            return Ok(place);
        }
    }
    write_columns(wrong, header)
}

/// What a field has beside a word, where it has only blanks or other capitals.
fn spelling_words(field: &[u8], word: &str) -> &'static str {
    let inner = field.trim_ascii();
    if inner == word.as_bytes() {
        " without blanks round it"
    } else if inner.eq_ignore_ascii_case(word.as_bytes()) {
        " in small letters"
    } else {
        ""
    }
}

/// Appends what is wrong with the names of a first row, whose first fields are right, and gives the place of the field that is wrong.
fn write_columns(wrong: &mut String, header: &TableRow) -> Result<usize, AllocError> {
    let mut seen = BTreeSet::new(*wrong.allocator());
    for place in FIRST_FIELDS.len()..header.len() {
        let field = header.field(place);
        let number = place.saturating_add(1);
        if field.is_empty() {
            write!(wrong, "field {number} of the first row is empty")?;
            wrong.push_str(if number == header.len() {
                ", behind a comma at its end"
            } else {
                ""
            })?;
            return Ok(place);
        }
        let reason = if Name::read(field.trim_ascii()).is_some() && Name::read(field).is_none() {
            "is a name with blanks round it"
        } else if Name::read(field).is_none() {
            "isn't a name"
        } else if !seen.insert(field)? {
            "stands there twice"
        } else {
            continue;
        };
        write!(wrong, "field {number} of the first row, ")?;
        write_quoted(wrong, field, 0)?;
        write!(wrong, ", {reason}")?;
        return Ok(place);
    }
    write!(wrong, "the first row has more than {MOST_VALUES} names")?;
    Ok(0)
}
