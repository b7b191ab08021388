//! How the refusals of lines, tables, edits, traces, filings and books are written.
ghost use Rattle.std.specs.Prelude.{IfOk, string_bytes};
ghost use Rattle.plan_answers.specs.Answers.{refusal};
ghost use Rattle.script_steps.specs.private.Replies.{reply_of};
ghost use Rattle.script_steps.specs.private.StepViews.{IsBookRefusal, IsEditRefusal, IsLineRefusal, IsTableRefusal};
ghost use Rattle.script_steps.specs.private.StepViews.{IsFileRefusal, IsOwedRefusal, IsTraceRefusal};

use crate::book_words::book_words;
use crate::line_words::line_words;
use crate::reply::{LineReply, refused};
use book_file::BookFault;
use correction_ledger::{FileRefusal, OwedRefusal};
use month_trace::TraceRefusal;
use payroll_records::{MOST_RECORDS, TableFault};
use plain_words::{TextFile, table_words};
use recalc_engine::EditRefusal;
use script_lang::LineFault;
use std::alloc::{AllocError, Global};

/// The refusal of a line.
pub(crate) fn line_refusal(
    alloc: Global,
    line: &[u8],
    fault: &LineFault,
) -> Result<LineReply, AllocError>
    ensures { IfOk result (λ reply. IsLineRefusal fault.now (reply_of reply)) }
{
    let detail = line_detail(alloc, fault)?;
    refused(alloc, detail.as_bytes(), line_words(alloc, line, fault)?)
}

/// The refusal of the table of this file.
pub(crate) fn table_refusal(
    alloc: Global,
    file: TextFile<'_>,
    fault: &TableFault,
) -> Result<LineReply, AllocError>
    ensures { IfOk result (λ reply. IsTableRefusal fault.now (reply_of reply)) }
{
    let detail = table_detail(alloc, fault)?;
    refused(alloc, detail.as_bytes(), table_words(alloc, file, fault)?)
}

/// The refusal of an edit of the book.
pub(crate) fn edit_refusal(alloc: Global, why: &EditRefusal) -> Result<LineReply, AllocError>
    ensures { IfOk result (λ reply. IsEditRefusal why.now (reply_of reply)) }
{
    let detail = edit_detail(alloc, why)?;
    refused(alloc, detail.as_bytes(), edit_words(alloc, why)?)
}

/// What is wrong with an edit of the book, and what helps, in plain words.
fn edit_words(alloc: Global, why: &EditRefusal) -> Result<String, AllocError> {
    match why {
        EditRefusal::Records => format!(in alloc;
            "there would be more than {MOST_RECORDS} runs; split them by employee into several books"
        ),
        EditRefusal::Plans => format!(in alloc;
            "{why}; `drop` one that no run needs, or keep a book for each year"
        ),
        why => why.to_string(alloc),
    }
}

/// The refusal of a trace.
pub(crate) fn trace_refusal(alloc: Global, why: &TraceRefusal) -> Result<LineReply, AllocError>
    ensures { IfOk result (λ reply. IsTraceRefusal why.now (reply_of reply)) }
{
    let detail = trace_detail(alloc, why)?;
    refused(alloc, detail.as_bytes(), why.to_string(alloc)?)
}

/// The refusal of a filing.
pub(crate) fn file_refusal(alloc: Global, why: &FileRefusal) -> Result<LineReply, AllocError>
    ensures { IfOk result (λ reply. IsFileRefusal why.now (reply_of reply)) }
{
    let detail = file_detail(alloc, why)?;
    refused(alloc, detail.as_bytes(), file_words(alloc, why)?)
}

/// Why a month isn't filed, and what helps, in plain words.
fn file_words(alloc: Global, why: &FileRefusal) -> Result<String, AllocError> {
    match why {
        FileRefusal::Entries => {
            format!(in alloc; "{why}; split the runs by employee into several books")
        }
        why => why.to_string(alloc),
    }
}

/// The refusal of what is owed.
pub(crate) fn owed_refusal(alloc: Global, why: &OwedRefusal) -> Result<LineReply, AllocError>
    ensures { IfOk result (λ reply. IsOwedRefusal why.now (reply_of reply)) }
{
    let detail = owed_detail(alloc, why)?;
    refused(alloc, detail.as_bytes(), why.to_string(alloc)?)
}

/// The refusal of this file, whose text isn't that of a saved book.
pub(crate) fn book_refusal(
    alloc: Global,
    file: TextFile<'_>,
    fault: &BookFault,
) -> Result<LineReply, AllocError>
    ensures { IfOk result (λ reply. IsBookRefusal fault.now (reply_of reply)) }
{
    let detail = book_detail(alloc, fault)?;
    refused(alloc, detail.as_bytes(), book_words(alloc, file, fault)?)
}

/// The group, the name and the details of a line's refusal.
fn line_detail(alloc: Global, fault: &LineFault) -> Result<String, AllocError>
    ensures { IfOk result (λ detail. IsLineRefusal fault.now (refusal (string_bytes detail))) }
{
    match fault {
        LineFault::Command => format!(in alloc; "line Command"),
        LineFault::Words => format!(in alloc; "line Words"),
        LineFault::Employee => format!(in alloc; "line Employee"),
        LineFault::Month => format!(in alloc; "line Month"),
        LineFault::Day => format!(in alloc; "line Day"),
        LineFault::Value { word } => format!(in alloc; "line Value {word}"),
        LineFault::Twice { name } => format!(in alloc; "line Twice {name}"),
        LineFault::LineLong => format!(in alloc; "line LineLong"),
        LineFault::Memory(_) => Err(AllocError),
    }
}

/// The group, the name and the details of a table's refusal.
fn table_detail(alloc: Global, fault: &TableFault) -> Result<String, AllocError>
    ensures { IfOk result (λ detail. IsTableRefusal fault.now (refusal (string_bytes detail))) }
{
    match fault {
        TableFault::Header => format!(in alloc; "table Header"),
        TableFault::Width { row } => format!(in alloc; "table Width {row}"),
        TableFault::Employee { row } => format!(in alloc; "table Employee {row}"),
        TableFault::Month { row } => format!(in alloc; "table Month {row}"),
        TableFault::Day { row } => format!(in alloc; "table Day {row}"),
        TableFault::Value { row, name } => format!(in alloc; "table Value {row} {name}"),
        TableFault::Repeat { row } => format!(in alloc; "table Repeat {row}"),
        TableFault::TableLong => format!(in alloc; "table TableLong"),
        TableFault::Memory(_) => Err(AllocError),
    }
}

/// The group, the name and the details of an edit's refusal.
fn edit_detail(alloc: Global, why: &EditRefusal) -> Result<String, AllocError>
    ensures { IfOk result (λ detail. IsEditRefusal why.now (refusal (string_bytes detail))) }
{
    match why {
        EditRefusal::Present { key } => {
            let employee = key.employee;
            let day = key.day;
            format!(in alloc; "edit Present {employee} {day}")
        }
        EditRefusal::Absent { employee, when } => {
            format!(in alloc; "edit Absent {employee} {when}")
        }
        EditRefusal::Several { employee, month } => {
            format!(in alloc; "edit Several {employee} {month}")
        }
        EditRefusal::Records => format!(in alloc; "edit Records"),
        EditRefusal::Plans => format!(in alloc; "edit Plans"),
        EditRefusal::NoPlanThere { day } => format!(in alloc; "edit NoPlanThere {day}"),
        EditRefusal::Memory(_) => Err(AllocError),
    }
}

/// The group, the name and the details of a trace's refusal.
fn trace_detail(alloc: Global, why: &TraceRefusal) -> Result<String, AllocError>
    ensures { IfOk result (λ detail. IsTraceRefusal why.now (refusal (string_bytes detail))) }
{
    match why {
        TraceRefusal::Absent { employee, when } => {
            format!(in alloc; "trace Absent {employee} {when}")
        }
        TraceRefusal::Several { employee, month } => {
            format!(in alloc; "trace Several {employee} {month}")
        }
        TraceRefusal::NotDone { key } => {
            let employee = key.employee;
            let day = key.day;
            format!(in alloc; "trace NotDone {employee} {day}")
        }
        TraceRefusal::Memory(_) => Err(AllocError),
    }
}

/// The group, the name and the details of a filing's refusal.
fn file_detail(alloc: Global, why: &FileRefusal) -> Result<String, AllocError>
    ensures { IfOk result (λ detail. IsFileRefusal why.now (refusal (string_bytes detail))) }
{
    match why {
        FileRefusal::Early { last } => format!(in alloc; "file Early {last}"),
        FileRefusal::Open { key } => {
            let employee = key.employee;
            let day = key.day;
            format!(in alloc; "file Open {employee} {day}")
        }
        FileRefusal::Entries => format!(in alloc; "file Entries"),
        FileRefusal::Memory(_) => Err(AllocError),
    }
}

/// The group, the name and the details of why it isn't known what is owed.
fn owed_detail(alloc: Global, why: &OwedRefusal) -> Result<String, AllocError>
    ensures { IfOk result (λ detail. IsOwedRefusal why.now (refusal (string_bytes detail))) }
{
    match why {
        OwedRefusal::NothingFiled => format!(in alloc; "file NothingFiled"),
        OwedRefusal::Open { key } => {
            let employee = key.employee;
            let day = key.day;
            format!(in alloc; "file Open {employee} {day}")
        }
        OwedRefusal::Memory(_) => Err(AllocError),
    }
}

/// The group, the name and the details of why a text isn't that of a saved book.
fn book_detail(alloc: Global, fault: &BookFault) -> Result<String, AllocError>
    ensures { IfOk result (λ detail. IsBookRefusal fault.now (refusal (string_bytes detail))) }
{
    match fault {
        BookFault::Long => format!(in alloc; "book Long"),
        BookFault::Form { item } => format!(in alloc; "book Form {item}"),
        BookFault::Plan { day } => format!(in alloc; "book Plan {day}"),
        BookFault::Memory(_) => Err(AllocError),
    }
}
