//! The whole report.
ghost use Rattle.std.specs.Prelude.{◌≡◌, ◌++◌, OnErr, OnOk};
ghost use Rattle.outside.specs.Causes.{Caused};
ghost use Rattle.outside.specs.Told.{Appends, AppendsFront};
ghost use Rattle.report_csv.specs.ReportLaws.{ReportsAreJoined, ReportsAreTheirYears, ReportsOfPartsAreJoined, RowsNeedNoQuotes};
ghost use Rattle.report_csv.specs.ReportTexts.{months_text, report_text};
ghost use Rattle.report_csv.specs.declared.report.ReportFault.TheVariants.{Memory, Write};

use crate::rows::Rows;
use crate::run::{RowTexts, with_header, with_run};
use outside::{Failed, Sink, put_all};
use recalc_engine::{Book, Months};
use std::alloc::{AllocError, Global};
use thiserror::Error;

/// From how many bytes on the rows are handed to the sink.
const PIECE: usize = 32_768;

/// Why a report was not written whole.
#[derive(Debug, Drop, Error)]
pub enum ReportFault {
    #[error("writing failed")]
    Write,
    #[error("out of memory")]
    Memory(AllocError),
}

impl From<Failed> for ReportFault {
    ghost from_gives = { λ _ fault. fault ≡ Write };

    fn from(_: Failed) -> ReportFault {
        ReportFault::Write
    }
}

impl From<AllocError> for ReportFault {
    ghost from_gives = { λ error fault. fault ≡ Memory error };

    fn from(error: AllocError) -> ReportFault {
        ReportFault::Memory(error)
    }
}

/// Writes the report of a book: the first row, and then the rows of each run, in order of employee and day. After a refusal
/// a prefix of the report was written; `Write` comes only where the sink's count of faults rose.
pub fn write_report<W: Sink>(alloc: Global, book: &Book, sink: &mut W) -> Result<(), ReportFault>
    ensures ok { OnOk result
        (Appends (W.written sink.old) (W.written sink.new) (report_text book.now)) }
    ensures err { OnErr result
        (AppendsFront (W.written sink.old) (W.written sink.new) (report_text book.now)) }
    ensures cause { Caused Write (W.faults sink.old) (W.faults sink.new) result }
{
    let rows = with_header(Rows::new(alloc)?)?;
    write_months(alloc, rows, book.months(), sink)
}

/// Writes these rows, and then those of these runs.
fn write_months<W: Sink>(
    alloc: Global,
    rows: Rows,
    months: Months,
    sink: &mut W,
) -> Result<(), ReportFault>
    ensures ok { OnOk result
        (Appends (W.written sink.old) (W.written sink.new) (rows ++ months_text months.entry)) }
    ensures err { OnErr result
        (AppendsFront (W.written sink.old) (W.written sink.new) (rows ++ months_text months.entry)) }
    ensures cause { Caused Write (W.faults sink.old) (W.faults sink.new) result }
{
    let mut rows = rows;
    let mut texts = RowTexts::new(alloc);
    for row in months {
        rows = with_run(rows, &mut texts, &row.key, row.plan, row.state)?;
        if rows.least_length() >= PIECE {
            let room = put_rows(rows, sink)?;
            rows = Rows::in_room(alloc, room)?;
        }
    }
    put_rows(rows, sink)?;
    Ok(())
}

/// Writes these rows, and gives the vector of their text back.
fn put_rows<W: Sink>(rows: Rows, sink: &mut W) -> Result<Vec<u8>, ReportFault>
    ensures ok { OnOk result (Appends (W.written sink.old) (W.written sink.new) rows) }
    ensures err { OnErr result (AppendsFront (W.written sink.old) (W.written sink.new) rows) }
    ensures cause { Caused Write (W.faults sink.old) (W.faults sink.new) result }
{
    let text = rows.into_text()?;
    put_all(sink, text.as_slice())?;
    Ok(text)
}

/// The laws of reports: the rows of a book are those of its employees' years, one after another, each of which depends on the
/// plans and on that employee's own runs alone; so the rows of two books with the same plans, between which the employees
/// are split in order, are the rows of one book. And where a table is split so, part by part, and each part is loaded into a
/// book of its own, the first row and then the rows of the parts, one after another, are the report of the whole table. No
/// field of a row needs quotes.
pub fn report_laws()
    ensures years { ReportsAreTheirYears }
    ensures joined { ReportsAreJoined }
    ensures parts { ReportsOfPartsAreJoined }
    ensures quotes { RowsNeedNoQuotes }
{}
