//! The line `report`.
ghost use Rattle.std.specs.Prelude.{◌++◌, IfOk, false, is_some};
ghost use Rattle.std.specs.Result.{ForErr};
ghost use Rattle.outside.specs.Causes.{Caused};
ghost use Rattle.report_csv.specs.ReportTexts.{report_text};
ghost use Rattle.script_steps.specs.LineTexts.{end_line};
ghost use Rattle.script_steps.specs.private.StepViews.{IsFrontWritten, IsWritten};

use crate::stop::LineStop;
use outside::{Sink, put_all};
use recalc_engine::Book;
use report_csv::{ReportFault, write_report};
use std::alloc::Global;

/// Writes the report of a book, and the line `end`.
pub(crate) fn report<W: Sink>(
    alloc: Global,
    book: &Book,
    sink: &mut W,
) -> Result<Option<String>, LineStop>
    ensures ok { IfOk result (λ wrong. IsWritten (W.written sink.old) (W.written sink.new)
        (report_text book.now ++ end_line) false (is_some wrong)) }
    ensures err { ForErr result (IsFrontWritten (W.written sink.old) (W.written sink.new)
        (report_text book.now ++ end_line)) }
    ensures write { Caused LineStop.Write (W.faults sink.old) (W.faults sink.new) result }
{
    match write_report(alloc, book, sink) {
        Ok(()) => {}
        Err(ReportFault::Write) => return Err(LineStop::Write),
        Err(ReportFault::Memory(_)) => return Err(LineStop::Memory),
    }
    match put_all(sink, b"end\n") {
        Ok(()) => Ok(None),
        Err(_) => Err(LineStop::Write),
    }
}
