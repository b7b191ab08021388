//! The rows of a CSV text, one at a time.
ghost use Rattle.std.specs.Prelude.{◌≡◌, IfOk, Some};
ghost use Rattle.csv.specs.Records.{fields_of};
ghost use Rattle.payroll_records.specs.CsvRows.{csv_rows};
ghost use Rattle.payroll_records.specs.private.RowViews.{IsBetweenRows, ReadsRow, rows_left};

use csv::{ByteRecord, Reader, ReaderBuilder};
use std::alloc::{AllocError, Global};
use std::io::Read;

/// A reader of the rows of a text, whatever their widths, the first row among them.
pub(crate) fn row_reader(alloc: Global, bytes: &[u8]) -> Reader<&[u8]>
    ensures reader { IsBetweenRows (λ s. Some s.now) result }
    ensures rows { rows_left (λ s. Some s.now) result ≡ csv_rows bytes.now }
{
    ReaderBuilder::new()
        .has_headers(false)
        .flexible(true)
        .from_reader(alloc, bytes)
}

/// Reads the next row into `row`, and says whether there was one. Over bytes in memory `csv` has no other fault than want of
/// memory.
pub(crate) fn next_row<R: Read>(
    reader: &mut Reader<R>,
    row: &mut ByteRecord,
) -> Result<bool, AllocError>
    requires { IsBetweenRows R.remaining reader.old }
    ensures { IfOk result (λ found.
        ReadsRow R.remaining reader.old reader.new found (fields_of row.new)) }
{
    let Ok(found) = reader.read_byte_record(row) else {
        return Err(AllocError);
    };
    Ok(found)
}
