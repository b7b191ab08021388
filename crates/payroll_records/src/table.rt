//! Tables of pay runs.
ghost use Rattle.std.specs.Prelude.{◌≡◌, ◌↔◌, ◌<◌, ◌≤◌, ℕ, List, [], IfOk, IfErr, Err, MatchResult, alloc_error, length};
ghost use Rattle.payroll_records.specs.Limits.{longest_table, most_values};
ghost use Rattle.payroll_records.specs.Tables.{AreRecordsOf, TableHasOneAnswer, IsTableFaultOrMemory, IsTable};
ghost use Rattle.payroll_records.specs.private.RowViews.{IsBetweenRows, rows_left};
ghost use Rattle.payroll_records.specs.private.TableViews.{AreColumns, BreaksIn, fault_at};
ghost use Rattle.payroll_records.specs.declared.table.TableFault.TheVariants.{Memory};

use crate::header::{Header, read_header};
use crate::row::{RowFault, read_row};
use crate::rows::{next_row, row_reader};
use crate::{LONGEST_TABLE, Record};
use csv::{ByteRecord, Reader};
use pap_tree::Name;
use std::alloc::{AllocError, AllocFailed, Global};
use std::collections::BTreeSet;
use std::io::Read;
use thiserror::Error;

/// Why a table is refused. Rows are counted from 1 after the header.
#[derive(Debug, Drop, Error)]
pub enum TableFault {
    /// It is longer than a table may be.
    #[error("the table has more than 33554432 bytes")]
    TableLong,
    /// There is no first row, or it is no header.
    #[error("the first row is not employee,month,day and then at most 256 different names")]
    Header,
    /// This row is shorter or longer than the header.
    #[error("row {row} has not as many fields as the header")]
    Width { row: u64 },
    /// The first field of this row is no employee.
    #[error("row {row}: the employee is not 1 to 32 ASCII letters, digits, `_`, `-` and `.`")]
    Employee { row: u64 },
    /// The second field of this row is no month.
    #[error("row {row}: the month is not of the form YYYY-MM, or not of the years 1900 to 2999")]
    Month { row: u64 },
    /// The third field of this row is no day of its month.
    #[error("row {row}: the day is not of the form YYYY-MM-DD, not in the calendar, not of the years 1900 to 2999 or not in the month")]
    Day { row: u64 },
    /// The leftmost cell of this row that neither is empty nor spells a number, in the column of this name.
    #[error("row {row}: the value of {name} is no number of at most 30 decimal places and at most 10^37 without its point")]
    Value { row: u64, name: Name },
    /// This row has the employee and the day of an earlier one.
    #[error("row {row}: an earlier row has the same employee and day")]
    Repeat { row: u64 },
    /// There was no memory for the records, or to read them.
    #[error("out of memory")]
    Memory(AllocError),
}

impl From<AllocError> for TableFault {
    ghost from_gives = { λ error fault. fault ≡ Memory error };

    fn from(error: AllocError) -> TableFault {
        TableFault::Memory(error)
    }
}

impl<T: Drop> From<AllocFailed<T>> for TableFault {
    ghost from_gives = { λ failed fault. fault ≡ Memory alloc_error };

    fn from(_failed: AllocFailed<T>) -> TableFault {
        TableFault::Memory(AllocError)
    }
}

/// The pay runs of a table: the records of a CSV text, one for each row after the header, in order. A table is refused by
/// its length, then by its header, then by the first row with a fault and that row's first fault, in the order of
/// `TableFault`.
pub fn read_table(alloc: Global, bytes: &[u8]) -> Result<Vec<Record>, TableFault>
    ensures ok { IfOk result (λ records. IsTable bytes.now records.items) }
    ensures err { IfErr result (IsTableFaultOrMemory bytes.now) }
    ensures long { (result ≡ Err TableFault.TableLong) ↔ (longest_table < length bytes.now) }
{
    if bytes.len() > LONGEST_TABLE {
        return Err(TableFault::TableLong);
    }
    let mut reader = row_reader(alloc, bytes);
    let mut row = ByteRecord::new(alloc);
    if !next_row(&mut reader, &mut row)? {
        return Err(TableFault::Header);
    }
    let header = read_header(alloc, &row)?.ok_or(TableFault::Header)?;
    read_records(alloc, &header, &mut reader)
}

/// A text has one answer: its records or why it is refused, and not both.
pub fn each_table_has_one_answer()
    ensures { (bytes : List ℕ) → TableHasOneAnswer bytes }
{}

/// The records of the rows that are left, or the first fault.
fn read_records<R: Read>(
    alloc: Global,
    header: &Header,
    reader: &mut Reader<R>,
) -> Result<Vec<Record>, TableFault>
    requires reader { IsBetweenRows R.remaining reader.old }
    requires columns { AreColumns header.now.names.items header.now.columns.items }
    requires few { length header.now.names.items ≤ most_values }
    ensures { let rows = rows_left R.remaining reader.old in MatchResult result
        (λ records. AreRecordsOf header.now.names.items rows records.items)
        (BreaksIn header.now.names.items rows) }
{
    let mut records = Vec::new(alloc);
    let mut keys = BTreeSet::new(alloc);
    let mut row = ByteRecord::new(alloc);
    'rows: loop {
        if !next_row(reader, &mut row)? {
            return Ok(records);
        }
        let number = records.len() as u64 + 1;
        let record = match read_row(alloc, header, &row, records.last()) {
            Ok(record) => record,
            Err(fault) => return Err(fault_at(fault, number)),
        };
        if !keys.insert(record.key())? {
            return Err(TableFault::Repeat { row: number });
        }
        records.push(record)?;
    }
}

/// The fault of the row of this number.
fn fault_at(fault: RowFault, row: u64) -> TableFault
    ensures { result ≡ fault_at row fault }
{
    match fault {
        RowFault::Width => TableFault::Width { row },
        RowFault::Employee => TableFault::Employee { row },
        RowFault::Month => TableFault::Month { row },
        RowFault::Day => TableFault::Day { row },
        RowFault::Value { name } => TableFault::Value { row, name },
        RowFault::Memory(error) => TableFault::Memory(error),
    }
}
