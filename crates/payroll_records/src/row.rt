//! One row of a table.
ghost use Rattle.std.specs.Prelude.{◌≡◌, ◌↔◌, ◌≤◌, IfOk, IfErr, OnErr, OnOk, alloc_error, length};
ghost use Rattle.std.specs.List.{Contains};
ghost use Rattle.csv.specs.Records.{fields_of};
ghost use Rattle.payroll_records.specs.Limits.{most_values};
ghost use Rattle.payroll_records.specs.NamedValues.{AreValues};
ghost use Rattle.payroll_records.specs.Tables.{IsReadable, IsRecordOf, Supplies};
ghost use Rattle.payroll_records.specs.private.CellViews.{AreNumbersOf, AreReadable, IsCellFault, IsNumberOf, number_at};
ghost use Rattle.payroll_records.specs.private.TableViews.{AreColumns, IsRowFault};
ghost use Rattle.payroll_records.specs.declared.row.CellFault.TheVariants.{Memory as NoMemory};
ghost use Rattle.payroll_records.specs.declared.row.RowFault.TheVariants.{Memory};
ghost use Rattle.payroll_records.specs.declared.values.NamedValue.{NamedValue};

use crate::header::{FIRST_VALUE, Header, field};
use crate::{Day, Employee, Month, Record, Values};
use csv::ByteRecord;
use pap_tree::Name;
use scaled_decimal::{Dec, NumFault, read_dec};
use std::alloc::{AllocError, AllocFailed, Global};
use std::rc::RcSlice;

/// What is wrong with a row by itself.
#[derive(Drop)]
pub(crate) enum RowFault {
    /// It is shorter or longer than the header.
    Width,
    /// Its first field is no employee.
    Employee,
    /// Its second field is no month.
    Month,
    /// Its third field is no day of its month.
    Day,
    /// The leftmost cell that neither is empty nor spells a number is in the column of this name.
    Value { name: Name },
    /// There was no memory for its record.
    Memory(AllocError),
}

impl From<AllocError> for RowFault {
    ghost from_gives = { λ error fault. fault ≡ Memory error };

    fn from(error: AllocError) -> RowFault {
        RowFault::Memory(error)
    }
}

/// Why the cells of a row spell no values.
#[derive(Drop)]
pub(crate) enum CellFault {
    /// The leftmost cell that neither is empty nor spells a number is the one at this place.
    Broken(usize),
    /// There was no memory for the values.
    Memory(AllocError),
}

impl From<AllocError> for CellFault {
    ghost from_gives = { λ error fault. fault ≡ NoMemory error };

    fn from(error: AllocError) -> CellFault {
        CellFault::Memory(error)
    }
}

impl<T: Drop> From<AllocFailed<T>> for CellFault {
    ghost from_gives = { λ failed fault. fault ≡ NoMemory alloc_error };

    fn from(_failed: AllocFailed<T>) -> CellFault {
        CellFault::Memory(AllocError)
    }
}

/// The record of a row, or its first fault. `before` is the record of the row before, if there is one.
pub(crate) fn read_row(
    alloc: Global,
    header: &Header,
    row: &ByteRecord,
    before: Option<&Record>,
) -> Result<Record, RowFault>
    requires columns { AreColumns header.now.names.items header.now.columns.items }
    requires few { length header.now.names.items ≤ most_values }
    ensures ok { IfOk result (IsRecordOf header.now.names.items (fields_of row.now)) }
    ensures err { IfErr result (IsRowFault header.now.names.items (fields_of row.now)) }
{
    if row.len() != FIRST_VALUE + header.names.len() {
        return Err(RowFault::Width);
    }
    let Some(employee) = Employee::read(field(row, 0)) else {
        return Err(RowFault::Employee);
    };
    let Some(month) = Month::read(field(row, 1)) else {
        return Err(RowFault::Month);
    };
    let Some(day) = Day::read(field(row, 2)) else {
        return Err(RowFault::Day);
    };
    if month.year != day.year || month.month != day.month {
        return Err(RowFault::Day);
    }
    match values_of(alloc, header, row, before) {
        Ok(values) => Ok(Record {
            employee,
            day,
            values,
        }),
        Err(CellFault::Broken(place)) => Err(RowFault::Value {
            name: header.names[place],
        }),
        Err(CellFault::Memory(error)) => Err(RowFault::Memory(error)),
    }
}

/// The number of each cell of values, in order of the columns; none where the cell is empty.
fn read_cells(alloc: Global, row: &ByteRecord, count: usize) -> Result<Vec<Option<Dec>>, CellFault>
    requires { count ≤ most_values }
    ensures ok { IfOk result (λ numbers. AreNumbersOf (fields_of row.now) count numbers.items) }
    ensures err { IfErr result (IsCellFault (fields_of row.now) count) }
{
    let mut numbers = Vec::with_capacity(alloc, count)?;
    for place in 0..count {
        let Ok(number) = read_cell(field(row, FIRST_VALUE + place)) else {
            return Err(CellFault::Broken(place));
        };
        numbers.push(number)?;
    }
    Ok(numbers)
}

/// The number that a cell spells. `None` where it is empty.
fn read_cell(cell: &[u8]) -> Result<Option<Dec>, NumFault>
    ensures ok { IfOk result (IsNumberOf cell.now) }
    ensures err { OnErr result (IsReadable cell.now → ⊥) }
{
    match read_dec(cell) {
        Ok(value) => Ok(Some(value)),
        Err(fault) => {
            if cell.is_empty() {
                Ok(None)
            } else {
                Err(fault)
            }
        }
    }
}

/// The number at a place, where there is one.
fn number_at(numbers: &[Option<Dec>], place: usize) -> Option<Dec>
    ensures { result ≡ number_at numbers.now place }
{
    match numbers.get(place) {
        Some(number) => *number,
        None => None,
    }
}

/// The values that the cells of a row spell. Those of the first row are told in which order the header has their names, and the
/// others share that.
fn values_of(
    alloc: Global,
    header: &Header,
    row: &ByteRecord,
    before: Option<&Record>,
) -> Result<Values, CellFault>
    requires columns { AreColumns header.now.names.items header.now.columns.items }
    requires few { length header.now.names.items ≤ most_values }
    ensures supplied { IfOk result (λ values. (v : NamedValue) →
        Contains values v ↔ Supplies header.now.names.items (fields_of row.now) v) }
    ensures in_order { IfOk result AreValues }
    ensures readable { OnOk result
        (AreReadable (fields_of row.now) (length header.now.names.items)) }
    ensures err { IfErr result (IsCellFault (fields_of row.now) (length header.now.names.items)) }
{
    let values = values_in_cells(alloc, header, row, before)?;
    if before.is_some() {
        return Ok(values);
    }
    let after = RcSlice::from_vec(header.followers(alloc)?)?;
    Ok(values.given_in(after))
}

/// The values that the cells of a row spell. They take no more memory than they need, and where the same cells are filled
/// as in the row before, no list of names of their own.
fn values_in_cells(
    alloc: Global,
    header: &Header,
    row: &ByteRecord,
    before: Option<&Record>,
) -> Result<Values, CellFault>
    requires columns { AreColumns header.now.names.items header.now.columns.items }
    requires few { length header.now.names.items ≤ most_values }
    ensures supplied { IfOk result (λ values. (v : NamedValue) →
        Contains values v ↔ Supplies header.now.names.items (fields_of row.now) v) }
    ensures in_order { IfOk result AreValues }
    ensures readable { OnOk result
        (AreReadable (fields_of row.now) (length header.now.names.items)) }
    ensures err { IfErr result (IsCellFault (fields_of row.now) (length header.now.names.items)) }
{
    let cells = read_cells(alloc, row, header.names.len())?;
    let count = cells.iter().filter(|number| number.is_some()).count();
    let mut names = Vec::with_capacity(alloc, count)?;
    let mut numbers = Vec::with_capacity(alloc, count)?;
    for column in &header.columns {
        let Some(value) = number_at(cells.as_slice(), column.place) else {
            continue;
        };
        names.push(column.name)?;
        numbers.push(value)?;
    }
    let values = Values::from_columns(names, numbers, before.map(|record| &record.values))?;
    Ok(values)
}
