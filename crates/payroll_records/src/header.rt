//! The header of a table.
ghost use Rattle.std.specs.Prelude.{◌≡◌, ◌↔◌, IfOk, IfErr, IsTrue, List, MatchOption};
ghost use Rattle.std.specs.Bool.{MatchBool};
ghost use Rattle.std.specs.List.{Contains};
ghost use Rattle.csv.specs.Records.{fields_of};
ghost use Rattle.rising_lists.specs.Keyed.{IsRising};
ghost use Rattle.rising_lists.specs.Places.{Finds, Misses};
ghost use Rattle.payroll_records.specs.NamedValues.{name_cmp};
ghost use Rattle.payroll_records.specs.Tables.{IsHeader, Text, field_of};
ghost use Rattle.payroll_records.specs.private.TableViews.{AddsColumn, AreColumns, BeginsHeader, column_name};

use crate::MOST_VALUES;
use crate::name_order::followers;
use csv::ByteRecord;
use pap_tree::Name;
use std::alloc::{AllocError, Global};

/// How many fields of a row stand before its values: the employee, the month and the day.
pub(crate) const FIRST_VALUE: usize = 3;

/// A column of values.
#[derive(Clone, Copy)]
pub(crate) struct Column {
    pub(crate) name: Name,
    /// How many columns of values stand before it.
    pub(crate) place: usize,
}

/// The columns of values that a header names.
#[derive(Drop)]
pub(crate) struct Header {
    /// The names as they stand in the header.
    pub(crate) names: Vec<Name>,
    /// The columns in order of their names.
    pub(crate) columns: Vec<Column>,
}

impl Header {
    /// For each column in order of names, where the one stands in that order that the header has after it.
    pub(crate) fn followers(&self, alloc: Global) -> Result<Vec<usize>, AllocError> {
        let mut places = vec![in alloc; 0; self.columns.len()]?;
        for (at, column) in self.columns.iter().enumerate() {
            if let Some(place) = places.get_mut(column.place) {
                *place = at;
            }
        }
        followers(alloc, places.as_slice())
    }
}

/// The columns that a first row names. `None` where it is no header.
pub(crate) fn read_header(alloc: Global, row: &ByteRecord) -> Result<Option<Header>, AllocError>
    ensures { IfOk result (λ header. MatchOption header
        ((names : List Text) → IsHeader (fields_of row.now) names → ⊥)
        (λ h. IsHeader (fields_of row.now) h.names.items
        × AreColumns h.names.items h.columns.items)) }
{
    if !begins_header(row) {
        return Ok(None);
    }
    if row.len() > FIRST_VALUE + MOST_VALUES {
        return Ok(None);
    }
    let mut header = Header {
        names: Vec::new(alloc),
        columns: Vec::new(alloc),
    };
    for place in FIRST_VALUE..row.len() {
        let Some(name) = Name::read(field(row, place)) else {
            return Ok(None);
        };
        if !add_column(&mut header, name)? {
            return Ok(None);
        }
    }
    Ok(Some(header))
}

/// The field at a place of a row, empty beyond its end.
pub(crate) fn field(row: &ByteRecord, place: usize) -> &[u8]
    ensures { result.now ≡ field_of (fields_of row.now) place }
{
    match row.get(place) {
        Some(field) => field,
        None => &[],
    }
}

/// Whether a row begins with the words `employee`, `month` and `day`.
fn begins_header(row: &ByteRecord) -> bool
    ensures { IsTrue result ↔ BeginsHeader (fields_of row.now) }
{
    row.len() >= FIRST_VALUE
        && field(row, 0) == b"employee".as_slice()
        && field(row, 1) == b"month".as_slice()
        && field(row, 2) == b"day".as_slice()
}

/// Adds the next column, unless its name stands already.
fn add_column(header: &mut Header, name: Name) -> Result<bool, AllocError>
    requires { AreColumns header.old.names.items header.old.columns.items }
    ensures { IfOk result (λ added. MatchBool added
        (AddsColumn header.old.names.items header.new.names.items header.new.columns.items name)
        (Contains header.old.names.items name)) }
{
    match column_place(header.columns.as_slice(), &name) {
        Ok(_) => Ok(false),
        Err(at) => {
            let place = header.names.len();
            header.columns.insert(at, Column { name, place })?;
            header.names.push(name)?;
            Ok(true)
        }
    }
}

/// Where the column of a name stands, or would go.
fn column_place(columns: &[Column], name: &Name) -> Result<usize, usize>
    requires { IsRising name_cmp column_name columns.now }
    ensures found { IfOk result (Finds name_cmp column_name columns.now name.now) }
    ensures absent { IfErr result (Misses name_cmp column_name columns.now name.now) }
{
    columns.binary_search_by_key(name, |c| c.name)
}
