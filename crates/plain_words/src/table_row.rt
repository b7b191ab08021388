//! The rows of a table, as `csv` reads them, with their places.
use csv::{ByteRecord, Reader, ReaderBuilder};
use std::alloc::{AllocError, Global};

/// The mark with which a file of UTF-8 may begin.
const MARK: &[u8] = b"\xEF\xBB\xBF";

/// A row of a table.
#[derive(Drop)]
pub(crate) struct TableRow {
    record: ByteRecord,
    /// The byte of the file at which it begins.
    pub at: usize,
}

impl TableRow {
    /// How many fields it has.
    pub(crate) fn len(&self) -> usize {
        self.record.len()
    }

    /// The field at a place, counted from 0. Empty beyond the last.
    pub(crate) fn field(&self, place: usize) -> &[u8] {
        match self.record.get(place) {
            Some(field) => field,
            None => &[],
        }
    }

    /// The first place at which it has this field.
    pub(crate) fn place_of(&self, word: &[u8]) -> Option<usize> {
        (0..self.len()).find(|place| self.field(*place) == word)
    }

    /// The byte of its table at which the field at a place begins.
    pub(crate) fn field_byte(&self, table: &[u8], place: usize) -> usize {
        let mut passed = 0;
        let mut state = FieldState::Start;
        for (count, byte) in self.text(table).iter().enumerate() {
            if passed == place {
                return self.at.saturating_add(count);
            }
            state = state.after(*byte);
            if state == FieldState::Start {
                passed = passed.saturating_add(1);
            }
        }
        table.len()
    }

    /// Whether it ends, with its table, within quotation marks that were opened.
    pub(crate) fn is_unclosed(&self, table: &[u8]) -> bool {
        let mut state = FieldState::Start;
        for byte in self.text(table) {
            if state != FieldState::Quoted && (*byte == b'\n' || *byte == b'\r') {
                return false;
            }
            state = state.after(*byte);
        }
        state == FieldState::Quoted
    }

    /// Its table from its first byte on.
    fn text<'a>(&self, table: &'a [u8]) -> &'a [u8] {
        table.get(self.at..).unwrap_or(&[])
    }
}

/// What stands behind some bytes of a row.
#[derive(Clone, Copy, PartialEq, Eq)]
enum FieldState {
    /// A field begins.
    Start,
    /// A field goes on.
    Plain,
    /// A field goes on within quotation marks.
    Quoted,
    /// The quotation marks of a field end, or one more mark stands for a mark in it.
    Behind,
}

impl FieldState {
    /// The same behind one more byte, which ends no row.
    fn after(self, byte: u8) -> FieldState {
        match (self, byte) {
            (FieldState::Quoted, b'"') => FieldState::Behind,
            (FieldState::Quoted, _) => FieldState::Quoted,
            (_, b',') => FieldState::Start,
            (FieldState::Start | FieldState::Behind, b'"') => FieldState::Quoted,
            _ => FieldState::Plain,
        }
    }
}

/// The row of a number; 0 is the header's. `None` where the table has fewer rows.
pub(crate) fn find_row(
    alloc: Global,
    table: &[u8],
    number: u64,
) -> Result<Option<TableRow>, AllocError> {
    let text = table.strip_prefix(MARK).unwrap_or(table);
    let mut reader = rows_of(alloc, text);
    let mut record = ByteRecord::new(alloc);
    for _passed in 0..number {
        if !has_next(&mut reader, &mut record)? {
            return Ok(None);
        }
    }
    let behind = reader.position().byte() as usize;
    if !has_next(&mut reader, &mut record)? {
        return Ok(None);
    }
    let left = text.get(behind..).unwrap_or(&[]);
    let at = table
        .len()
        .saturating_sub(left.len())
        .saturating_add(line_ends(left));
    Ok(Some(TableRow { record, at }))
}

/// The number of the first row before one of this number that has its employee and day.
pub(crate) fn earlier_row(
    alloc: Global,
    table: &[u8],
    row: &TableRow,
    number: u64,
) -> Result<Option<u64>, AllocError> {
    let mut reader = rows_of(alloc, table.strip_prefix(MARK).unwrap_or(table));
    let mut record = ByteRecord::new(alloc);
    for earlier in 0..number {
        if !has_next(&mut reader, &mut record)? {
            return Ok(None);
        }
        if record.get(0) == Some(row.field(0)) && record.get(2) == Some(row.field(2)) {
            return Ok(Some(earlier));
        }
    }
    Ok(None)
}

/// A reader of the rows of a text, the first row among them.
fn rows_of(alloc: Global, text: &[u8]) -> Reader<&[u8]> {
    ReaderBuilder::new()
        .has_headers(false)
        .flexible(true)
        .from_reader(alloc, text)
}

/// Reads the next row, and says whether there was one. Over bytes in memory there is no other fault than lack of memory.
fn has_next(reader: &mut Reader<&[u8]>, record: &mut ByteRecord) -> Result<bool, AllocError> {
    reader.read_byte_record(record).map_err(|_| AllocError)
}

/// How many line ends a text begins with.
fn line_ends(text: &[u8]) -> usize {
    text.iter()
        .take_while(|byte| **byte == b'\n' || **byte == b'\r')
        .count()
}
