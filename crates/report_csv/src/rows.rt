//! Rows of a CSV text in memory.
ghost use Rattle.std.specs.Prelude.{◌≡◌, ◌<◌, ◌≤◌, ◌++◌, [], IfOk, length, map};
ghost use Rattle.report_csv.specs.Reports.{row_line};

use csv::{QuoteStyle, Writer, WriterBuilder};
use std::alloc::{AllocError, Global};
use std::marker::Model;

/// The rows that were written so far. Contracts see them as their text.
#[derive(Drop)]
pub(crate) struct Rows {
    /// In a box, since its buffer is large to move.
    writer: Box<Writer<Vec<u8>>>,
}

impl Model for Rows {
    ghost use Rattle.std.specs.Prelude.{ℕ, List};
    ghost use Rattle.report_csv.specs.private.Views.{IsBetweenRows, written};

    ghost Value = { List ℕ };

    ghost view = { λ rows. written rows.writer.value };

    ghost invariant = { λ rows. IsBetweenRows rows.writer.value };
}

impl Rows {
    /// No rows.
    pub(crate) fn new(alloc: Global) -> Result<Rows, AllocError>
        ensures { IfOk result (λ rows. rows ≡ []) }
    {
        Rows::in_room(alloc, Vec::new(alloc))
    }

    /// No rows, which are to be written over the bytes of a text.
    pub(crate) fn in_room(alloc: Global, room: Vec<u8>) -> Result<Rows, AllocError>
        ensures { IfOk result (λ rows. rows ≡ []) }
    {
        let mut room = room;
        room.clear();
        let writer = WriterBuilder::new()
            .quote_style(QuoteStyle::Never)
            .flexible(true)
            .from_writer(room);
        Ok(Rows {
            writer: Box::new(alloc, writer)?,
        })
    }

    /// The rows with one more. A field may also be several, with commas between: no field of a report needs quotes, and `csv`
    /// writes each as it stands. Over memory `csv` has no other fault than that memory ran out.
    pub(crate) fn with(self, fields: &[&[u8]]) -> Result<Rows, AllocError>
        requires { 1 < length fields.now }
        ensures { IfOk result (λ rows. rows ≡ self ++ row_line (map (λ f. f.now) fields.now)) }
    {
        let Rows { mut writer } = self;
        match writer.write_fields(fields) {
            Ok(()) => Ok(Rows { writer }),
            Err(_) => Err(without_memory(writer)),
        }
    }

    /// How many bytes the rows have, but for those that `csv` has not handed on yet.
    pub(crate) fn least_length(&self) -> usize
        ensures { result ≤ length self.now }
    {
        self.writer.get_ref().len()
    }

    /// The text of the rows.
    pub(crate) fn into_text(self) -> Result<Vec<u8>, AllocError>
        ensures { IfOk result (λ text. text.items ≡ self) }
    {
        let Rows { writer } = self;
        match Box::into_inner(writer).into_inner() {
            Ok(text) => Ok(text),
            Err(_) => Err(AllocError),
        }
    }
}

/// Drops a writer that had no memory for a row. This is a call of its own since a function that drops a writer has room on
/// its stack for one.
#[cold]
#[inline(never)]
fn without_memory(writer: Box<Writer<Vec<u8>>>) -> AllocError {
    drop(writer);
    AllocError
}
