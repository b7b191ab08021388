//! What is told of an entry.

use crate::RangeEntry;

/// What is told of an entry of one range file or of both.
#[derive(Clone, Copy)]
pub enum RangeChange {
    /// It is new.
    New(RangeEntry),
    /// It says something else: the old entry and the new one.
    Changed(RangeEntry, RangeEntry),
    /// It is gone.
    Gone(RangeEntry),
}
