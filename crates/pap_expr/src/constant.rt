//! Where the reading of a declared literal is.

use pap_tree::Literal;
use scaled_decimal::Dec;

/// What may come next.
#[derive(Drop)]
pub(crate) enum Due {
    /// What may stand in the place.
    Signed(Slot),
    /// A literal, after a `-`.
    Minus(Slot),
    /// The point after `BigDecimal`.
    ClassPoint(Room),
    /// The word after `BigDecimal` and a point.
    Static(Room),
    /// The bracket after `BigDecimal.valueOf`.
    ValueOpen(Room),
    /// `BigDecimal` after `new`.
    NewClass(Room),
    /// The bracket after `new BigDecimal`.
    NewOpen(Room),
    /// What follows a literal of `int` in `BigDecimal.valueOf`.
    ValueInt(i32, Room),
    /// The bracket after a literal with a point there.
    ValuePoint(Dec, Room),
    /// The scale of the whole number.
    Scale(i32, Room),
    /// The bracket after which the decimal is read.
    Close(Dec, Room),
    /// The next decimal of a table, after these.
    Item(Vec<Dec>),
    /// A comma or the end of the table.
    AfterItem(Vec<Dec>),
    /// Nothing: it is read.
    Done(Literal),
}

/// Where a literal stands.
#[derive(Drop)]
pub(crate) enum Slot {
    /// As the whole line.
    Line,
    /// In `BigDecimal.valueOf`.
    Value(Room),
    /// In `new BigDecimal`.
    New(Room),
}

/// Where a decimal stands.
#[derive(Drop)]
pub(crate) enum Room {
    Alone,
    /// In a table, after these.
    Table(Vec<Dec>),
}
