//! What a plan declares.

use crate::Name;
use scaled_decimal::Dec;

/// The type of a declared name.
#[derive(Clone, Copy, PartialEq, Eq)]
pub enum Kind {
    /// `int`: a whole number of 32 bits.
    Int,
    /// `long`: a whole number of 64 bits.
    Long,
    /// `BigDecimal`.
    Big,
    /// `double`: a decimal that is kept with three places.
    Factor,
    /// `BigDecimal[]`: a constant table.
    Table,
}

/// A declared literal: the text of an attribute `default` or `value`.
#[derive(Drop)]
pub enum Literal {
    /// A literal of `int`.
    Int(i32),
    /// A literal of `long`.
    Long(i64),
    /// A literal with a point.
    Point(Dec),
    /// A decimal.
    Big(Dec),
    /// The items of a table.
    Table(Vec<Dec>),
}

/// A declared variable or constant.
#[derive(Drop)]
pub struct Declared {
    /// Its name.
    pub name: Name,
    /// Its type.
    pub kind: Kind,
    /// The value that it begins with, where one is written.
    pub value: Option<Literal>,
}
