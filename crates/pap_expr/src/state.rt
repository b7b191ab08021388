//! Where the reading of an expression is.

use crate::words::{Holder, Method};
use pap_tree::{Expr, Name};

/// What may come next.
#[derive(Drop)]
pub(crate) enum State {
    /// An expression.
    Operand,
    /// What goes on with the expression that is read, or ends it.
    After(Expr),
    /// The same after a name, or the bracket of its item.
    AfterName(Name),
    /// The point after `BigDecimal`.
    ClassPoint,
    /// The word after `BigDecimal` and a point.
    Static,
    /// The bracket after `BigDecimal.valueOf`.
    ValueOpen,
    /// `BigDecimal` after `new`.
    NewClass,
    /// The bracket after `new BigDecimal`.
    NewOpen,
    /// The word after an expression and a point.
    Member(Expr),
    /// The bracket after a method's word.
    CallOpen(Method, Expr),
    /// The bracket that ends a call, which gives this expression.
    Close(Expr),
    /// The scale that a call is given.
    Scale(Scaled),
    /// The comma after the scale.
    Comma(Rounded, u8),
    /// The class of a rounding mode.
    Mode(Rounded, u8),
    /// The point after that class.
    ModePoint(Holder, Rounded, u8),
    /// The mode's word.
    ModeWord(Holder, Rounded, u8),
    /// Nothing: the assignment has ended.
    Ended(Name, Expr),
}

/// What is rounded to a scale.
#[derive(Drop)]
pub(crate) enum Rounded {
    /// The quotient of two expressions.
    Quotient(Box<Expr>, Box<Expr>),
    /// The value of an expression.
    Setting(Box<Expr>),
}

/// What a scale is given to.
#[derive(Drop)]
pub(crate) enum Scaled {
    /// `BigDecimal.valueOf` of an expression.
    Value(Box<Expr>),
    Rounded(Rounded),
}
