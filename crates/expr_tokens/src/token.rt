//! What the text of an expression is made of.
ghost use Rattle.std.specs.Prelude.{IsTrue};
ghost use Rattle.expr_tokens.specs.Ranges.{is_in_range};

use pap_tree::{Binary, Name};
use scaled_decimal::Dec;

/// A token of an expression's text (docs/PROFILE.md, "Expressions").
#[derive(Clone, Copy)]
pub enum Token {
    /// A literal of `int`, at most 2147483647.
    Int(u32),
    /// A literal of `long`, at most 9223372036854775807.
    Long(u64),
    /// A literal with a point, as it is written.
    Point(Dec),
    /// A number in quotation marks.
    Quoted(Dec),
    /// A literal, or a number in quotation marks, that is beyond its range.
    Beyond,
    /// A name: also a word that the language has only behind a point, as `add`.
    Name(Name),
    /// A word of the language.
    Keyword(Keyword),
    /// An operator between two operands. A `-` before its operand is one of them too.
    Operator(Binary),
    /// Another sign.
    Mark(Sign),
    /// A byte at which no token begins.
    Alien,
}

/// A word that isn't a name.
#[derive(Clone, Copy, Debug, PartialEq, Eq)]
pub enum Keyword {
    /// `new`
    New,
    /// `BigDecimal`
    BigDecimal,
    /// `RoundingMode`
    RoundingMode,
}

/// A sign that isn't an operator between two operands.
#[derive(Clone, Copy, Debug, PartialEq, Eq)]
pub enum Sign {
    /// `=`
    Equals,
    /// `!`
    Bang,
    /// `?`
    Question,
    /// `:`
    Colon,
    /// `.`
    Dot,
    /// `,`
    Comma,
    /// `;`
    Semicolon,
    /// `(`
    Open,
    /// `)`
    Close,
    /// `[`
    OpenItem,
    /// `]`
    CloseItem,
    /// `{`
    OpenTable,
    /// `}`
    CloseTable,
}

/// A token and the place of its first byte in the text.
#[derive(Clone, Copy)]
pub struct Placed {
    /// The token.
    pub token: Token,
    /// The place of its first byte, counted from the text's beginning.
    pub at: usize,
    pub ghost in_range: { IsTrue (is_in_range token) },
}
