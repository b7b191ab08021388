//! The tree of an expression.
ghost use Rattle.std.specs.Prelude.{◌≡◌};
ghost use Rattle.pap_tree.specs.Grammar.{known_value};

use crate::Name;
use scaled_decimal::{Dec, Mode};

/// An expression of the flowchart (docs/PROFILE.md, "Expressions").
#[derive(Drop)]
pub enum Expr {
    /// A literal of Java's `int`.
    Int(i32),
    /// A literal of Java's `long`.
    Long(i64),
    /// A literal with a point, as it is written.
    Point(Dec),
    /// `new BigDecimal` of a string.
    Text(Dec),
    /// A constant of `BigDecimal`.
    Known(Known),
    /// The value of a variable.
    Var(Name),
    /// An item of a table, counted from 0.
    Item(Name, Box<Expr>),
    /// `BigDecimal.valueOf` of a number.
    ValueOf(Box<Expr>),
    /// `BigDecimal.valueOf` of a whole number and a scale.
    ValueOfScaled(Box<Expr>, u8),
    /// `new BigDecimal` of a whole number.
    NewInt(Box<Expr>),
    /// An operation on one operand.
    Unary(Unary, Box<Expr>),
    /// An operator between its left and its right operand.
    Binary(Binary, Box<Expr>, Box<Expr>),
    /// A method with one argument: its receiver and the argument.
    Call(Call, Box<Expr>, Box<Expr>),
    /// `divide` with a scale and a rounding mode: the receiver and the divisor.
    Divide(Box<Expr>, Box<Expr>, u8, Mode),
    /// `setScale`: the receiver, the scale and the rounding mode.
    SetScale(Box<Expr>, u8, Mode),
    /// `c ? a : b`.
    Choose(Box<Expr>, Box<Expr>, Box<Expr>),
}

/// A constant of `BigDecimal`: 0, 1 or 10 with scale 0.
#[derive(Clone, Copy)]
pub enum Known {
    /// `ZERO`
    Zero,
    /// `ONE`
    One,
    /// `TEN`
    Ten,
}

impl Known {
    /// Its decimal: 0, 1 or 10 with scale 0.
    pub fn value(self) -> Dec
        ensures { result ≡ known_value self }
    {
        match self {
            Known::Zero => Dec::new(0, 0),
            Known::One => Dec::new(1, 0),
            Known::Ten => Dec::new(10, 0),
        }
    }
}

/// An operation on one operand.
#[derive(Clone, Copy)]
pub enum Unary {
    /// Prefix `-` on a whole number.
    Minus,
    /// `!` on a truth.
    Not,
    /// `negate()` of a decimal.
    Negate,
    /// `abs()` of a decimal.
    Abs,
}

/// An operator between two operands.
#[derive(Clone, Copy)]
pub enum Binary {
    /// `*`
    Mul,
    /// `/`
    Div,
    /// `%`
    Rem,
    /// `+`
    Plus,
    /// `-`
    Sub,
    /// `<`
    Less,
    /// `<=`
    LessEq,
    /// `>`
    More,
    /// `>=`
    MoreEq,
    /// `==`
    Same,
    /// `!=`
    Differs,
    /// `&&`
    And,
    /// `||`
    Or,
}

/// A method of a decimal with one argument.
#[derive(Clone, Copy)]
pub enum Call {
    /// `add`
    Add,
    /// `subtract`
    Subtract,
    /// `multiply`
    Multiply,
    /// `divide` without a scale.
    DivideExact,
    /// `compareTo`
    CompareTo,
    /// `min`
    Min,
    /// `max`
    Max,
}
