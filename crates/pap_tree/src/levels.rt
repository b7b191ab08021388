//! The levels of the expression grammar: how tightly an expression binds, 0 the loosest.
ghost use Rattle.std.specs.Prelude.{◌≡◌, ◌≤◌};
ghost use Rattle.pap_tree.specs.Words.{level_of_operator};

use crate::Binary;

/// A conditional.
pub const CONDITIONAL: u8 = 0;

/// `||`.
pub const OR: u8 = 1;

/// `&&`.
pub const AND: u8 = 2;

/// `==` and `!=`.
pub const EQUALITY: u8 = 3;

/// `<`, `<=`, `>` and `>=`.
pub const COMPARISON: u8 = 4;

/// `+` and `-` between two operands.
pub const SUM: u8 = 5;

/// `*`, `/` and `%`.
pub const PRODUCT: u8 = 6;

/// A `-` or a `!` before its operand.
pub const PREFIX: u8 = 7;

/// A method of an expression.
pub const CALL: u8 = 8;

/// What needs no brackets anywhere.
pub const PRIMARY: u8 = 9;

/// The level of an operator.
pub fn level_of_operator(op: Binary) -> u8
    ensures level { result ≡ level_of_operator op }
    ensures few { result ≤ 6 }
{
    match op {
        Binary::Or => OR,
        Binary::And => AND,
        Binary::Same | Binary::Differs => EQUALITY,
        Binary::Less | Binary::LessEq | Binary::More | Binary::MoreEq => COMPARISON,
        Binary::Plus | Binary::Sub => SUM,
        Binary::Mul | Binary::Div | Binary::Rem => PRODUCT,
    }
}
