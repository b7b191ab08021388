//! What waits for the expression that is read.
ghost use Rattle.std.specs.Prelude.{◌≡◌, ◌+◌, ◌∷◌, ◌≤◌, List};
ghost use Rattle.expr_grammar.specs.Machine.{Frame as Waiting, level, binds, closes};
ghost use Rattle.pap_expr.specs.private.Frames.{frame_of};

use pap_tree::levels::{self, level_of_operator};
use pap_tree::{Binary, Call, Expr, Name};

/// What waits for the expression that is read.
#[derive(Drop)]
pub(crate) enum Frame {
    /// In round brackets.
    Brackets,
    /// The argument of a method, after its receiver.
    Argument(Call, Box<Expr>),
    /// The index of an item.
    Index(Name),
    /// The argument of `BigDecimal.valueOf`.
    ValueOf,
    /// The argument of `new BigDecimal`.
    NewBig,
    /// The operand of a prefix `-`.
    Minus,
    /// The operand of `!`.
    Not,
    /// The right operand of an operator, after the left one.
    Right(Binary, Box<Expr>),
    /// What a conditional gives where its test holds, after the test.
    Yes(Box<Expr>),
    /// What it gives where the test doesn't hold.
    No(Box<Expr>, Box<Expr>),
    /// The expression of an assignment, after its target.
    Target(Name),
}

impl Frame {
    /// How tightly the frame binds its operand, where no token ends it.
    pub(crate) fn binds(&self) -> Option<u8>
        ensures { result ≡ binds (frame_of self.now) }
    {
        match self {
            Frame::Minus | Frame::Not => Some(levels::PREFIX),
            Frame::Right(operator, _) => Some(level_of_operator(*operator)),
            Frame::No(_, _) => Some(levels::CONDITIONAL),
            _ => None,
        }
    }

    /// Whether the frame takes what a token ends that binds so tightly.
    pub(crate) fn binds_so(&self, tightness: u8) -> bool
        ensures { result ≡ closes tightness (binds (frame_of self.now)) }
    {
        match self.binds() {
            Some(own) => own >= tightness,
            None => false,
        }
    }

    /// How many levels the frame opens.
    pub(crate) fn levels(&self) -> usize
        ensures opens { (k : List Waiting) → level (frame_of self.now ∷ k) ≡ result + level k }
        ensures one { result ≤ 1 }
    {
        match self {
            Frame::Right(_, _) | Frame::Target(_) => 0,
            _ => 1,
        }
    }
}
