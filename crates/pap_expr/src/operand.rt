//! The tokens that an expression begins with.

ghost use Rattle.std.specs.Prelude.{◌≡◌, ◌≤◌, List, ◌∷◌, Some, IsTrue, MatchBool, if◌then◌else◌};
ghost use Rattle.pap_tree.specs.Names.{is_name};
ghost use Rattle.pap_tree.specs.Term.{Leaf, leaf};
ghost use Rattle.pap_tree.specs.Tokens as pure;
ghost use Rattle.pap_tree.specs.Tokens.{Number, Word, Operator, Mark, Quoted};
ghost use Rattle.pap_tree.specs.Grammar.{leaf_of, negative_of};
ghost use Rattle.pap_tree.specs.Limits.{most_levels};
ghost use Rattle.pap_tree.specs.Stopping.{binary_fraction, syntax};
ghost use Rattle.expr_tokens.specs.Spots.{spot_of, sign_of, keyword_text};
ghost use Rattle.expr_grammar.specs.Machine.{Frame as Waiting, InNew, Want, Have};
ghost use Rattle.expr_grammar.specs.Machine.{level, taken, literal_step, want_step};
ghost use Rattle.expr_grammar.specs.Run.{refusal_at, point_cause};
ghost use Rattle.pap_expr.specs.declared.state.State.TheVariants.{AfterName};
ghost use Rattle.pap_expr.specs.private.Stacks.{stack_of};
ghost use Rattle.pap_expr.specs.private.States.{state_of};
ghost use Rattle.pap_expr.specs.private.Steps.{Steps, Leads};

use crate::fault::ExprFault;
use crate::frame::Frame;
use crate::reader::Reader;
use crate::state::State;
use crate::steps::refused;
use expr_tokens::{Keyword, Placed, Sign, Token};
use pap_tree::{Binary, Expr, Name};
use scaled_decimal::Dec;

impl Reader {
    /// The beginning of an expression. A literal takes the `-` before it.
    pub(crate) fn operand(&mut self, found: &Placed) -> Result<State, ExprFault>
        requires room { level (stack_of self.old.stack) ≤ most_levels }
        ensures { Steps (Want (stack_of self.old.stack)) (spot_of found.now)
            (stack_of self.new.stack) result }
    {
        match found.token {
            Token::Int(n) => Ok(self.int(n)),
            Token::Long(n) => Ok(self.long(n)),
            Token::Point(d) => self.point(d, found),
            Token::Quoted(d) => self.quoted(d, found),
            Token::Name(name) => Ok(named(name)),
            Token::Keyword(keyword) => class(keyword, found),
            Token::Operator(operator) => self.prefix(operator, found),
            Token::Mark(sign) => self.prefix_sign(sign, found),
            Token::Beyond | Token::Alien => Err(refused(found)),
        }
    }

    /// Takes the prefix `-` that a literal stands right after.
    fn takes_minus(&mut self) -> bool
        ensures literal { (n : Number) → literal_step (stack_of self.old.stack) n
            ≡ taken (stack_of self.new.stack) n (if result then negative_of n else leaf_of n) }
        ensures fraction { (k : List Waiting) → stack_of self.new.stack ≡ InNew ∷ k
            → point_cause (Want (stack_of self.old.stack)) ≡ binary_fraction }
    {
        let Some(Frame::Minus) = self.stack.top() else {
            return false;
        };
        self.stack.pop().is_some()
    }

    /// Whether an argument of `new BigDecimal` begins here.
    fn is_in_new(&self) -> bool
        ensures { MatchBool result ((k : List Waiting) × (stack_of self.now.stack ≡ InNew ∷ k))
            ((n : Number) (l : Leaf) → taken (stack_of self.now.stack) n l
            ≡ Some (Have (leaf l) (stack_of self.now.stack))) }
    {
        match self.stack.top() {
            Some(Frame::NewBig) => true,
            _ => false,
        }
    }

    /// A literal of `int`.
    fn int(&mut self, n: u32) -> State
        requires range { n ≤ pure.greatest_int }
        ensures { literal_step (stack_of self.old.stack) (pure.int n)
            ≡ Some (state_of result (stack_of self.new.stack)) }
    {
        let n = n as i32;
        State::After(Expr::Int(if self.takes_minus() { -n } else { n }))
    }

    /// A literal of `long`.
    fn long(&mut self, n: u64) -> State
        requires range { n ≤ pure.greatest_long }
        ensures { literal_step (stack_of self.old.stack) (pure.long n)
            ≡ Some (state_of result (stack_of self.new.stack)) }
    {
        let n = n as i64;
        State::After(Expr::Long(if self.takes_minus() { -n } else { n }))
    }

    /// A literal with a point.
    fn point(&mut self, d: Dec, found: &Placed) -> Result<State, ExprFault>
        ensures { Leads (literal_step (stack_of self.old.stack) (pure.point d))
            (refusal_at (point_cause (Want (stack_of self.old.stack))) found.now.at)
            (stack_of self.new.stack) result }
    {
        let d = if self.takes_minus() { d.neg() } else { d };
        if self.is_in_new() {
            return Err(ExprFault::BinaryFraction { at: found.at });
        }
        Ok(State::After(Expr::Point(d)))
    }

    /// A number in quotation marks.
    fn quoted(&mut self, d: Dec, found: &Placed) -> Result<State, ExprFault>
        ensures { Leads (want_step (stack_of self.old.stack) (Quoted d))
            (refusal_at syntax found.now.at)
            (stack_of self.new.stack) result }
    {
        match self.stack.pop() {
            Some(Frame::NewBig) => Ok(State::Close(Expr::Text(d))),
            _ => Err(ExprFault::Syntax { at: found.at }),
        }
    }

    /// An operator before its operand.
    fn prefix(&mut self, operator: Binary, found: &Placed) -> Result<State, ExprFault>
        requires room { level (stack_of self.old.stack) ≤ most_levels }
        ensures { Leads (want_step (stack_of self.old.stack) (Operator operator))
            (refusal_at syntax found.now.at)
            (stack_of self.new.stack) result }
    {
        match operator {
            Binary::Sub => self.wait(Frame::Minus),
            _ => Err(ExprFault::Syntax { at: found.at }),
        }
    }

    /// A `!` or a bracket before what it is for.
    fn prefix_sign(&mut self, sign: Sign, found: &Placed) -> Result<State, ExprFault>
        requires room { level (stack_of self.old.stack) ≤ most_levels }
        ensures { Leads (want_step (stack_of self.old.stack) (Mark (sign_of sign)))
            (refusal_at syntax found.now.at)
            (stack_of self.new.stack) result }
    {
        match sign {
            Sign::Bang => self.wait(Frame::Not),
            Sign::Open => self.wait(Frame::Brackets),
            _ => Err(ExprFault::Syntax { at: found.at }),
        }
    }
}

/// A word that begins a decimal.
fn class(keyword: Keyword, found: &Placed) -> Result<State, ExprFault>
    ensures { (k : List Waiting) →
        Leads (want_step k (Word (keyword_text keyword)))
        (refusal_at syntax found.now.at) k result }
{
    match keyword {
        Keyword::BigDecimal => Ok(State::ClassPoint),
        Keyword::New => Ok(State::NewClass),
        Keyword::RoundingMode => Err(ExprFault::Syntax { at: found.at }),
    }
}

/// A name, which is a variable or a table. A function of its own, so that the proof learns that the word is a name.
fn named(name: Name) -> State
    ensures state { result ≡ AfterName name }
    ensures named { IsTrue (is_name name) }
{
    State::AfterName(name)
}
