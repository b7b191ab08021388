//! The reading of an expression, a token at a time: what waits for an operand stands on a stack.

ghost use Rattle.std.specs.Prelude.{◌≡◌, ◌≤◌, ℕ, List, ◌∷◌, Some, None, IfOk, IfErr};
ghost use Rattle.pap_tree.specs.Term.{one, unary, term_of};
ghost use Rattle.pap_tree.specs.Tokens as pure;
ghost use Rattle.pap_tree.specs.Limits.{most_levels};
ghost use Rattle.expr_tokens.specs.Spots.{token_of, spot_of, sign_of};
ghost use Rattle.expr_grammar.specs.Machine as machine;
ghost use Rattle.expr_grammar.specs.Machine.{Frame as Waiting, Want, Have, level};
ghost use Rattle.expr_grammar.specs.Run.{refusal_at};
ghost use Rattle.pap_expr.specs.declared.fault.ExprFault.TheVariants.{Memory};
ghost use Rattle.pap_expr.specs.private.Frames.{frame_of};
ghost use Rattle.pap_expr.specs.private.Stacks.{stack_of};
ghost use Rattle.pap_expr.specs.private.Views.{plain_cause};
ghost use Rattle.pap_expr.specs.private.Steps.{Steps, Leads, Opens};

use crate::fault::ExprFault;
use crate::frame::Frame;
use crate::stack::Stack;
use crate::state::{Rounded, Scaled, State};
use crate::steps::{is_sign, refused, tightness};
use expr_tokens::{Placed, Sign, Token};
use pap_tree::{Binary, Call, Expr, Name, Unary};
use std::alloc::Global;

/// What is read of a test or an assignment.
#[derive(Drop)]
pub(crate) struct Reader {
    pub(crate) alloc: Global,
    /// What waits for the expression that is read.
    pub(crate) stack: Stack,
}

impl Reader {
    /// The frames that bind at least so tightly take the expression.
    pub(crate) fn close(&mut self, tightness: u8, value: Expr) -> Result<Expr, ExprFault>
        ensures closed { IfOk result
            (λ e. machine.close tightness (term_of value) (stack_of self.old.stack)
            ≡ (term_of e, stack_of self.new.stack)) }
        ensures fewer { level (stack_of self.new.stack) ≤ level (stack_of self.old.stack) }
        ensures memory { IfErr result (λ e. e ≡ Memory) }
    {
        match self.stack.pop_binding(tightness) {
            None => Ok(value),
            Some(frame) => {
                let value = self.made(frame, value)?;
                self.close(tightness, value)
            }
        }
    }

    /// What a frame makes of its operand.
    fn made(&self, frame: Frame, value: Expr) -> Result<Expr, ExprFault>
        ensures made { IfOk result
            (λ e. term_of e ≡ machine.made (frame_of frame) (term_of value)) }
        ensures memory { IfErr result (λ e. e ≡ Memory) }
    {
        match frame {
            Frame::Minus => self.unary(Unary::Minus, value),
            Frame::Not => self.unary(Unary::Not, value),
            Frame::Right(operator, left) => {
                Ok(Expr::Binary(operator, left, Box::new(self.alloc, value)?))
            }
            Frame::No(test, yes) => Ok(Expr::Choose(test, yes, Box::new(self.alloc, value)?)),
            _ => Ok(value),
        }
    }

    /// An operator before its operand.
    fn unary(&self, operator: Unary, operand: Expr) -> Result<Expr, ExprFault>
        ensures made { IfOk result (λ e. term_of e ≡ one (unary operator) (term_of operand)) }
        ensures memory { IfErr result (λ e. e ≡ Memory) }
    {
        Ok(Expr::Unary(operator, Box::new(self.alloc, operand)?))
    }

    /// An expression is due, for which the frame waits.
    pub(crate) fn wait(&mut self, frame: Frame) -> Result<State, ExprFault>
        requires room { level (stack_of self.old.stack) ≤ most_levels }
        ensures { Opens (frame_of frame ∷ stack_of self.old.stack)
            (stack_of self.new.stack) result }
    {
        self.stack.push(frame)?;
        Ok(State::Operand)
    }

    /// The same after a bracket that is due.
    pub(crate) fn opened(&mut self, frame: Frame, found: &Placed) -> Result<State, ExprFault>
        requires room { level (stack_of self.old.stack) ≤ most_levels }
        ensures { (n : ℕ) →
            Steps (machine.Due n (pure.Mark pure.Open)
            (Want (frame_of frame ∷ stack_of self.old.stack)))
            (spot_of found.now) (stack_of self.new.stack) result }
    {
        if is_sign(Sign::Open, found) {
            self.wait(frame)
        } else {
            Err(refused(found))
        }
    }

    /// What goes on with an expression, or ends it.
    pub(crate) fn after(&mut self, value: Expr, found: &Placed) -> Result<State, ExprFault>
        requires room { level (stack_of self.old.stack) ≤ most_levels }
        ensures { Steps (Have (term_of value) (stack_of self.old.stack)) (spot_of found.now)
            (stack_of self.new.stack) result }
    {
        let value = self.close(tightness(found.token), value)?;
        match found.token {
            Token::Operator(operator) => {
                let left = Box::new(self.alloc, value)?;
                self.wait(Frame::Right(operator, left))
            }
            Token::Mark(sign) => self.marked(sign, value, found),
            _ => Err(refused(found)),
        }
    }

    /// A sign after an expression.
    fn marked(&mut self, sign: Sign, value: Expr, found: &Placed) -> Result<State, ExprFault>
        requires room { level (stack_of self.old.stack) ≤ most_levels }
        ensures { Leads
            (machine.after_mark (sign_of sign) (term_of value) (stack_of self.old.stack))
            (refusal_at (plain_cause (token_of found.now.token)) found.now.at)
            (stack_of self.new.stack) result }
    {
        match sign {
            Sign::Dot => Ok(State::Member(value)),
            Sign::Question => {
                let test = Box::new(self.alloc, value)?;
                self.wait(Frame::Yes(test))
            }
            _ => match self.stack.pop() {
                Some(frame) => self.ended(frame, sign, value, found),
                None => Err(refused(found)),
            },
        }
    }

    /// A sign that may end what a frame waits for.
    fn ended(
        &mut self,
        frame: Frame,
        sign: Sign,
        value: Expr,
        found: &Placed,
    ) -> Result<State, ExprFault>
        requires room { level (stack_of self.old.stack) ≤ most_levels }
        ensures { Leads (machine.ended (frame_of frame) (sign_of sign) (term_of value)
            (stack_of self.old.stack))
            (refusal_at (plain_cause (token_of found.now.token)) found.now.at)
            (stack_of self.new.stack) result }
    {
        match (frame, sign) {
            (frame, Sign::Close) => self.closed(frame, value, found),
            (Frame::Argument(Call::DivideExact, dividend), Sign::Comma) => {
                let divisor = Box::new(self.alloc, value)?;
                Ok(State::Scale(Scaled::Rounded(Rounded::Quotient(dividend, divisor))))
            }
            (Frame::ValueOf, Sign::Comma) => {
                Ok(State::Scale(Scaled::Value(Box::new(self.alloc, value)?)))
            }
            (Frame::Index(table), Sign::CloseItem) => {
                Ok(State::After(Expr::Item(table, Box::new(self.alloc, value)?)))
            }
            (Frame::Yes(test), Sign::Colon) => {
                let yes = Box::new(self.alloc, value)?;
                self.wait(Frame::No(test, yes))
            }
            (Frame::Target(target), Sign::Semicolon) => Ok(State::Ended(target, value)),
            _ => Err(refused(found)),
        }
    }

    /// A closing bracket, which may end what a frame waits for.
    fn closed(&self, frame: Frame, value: Expr, found: &Placed) -> Result<State, ExprFault>
        ensures { (k : List Waiting)
            → Leads (machine.ended (frame_of frame) pure.Close (term_of value) k)
            (refusal_at (plain_cause (token_of found.now.token)) found.now.at) k result }
    {
        Ok(State::After(match frame {
            Frame::Brackets => value,
            Frame::Argument(call, receiver) => {
                Expr::Call(call, receiver, Box::new(self.alloc, value)?)
            }
            Frame::ValueOf => Expr::ValueOf(Box::new(self.alloc, value)?),
            Frame::NewBig => Expr::NewInt(Box::new(self.alloc, value)?),
            _ => return Err(refused(found)),
        }))
    }

    /// What goes on with a name, or ends it.
    pub(crate) fn after_name(&mut self, name: Name, found: &Placed) -> Result<State, ExprFault>
        requires room { level (stack_of self.old.stack) ≤ most_levels }
        ensures { Steps (machine.Named name (stack_of self.old.stack)) (spot_of found.now)
            (stack_of self.new.stack) result }
    {
        if is_sign(Sign::OpenItem, found) {
            self.wait(Frame::Index(name))
        } else {
            self.after(Expr::Var(name), found)
        }
    }
}
