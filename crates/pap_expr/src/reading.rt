//! The reading of a list of tokens.

ghost use Rattle.std.specs.Prelude.{◌≡◌, ◌≤◌, List, ◌++◌, IfOk, IfErr, true, nat_lt, option_map};
ghost use Rattle.pap_tree.specs.Term.{term_of};
ghost use Rattle.pap_tree.specs.Grammar.{Line};
ghost use Rattle.pap_tree.specs.Limits.{most_levels};
ghost use Rattle.pap_tree.specs.Stopping.{has_limits};
ghost use Rattle.expr_tokens.specs.Spots.{spot_of, spots_of};
ghost use Rattle.expr_grammar.specs.Machine as machine;
ghost use Rattle.expr_grammar.specs.Machine.{Want, level, level_of};
ghost use Rattle.expr_grammar.specs.Run.{run};
ghost use Rattle.pap_expr.specs.declared.fault.ExprFault.TheVariants.{Memory};
ghost use Rattle.pap_expr.specs.NodeBytes.{PlacedToken, placed_tokens};
ghost use Rattle.pap_expr.specs.private.Stacks.{stack_of};
ghost use Rattle.pap_expr.specs.private.Views.{refusal_of, method_view};
ghost use Rattle.pap_expr.specs.private.States.{state_of};
ghost use Rattle.pap_expr.specs.private.Steps.{Steps};
ghost use Rattle.pap_expr.specs.private.Answers.{meaning_of, base_of, Answers};
ghost use Rattle.pap_expr.specs.private.Traces.{IsBefore, Traces};

use crate::fault::ExprFault;
use crate::frame::Frame;
use crate::reader::Reader;
use crate::stack::Stack;
use crate::state::{Rounded, Scaled, State};
use crate::steps::{after_class, after_new, comma, due, member, mode, mode_word, refused, scale};
use crate::trail::Trail;
use crate::words::Method;
use expr_tokens::{Placed, Sign};
use pap_tree::{Expr, MOST_LEVELS, Name, Unary};
use std::alloc::Global;

/// What tokens are read to.
#[derive(Drop)]
pub(crate) enum Reading {
    /// The expression of a test.
    Test(Expr),
    /// The target and the expression of an assignment.
    Assignment(Name, Expr),
}

/// Reads an expression: that of an assignment, where its target is given. `end` is what is wrong where the tokens end
/// too early. The trail follows, where it is kept.
pub(crate) fn read(
    alloc: Global,
    target: Option<Name>,
    tokens: &[Placed],
    end: ExprFault,
    trail: &mut Trail<'_>,
) -> Result<Reading, ExprFault>
    ensures answer { (l : Line) → has_limits l ≡ true →
        Answers (run l (refusal_of end) (Want (base_of target)) (spots_of tokens.now)) result }
    ensures places { (before : List PlacedToken) → IsBefore target before → Traces trail.old
        (before ++ placed_tokens trail.old.text.now (spots_of tokens.now)) trail.new result }
{
    let mut reader = Reader {
        alloc,
        stack: base(alloc, target)?,
    };
    let mut state = State::Operand;
    let mut left = tokens;
    while let Some((found, rest)) = left.split_first() {
        trail.follow(&state, &reader.stack, found, rest)?;
        state = reader.step(state, found)?;
        if reader.is_over(&state) {
            return Err(ExprFault::Deep { at: found.at });
        }
        left = rest;
    }
    trail.finish(&state, &reader.stack)?;
    match reader.finish(state)? {
        Some(reading) => Ok(reading),
        None => Err(end),
    }
}

/// The stack that a reading begins with.
fn base(alloc: Global, target: Option<Name>) -> Result<Stack, ExprFault>
    ensures base { IfOk result (λ s. stack_of s ≡ base_of target) }
    ensures memory { IfErr result (λ e. e ≡ Memory) }
{
    let mut stack = Stack::new(alloc);
    if let Some(name) = target {
        stack.push(Frame::Target(name))?;
    }
    Ok(stack)
}

impl Reader {
    /// The state after the next token.
    fn step(&mut self, state: State, found: &Placed) -> Result<State, ExprFault>
        requires room { level_of (state_of state (stack_of self.old.stack)) ≤ most_levels }
        ensures { Steps (state_of state (stack_of self.old.stack)) (spot_of found.now)
            (stack_of self.new.stack) result }
    {
        match state {
            State::Operand => self.operand(found),
            State::After(value) => self.after(value, found),
            State::AfterName(name) => self.after_name(name, found),
            State::ClassPoint => due(Sign::Dot, State::Static, found),
            State::Static => after_class(found),
            State::ValueOpen => self.opened(Frame::ValueOf, found),
            State::NewClass => after_new(found),
            State::NewOpen => self.opened(Frame::NewBig, found),
            State::Member(receiver) => member(receiver, found),
            State::CallOpen(method, receiver) => self.call(method, receiver, found),
            State::Close(value) => due(Sign::Close, State::After(value), found),
            State::Scale(scaled) => scale(scaled, found),
            State::Comma(rounded, places) => comma(rounded, places, found),
            State::Mode(rounded, places) => mode(rounded, places, found),
            State::ModePoint(holder, rounded, places) => {
                due(Sign::Dot, State::ModeWord(holder, rounded, places), found)
            }
            State::ModeWord(holder, rounded, places) => mode_word(holder, rounded, places, found),
            State::Ended(_, _) => Err(refused(found)),
        }
    }

    /// The bracket after a method's word.
    fn call(&mut self, method: Method, receiver: Expr, found: &Placed) -> Result<State, ExprFault>
        requires room { level (stack_of self.old.stack) ≤ most_levels }
        ensures { Steps (machine.called (term_of receiver) (stack_of self.old.stack)
            (method_view method))
            (spot_of found.now) (stack_of self.new.stack) result }
    {
        let receiver = Box::new(self.alloc, receiver)?;
        let next = match method {
            Method::Applied(call) => return self.opened(Frame::Argument(call, receiver), found),
            Method::Negate => State::Close(Expr::Unary(Unary::Negate, receiver)),
            Method::Abs => State::Close(Expr::Unary(Unary::Abs, receiver)),
            Method::SetScale => State::Scale(Scaled::Rounded(Rounded::Setting(receiver))),
        };
        due(Sign::Open, next, found)
    }

    /// Whether too many levels are open.
    fn is_over(&self, state: &State) -> bool
        ensures { result
            ≡ nat_lt most_levels (level_of (state_of state.now (stack_of self.now.stack))) }
    {
        let levels = self.stack.levels();
        match state {
            State::Close(_)
            | State::Scale(_)
            | State::Comma(_, _)
            | State::Mode(_, _)
            | State::ModePoint(_, _, _)
            | State::ModeWord(_, _, _) => levels >= MOST_LEVELS,
            State::Ended(_, _) => false,
            _ => levels > MOST_LEVELS,
        }
    }

    /// What is read, where the tokens end here.
    fn finish(&mut self, state: State) -> Result<Option<Reading>, ExprFault>
        ensures finished { IfOk result
            (λ o. option_map meaning_of o
            ≡ machine.finish (state_of state (stack_of self.old.stack))) }
        ensures memory { IfErr result (λ e. e ≡ Memory) }
    {
        match state {
            State::After(value) => self.whole(value),
            State::AfterName(name) => self.whole(Expr::Var(name)),
            State::Ended(target, value) => Ok(Some(Reading::Assignment(target, value))),
            _ => Ok(None),
        }
    }

    /// The same after an expression.
    fn whole(&mut self, value: Expr) -> Result<Option<Reading>, ExprFault>
        ensures whole { IfOk result (λ o. option_map meaning_of o
            ≡ machine.whole_line (machine.close 0 (term_of value) (stack_of self.old.stack))) }
        ensures memory { IfErr result (λ e. e ≡ Memory) }
    {
        let value = self.close(0, value)?;
        let Some(frame) = self.stack.pop() else {
            return Ok(Some(Reading::Test(value)));
        };
        match frame {
            Frame::Target(target) => Ok(Some(Reading::Assignment(target, value))),
            _ => Ok(None),
        }
    }
}
