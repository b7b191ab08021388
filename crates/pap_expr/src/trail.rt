//! Where the nodes stand: the trail of a reading, which follows it token by token.

ghost use Rattle.std.specs.Prelude.{◌≡◌, true, length, IfErr, OnOk, IfOk};
ghost use Rattle.expr_tokens.specs.Spots.{token_of, sign_of, spots_of};
ghost use Rattle.pap_expr.specs.declared.fault.ExprFault.TheVariants.{Memory};
ghost use Rattle.pap_expr.specs.NodeBytes.{stretch, is_white_at, black_end, next_place};
ghost use Rattle.pap_expr.specs.private.Frames.{frames_of};
ghost use Rattle.pap_expr.specs.private.Stacks.{stack_of};
ghost use Rattle.pap_expr.specs.private.States.{state_of};
ghost use Rattle.pap_expr.specs.private.Tracks.{track_of, opened, taken, noted, close_track, marked_track, have_track, named_track, want_track, static_track, step_track, next_track, last_track, no_track, is_bracketed};

use crate::fault::ExprFault;
use crate::frame::Frame;
use crate::stack::{Stack, innermost};
use crate::state::State;
use crate::steps::tightness;
use crate::stretch::Stretch;
use crate::words::{Method, Static, static_of};
use expr_tokens::{Placed, Sign, Token};
use pap_tree::is_white;
use std::alloc::Global;

/// What is known of where the nodes stand, up to the token that is read.
#[derive(Drop)]
pub(crate) struct Trail<'t> {
    /// The text.
    text: &'t [u8],
    /// Whether the trail is kept. Else nothing is written into it.
    is_kept: bool,
    /// The first byte of what each frame of the stack has read, the innermost last. The target of an assignment has none.
    begins: Vec<usize>,
    /// The first byte of the expression that is read.
    first: usize,
    /// The place behind the token that was read last.
    end: usize,
    /// The bytes of the nodes that are made, by number.
    made: Vec<Stretch>,
}

impl<'t> Trail<'t> {
    /// One that is kept, or one that isn't.
    pub(crate) fn new(alloc: Global, text: &'t [u8], is_kept: bool) -> Trail<'t>
        ensures track { track_of result ≡ no_track }
        ensures text { result.text.now ≡ text.entry.now }
        ensures kept { result.is_kept ≡ is_kept }
    {
        Trail {
            text,
            is_kept,
            begins: Vec::new(alloc),
            first: 0,
            end: 0,
            made: Vec::new(alloc),
        }
    }

    /// The bytes of the nodes, by number.
    pub(crate) fn nodes(self) -> Vec<Stretch>
        ensures { result ≡ self.entry.made }
    {
        self.made
    }

    /// Follows the reading over the next token. `rest` are the tokens behind it.
    pub(crate) fn follow(
        &mut self,
        state: &State,
        stack: &Stack,
        found: &Placed,
        rest: &[Placed],
    ) -> Result<(), ExprFault>
        ensures track { OnOk result (self.old.is_kept ≡ true → track_of self.new
            ≡ next_track (state_of state.now (stack_of stack.now)) (token_of found.now.token)
            (stretch found.now.at (black_end self.old.text.now
            (next_place (length self.old.text.now) (spots_of rest.now)))) (track_of self.old)) }
        ensures text { self.new.text ≡ self.old.text }
        ensures kept { self.new.is_kept ≡ self.old.is_kept }
        ensures memory { IfErr result (λ e. e ≡ Memory) }
    {
        if !self.is_kept {
            return Ok(());
        }
        let next = match rest.first() {
            Some(next) => next.at,
            None => self.text.len(),
        };
        let end = black_end(self.text, next);
        self.step(state, stack, found, end)?;
        self.end = end;
        Ok(())
    }

    /// Follows the reading to the end of the tokens.
    pub(crate) fn finish(&mut self, state: &State, stack: &Stack) -> Result<(), ExprFault>
        ensures track { OnOk result (self.old.is_kept ≡ true → track_of self.new
            ≡ last_track (state_of state.now (stack_of stack.now)) (track_of self.old)) }
        ensures memory { IfErr result (λ e. e ≡ Memory) }
    {
        if !self.is_kept {
            return Ok(());
        }
        match state {
            State::After(_) => {
                self.close(stack.frames(), 0)?;
            }
            State::AfterName(_) => {
                self.note(self.end)?;
                self.close(stack.frames(), 0)?;
            }
            _ => {}
        }
        Ok(())
    }

    /// The same over a token that ends before this place.
    fn step(
        &mut self,
        state: &State,
        stack: &Stack,
        found: &Placed,
        end: usize,
    ) -> Result<(), ExprFault>
        ensures track { OnOk result (track_of self.new
            ≡ step_track (state_of state.now (stack_of stack.now)) (token_of found.now.token)
            (stretch found.now.at end) (track_of self.old)) }
        ensures text { self.new.text ≡ self.old.text }
        ensures kept { self.new.is_kept ≡ self.old.is_kept }
        ensures memory { IfErr result (λ e. e ≡ Memory) }
    {
        match state {
            State::Operand => self.operand(stack, found, end),
            State::After(_) => self.after(stack, found.token, end),
            State::AfterName(_) => self.after_name(stack, found.token, end),
            State::Static => self.constant(found.token, end),
            State::ValueOpen | State::NewOpen | State::CallOpen(Method::Applied(_), _) =>
                self.open(),
            State::Close(_) => self.note(end),
            _ => Ok(()),
        }
    }

    /// The token that an expression begins with.
    fn operand(&mut self, stack: &Stack, found: &Placed, end: usize) -> Result<(), ExprFault>
        ensures track { OnOk result (track_of self.new
            ≡ want_track (stack_of stack.now) (token_of found.now.token)
            (stretch found.now.at end) (track_of self.old)) }
        ensures text { self.new.text ≡ self.old.text }
        ensures kept { self.new.is_kept ≡ self.old.is_kept }
        ensures memory { IfErr result (λ e. e ≡ Memory) }
    {
        match found.token {
            Token::Int(_) | Token::Long(_) | Token::Point(_) => {
                self.first = found.at;
                if let Some(Frame::Minus) = stack.top() {
                    self.take();
                }
                self.note(end)
            }
            Token::Quoted(_) => {
                self.take();
                Ok(())
            }
            Token::Name(_) | Token::Keyword(_) => {
                self.first = found.at;
                Ok(())
            }
            Token::Operator(_) | Token::Mark(_) => {
                self.first = found.at;
                self.open()
            }
            Token::Beyond | Token::Alien => Ok(()),
        }
    }

    /// A token behind an expression.
    fn after(&mut self, stack: &Stack, token: Token, end: usize) -> Result<(), ExprFault>
        ensures track { OnOk result (track_of self.new
            ≡ have_track (stack_of stack.now) (token_of token) end (track_of self.old)) }
        ensures text { self.new.text ≡ self.old.text }
        ensures kept { self.new.is_kept ≡ self.old.is_kept }
        ensures memory { IfErr result (λ e. e ≡ Memory) }
    {
        let frames = stack.frames();
        match token {
            Token::Mark(sign) => {
                let left = self.close(frames, tightness(token))?;
                self.marked(left, sign, end)
            }
            Token::Operator(_) => {
                self.close(frames, tightness(token))?;
                self.open()
            }
            _ => {
                self.close(frames, tightness(token))?;
                Ok(())
            }
        }
    }

    /// A token behind a name.
    fn after_name(&mut self, stack: &Stack, token: Token, end: usize) -> Result<(), ExprFault>
        ensures track { OnOk result (track_of self.new
            ≡ named_track (stack_of stack.now) (token_of token) end (track_of self.old)) }
        ensures text { self.new.text ≡ self.old.text }
        ensures kept { self.new.is_kept ≡ self.old.is_kept }
        ensures memory { IfErr result (λ e. e ≡ Memory) }
    {
        if let Token::Mark(Sign::OpenItem) = token {
            return self.open();
        }
        self.note(self.end)?;
        self.after(stack, token, end)
    }

    /// The word behind `BigDecimal` and a point.
    fn constant(&mut self, token: Token, end: usize) -> Result<(), ExprFault>
        ensures track { OnOk result (track_of self.new
            ≡ static_track (token_of token) end (track_of self.old)) }
        ensures text { self.new.text ≡ self.old.text }
        ensures kept { self.new.is_kept ≡ self.old.is_kept }
        ensures memory { IfErr result (λ e. e ≡ Memory) }
    {
        let Token::Name(word) = token else {
            return Ok(());
        };
        match static_of(word) {
            Some(Static::Known(_)) => self.note(end),
            _ => Ok(()),
        }
    }

    /// A sign behind an expression for which these frames wait.
    fn marked(&mut self, frames: &[Frame], sign: Sign, end: usize) -> Result<(), ExprFault>
        ensures track { OnOk result (track_of self.new
            ≡ marked_track (frames_of frames.now) (sign_of sign) end (track_of self.old)) }
        ensures text { self.new.text ≡ self.old.text }
        ensures kept { self.new.is_kept ≡ self.old.is_kept }
        ensures memory { IfErr result (λ e. e ≡ Memory) }
    {
        match sign {
            Sign::Question => self.open(),
            Sign::Comma => {
                self.take();
                Ok(())
            }
            Sign::Close => {
                self.take();
                if is_bracketed(frames) {
                    Ok(())
                } else {
                    self.note(end)
                }
            }
            Sign::CloseItem => {
                self.take();
                self.note(end)
            }
            _ => Ok(()),
        }
    }

    /// The frames that bind at least so tightly take the expression. Those that stay are given.
    fn close<'f>(&mut self, frames: &'f [Frame], tightness: u8) -> Result<&'f [Frame], ExprFault>
        ensures track { IfOk result (λ left.
            close_track tightness (frames_of frames.entry.now) (track_of self.old)
            ≡ (track_of self.new, frames_of left.now)) }
        ensures text { self.new.text ≡ self.old.text }
        ensures kept { self.new.is_kept ≡ self.old.is_kept }
        ensures memory { IfErr result (λ e. e ≡ Memory) }
    {
        let Some((frame, outer)) = frames.split_last() else {
            return Ok(frames);
        };
        if !frame.binds_so(tightness) {
            return Ok(frames);
        }
        self.take();
        self.note(self.end)?;
        self.close(outer, tightness)
    }

    /// A frame is opened, to which the expression belongs that is read.
    fn open(&mut self) -> Result<(), ExprFault>
        ensures track { OnOk result (track_of self.new ≡ opened (track_of self.old)) }
        ensures text { self.new.text ≡ self.old.text }
        ensures kept { self.new.is_kept ≡ self.old.is_kept }
        ensures memory { IfErr result (λ e. e ≡ Memory) }
    {
        self.begins.push(self.first)?;
        Ok(())
    }

    /// The innermost frame is taken: the expression begins where it does.
    fn take(&mut self)
        ensures track { track_of self.new ≡ taken (track_of self.old) }
        ensures text { self.new.text ≡ self.old.text }
        ensures kept { self.new.is_kept ≡ self.old.is_kept }
    {
        if let Some(first) = self.begins.pop() {
            self.first = first;
        }
    }

    /// The expression is a node, which ends before this place.
    fn note(&mut self, end: usize) -> Result<(), ExprFault>
        ensures track { OnOk result (track_of self.new ≡ noted end (track_of self.old)) }
        ensures text { self.new.text ≡ self.old.text }
        ensures kept { self.new.is_kept ≡ self.old.is_kept }
        ensures memory { IfErr result (λ e. e ≡ Memory) }
    {
        let first = self.first;
        self.made.push(Stretch { first, end })?;
        Ok(())
    }
}

/// Whether the innermost of the frames is a pair of brackets.
fn is_bracketed(frames: &[Frame]) -> bool
    ensures { result ≡ is_bracketed (frames_of frames.now) }
{
    match innermost(frames) {
        Some(Frame::Brackets) => true,
        _ => false,
    }
}

/// The place behind the last byte before this place that isn't white space.
fn black_end(text: &[u8], place: usize) -> usize
    ensures { result ≡ black_end text.now place }
{
    let mut end = place;
    while end > 0 {
        let before = end - 1;
        if !is_white_at(text, before) {
            return end;
        }
        end = before;
    }
    end
}

/// Whether white space stands at a place.
fn is_white_at(text: &[u8], place: usize) -> bool
    ensures { result ≡ is_white_at text.now place }
{
    match text.get(place) {
        Some(byte) => is_white(*byte),
        None => false,
    }
}
