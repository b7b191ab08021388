//! The reading of declared literals, a token at a time.

ghost use Rattle.std.specs.Prelude.{◌≡◌, ℕ, Some, None, IfOk, IfErr, MatchOption};
ghost use Rattle.scaled_decimal.specs.Decimals.{decimal};
ghost use Rattle.pap_tree.specs.Term.{whole, long as long_leaf, point as point_leaf};
ghost use Rattle.pap_tree.specs.Tokens as pure;
ghost use Rattle.pap_tree.specs.Grammar.{Constant, declared};
ghost use Rattle.pap_tree.specs.Declarations.{declared_of};
ghost use Rattle.pap_tree.specs.Stopping.{syntax};
ghost use Rattle.pap_tree.specs.Expressions.{IsAccepted};
ghost use Rattle.expr_tokens.specs.Spots.{token_of, spot_of, spots_of, sign_of};
ghost use Rattle.expr_grammar.specs.Machine as machine;
ghost use Rattle.expr_grammar.specs.Machine.{filled, other_step, settled};
ghost use Rattle.expr_grammar.specs.Shortened.{shortened_places};
ghost use Rattle.expr_grammar.specs.Run.{refusal_at, answer, point_cause};
ghost use Rattle.pap_expr.specs.declared.fault.ExprFault.TheVariants.{Memory};
ghost use Rattle.pap_expr.specs.declared.constant.Due.TheVariants.{NewClass};
ghost use Rattle.pap_expr.specs.private.Views.{plain_cause};
ghost use Rattle.pap_expr.specs.Faults.{IsFaultOf};
ghost use Rattle.pap_expr.specs.private.Constants.{room_of, slot_of, due_of, big_of, GivesNext, Moves, Gives};

use crate::constant::{Due, Room, Slot};
use crate::fault::ExprFault;
use crate::steps::{foreign, is_sign, keyword, refused};
use crate::words::{Static, static_of};
use expr_tokens::{Keyword, Placed, Sign, Token, read_tokens};
use pap_tree::{Binary, Literal};
use scaled_decimal::{Dec, MOST_PLACES};
use std::alloc::Global;

/// A declared literal: the value of a constant or a default.
pub fn parse_constant(alloc: Global, text: &[u8]) -> Result<Literal, ExprFault>
    ensures literal { IfOk result (λ v. IsAccepted Constant text.now (declared (declared_of v))) }
    ensures fault { IfErr result (IsFaultOf Constant text.now) }
{
    let tokens = read_tokens(alloc, text)?;
    literal(alloc, &tokens, text.len())
}

/// The declared literal of the tokens of a text of so many bytes.
fn literal(alloc: Global, tokens: &[Placed], len: usize) -> Result<Literal, ExprFault>
    ensures { Gives (answer Constant len (spots_of tokens.now)) result }
{
    let mut state = Due::Signed(Slot::Line);
    for found in tokens {
        state = step(alloc, state, found)?;
    }
    match state {
        Due::Done(literal) => Ok(literal),
        _ => Err(ExprFault::Syntax { at: len }),
    }
}

/// The state after the next token.
fn step(alloc: Global, state: Due, found: &Placed) -> Result<Due, ExprFault>
    ensures { Moves (due_of state) (spot_of found.now) result }
{
    match state {
        Due::Signed(slot) => signed(alloc, slot, found),
        Due::Minus(slot) => minus(slot, found),
        Due::ClassPoint(room) => due(Sign::Dot, Due::Static(room), found),
        Due::Static(room) => constant(room, found),
        Due::ValueOpen(room) => due(Sign::Open, Due::Signed(Slot::Value(room)), found),
        Due::NewClass(room) => new_class(room, found),
        Due::NewOpen(room) => due(Sign::Open, Due::Signed(Slot::New(room)), found),
        Due::ValueInt(i, room) => value_int(i, room, found),
        Due::ValuePoint(d, room) => value_point(d, room, found),
        Due::Scale(i, room) => scale(i, room, found),
        Due::Close(d, room) => close(d, room, found),
        Due::Item(items) => big(Room::Table(items), found),
        Due::AfterItem(items) => after_item(items, found),
        Due::Done(_) => Err(refused(found)),
    }
}

/// The state after a sign that is due.
fn due(sign: Sign, next: Due, found: &Placed) -> Result<Due, ExprFault>
    ensures { (n : ℕ) → Moves (machine.Due n (pure.Mark (sign_of sign)) (due_of next))
        (spot_of found.now) result }
{
    if is_sign(sign, found) {
        Ok(next)
    } else {
        Err(refused(found))
    }
}

/// A literal with a sign or none, or what may stand in its place.
fn signed(alloc: Global, slot: Slot, found: &Placed) -> Result<Due, ExprFault>
    ensures { Moves (machine.Signed (slot_of slot)) (spot_of found.now) result }
{
    match found.token {
        Token::Int(n) => Ok(filled_int(slot, n as i32)),
        Token::Long(n) => filled_long(slot, n as i64, found),
        Token::Point(d) => filled_point(slot, d, found),
        Token::Operator(Binary::Sub) => Ok(Due::Minus(slot)),
        _ => other(alloc, slot, found),
    }
}

/// A literal after a `-`.
fn minus(slot: Slot, found: &Placed) -> Result<Due, ExprFault>
    ensures { Moves (machine.Minus (slot_of slot)) (spot_of found.now) result }
{
    match found.token {
        Token::Int(n) => Ok(filled_int(slot, -(n as i32))),
        Token::Long(n) => filled_long(slot, -(n as i64), found),
        Token::Point(d) => filled_point(slot, d.neg(), found),
        _ => Err(refused(found)),
    }
}

/// A literal of `int` in its place.
fn filled_int(slot: Slot, i: i32) -> Due
    ensures { filled (slot_of slot) (whole i) ≡ Some (due_of result) }
{
    match slot {
        Slot::Line => Due::Done(Literal::Int(i)),
        Slot::Value(room) => Due::ValueInt(i, room),
        Slot::New(room) => Due::Close(int(i), room),
    }
}

/// A literal of `long` in its place.
fn filled_long(slot: Slot, i: i64, found: &Placed) -> Result<Due, ExprFault>
    ensures { GivesNext (filled (slot_of slot) (long_leaf i))
        (refusal_at syntax found.now.at) result }
{
    match slot {
        Slot::Line => Ok(Due::Done(Literal::Long(i))),
        Slot::Value(_) | Slot::New(_) => Err(ExprFault::Syntax { at: found.at }),
    }
}

/// A literal with a point in its place.
fn filled_point(slot: Slot, d: Dec, found: &Placed) -> Result<Due, ExprFault>
    ensures { GivesNext (filled (slot_of slot) (point_leaf d))
        (refusal_at (point_cause (machine.Signed (slot_of slot))) found.now.at) result }
{
    match slot {
        Slot::Line => Ok(Due::Done(Literal::Point(d))),
        Slot::Value(room) => Ok(Due::ValuePoint(d, room)),
        Slot::New(_) => Err(ExprFault::BinaryFraction { at: found.at }),
    }
}

/// What may stand in the place of a literal.
fn other(alloc: Global, slot: Slot, found: &Placed) -> Result<Due, ExprFault>
    ensures { GivesNext (other_step (slot_of slot) (token_of found.now.token))
        (refusal_at (plain_cause (token_of found.now.token)) found.now.at) result }
{
    match slot {
        Slot::Line if is_sign(Sign::OpenTable, found) => Ok(Due::Item(Vec::new(alloc))),
        Slot::Line => big(Room::Alone, found),
        Slot::Value(_) => Err(refused(found)),
        Slot::New(room) => match found.token {
            Token::Quoted(d) => Ok(Due::Close(d, room)),
            _ => Err(refused(found)),
        },
    }
}

/// The word that begins a decimal.
fn big(room: Room, found: &Placed) -> Result<Due, ExprFault>
    ensures { GivesNext (big_of (room_of room) (token_of found.now.token))
        (refusal_at (plain_cause (token_of found.now.token)) found.now.at) result }
{
    match keyword(found) {
        Some(Keyword::BigDecimal) => Ok(Due::ClassPoint(room)),
        Some(Keyword::New) => Ok(Due::NewClass(room)),
        _ => Err(refused(found)),
    }
}

/// `BigDecimal`, after `new`.
#[tactic(auto, using(crate::proofs::WordLemmas::no_class))]
fn new_class(room: Room, found: &Placed) -> Result<Due, ExprFault>
    ensures { Moves (due_of (NewClass room)) (spot_of found.now) result }
{
    match keyword(found) {
        Some(Keyword::BigDecimal) => Ok(Due::NewOpen(room)),
        _ => Err(refused(found)),
    }
}

/// The word after `BigDecimal` and a point.
fn constant(room: Room, found: &Placed) -> Result<Due, ExprFault>
    ensures { Moves (machine.Settling (room_of room)) (spot_of found.now) result }
{
    let Token::Name(word) = found.token else {
        return Err(refused(found));
    };
    match static_of(word) {
        Some(Static::Known(known)) => settle(room, known.value()),
        Some(Static::ValueOf) => Ok(Due::ValueOpen(room)),
        None => Err(foreign(word, found)),
    }
}

/// A decimal is read.
fn settle(room: Room, d: Dec) -> Result<Due, ExprFault>
    ensures settled { IfOk result (λ s. due_of s ≡ settled (room_of room) d) }
    ensures memory { IfErr result (λ e. e ≡ Memory) }
{
    match room {
        Room::Alone => Ok(Due::Done(Literal::Big(d))),
        Room::Table(mut items) => {
            items.push(d)?;
            Ok(Due::AfterItem(items))
        }
    }
}

/// What follows a literal of `int` in `BigDecimal.valueOf`.
fn value_int(i: i32, room: Room, found: &Placed) -> Result<Due, ExprFault>
    ensures { Moves (machine.ValuedInt i (room_of room)) (spot_of found.now) result }
{
    if is_sign(Sign::Comma, found) {
        return Ok(Due::Scale(i, room));
    }
    close(int(i), room, found)
}

/// The bracket after a literal with a point in `BigDecimal.valueOf`.
fn value_point(d: Dec, room: Room, found: &Placed) -> Result<Due, ExprFault>
    ensures { Moves (machine.ValuedPoint d (room_of room)) (spot_of found.now) result }
{
    match shortened(d) {
        Some(short) => close(short, room, found),
        None => Err(refused(found)),
    }
}

/// The scale of a whole number.
fn scale(i: i32, room: Room, found: &Placed) -> Result<Due, ExprFault>
    ensures { Moves (machine.ScaleDue (machine.declaring i (room_of room)))
        (spot_of found.now) result }
{
    match found.token {
        Token::Int(places) if places <= MOST_PLACES as u32 => {
            Ok(Due::Close(Dec::new(i as i128, places as u8), room))
        }
        Token::Int(_) => Err(ExprFault::Number { at: found.at }),
        _ => Err(refused(found)),
    }
}

/// The bracket after which a decimal is read.
fn close(d: Dec, room: Room, found: &Placed) -> Result<Due, ExprFault>
    ensures { (n : ℕ) →
        Moves (machine.Due n (pure.Mark pure.Close) (settled (room_of room) d))
        (spot_of found.now) result }
{
    if is_sign(Sign::Close, found) {
        settle(room, d)
    } else {
        Err(refused(found))
    }
}

/// A comma or the end of a table.
fn after_item(items: Vec<Dec>, found: &Placed) -> Result<Due, ExprFault>
    ensures { Moves (machine.Listed items.items) (spot_of found.now) result }
{
    if is_sign(Sign::Comma, found) {
        Ok(Due::Item(items))
    } else if is_sign(Sign::CloseTable, found) {
        Ok(Due::Done(Literal::Table(items)))
    } else {
        Err(refused(found))
    }
}

/// A whole number as a decimal.
fn int(i: i32) -> Dec
    ensures { result ≡ decimal i 0 }
{
    Dec::new(i as i128, 0)
}

/// A decimal without the zeros that end it, down to one place: what `valueOf` makes of a literal with a point. None
/// where it has no places.
fn shortened(d: Dec) -> Option<Dec>
    ensures { MatchOption result (shortened_places d ≡ None) (λ e. shortened_places d ≡ Some e) }
{
    if d.scale() == 0 {
        return None;
    }
    Some(d.shortened(1))
}
