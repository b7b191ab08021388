//! The steps of the reading that leave the stack as it is.

ghost use Rattle.std.specs.Prelude.{◌≡◌, ℕ, List, IsTrue, None, MatchOption};
ghost use Rattle.pap_tree.specs.Names.{is_name};
ghost use Rattle.pap_tree.specs.Term.{term_of};
ghost use Rattle.pap_tree.specs.Tokens as pure;
ghost use Rattle.pap_tree.specs.Stopping.{unsupported};
ghost use Rattle.expr_tokens.specs.Spots.{token_of, spot_of, sign_of, keyword_text};
ghost use Rattle.expr_grammar.specs.Machine as machine;
ghost use Rattle.expr_grammar.specs.Machine.{Frame as Waiting};
ghost use Rattle.expr_grammar.specs.Run.{refusal_at, cause_of};
ghost use Rattle.pap_expr.specs.declared.state.State.TheVariants as states;
ghost use Rattle.pap_expr.specs.private.Views.{plain_cause, refusal_of, holder_view, IsNoKeyword};
ghost use Rattle.pap_expr.specs.private.States.{state_of, rounded_of, job_of};
ghost use Rattle.pap_expr.specs.private.Steps.{Steps};

use crate::fault::ExprFault;
use crate::state::{Rounded, Scaled, State};
use crate::words::{Holder, Static, method_of, mode_of, static_of};
use expr_tokens::{Keyword, Placed, Sign, Token};
use pap_tree::levels::{self, level_of_operator};
use pap_tree::{Expr, Name};
use scaled_decimal::MOST_PLACES;

/// The fault of a token that isn't allowed where it stands.
pub(crate) fn refused(found: &Placed) -> ExprFault
    ensures { refusal_of result ≡ refusal_at (plain_cause (token_of found.now.token)) found.now.at }
{
    match found.token {
        Token::Beyond => ExprFault::Number { at: found.at },
        _ => ExprFault::Syntax { at: found.at },
    }
}

/// The fault of a name that Java has behind a point and the profile doesn't. The word is given so that the proof learns
/// that it is a name.
pub(crate) fn foreign(word: Name, found: &Placed) -> ExprFault
    ensures unsupported { refusal_of result ≡ refusal_at unsupported found.now.at }
    ensures named { IsTrue (is_name word) }
{
    ExprFault::Unsupported { at: found.at }
}

/// The word of the language that a token is.
pub(crate) fn keyword(found: &Placed) -> Option<Keyword>
    ensures { MatchOption result (IsNoKeyword (token_of found.now.token))
        (λ k. token_of found.now.token ≡ pure.Word (keyword_text k)) }
{
    match found.token {
        Token::Keyword(keyword) => Some(keyword),
        Token::Name(word) => no_keyword(word),
        _ => None,
    }
}

/// A name is none. A function of its own, so that the proof learns that the word is a name.
fn no_keyword(word: Name) -> Option<Keyword>
    ensures named { IsTrue (is_name word) }
    ensures none { result ≡ None }
{
    None
}

/// Whether a token is the sign.
pub(crate) fn is_sign(sign: Sign, found: &Placed) -> bool
    ensures { result ≡ machine.same_token (pure.Mark (sign_of sign)) (token_of found.now.token) }
{
    match found.token {
        Token::Mark(mark) => mark == sign,
        _ => false,
    }
}

/// The state after a sign that is due.
pub(crate) fn due(sign: Sign, next: State, found: &Placed) -> Result<State, ExprFault>
    ensures { (n : ℕ) (k : List Waiting) →
        Steps (machine.Due n (pure.Mark (sign_of sign)) (state_of next k))
        (spot_of found.now) k result }
{
    if is_sign(sign, found) {
        Ok(next)
    } else {
        Err(refused(found))
    }
}

/// How tightly a token binds the expression before it.
pub(crate) fn tightness(token: Token) -> u8
    ensures { result ≡ machine.tightness (token_of token) }
{
    match token {
        Token::Operator(operator) => level_of_operator(operator),
        Token::Mark(sign) => match sign {
            Sign::Question => levels::OR,
            Sign::Dot => levels::CALL,
            Sign::OpenItem => levels::PRIMARY + 1,
            _ => levels::CONDITIONAL,
        },
        _ => levels::CONDITIONAL,
    }
}

/// The word after `BigDecimal` and a point.
pub(crate) fn after_class(found: &Placed) -> Result<State, ExprFault>
    ensures { (k : List Waiting) → Steps (machine.Static k) (spot_of found.now) k result }
{
    let Token::Name(word) = found.token else {
        return Err(refused(found));
    };
    match static_of(word) {
        Some(Static::Known(known)) => Ok(State::After(Expr::Known(known))),
        Some(Static::ValueOf) => Ok(State::ValueOpen),
        None => Err(foreign(word, found)),
    }
}

/// `BigDecimal`, after `new`.
#[tactic(auto, using(crate::proofs::WordLemmas::no_class))]
pub(crate) fn after_new(found: &Placed) -> Result<State, ExprFault>
    ensures { (k : List Waiting) → Steps (state_of states.NewClass k) (spot_of found.now) k result }
{
    match keyword(found) {
        Some(Keyword::BigDecimal) => Ok(State::NewOpen),
        _ => Err(refused(found)),
    }
}

/// A method's word.
pub(crate) fn member(receiver: Expr, found: &Placed) -> Result<State, ExprFault>
    ensures { (k : List Waiting)
        → Steps (machine.Member (term_of receiver) k) (spot_of found.now) k result }
{
    let Token::Name(word) = found.token else {
        return Err(refused(found));
    };
    match method_of(word) {
        Some(method) => Ok(State::CallOpen(method, receiver)),
        None => Err(foreign(word, found)),
    }
}

/// A scale.
pub(crate) fn scale(scaled: Scaled, found: &Placed) -> Result<State, ExprFault>
    ensures { (k : List Waiting)
        → Steps (machine.ScaleDue (job_of scaled k)) (spot_of found.now) k result }
{
    match found.token {
        Token::Int(places) if places <= MOST_PLACES as u32 => Ok(match scaled {
            Scaled::Value(number) => State::Close(Expr::ValueOfScaled(number, places as u8)),
            Scaled::Rounded(rounded) => State::Comma(rounded, places as u8),
        }),
        Token::Int(_) => Err(ExprFault::Number { at: found.at }),
        _ => Err(match keyword(found) {
            Some(keyword) => refused_class(scaled, keyword, found),
            None => refused(found),
        }),
    }
}

/// The fault of a word in the place of a scale, which may not be left out before the mode.
fn refused_class(scaled: Scaled, keyword: Keyword, found: &Placed) -> ExprFault
    ensures { (k : List Waiting) → refusal_of result ≡ refusal_at
        (cause_of (machine.ScaleDue (job_of scaled k)) (pure.Word (keyword_text keyword)))
        found.now.at }
{
    match (scaled, keyword) {
        (_, Keyword::New) => ExprFault::Syntax { at: found.at },
        (Scaled::Rounded(Rounded::Quotient(_, _)), _) => ExprFault::Unsupported { at: found.at },
        _ => ExprFault::Syntax { at: found.at },
    }
}

/// The comma after a scale. Java takes a new scale without a mode too.
pub(crate) fn comma(rounded: Rounded, scale: u8, found: &Placed) -> Result<State, ExprFault>
    ensures { (k : List Waiting)
        → Steps (machine.Parting (rounded_of rounded) scale k) (spot_of found.now) k result }
{
    if is_sign(Sign::Comma, found) {
        return Ok(State::Mode(rounded, scale));
    }
    match rounded {
        Rounded::Setting(_) if is_sign(Sign::Close, found) => {
            Err(ExprFault::Unsupported { at: found.at })
        }
        _ => Err(refused(found)),
    }
}

/// The class of a rounding mode.
pub(crate) fn mode(rounded: Rounded, scale: u8, found: &Placed) -> Result<State, ExprFault>
    ensures { (k : List Waiting)
        → Steps (machine.Moding (rounded_of rounded) scale k) (spot_of found.now) k result }
{
    let holder = match keyword(found) {
        Some(Keyword::BigDecimal) => Holder::BigDecimal,
        Some(Keyword::RoundingMode) => Holder::RoundingMode,
        _ => return Err(refused(found)),
    };
    Ok(State::ModePoint(holder, rounded, scale))
}

/// The word of a rounding mode.
pub(crate) fn mode_word(
    holder: Holder,
    rounded: Rounded,
    scale: u8,
    found: &Placed,
) -> Result<State, ExprFault>
    ensures { (k : List Waiting) →
        Steps (machine.Moded (holder_view holder) (rounded_of rounded) scale k)
        (spot_of found.now) k result }
{
    let Token::Name(word) = found.token else {
        return Err(refused(found));
    };
    match mode_of(holder, word) {
        Some(mode) => Ok(State::Close(match rounded {
            Rounded::Quotient(dividend, divisor) => Expr::Divide(dividend, divisor, scale, mode),
            Rounded::Setting(value) => Expr::SetScale(value, scale, mode),
        })),
        None => Err(foreign(word, found)),
    }
}
