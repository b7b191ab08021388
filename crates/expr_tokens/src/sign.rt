//! The operators and signs that stand first in a text.
ghost use Rattle.std.specs.Prelude.{◌≡◌, true, [], ◌∷◌, MatchOption};
ghost use Rattle.pap_tree.specs.Words.{operator_text};
ghost use Rattle.expr_tokens.specs.Spots.{token_of};
ghost use Rattle.expr_tokens.specs.private.Views.{Begins, is_sign_byte, IsSingle, IsNoPair};

use crate::token::{Sign, Token};
use pap_tree::Binary;

/// The operator or sign that begins with a byte that stands before a text, and what follows it. Where there is none, the
/// byte alone isn't a token.
pub(crate) fn split_sign(first: u8, bytes: &[u8]) -> (Token, &[u8])
    requires { is_sign_byte first ≡ true }
    ensures { Begins (first ∷ bytes.now) (token_of result.0) result.1.now }
{
    let Some((second, rest)) = bytes.split_first() else {
        return (sign_of_one(first), bytes);
    };
    match operator_of_two(first, *second) {
        Some(operator) => (Token::Operator(operator), rest),
        None => (sign_of_one(first), bytes),
    }
}

/// The operator of two bytes.
fn operator_of_two(first: u8, second: u8) -> Option<Binary>
    ensures { MatchOption result (IsNoPair first second)
        (λ o. operator_text o ≡ first ∷ second ∷ []) }
{
    match (first, second) {
        (b'<', b'=') => Some(Binary::LessEq),
        (b'>', b'=') => Some(Binary::MoreEq),
        (b'=', b'=') => Some(Binary::Same),
        (b'!', b'=') => Some(Binary::Differs),
        (b'&', b'&') => Some(Binary::And),
        (b'|', b'|') => Some(Binary::Or),
        _ => None,
    }
}

/// The operator or sign of one byte.
fn sign_of_one(byte: u8) -> Token
    requires { is_sign_byte byte ≡ true }
    ensures { IsSingle byte (token_of result) }
{
    match byte {
        b'*' => Token::Operator(Binary::Mul),
        b'/' => Token::Operator(Binary::Div),
        b'%' => Token::Operator(Binary::Rem),
        b'+' => Token::Operator(Binary::Plus),
        b'-' => Token::Operator(Binary::Sub),
        b'<' => Token::Operator(Binary::Less),
        b'>' => Token::Operator(Binary::More),
        b'=' => Token::Mark(Sign::Equals),
        b'!' => Token::Mark(Sign::Bang),
        b'?' => Token::Mark(Sign::Question),
        b':' => Token::Mark(Sign::Colon),
        b'.' => Token::Mark(Sign::Dot),
        b',' => Token::Mark(Sign::Comma),
        b';' => Token::Mark(Sign::Semicolon),
        b'(' => Token::Mark(Sign::Open),
        b')' => Token::Mark(Sign::Close),
        b'[' => Token::Mark(Sign::OpenItem),
        b']' => Token::Mark(Sign::CloseItem),
        b'{' => Token::Mark(Sign::OpenTable),
        b'}' => Token::Mark(Sign::CloseTable),
        _ => Token::Alien,
    }
}
