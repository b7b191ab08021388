//! Where the tokens of an expression stand in its text.
use expr_tokens::{Placed, Sign, Token, read_tokens};
use pap_tree::{Name, is_word};
use std::alloc::{AllocError, Global};

/// The byte of a text at which a name stands first, and not behind a point.
pub(crate) fn name_byte(
    alloc: Global,
    text: &[u8],
    name: &Name,
) -> Result<Option<usize>, AllocError> {
    let tokens = read_tokens(alloc, text)?;
    for (i, found) in tokens.iter().enumerate() {
        if let Token::Name(other) = found.token
            && other == *name
            && !stands_behind(&tokens, i, Sign::Dot)
        {
            return Ok(Some(found.at));
        }
    }
    Ok(None)
}

/// As what the text of an expression is read.
#[derive(Clone, Copy, PartialEq, Eq)]
pub(crate) enum Form {
    /// The assignment of an EVAL.
    Assignment,
    /// The test of an IF.
    Test,
    /// The literal of a declaration.
    Literal,
}

/// Where the text of an expression isn't read on.
#[derive(Clone, Copy)]
pub(crate) struct Stop<'a> {
    pub form: Form,
    pub text: &'a [u8],
    pub tokens: &'a [Placed],
    /// The byte of the text.
    pub at: usize,
    /// The number of the token there, from 0; at the end of the text how many there are.
    pub number: usize,
}

impl<'a> Stop<'a> {
    /// The stop at a byte of a text with these tokens.
    pub(crate) fn new(form: Form, text: &'a [u8], tokens: &'a [Placed], at: usize) -> Stop<'a> {
        let number = tokens.iter().position(|found| found.at == at);
        Stop {
            form,
            text,
            tokens,
            at,
            number: number.unwrap_or(tokens.len()),
        }
    }

    /// The token there. `None` at the end of the text.
    pub(crate) fn token(&self) -> Option<Token> {
        self.token_before(0)
    }

    /// The token that stands so many tokens before it.
    pub(crate) fn token_before(&self, count: usize) -> Option<Token> {
        let number = self.number.checked_sub(count)?;
        token_of(self.tokens, number)
    }

    /// Whether a sign stands so many tokens before it.
    pub(crate) fn has_mark_before(&self, count: usize, sign: Sign) -> bool {
        match self.number.checked_sub(count) {
            Some(number) => is_mark(self.tokens, number, sign),
            None => false,
        }
    }

    /// The byte before it.
    pub(crate) fn byte_before(&self) -> Option<u8> {
        byte_of(self.text, self.at.checked_sub(1)?)
    }

    /// The byte there.
    pub(crate) fn byte(&self) -> Option<u8> {
        byte_of(self.text, self.at)
    }

    /// The byte behind that.
    pub(crate) fn byte_behind(&self) -> Option<u8> {
        byte_of(self.text, self.at.checked_add(1)?)
    }

    /// The call in whose bracket it stands, where that is the innermost one that is open.
    pub(crate) fn call(&self) -> Option<OpenCall> {
        open_call(self.tokens, self.number)
    }

    /// The innermost bracket that is open there: `(`, `[` or `{`.
    pub(crate) fn bracket(&self) -> Option<Sign> {
        open_bracket(self.tokens, self.number)
    }

    /// Whether a `?` lacks its `:` within that bracket.
    pub(crate) fn lacks_colon(&self) -> bool {
        lacks_colon(self.tokens, self.number)
    }
}

/// A call whose bracket is open.
#[derive(Clone, Copy)]
pub(crate) struct OpenCall {
    /// The word before its bracket.
    pub word: Name,
    /// The number of that word among the tokens.
    pub number: usize,
    /// How many commas its bracket has so far.
    pub commas: usize,
}

/// The call whose bracket is the innermost that is open before a token.
pub(crate) fn open_call(tokens: &[Placed], end: usize) -> Option<OpenCall> {
    let mut closed = 0usize;
    let mut commas = 0usize;
    for number in (0..end).rev() {
        if is_mark(tokens, number, Sign::Close) {
            closed = closed.saturating_add(1);
        } else if is_mark(tokens, number, Sign::Open) {
            if closed == 0 {
                return call_before(tokens, number, commas);
            }
            closed = closed.saturating_sub(1);
        } else if closed == 0 && is_mark(tokens, number, Sign::Comma) {
            commas = commas.saturating_add(1);
        }
    }
    None
}

/// The call of the word before a bracket, which has so many commas.
fn call_before(tokens: &[Placed], bracket: usize, commas: usize) -> Option<OpenCall> {
    let number = bracket.checked_sub(1)?;
    let word = name_at(tokens, number)?;
    Some(OpenCall {
        word,
        number,
        commas,
    })
}

/// The innermost bracket that is open before a token.
fn open_bracket(tokens: &[Placed], end: usize) -> Option<Sign> {
    let mut closed = 0usize;
    for number in (0..end).rev() {
        match sign_at(tokens, number) {
            Some(sign) if closes(sign) => closed = closed.saturating_add(1),
            Some(sign) if opens(sign) && closed == 0 => return Some(sign),
            Some(sign) if opens(sign) => closed = closed.saturating_sub(1),
            _ => {}
        }
    }
    None
}

/// Whether a `?` lacks its `:` before a token, within the innermost bracket that is open there.
fn lacks_colon(tokens: &[Placed], end: usize) -> bool {
    let mut closed = 0usize;
    let mut colons = 0usize;
    for number in (0..end).rev() {
        match sign_at(tokens, number) {
            Some(sign) if closes(sign) => closed = closed.saturating_add(1),
            Some(sign) if opens(sign) && closed == 0 => return false,
            Some(sign) if opens(sign) => closed = closed.saturating_sub(1),
            Some(Sign::Colon) if closed == 0 => colons = colons.saturating_add(1),
            Some(Sign::Question) if closed == 0 && colons == 0 => return true,
            Some(Sign::Question) if closed == 0 => colons = colons.saturating_sub(1),
            _ => {}
        }
    }
    false
}

/// Whether a sign opens a bracket.
fn opens(sign: Sign) -> bool {
    matches!(sign, Sign::Open | Sign::OpenItem | Sign::OpenTable)
}

/// Whether a sign closes a bracket.
fn closes(sign: Sign) -> bool {
    matches!(sign, Sign::Close | Sign::CloseItem | Sign::CloseTable)
}

/// The sign that the token of a number is.
fn sign_at(tokens: &[Placed], number: usize) -> Option<Sign> {
    match token_of(tokens, number)? {
        Token::Mark(sign) => Some(sign),
        _ => None,
    }
}

/// The name that the token of a number is.
pub(crate) fn name_at(tokens: &[Placed], number: usize) -> Option<Name> {
    match token_of(tokens, number)? {
        Token::Name(name) => Some(name),
        _ => None,
    }
}

/// The token of a number.
pub(crate) fn token_of(tokens: &[Placed], number: usize) -> Option<Token> {
    match tokens.get(number) {
        Some(found) => Some(found.token),
        None => None,
    }
}

/// The byte at a place of a text.
fn byte_of(text: &[u8], at: usize) -> Option<u8> {
    text.get(at).copied()
}

/// Whether a sign stands right before a token.
fn stands_behind(tokens: &[Placed], at: usize, sign: Sign) -> bool {
    match at.checked_sub(1) {
        Some(before) => is_mark(tokens, before, sign),
        None => false,
    }
}

/// Whether a token is a sign.
pub(crate) fn is_mark(tokens: &[Placed], at: usize, sign: Sign) -> bool {
    match tokens.get(at) {
        Some(found) => match found.token {
            Token::Mark(other) => other == sign,
            _ => false,
        },
        None => false,
    }
}

/// Whether a word goes on there.
pub(crate) fn goes_on_with_word(stop: &Stop<'_>) -> bool {
    is_of_word(stop.byte_before()) && is_of_word(stop.byte())
}

/// Whether a byte belongs to a word.
fn is_of_word(byte: Option<u8>) -> bool {
    match byte {
        Some(byte) => is_word(byte),
        None => false,
    }
}

/// Whether an operand may end with a token.
pub(crate) fn ends_operand(token: Token) -> bool {
    match token {
        Token::Int(_) | Token::Long(_) | Token::Point(_) | Token::Quoted(_) | Token::Name(_) =>
            true,
        Token::Mark(Sign::Close | Sign::CloseItem) => true,
        _ => false,
    }
}

/// Whether an operand may begin with a token.
pub(crate) fn begins_operand(token: Token) -> bool {
    match token {
        Token::Int(_) | Token::Long(_) | Token::Point(_) | Token::Quoted(_) | Token::Name(_) =>
            true,
        Token::Keyword(_) | Token::Mark(Sign::Open) => true,
        _ => false,
    }
}
