//! An expression's text in pieces: its tokens, with the spaces between them and the places where a line may break.
use expr_tokens::{Keyword, Placed, Sign, Token, read_tokens};
use pap_tree::levels::{self, level_of_operator};
use pap_tree::{Binary, is_white};
use std::alloc::{AllocError, Global};

/// How ill a break would be: the open brackets, then how tight its operator is, which is one more than its level in the grammar
/// (`pap_tree::levels`): 0 is a comma.
#[derive(Clone, Copy, PartialEq, PartialOrd)]
pub struct Weight {
    pub brackets: usize,
    pub tightness: u8,
}

/// The tightness of a break before a call's point.
pub(crate) const CALL: u8 = levels::CALL + 1;

/// The tightness of a break behind the sign of an assignment: above all others.
const ASSIGNMENT: u8 = levels::PRIMARY + 1;

/// A token of a text.
#[derive(Clone, Copy)]
pub struct Piece {
    /// Its first byte in the text, and the one behind it.
    pub start: usize,
    pub end: usize,
    /// How many characters it has.
    pub chars: usize,
    /// A space stands before it, where it doesn't begin a line.
    pub is_spaced: bool,
    /// It only says where a name comes from, as `BigDecimal.`.
    pub is_qualifier: bool,
    /// A line may break before it.
    pub cut: Option<Weight>,
    /// The brackets that are open before it.
    pub brackets: usize,
}

/// The pieces of a text.
pub(crate) fn read_pieces(alloc: Global, text: &[u8]) -> Result<Vec<Piece>, AllocError> {
    let tokens = read_tokens(alloc, text)?;
    pieces_of(alloc, text, &tokens)
}

/// The pieces of a text with these tokens.
fn pieces_of(alloc: Global, text: &[u8], tokens: &[Placed]) -> Result<Vec<Piece>, AllocError> {
    let mut pieces = Vec::new(alloc);
    let mut brackets: usize = 0;
    let mut before = Before::Nothing;
    for (i, placed) in tokens.iter().enumerate() {
        let token = &placed.token;
        let rest = tokens.get(i + 1..).unwrap_or(&[]);
        if closes(token) {
            brackets = brackets.saturating_sub(1);
        }
        let role = role_of(token, before);
        let piece = piece_at(text, placed.at, rest);
        pieces.push(Piece {
            is_spaced: is_spaced(before, role),
            is_qualifier: is_qualifier(token, before, rest),
            cut: tightness(token, before, role).map(|tightness| Weight {
                brackets,
                tightness,
            }),
            brackets,
            ..piece
        })?;
        if opens(token) {
            brackets = brackets.saturating_add(1);
        }
        before = role;
    }
    Ok(pieces)
}

/// What a token is for those beside it.
#[derive(Clone, Copy, PartialEq)]
enum Before {
    Nothing,
    /// A name, a number or a keyword other than the next.
    Word,
    /// `BigDecimal` or `RoundingMode`.
    Class,
    /// An operator between two operands, or `?` or `:`.
    Between,
    Equals,
    Comma,
    /// A closing bracket.
    Close,
    /// A prefix operator, an opening bracket, a point or another sign.
    Sign,
}

/// What a token is, behind another.
fn role_of(token: &Token, before: Before) -> Before {
    match token {
        Token::Keyword(Keyword::BigDecimal | Keyword::RoundingMode) => Before::Class,
        Token::Int(_)
        | Token::Long(_)
        | Token::Point(_)
        | Token::Quoted(_)
        | Token::Beyond
        | Token::Name(_)
        | Token::Keyword(Keyword::New) => Before::Word,
        Token::Operator(Binary::Sub) if !ends_operand(before) => Before::Sign,
        Token::Operator(_) => Before::Between,
        Token::Mark(Sign::Question | Sign::Colon) => Before::Between,
        Token::Mark(Sign::Equals) => Before::Equals,
        Token::Mark(Sign::Comma) => Before::Comma,
        Token::Mark(Sign::Close | Sign::CloseItem | Sign::CloseTable) => Before::Close,
        Token::Mark(_) | Token::Alien => Before::Sign,
    }
}

/// Whether an operand may end with a token, so that a `-` behind it is no prefix.
fn ends_operand(before: Before) -> bool {
    matches!(before, Before::Word | Before::Class | Before::Close)
}

/// Whether a space stands between two tokens.
fn is_spaced(before: Before, role: Before) -> bool {
    match (before, role) {
        (Before::Nothing, _) => false,
        (Before::Between | Before::Equals | Before::Comma, _) => true,
        (_, Before::Between | Before::Equals) => true,
        (Before::Word | Before::Class, Before::Word | Before::Class) => true,
        _ => false,
    }
}

/// Whether a token only says where a name comes from.
fn is_qualifier(token: &Token, before: Before, rest: &[Placed]) -> bool {
    match token {
        Token::Keyword(Keyword::New) => matches!(
            rest,
            [
                Placed {
                    token: Token::Keyword(Keyword::BigDecimal),
                    ..
                },
                Placed {
                    token: Token::Mark(Sign::Open),
                    ..
                },
                ..
            ]
        ),
        Token::Keyword(_) => {
            matches!(
                rest,
                [
                    Placed {
                        token: Token::Mark(Sign::Dot),
                        ..
                    },
                    ..
                ]
            ) || before == Before::Word
        }
        Token::Mark(Sign::Dot) => before == Before::Class,
        _ => false,
    }
}

/// How tight a break before a token would be. `None` where no line may break.
fn tightness(token: &Token, before: Before, role: Before) -> Option<u8> {
    match before {
        Before::Nothing => return None,
        Before::Comma => return Some(0),
        Before::Equals => return Some(ASSIGNMENT),
        _ => {}
    }
    match token {
        Token::Operator(_) if role == Before::Sign => None,
        Token::Operator(operator) => Some(level_of_operator(*operator).saturating_add(1)),
        Token::Mark(Sign::Question | Sign::Colon) => Some(levels::CONDITIONAL + 1),
        Token::Mark(Sign::Dot) if before != Before::Class => Some(CALL),
        _ => None,
    }
}

fn opens(token: &Token) -> bool {
    matches!(
        token,
        Token::Mark(Sign::Open | Sign::OpenItem | Sign::OpenTable)
    )
}

fn closes(token: &Token) -> bool {
    matches!(
        token,
        Token::Mark(Sign::Close | Sign::CloseItem | Sign::CloseTable)
    )
}

/// The bytes of the token at a place, with others behind it.
fn piece_at(text: &[u8], start: usize, rest: &[Placed]) -> Piece {
    let next = match rest {
        [placed, ..] => placed.at,
        [] => text.len(),
    };
    let whole = text.get(start..next).unwrap_or(&[]);
    let white = whole
        .iter()
        .rev()
        .take_while(|byte| is_white(**byte))
        .count();
    let end = next.saturating_sub(white);
    Piece {
        start,
        end,
        chars: count_chars(text.get(start..end).unwrap_or(&[])),
        is_spaced: false,
        is_qualifier: false,
        cut: None,
        brackets: 0,
    }
}

/// How many characters begin in some bytes of UTF-8.
pub(crate) fn count_chars(text: &[u8]) -> usize {
    text.iter()
        .filter(|byte| !(0x80..=0xBF).contains(*byte))
        .count()
}
