//! The words that stand first in a text.
ghost use Rattle.std.specs.Prelude.{◌≡◌, ◌≤◌, true, false, take, length, MatchOption};
ghost use Rattle.std.specs.List.{prefix_len};
ghost use Rattle.pap_tree.specs.Names.{is_letter, is_word, is_reserved};
ghost use Rattle.pap_tree.specs.Tokens.{Word, is_word_text};
ghost use Rattle.expr_tokens.specs.Spots.{keyword_text, token_of};
ghost use Rattle.expr_tokens.specs.private.Views.{Begins, First};

use crate::token::{Keyword, Token};
use pap_tree::{Name, is_word};

/// The most bytes of a word.
const MOST_BYTES: usize = 32;

/// The word that stands first, and what follows it.
pub(crate) fn split_word(bytes: &[u8]) -> (Token, &[u8])
    requires { First is_letter bytes.now }
    ensures { Begins bytes.now (token_of result.0) result.1.now }
{
    let (word, rest) = bytes.split_at(word_len(bytes));
    (word_token(word), rest)
}

/// How many bytes of a word stand first, at most 32.
fn word_len(bytes: &[u8]) -> usize
    ensures count { result ≡ prefix_len is_word (take 32 bytes.now) }
    ensures within { result ≤ length bytes.now }
{
    bytes
        .iter()
        .take(MOST_BYTES)
        .take_while(|b| is_word(**b))
        .count()
}

/// The keyword or name that a word is.
fn word_token(word: &[u8]) -> Token
    requires { is_word_text word.now ≡ true }
    ensures { token_of result ≡ Word word.now }
{
    match keyword(word) {
        Some(keyword) => Token::Keyword(keyword),
        None => Token::Name(Name::read(word).unwrap()),
    }
}

/// The keyword that a word is.
fn keyword(word: &[u8]) -> Option<Keyword>
    ensures { MatchOption result (is_reserved word.now ≡ false) (λ k. keyword_text k ≡ word.now) }
{
    match word {
        b"new" => Some(Keyword::New),
        b"BigDecimal" => Some(Keyword::BigDecimal),
        b"RoundingMode" => Some(Keyword::RoundingMode),
        _ => None,
    }
}
