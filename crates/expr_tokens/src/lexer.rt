//! From bytes to tokens.
ghost use Rattle.std.specs.Prelude.{◌≡◌, ◌≤◌, ℕ, List, [], length, IfOk, MatchOption};
ghost use Rattle.std.specs.List.{prefix_len};
ghost use Rattle.pap_tree.specs.White.{is_white};
ghost use Rattle.pap_tree.specs.Tokens.{Spot, Tokens};
ghost use Rattle.expr_tokens.specs.Spots.{token_of, spots_of};
ghost use Rattle.expr_tokens.specs.private.Views.{Begins, Stops, IsLongest};

use crate::number::{split_number, split_quoted};
use crate::sign::split_sign;
use crate::token::{Placed, Token};
use crate::word::split_word;
use pap_tree::{is_white, is_word};
use std::alloc::{AllocError, Global};

/// The tokens of an expression's text, each with its place: from the left, each as long as can be, with white space
/// between them.
pub fn read_tokens(alloc: Global, text: &[u8]) -> Result<Vec<Placed>, AllocError>
    ensures { IfOk result (λ v. Tokens 0 text.now (spots_of v.items)) }
{
    let mut tokens = Vec::new(alloc);
    let mut rest = skip_white(text);
    while let Some((token, after)) = split_token(rest) {
        let at = text.len() - rest.len();
        tokens.push(Placed { token, at })?;
        rest = skip_white(after);
    }
    Ok(tokens)
}

/// A law, with nothing to run: each text has one list of tokens and no other.
pub fn each_text_has_one_list_of_tokens()
    ensures always { (text : List ℕ) → (ts : List Spot) × Tokens 0 text ts }
    ensures one { (text : List ℕ) (ts us : List Spot) →
        Tokens 0 text ts → Tokens 0 text us → ts ≡ us }
{}

/// What follows the white space that stands first.
fn skip_white(bytes: &[u8]) -> &[u8]
    ensures { (white : List ℕ) × IsLongest is_white bytes.now white result.now }
{
    let (_, rest) = bytes.split_at(white_len(bytes));
    rest
}

/// How many bytes of white space stand first.
fn white_len(bytes: &[u8]) -> usize
    ensures count { result ≡ prefix_len is_white bytes.now }
    ensures within { result ≤ length bytes.now }
{
    bytes.iter().take_while(|b| is_white(**b)).count()
}

/// The token that stands first, where no white space does, and what follows it.
fn split_token(bytes: &[u8]) -> Option<(Token, &[u8])>
    requires { Stops is_white bytes.now }
    ensures { MatchOption result (bytes.now ≡ []) (λ x. Begins bytes.now (token_of x.0) x.1.now) }
{
    let (first, rest) = bytes.split_first()?;
    if first.is_ascii_digit() {
        return Some(split_number(bytes));
    }
    if is_word(*first) {
        return Some(split_word(bytes));
    }
    if *first == b'"' {
        return Some(split_quoted(rest));
    }
    Some(split_sign(*first, rest))
}
