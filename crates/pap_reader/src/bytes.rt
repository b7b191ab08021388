//! Runs of bytes of one kind, and what is left after them.

ghost use Rattle.std.specs.Prelude.{◌≡◌, ℕ, ◌<◌, ◌≤◌, ◌∷◌, ◌++◌, [], List, length, MatchOption, IfSome};
ghost use Rattle.std.specs.List.{prefix_len, take_while};
ghost use Rattle.pap_tree.specs.White.{is_white};
ghost use Rattle.pap_reader.specs.Bytes.{is_first, is_inner, begins_with, drop_while};
ghost use Rattle.std.specs.Char.{is_ascii_alphabetic, is_ascii_digit};

use pap_tree::is_white;

/// Whether an attribute's name may begin with the byte.
fn is_first(b: u8) -> bool
    ensures { result ≡ is_first b }
{
    b.is_ascii_alphabetic() || b == b'_'
}

/// Whether the byte may stand in an attribute's name.
fn is_inner(b: u8) -> bool
    ensures { result ≡ is_inner b }
{
    is_first(b) || b.is_ascii_digit() || b == b'-' || b == b'.' || b == b':'
}

/// The first byte and those after it.
pub(crate) fn split(bytes: &[u8]) -> Option<(u8, &[u8])>
    ensures { MatchOption result (bytes.now ≡ []) (λ r. bytes.now ≡ r.0 ∷ r.1.now) }
{
    match bytes {
        [] => None,
        [first, rest @ ..] => Some((*first, rest)),
    }
}

pub(crate) fn begins_with_white(bytes: &[u8]) -> bool
    ensures { result ≡ begins_with is_white bytes.now }
{
    match split(bytes) {
        Some((first, _)) => is_white(first),
        None => false,
    }
}

/// Whether an attribute's name begins here.
pub(crate) fn begins_with_first(bytes: &[u8]) -> bool
    ensures { result ≡ begins_with is_first bytes.now }
{
    match split(bytes) {
        Some((first, _)) => is_first(first),
        None => false,
    }
}

/// Whether a tag's name begins here.
pub(crate) fn begins_with_letter(bytes: &[u8]) -> bool
    ensures { result ≡ begins_with is_ascii_alphabetic bytes.now }
{
    match split(bytes) {
        Some((first, _)) => first.is_ascii_alphabetic(),
        None => false,
    }
}

/// How many bytes of white space come first.
fn white_len(bytes: &[u8]) -> usize
    ensures count { result ≡ prefix_len is_white bytes.now }
    ensures within { result ≤ length bytes.now }
{
    bytes.iter().take_while(|b| is_white(**b)).count()
}

/// How many letters come first.
fn letters_len(bytes: &[u8]) -> usize
    ensures count { result ≡ prefix_len is_ascii_alphabetic bytes.now }
    ensures within { result ≤ length bytes.now }
{
    bytes.iter().take_while(|b| b.is_ascii_alphabetic()).count()
}

/// How many bytes of an attribute's name come first.
fn name_len(bytes: &[u8]) -> usize
    ensures count { result ≡ prefix_len is_inner bytes.now }
    ensures within { result ≤ length bytes.now }
{
    bytes.iter().take_while(|b| is_inner(**b)).count()
}

/// What is left after white space.
pub(crate) fn after_white(bytes: &[u8]) -> &[u8]
    ensures left { result.now ≡ drop_while is_white bytes.now }
    ensures shorter { length result.now ≤ length bytes.now }
{
    bytes.split_at(white_len(bytes)).1
}

/// The letters that come first, and what is left.
pub fn split_letters(bytes: &[u8]) -> (&[u8], &[u8])
    ensures letters { result.0.now ≡ take_while is_ascii_alphabetic bytes.now }
    ensures left { result.1.now ≡ drop_while is_ascii_alphabetic bytes.now }
    ensures shorter { length result.1.now ≤ length bytes.now }
{
    bytes.split_at(letters_len(bytes))
}

/// The name of an attribute, and what is left.
pub(crate) fn split_name(bytes: &[u8]) -> (&[u8], &[u8])
    ensures name { result.0.now ≡ take_while is_inner bytes.now }
    ensures left { result.1.now ≡ drop_while is_inner bytes.now }
    ensures shorter { length result.1.now ≤ length bytes.now }
{
    bytes.split_at(name_len(bytes))
}

/// What is left after this byte, if it comes first.
pub(crate) fn after_byte(bytes: &[u8], byte: u8) -> Option<&[u8]>
    ensures found { MatchOption result
        ((rest : List ℕ) → bytes.now ≡ byte ∷ rest → ⊥)
        (λ rest. bytes.now ≡ byte ∷ rest.now) }
    ensures shorter { IfSome result (λ rest. length rest.now < length bytes.now) }
{
    let (first, rest) = split(bytes)?;
    if first == byte { Some(rest) } else { None }
}

/// What is left after this text, if it comes first.
pub(crate) fn after_text<'a>(bytes: &'a [u8], text: &[u8]) -> Option<&'a [u8]>
    ensures { MatchOption result
        ((rest : List ℕ) → bytes.now ≡ text.now ++ rest → ⊥)
        (λ rest. bytes.now ≡ text.now ++ rest.now) }
{
    bytes.strip_prefix(text)
}
