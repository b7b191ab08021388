//! A short text kept in place: what names of every kind stand on.
ghost use Rattle.std.specs.Prelude.{◌≡◌, ◌↔◌, [], ◌∷◌, IsSome, IfSome, Some, nat_eq, refl, take};
ghost use Rattle.std.specs.Int.{from_be_bytes, w64};
ghost use Rattle.std.specs.Ordering.{nat_cmp};
ghost use Rattle.std.specs.Cmp.{partial_equiv_from_equiv};
ghost use Rattle.std.specs.Cmp.Lexicographic.{pointwise, slice_cmp, bytes_decides};
ghost use Rattle.std.specs.Cmp.Lexicographic.{nat_list_eq_equiv, nat_list_cmp_total, texts_po, texts_ties};
ghost use Rattle.std.specs.Fmt.{debug_str};
ghost use Rattle.std.proofs.Common.{ap};
ghost use Rattle.pap_tree.specs.ShortText.{IsShortText};
ghost use Rattle.pap_tree.specs.Padded.{padded};

use std::cmp::Ordering;
use std::hash::{Hash, Hasher};
use std::marker::Model;
use std::{fmt, str};

/// The greatest number of bytes of a short text.
const LONGEST: usize = 32;

/// A text of at most 32 ASCII bytes, kept without memory of its own. Texts are ordered by their bytes.
#[derive(Clone, Copy)]
pub struct ShortText {
    len: u8,
    bytes: [u8; LONGEST],
}

impl Model for ShortText {
    ghost use Rattle.std.specs.Prelude.{ℕ, List, take, length};
    ghost use Rattle.pap_tree.specs.ShortText.{IsShortText};
    ghost use Rattle.pap_tree.specs.Padded.{IsPadded, padded};

    ghost Value = { List ℕ };

    ghost use Rattle.pap_tree.specs.laws.PaddedBack.{back};

    ghost view = { λ t. take t.len t.bytes };

    ghost invariant = { λ t. IsPadded t.bytes t.len × IsShortText (take t.len t.bytes) };

    ghost inverse = { λ bs. record { len = length bs; bytes = padded bs } };

    ghost inverse_ok = { λ t h. back t h.0 };
}

impl ShortText {
    /// The short text of these bytes. `None` exactly where they are more than 32, or not all ASCII.
    pub fn read(text: &[u8]) -> Option<ShortText>
        ensures exact { IsSome result ↔ IsShortText text.now }
        ensures read { IfSome result (λ t. t ≡ text.now) }
    {
        if text.len() > LONGEST || !text.is_ascii() {
            return None;
        }
        let mut bytes = [0; LONGEST];
        bytes[..text.len()].copy_from_slice(text);
        Some(ShortText {
            len: text.len() as u8,
            bytes,
        })
    }

    /// The bytes of the text.
    pub fn bytes(&self) -> &[u8]
        ensures bytes { result.now ≡ self.now }
        ensures short { IsShortText self.now }
    {
        &self.bytes[..self.len as usize]
    }

    /// The text as a `str`.
    pub fn as_str(&self) -> &str
        ensures { result.now ≡ self.now }
    {
        match str::from_utf8(self.bytes()) {
            Ok(text) => text,
            Err(_) => unreachable!(),
        }
    }
}

/// The first eight bytes as one number, the first byte the most significant: a comparison of two such numbers is one step,
/// and decides between most names.
fn front(bytes: &[u8; LONGEST]) -> u64
    ensures { result ≡ from_be_bytes w64 (take 8 bytes.now) }
{
    u64::from_be_bytes([
        bytes[0], bytes[1], bytes[2], bytes[3], bytes[4], bytes[5], bytes[6], bytes[7],
    ])
}

impl PartialEq for ShortText {
    ghost eq = { pointwise nat_eq };

    ghost laws = { partial_equiv_from_equiv nat_list_eq_equiv };

    fn eq(&self, other: &ShortText) -> bool {
        self.len == other.len && self.bytes == other.bytes
    }
}

impl Eq for ShortText {
    ghost laws = { nat_list_eq_equiv };
}

impl PartialOrd for ShortText {
    ghost partial_cmp = { λ s t. Some (slice_cmp nat_cmp s t) };

    ghost laws = { texts_po };

    fn partial_cmp(&self, other: &ShortText) -> Option<Ordering> {
        Some(self.cmp(other))
    }
}

impl Ord for ShortText {
    ghost cmp = { slice_cmp nat_cmp };

    ghost total = { nat_list_cmp_total };

    ghost matches_partial_cmp = { λ s t. refl };

    ghost matches_eq = { λ s t. texts_ties s t };

    fn cmp(&self, other: &ShortText) -> Ordering {
        match front(&self.bytes).cmp(&front(&other.bytes)) {
            Ordering::Equal => self.bytes.cmp(&other.bytes).then(self.len.cmp(&other.len)),
            different => different,
        }
    }
}

impl Hash for ShortText {
    ghost hash_input = { λ s. padded s ∷ [] };

    ghost respects_eq = { λ s t h. ap (λ bs. padded bs ∷ []) ((bytes_decides s t).0 h) };

    /// Writes the whole array at once: a hasher then takes many bytes a step, and no step depends on the length.
    fn hash<H: Hasher>(&self, state: &mut H) {
        state.write(&self.bytes);
    }
}

impl fmt::Debug for ShortText {
    ghost debug_output = { debug_str };

    fn fmt<W: fmt::Write>(&self, f: &mut fmt::Formatter<W>) -> fmt::Result {
        fmt::Debug::fmt(self.as_str(), f)
    }
}

impl fmt::Display for ShortText {
    ghost output = { λ text. Some text };

    fn fmt<W: fmt::Write>(&self, f: &mut fmt::Formatter<W>) -> fmt::Result {
        f.pad(self.as_str())
    }
}
