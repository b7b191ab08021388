//! Whole numbers in digits.
ghost use Rattle.std.specs.Prelude.{◌≡◌, ◌≢◌, ◌^◌, ◌<◌, ℕ, MatchBool, MatchOption};
ghost use Rattle.scaled_decimal.specs.PlainTexts.{whole_text};
ghost use Rattle.saved_items.specs.private.NumberViews.{BeginsNumber};

/// The number of 64 bits that a word is the digits of, without leading zeros.
pub(crate) fn read_number(word: &[u8]) -> Option<u64>
    ensures { MatchOption result
        ((n : ℕ) → n < 2 ^ 64 → word.now ≢ whole_text n) (λ n. word.now ≡ whole_text n) }
{
    if !begins_number(word) {
        return None;
    }
    match str::from_utf8(word) {
        Ok(text) => text.parse().ok(),
        Err(_) => None,
    }
}

/// Whether a word begins as a number: there is something, no plus, and no zero before more.
fn begins_number(word: &[u8]) -> bool
    ensures { MatchBool result (BeginsNumber word.now) (¬ (BeginsNumber word.now)) }
{
    !word.is_empty() && word[0] != b'+' && (word[0] != b'0' || word.len() == 1)
}
