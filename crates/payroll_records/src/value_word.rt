//! Words that give values.
ghost use Rattle.std.specs.Prelude.{◌≡◌, ◌==◌, IfNone, IfSome, position};
ghost use Rattle.payroll_records.specs.ValueWords.{IsValueWord};
ghost use Rattle.payroll_records.specs.declared.values.NamedValue.{NamedValue as Value};

use crate::NamedValue;
use pap_tree::Name;
use scaled_decimal::read_dec;

impl NamedValue {
    /// The value that a word `NAME=VALUE` gives. `None` exactly where the word, cut at its first `=`, isn't a name and a
    /// readable number.
    pub fn read(word: &[u8]) -> Option<NamedValue>
        ensures read { IfSome result (IsValueWord word.now) }
        ensures none { IfNone result ((v : Value) → ¬ (IsValueWord word.now v)) }
    {
        let at = name_length(word)?;
        let name = Name::read(&word[..at])?;
        match read_dec(&word[at + 1..]) {
            Ok(value) => Some(NamedValue { name, value }),
            Err(_) => None,
        }
    }
}

/// How many bytes of a word stand before its first `=`.
pub(crate) fn name_length(word: &[u8]) -> Option<usize>
    ensures { result ≡ position (λ b. b == 61) word.now }
{
    word.iter().position(|b| *b == b'=')
}
