//! Which word of `once` gives no value.
ghost use Rattle.std.specs.Prelude.{All, MatchOption};
ghost use Rattle.pap_cli.specs.Words.{texts};
ghost use Rattle.pap_cli.specs.BadWords.{GivesValue, IsFirstWithoutValue};

use payroll_records::NamedValue;

/// The first of these words that isn't of the form NAME=VALUE with a name and a number, as `PAY=abc`. `None`
/// exactly where each is.
pub fn bad_value(words: &[String]) -> Option<&str>
    ensures { MatchOption result (All GivesValue (texts words.now))
        (λ word. IsFirstWithoutValue (texts words.now) word.now) }
{
    for word in words {
        let Some(_) = NamedValue::read(word.as_bytes()) else {
            return Some(word.as_str());
        };
    }
    None
}
