//! How a fault shows a key.
ghost use Rattle.std.specs.Prelude.{◌≡◌, Some};
ghost use Rattle.std.specs.Fmt.{debug_str};
ghost use Rattle.limits_file.specs.Labels.{label_byte, label_of};

use pap_tree::{ShortText, is_word};
use std::fmt;
use std::marker::Model;

/// The greatest number of bytes of a label.
const LONGEST: usize = 32;

/// The first 32 bytes of a key. Each byte that isn't a letter, a digit, `_`, `-` or `.` is shown as `?`.
#[derive(Clone, Copy)]
pub struct Label {
    text: ShortText,
}

impl Model for Label {
    ghost use Rattle.std.specs.Prelude.{ℕ, List};

    ghost Value = { List ℕ };

    ghost view = { λ label. label.text };

    ghost inverse = { λ bytes. record { text = bytes } };
}

impl Label {
    /// The label of a key.
    pub fn of(key: &str) -> Label
        ensures { result ≡ label_of key.now }
    {
        let bytes = key.as_bytes();
        let front = &bytes[..bytes.len().min(LONGEST)];
        let mut label = [0; LONGEST];
        for (i, byte) in front.iter().enumerate() {
            label[i] = shown(*byte);
        }
        Label {
            text: ShortText::read(&label[..front.len()]).unwrap(),
        }
    }

    /// The label as text.
    pub fn as_str(&self) -> &str
        ensures { result.now ≡ self.now }
    {
        self.text.as_str()
    }
}

impl fmt::Debug for Label {
    ghost debug_output = { debug_str };

    fn fmt<W: fmt::Write>(&self, f: &mut fmt::Formatter<W>) -> fmt::Result {
        fmt::Debug::fmt(&self.text, f)
    }
}

impl fmt::Display for Label {
    ghost output = { λ label. Some label };

    fn fmt<W: fmt::Write>(&self, f: &mut fmt::Formatter<W>) -> fmt::Result {
        f.pad(self.as_str())
    }
}

/// The byte as a label shows it.
fn shown(byte: u8) -> u8
    ensures { result ≡ label_byte byte }
{
    if is_word(byte) || byte == b'-' || byte == b'.' {
        byte
    } else {
        b'?'
    }
}
