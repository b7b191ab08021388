//! The keys that faults name.
ghost use Rattle.std.specs.Prelude.{◌≡◌, IfOk};

use std::alloc::{AllocError, Global};
use std::marker::Model;

/// A key of a range file, which contracts see as its bytes.
#[derive(Drop)]
pub struct KeyText {
    text: String,
}

impl Model for KeyText {
    ghost use Rattle.std.specs.Prelude.{ℕ, List, string_bytes};

    ghost Value = { List ℕ };

    ghost view = { λ key. string_bytes key.text };
}

impl KeyText {
    /// A copy of a key.
    pub(crate) fn of(alloc: Global, key: &str) -> Result<KeyText, AllocError>
        ensures { IfOk result (λ text. text ≡ key.now) }
    {
        let text = String::from_str(alloc, key)?;
        Ok(KeyText { text })
    }

    /// The key.
    pub fn as_str(&self) -> &str
        ensures { result.now ≡ self.now }
    {
        self.text.as_str()
    }
}
