//! The form of messages.
ghost use Rattle.std.specs.Prelude.{◌≡◌, codes};

/// How messages are written.
#[derive(Clone, Copy, Debug, PartialEq, Eq)]
pub enum MessageForm {
    /// As lines of words, which are read by people.
    Words,
    /// As objects of JSON, one a line, which are read by programs.
    Json,
}

impl MessageForm {
    /// The form that a word asks for: JSON by `json`, and else words.
    pub fn named(word: &str) -> MessageForm
        ensures json { word.now ≡ codes "json" → result ≡ MessageForm.Json }
        ensures alone { result ≡ MessageForm.Json → word.now ≡ codes "json" }
    {
        if word == "json" {
            MessageForm::Json
        } else {
            MessageForm::Words
        }
    }
}
