//! What is answered on two files.
ghost use Rattle.std.specs.Prelude.{◌≡◌, false, None};
ghost use Rattle.pap_cli.specs.private.AnswerViews.{answer_of};

/// What is answered on two files, and why, where that is a refusal.
#[derive(Drop)]
pub(crate) struct FileReply {
    /// The answer: lines, each with its line feed.
    pub text: Vec<u8>,
    /// Why the answer is a refusal, where it is one: lines of plain words, each with its line feed.
    pub reason: Option<String>,
    /// The steps of the run of `once`; 0 for all else.
    pub steps: u64,
}

/// An answer that is no refusal.
pub(crate) fn answered(text: Vec<u8>, steps: u64) -> FileReply
    ensures answer { answer_of result ≡ record { text = text.items; refused = false; steps = steps } }
    ensures silent { result.reason ≡ None }
{
    FileReply {
        text,
        reason: None,
        steps,
    }
}
