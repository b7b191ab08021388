//! What is written on a command.
ghost use Rattle.std.specs.Prelude.{◌≡◌, IfOk};
ghost use Rattle.plan_answers.specs.Answers.{refusal};
ghost use Rattle.plan_answers.specs.Replies.{reply_of};

use std::alloc::{AllocError, Global};

/// What is written on a command, whether it is a refusal, and the steps of the run.
#[derive(Drop)]
pub struct Reply {
    /// Lines, each with its line feed.
    pub text: Vec<u8>,
    /// Whether it is a refusal.
    pub refused: bool,
    /// The steps of the run of `once`; 0 for all else.
    pub steps: u64,
}

/// A refusal, of its group, its name and its details.
pub fn refusal(alloc: Global, detail: &[u8]) -> Result<Reply, AllocError>
    ensures { IfOk result (λ reply. reply_of reply ≡ refusal detail.now) }
{
    let mut text = Vec::from_slice(alloc, b"refused ")?;
    text.extend_from_slice(detail)?;
    text.push(b'\n')?;
    Ok(Reply {
        text,
        refused: true,
        steps: 0,
    })
}
