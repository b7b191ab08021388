//! Answers that are made as a text, and written.
ghost use Rattle.std.specs.Prelude.{◌≡◌, IfOk, is_some};
ghost use Rattle.std.specs.Result.{ForErr};
ghost use Rattle.outside.specs.Causes.{Caused};
ghost use Rattle.plan_answers.specs.Answers.{refusal};
ghost use Rattle.script_steps.specs.private.Replies.{reply_of};
ghost use Rattle.script_steps.specs.Standings.{answered};
ghost use Rattle.script_steps.specs.private.StepViews.{IsFrontWritten, IsWritten};

use crate::stop::LineStop;
use outside::{Sink, put_all};
use plan_answers::{Reply, refusal};
use std::alloc::{AllocError, Global};

/// What is answered to a line.
#[derive(Drop)]
pub(crate) struct LineReply {
    /// The answer's text.
    pub text: Vec<u8>,
    /// What is wrong with the line, in plain words, where the answer is a refusal.
    pub wrong: Option<String>,
    /// The steps that the answer counts.
    pub steps: u64,
}

/// An answer that is no refusal.
pub(crate) fn answered(text: Vec<u8>, steps: u64) -> LineReply
    ensures { reply_of result ≡ answered text.items steps }
{
    LineReply {
        text,
        wrong: None,
        steps,
    }
}

/// A refusal, of its group, its name and its details, and what is wrong in plain words.
pub(crate) fn refused(alloc: Global, detail: &[u8], wrong: String) -> Result<LineReply, AllocError>
    ensures { IfOk result (λ reply. reply_of reply ≡ refusal detail.now) }
{
    let Reply { text, steps, .. } = refusal(alloc, detail)?;
    Ok(LineReply {
        text,
        wrong: Some(wrong),
        steps,
    })
}

/// Writes an answer. `Ok` has what is wrong with the line, in plain words, where the answer is a refusal.
pub(crate) fn write_reply<W: Sink>(
    reply: LineReply,
    sink: &mut W,
) -> Result<Option<String>, LineStop>
    ensures ok { IfOk result (λ wrong. IsWritten (W.written sink.old) (W.written sink.new)
        reply.text.items (is_some reply.wrong) (is_some wrong)) }
    ensures err { ForErr result (IsFrontWritten (W.written sink.old) (W.written sink.new)
        reply.text.items) }
    ensures alone { ForErr result (λ stop. stop ≡ LineStop.Write) }
    ensures write { Caused LineStop.Write (W.faults sink.old) (W.faults sink.new) result }
{
    match put_all(sink, &reply.text) {
        Ok(()) => Ok(reply.wrong),
        Err(_) => Err(LineStop::Write),
    }
}
