//! The answer of `check` on an accepted plan.
ghost use Rattle.std.specs.Prelude.{◌≡◌, None, IfOk};
ghost use Rattle.pap_plan.specs.Plans.{meaning};
ghost use Rattle.plan_answers.specs.Answers.{acceptance};
ghost use Rattle.pap_cli.specs.private.AnswerViews.{answer_of};

use crate::reply::{FileReply, answered};
use pap_plan::Plan;
use plan_answers::accepted_text;
use std::alloc::{AllocError, Global};

/// The bound of an accepted plan, and the ranges of its outputs.
pub(crate) fn check_reply(alloc: Global, plan: &Plan) -> Result<FileReply, AllocError>
    ensures answer { IfOk result (λ reply. answer_of reply ≡ acceptance (meaning plan.now)) }
    ensures silent { IfOk result (λ reply. reply.reason ≡ None) }
{
    Ok(answered(accepted_text(alloc, plan)?, 0))
}
