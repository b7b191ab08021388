//! What is said of a plan, with a range file or without one.
ghost use Rattle.std.specs.Prelude.{◌≡◌, IfOk, IsTrue, option_map, is_none, string_bytes};
ghost use Rattle.plain_words.specs.Places.{named_text, files_of};
ghost use Rattle.plan_answers.specs.Refusals.{HasItsPlan};
ghost use Rattle.flowchart_page.specs.Verdicts.{lacks_limit, file_or_none, IsJudged};
ghost use Rattle.flowchart_page.specs.Findings.{IsFound};
ghost use Rattle.flowchart_page.specs.Judged.{finding_of, words_of, HasLine, HasPlan};
ghost use Rattle.flowchart_page.specs.Pages.{IsRefusalLine};
ghost use Rattle.flowchart_page.specs.private.VerdictViews.{is_excused, SaysRefusal};

use pap_plan::{Plan, PlanRefusal, accept};
use plain_words::{TextFile, plan_words};
use plan_answers::refused;
use std::alloc::{AllocError, Global};

/// What is said of a plan.
#[derive(Drop)]
pub enum Verdict {
    /// It is accepted, with the range file or because it has no inputs.
    Accepted(Plan),
    /// There is no range file, and all that is judged before the limits of inputs is in order.
    InOrder,
    /// It is refused.
    Refused(Reason),
}

/// A refusal as it is written.
#[derive(Drop)]
pub struct Reason {
    /// The refusal itself.
    pub refusal: PlanRefusal,
    /// The line of standard output, without its end.
    pub line: Vec<u8>,
    /// What it means, in plain words.
    pub words: String,
}

/// Judges a plan, with a range file or without one, that is with an empty one: the first refusal
/// that comes of that is an input without a limit, and all that is judged before is then in order. Fails only for want of memory.
pub fn judge(
    alloc: Global,
    plan: TextFile<'_>,
    limits: Option<TextFile<'_>>,
) -> Result<Verdict, AllocError>
    ensures found { IfOk result (λ verdict. IsFound plan.entry.bytes.now
        (option_map (λ file. file.bytes.now) limits.entry) (finding_of verdict)) }
    ensures judged { IfOk result (λ verdict. IsJudged (named_text plan.entry)
        (option_map (λ file. named_text file) limits.entry) (words_of verdict)) }
    ensures line { IfOk result (HasLine plan.entry.bytes.now) }
    ensures plan { IfOk result (HasPlan plan.entry.bytes.now
        (option_map (λ file. file.bytes.now) limits.entry)) }
{
    let ranges = file_or_none(limits);
    match accept(alloc, plan.bytes, ranges.bytes) {
        Ok(accepted) => Ok(Verdict::Accepted(accepted)),
        Err(PlanRefusal::Memory) => Err(AllocError),
        Err(refusal) => {
            if is_excused(limits.is_none(), &refusal) {
                return Ok(Verdict::InOrder);
            }
            let reason = reason_of(alloc, plan, ranges, refusal)?;
            Ok(Verdict::Refused(reason))
        }
    }
}

/// The range file, or an empty one of no name where there is none.
#[tactic(auto, using(crate::proofs::VerdictLemmas::file_kept))]
fn file_or_none<'a>(limits: Option<TextFile<'a>>) -> TextFile<'a>
    ensures { named_text result
        ≡ file_or_none (option_map (λ file. named_text file) limits.entry) }
{
    limits.unwrap_or(TextFile {
        name: "",
        bytes: &[],
    })
}

/// Whether a refusal is none where a plan is judged alone: that of an input without a limit.
fn is_excused(is_alone: bool, refusal: &PlanRefusal) -> bool
    ensures { result ≡ is_excused is_alone refusal.now }
{
    is_alone && matches!(refusal, PlanRefusal::LimitName { .. })
}

/// A refusal with what is written of it.
fn reason_of(
    alloc: Global,
    plan: TextFile<'_>,
    ranges: TextFile<'_>,
    refusal: PlanRefusal,
) -> Result<Reason, AllocError>
    requires { HasItsPlan plan.bytes.now refusal }
    ensures refusal { IfOk result (λ reason. reason.refusal ≡ refusal) }
    ensures says { IfOk result (λ reason. SaysRefusal (files_of plan.entry ranges.entry) refusal
        (string_bytes reason.words)) }
    ensures line { IfOk result (λ reason.
        IsRefusalLine plan.entry.bytes.now refusal reason.line.items) }
{
    let line = refusal_line(alloc, plan.bytes, &refusal)?;
    let words = plan_words(alloc, plan, ranges, &refusal)?;
    Ok(Reason {
        refusal,
        line,
        words,
    })
}

/// The line that is written of a refusal, without its end.
fn refusal_line(alloc: Global, plan: &[u8], refusal: &PlanRefusal) -> Result<Vec<u8>, AllocError>
    requires { HasItsPlan plan.now refusal.now }
    ensures { IfOk result (λ line. IsRefusalLine plan.now refusal.now line.items) }
{
    let reply = refused(alloc, plan, refusal)?;
    let mut line = reply.text;
    line.pop();
    Ok(line)
}
