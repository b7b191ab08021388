//! A refused plan, with all that is told of it.
ghost use Rattle.std.specs.Prelude.{IfOk};
ghost use Rattle.std.specs.String.{string_bytes};
ghost use Rattle.pap_plan.specs.Judgements.{IsRefusedPlan};
ghost use Rattle.plain_words.specs.Places.{files_of};
ghost use Rattle.diagnostics.specs.FurtherFaults.{TellsFaults};

use crate::operands::operands_told;
use crate::stage_lines::stage_lines;
use pap_plan::RefusedPlan;
use plain_words::TextFile;
use std::alloc::{AllocError, Global};

/// Why a plan is refused, in lines: the words of the refusal, and behind it those of the other faults of its stage, where that is one of
/// expressions, of names and kinds, or of the range file's entries, by themselves or beside the plan. They are at most 20, and then it is
/// said how many more there are. Where a node may fail on inputs within their ranges, a line says within which ranges its operands lie there,
/// and where an output may be beyond its bound, how it is so. Fails only for lack of memory.
pub fn refusal_lines(
    alloc: Global,
    plan: TextFile<'_>,
    limits: TextFile<'_>,
    refused: &RefusedPlan,
) -> Result<String, AllocError>
    requires { IsRefusedPlan plan.bytes.now limits.bytes.now refused.now }
    ensures { IfOk result (λ text.
        TellsFaults (files_of plan.entry limits.entry) refused.now.refusal (string_bytes text)) }
{
    let mut text = stage_lines(alloc, plan, limits, &refused.refusal)?;
    let operands = operands_told(alloc, refused)?;
    text.push_str(&operands)?;
    Ok(text)
}
