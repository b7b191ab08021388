//! All faults of the stage that a plan doesn't pass, in lines.
ghost use Rattle.std.specs.Prelude.{◌≡◌, IfOk, drop};
ghost use Rattle.std.specs.String.{string_bytes};
ghost use Rattle.pap_plan.specs.Acceptance.{IsRefused};
ghost use Rattle.plain_words.specs.Places.{files_of};
ghost use Rattle.diagnostics.specs.FurtherFaults.{TellsStage, is_of_entries};

use crate::entry_lines::entry_lines;
use crate::fault_lines::plan_lines;
use crate::stages::stage_faults;
use limits_file::LimitsFault;
use pap_plan::PlanRefusal;
use plain_words::TextFile;
use std::alloc::{AllocError, Global};

/// The words of all faults of the stage for which a plan is refused, in lines, at most 20, and then how many more there are. Fails only for
/// lack of memory.
pub(crate) fn stage_lines(
    alloc: Global,
    plan: TextFile<'_>,
    limits: TextFile<'_>,
    refusal: &PlanRefusal,
) -> Result<String, AllocError>
    requires { IsRefused plan.bytes.now limits.bytes.now refusal.now }
    ensures { IfOk result (λ text.
        TellsStage (files_of plan.entry limits.entry) refusal.now (string_bytes text)) }
{
    if is_of_entries(refusal) {
        return entry_lines(alloc, plan, limits);
    }
    let faults = stage_faults(alloc, plan.bytes, limits.bytes, refusal)?;
    plan_lines(alloc, plan, limits, refusal, behind_first(&faults))
}

/// Whether a refusal is one of a key of the range file, or of an input's bounds.
fn is_of_entries(refusal: &PlanRefusal) -> bool
    ensures { result ≡ is_of_entries refusal.now }
{
    match refusal {
        PlanRefusal::Limits(fault) => {
            matches!(fault, LimitsFault::Key { .. } | LimitsFault::Bound { .. })
        }
        _ => false,
    }
}

/// What stands behind the first of some faults.
fn behind_first(faults: &[PlanRefusal]) -> &[PlanRefusal]
    ensures { result.now ≡ drop 1 faults.now }
{
    if faults.is_empty() {
        faults
    } else {
        &faults[1..]
    }
}
