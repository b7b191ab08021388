//! What is read of a plan's file and a range file.
ghost use Rattle.std.specs.Prelude.{◌≡◌, IfOk, IsErrOf, OnOk};
ghost use Rattle.std.specs.Option.{ForSome};
ghost use Rattle.outside.specs.Causes.{Caused};
ghost use Rattle.plan_answers.specs.Fronts.{AreFronts, IsMissing};

use limits_file::LONGEST_LIMITS;
use outside::{FileAnswer, Files};
use pap_reader::LONGEST_PLAN;
use std::alloc::Global;

/// The bytes of both files, the plan's first, each by one call for one byte more than its limit. The number of calls is in no
/// clause.
pub fn read_both<F: Files>(
    alloc: Global,
    plan: &str,
    limits: &str,
    files: &mut F,
) -> Result<(Vec<u8>, Vec<u8>), FileAnswer>
    ensures read { IfOk result (λ both. ForSome (F.told files.old)
        (λ map. AreFronts map plan.now limits.now both.0.items both.1.items)) }
    ensures same { F.told files.new ≡ F.told files.old }
    ensures cause { Caused FileAnswer.Failed (F.faults files.old) (F.faults files.new) result }
    ensures failed { IsErrOf result FileAnswer.Failed →
        IsMissing (F.told files.old) plan.now limits.now (F.failed files.new) }
    ensures kept { OnOk result (F.failed files.new ≡ F.failed files.old) }
    ensures kept_memory { IsErrOf result FileAnswer.Memory
        → F.failed files.new ≡ F.failed files.old }
{
    let plan_bytes = files.read_front(alloc, plan, LONGEST_PLAN + 1)?;
    let limits_bytes = files.read_front(alloc, limits, LONGEST_LIMITS + 1)?;
    Ok((plan_bytes, limits_bytes))
}
