//! The comparison of two plans with their range files.
ghost use Rattle.std.specs.Prelude.{◌≡◌, IfOk, IsErrOf, OnOk};
ghost use Rattle.std.specs.Option.{ForSome};
ghost use Rattle.outside.specs.Causes.{Caused};
ghost use Rattle.pap_plan.specs.BoundPlans.{IsBoundPlan};
ghost use Rattle.author_cli.specs.Ends.{words_of};
ghost use Rattle.author_cli.specs.CallClauses.{IsMissingOfPairs};
ghost use Rattle.author_cli.specs.Compared.{IsComparedWithin, IsComparedPairs};
ghost use Rattle.author_cli.specs.private.PairViews.{files_of_pair, AreFourFronts};
ghost use Rattle.author_cli.specs.private.WordViews.{medium_of};

use crate::answer::Answer;
use crate::compared::tell_comparison;
use crate::traced::answer_refused;
use crate::words::Medium;
use outside::{FileAnswer, Files};
use pap_plan::{BoundPlan, PlanRefusal, read_bound};
use plain_words::TextFile;
use plan_answers::read_both;
use range_comparison::compare_ranges;
use std::alloc::{AllocError, Global};

/// What is read of four files.
#[derive(Drop)]
pub(crate) struct PairBytes {
    pub old: Vec<u8>,
    pub old_limits: Vec<u8>,
    pub new: Vec<u8>,
    pub new_limits: Vec<u8>,
}

/// A plan's file and its range file.
#[derive(Clone, Copy)]
pub(crate) struct PlanPair<'a> {
    pub plan: TextFile<'a>,
    pub limits: TextFile<'a>,
}

/// The bytes of two plans' files and of their range files, each by one call for one byte more than its limit.
pub(crate) fn read_four<F: Files>(
    alloc: Global,
    old: &str,
    old_limits: &str,
    new: &str,
    new_limits: &str,
    files: &mut F,
) -> Result<PairBytes, FileAnswer>
    ensures read { IfOk result (λ read. ForSome (F.told files.old)
        (λ map. AreFourFronts map old.now old_limits.now new.now new_limits.now read)) }
    ensures same { F.told files.new ≡ F.told files.old }
    ensures cause { Caused FileAnswer.Failed (F.faults files.old) (F.faults files.new) result }
    ensures failed { IsErrOf result FileAnswer.Failed → IsMissingOfPairs (F.told files.old)
        old.now old_limits.now new.now new_limits.now (F.failed files.new) }
    ensures kept { OnOk result (F.failed files.new ≡ F.failed files.old) }
    ensures kept_memory { IsErrOf result FileAnswer.Memory
        → F.failed files.new ≡ F.failed files.old }
{
    let (old, old_limits) = read_both(alloc, old, old_limits, files)?;
    let (new, new_limits) = read_both(alloc, new, new_limits, files)?;
    Ok(PairBytes {
        old,
        old_limits,
        new,
        new_limits,
    })
}

/// The comparison of two plans and of their range files, or the line of the first pair that is refused before the ranges of its
/// values are judged.
pub(crate) fn compare_pairs(
    alloc: Global,
    medium: Medium,
    old: PlanPair<'_>,
    new: PlanPair<'_>,
) -> Result<Answer, AllocError>
    ensures { IfOk result (λ answer. IsComparedPairs (medium_of medium) (files_of_pair old.entry)
        (files_of_pair new.entry) answer.text.items (words_of answer.reason)) }
{
    match read_bound(alloc, old.plan.bytes, old.limits.bytes) {
        Ok(bound) => compare_bound(alloc, medium, old, &bound, new),
        Err(PlanRefusal::Memory) => Err(AllocError),
        Err(fault) => answer_refused(alloc, old.plan, old.limits, &fault),
    }
}

/// The comparison of a plan that suits its range file with the bytes of another pair.
fn compare_bound(
    alloc: Global,
    medium: Medium,
    old: PlanPair<'_>,
    bound: &BoundPlan,
    new: PlanPair<'_>,
) -> Result<Answer, AllocError>
    requires { IsBoundPlan old.plan.bytes.now old.limits.bytes.now bound.now }
    ensures { IfOk result (λ answer. IsComparedPairs (medium_of medium) (files_of_pair old.entry)
        (files_of_pair new.entry) answer.text.items (words_of answer.reason)) }
{
    match read_bound(alloc, new.plan.bytes, new.limits.bytes) {
        Ok(other) => tell_pairs(alloc, medium, old, bound, new, &other),
        Err(PlanRefusal::Memory) => Err(AllocError),
        Err(fault) => answer_refused(alloc, new.plan, new.limits, &fault),
    }
}

/// The comparison of two plans that suit their range files.
fn tell_pairs(
    alloc: Global,
    medium: Medium,
    old: PlanPair<'_>,
    bound: &BoundPlan,
    new: PlanPair<'_>,
    other: &BoundPlan,
) -> Result<Answer, AllocError>
    requires old_bound { IsBoundPlan old.plan.bytes.now old.limits.bytes.now bound.now }
    requires new_bound { IsBoundPlan new.plan.bytes.now new.limits.bytes.now other.now }
    ensures { IfOk result (λ answer. IsComparedWithin (medium_of medium) (files_of_pair old.entry)
        (files_of_pair new.entry) answer.text.items (words_of answer.reason)) }
{
    let changes = compare_ranges(alloc, &bound.limits, &other.limits)?;
    tell_comparison(
        alloc,
        medium,
        old.plan,
        bound.typed.plan(),
        new.plan,
        other.typed.plan(),
        Some(&changes),
    )
}
