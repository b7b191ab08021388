//! How many statements and exits there are, and to how many of them runs came.
ghost use Rattle.std.specs.Prelude.{◌≡◌, ◌+◌, ◌*◌, ◌^◌, ◌≤◌, IfOk};
ghost use Rattle.coverage_text.specs.Shares.{IsCountedWithin};
ghost use Rattle.coverage_text.specs.CoverageItems.{item_counts, method_counts, no_counts, counts_sum, percent_of, share_reached};

use crate::item::{Item, MethodItems};
use std::alloc::AllocError;

/// How many statements and exits there are that runs may come to, and to how many of them some run came.
#[derive(Clone, Copy, Debug, PartialEq, Eq)]
pub struct CoverageCounts {
    /// Statements to which some run came.
    pub covered_statements: usize,
    /// Statements to which a run may come.
    pub statements: usize,
    /// Exits that some run took.
    pub covered_exits: usize,
    /// Exits that a run may take.
    pub exits: usize,
    /// Statements and exits to which no run within the ranges may come.
    pub unreachable: usize,
}

impl CoverageCounts {
    /// Counts of nothing.
    pub(crate) fn none() -> CoverageCounts
        ensures { result ≡ no_counts }
    {
        CoverageCounts {
            covered_statements: 0,
            statements: 0,
            covered_exits: 0,
            exits: 0,
            unreachable: 0,
        }
    }

    /// Those of some items.
    pub fn of(items: &[Item]) -> CoverageCounts
        ensures counts { result ≡ item_counts items.now }
        ensures within { IsCountedWithin result }
    {
        CoverageCounts {
            covered_statements: covered_statements(items),
            statements: statements(items),
            covered_exits: covered_exits(items),
            exits: exits(items),
            unreachable: unreachable(items),
        }
    }

    /// The sums of both.
    pub(crate) fn with(self, other: CoverageCounts) -> Result<CoverageCounts, AllocError>
        requires first { IsCountedWithin self }
        requires second { IsCountedWithin other }
        ensures counts { IfOk result (λ c. c ≡ counts_sum self other) }
        ensures within { IfOk result IsCountedWithin }
    {
        Ok(CoverageCounts {
            covered_statements: sum(self.covered_statements, other.covered_statements)?,
            statements: sum(self.statements, other.statements)?,
            covered_exits: sum(self.covered_exits, other.covered_exits)?,
            exits: sum(self.exits, other.exits)?,
            unreachable: sum(self.unreachable, other.unreachable)?,
        })
    }
}

/// How many are statements to which some run came.
fn covered_statements(items: &[Item]) -> usize
    ensures { result ≡ (item_counts items.now).covered_statements }
{
    items.iter().filter(|i| i.is_covered_statement()).count()
}

/// How many are statements to which a run may come.
fn statements(items: &[Item]) -> usize
    ensures { result ≡ (item_counts items.now).statements }
{
    items.iter().filter(|i| i.is_statement()).count()
}

/// How many are exits that some run took.
fn covered_exits(items: &[Item]) -> usize
    ensures { result ≡ (item_counts items.now).covered_exits }
{
    items.iter().filter(|i| i.is_covered_exit()).count()
}

/// How many are exits that a run may take.
fn exits(items: &[Item]) -> usize
    ensures { result ≡ (item_counts items.now).exits }
{
    items.iter().filter(|i| i.is_exit()).count()
}

/// To how many no run within the ranges may come.
fn unreachable(items: &[Item]) -> usize
    ensures { result ≡ (item_counts items.now).unreachable }
{
    items.iter().filter(|i| i.is_unreachable()).count()
}

/// The sum of two counts. No memory holds so many items that their number doesn't fit.
fn sum(a: usize, b: usize) -> Result<usize, AllocError>
    ensures { IfOk result (λ c. c ≡ a + b) }
{
    a.checked_add(b).ok_or(AllocError)
}

/// The counts of all methods.
pub fn count_methods(methods: &[MethodItems]) -> Result<CoverageCounts, AllocError>
    ensures counts { IfOk result (λ c. c ≡ method_counts methods.now) }
    ensures within { IfOk result IsCountedWithin }
{
    let mut counts = CoverageCounts::none();
    for method in methods {
        counts = counts.with(CoverageCounts::of(&method.items))?;
    }
    Ok(counts)
}

/// To which share of the statements and exits together runs came, in whole percent, of those to which runs may come. 100 where
/// there are none.
pub fn share_reached(methods: &[MethodItems]) -> Result<u8, AllocError>
    ensures { IfOk result (λ share. share ≡ share_reached (method_counts methods.now)) }
{
    let counts = count_methods(methods)?;
    Ok(share_of(counts))
}

/// That share of some counts, of which no more are covered than there are.
pub fn share_of(counts: CoverageCounts) -> u8
    requires { IsCountedWithin counts }
    ensures { result ≡ share_reached counts }
{
    let part = counts.covered_statements as u128 + counts.covered_exits as u128;
    let whole = counts.statements as u128 + counts.exits as u128;
    percent_of(part, whole)
}

/// So many of so many, in whole percent.
#[tactic(auto, using(crate::proofs::CountLemmas::few_percent))]
fn percent_of(part: u128, whole: u128) -> u8
    requires within { part ≤ whole }
    requires small { whole ≤ 2 * 2 ^ 64 }
    ensures { result ≡ percent_of part whole }
{
    if whole == 0 {
        return 100;
    }
    (100 * part / whole) as u8
}
