//! The items of a table that an index may choose.
ghost use Rattle.std.specs.Prelude.{◌≡◌, ◌<◌, ◌≤◌, ℕ, List, [], ◌∷◌, length, map, All, Ok, slice_get, slice_range, Some, IfOk, IfErr, OnErr, true};
ghost use Rattle.scaled_decimal.specs.Decimals.{Decimal};
ghost use Rattle.interval_num.specs.declared.cause.RangeCause.TheVariants.{Index};
ghost use Rattle.interval_num.specs.Intervals.{IsWhole};
ghost use Rattle.interval_num.specs.Rows.{item_row, decimals_row};
ghost use Rattle.interval_num.specs.ItemLevels.{joined_answers, halved, single_rows, first_level, AreLevels, AreLevelsOf};
ghost use Rattle.interval_num.specs.private.Views.{IsSome, items_of, may_be_outside, ArePlaces};
ghost use Rattle.interval_num.specs.Soundness.{ItemIsSound};

use crate::cause::RangeCause;
use crate::decimals::join;
use crate::interval::Abs;
use scaled_decimal::Dec;
use std::alloc::{AllocError, Global};
use std::marker::Model;

/// The items of a table with their ranges. Contracts see the items.
#[derive(Drop)]
pub struct ItemRanges {
    /// The items in the order of their indices.
    items: Vec<Dec>,
    /// From the items' own ranges up to one range of all.
    levels: Vec<Level>,
}

impl Model for ItemRanges {
    ghost use Rattle.std.specs.Prelude.{List};
    ghost use Rattle.scaled_decimal.specs.Decimals.{Decimal};
    ghost use Rattle.interval_num.specs.ItemLevels.{AreLevelsOf};

    ghost Value = { List Decimal };

    ghost view = { λ r. r.items.items };

    ghost invariant = { λ r. AreLevelsOf r.items.items r.levels.items };
}

impl ItemRanges {
    /// The ranges of some items. Takes time and memory linear in them.
    pub fn of(alloc: Global, items: &[Dec]) -> Result<ItemRanges, AllocError>
        ensures { IfOk result (λ ranges. ranges ≡ items.now) }
    {
        let levels = levels_of(alloc, items)?;
        let items = items.to_vec(alloc)?;
        Ok(ItemRanges { items, levels })
    }

    /// The least interval that contains each item from the least index on to the greatest.
    ///
    /// `Index` where an index may be outside the table, then `Wide` where an item, aligned to the greatest scale of these
    /// items, is beyond 10^37. Takes time logarithmic in the items.
    pub fn chosen_by(&self, index: Abs) -> Result<Abs, RangeCause>
        requires { IsWhole index }
        ensures exact { result ≡ item_row self.now index }
        ensures sound { IfOk result (ItemIsSound self.now index) }
    {
        let (first, end) = places(index, self.items.len())?;
        between(self.levels.as_slice(), first, end)
    }
}

/// The least interval that contains each item from the least index on to the greatest, as `ItemRanges::chosen_by`.
///
/// Goes once over these items, and takes no memory: for a table of which a single range is asked.
pub fn abs_item(items: &[Dec], index: Abs) -> Result<Abs, RangeCause>
    requires { IsWhole index }
    ensures exact { result ≡ item_row items.now index }
    ensures sound { IfOk result (ItemIsSound items.now index) }
{
    let (first, end) = places(index, items.len())?;
    together(&items[first..end])
}

/// The first place that an index may have and the one after the last; `Index` where some place may be outside.
fn places(index: Abs, count: usize) -> Result<(usize, usize), RangeCause>
    requires { IsWhole index }
    ensures places { IfOk result (ArePlaces index count) }
    ensures cause { IfErr result (λ cause. cause ≡ Index) }
    ensures outside { OnErr result (may_be_outside index count ≡ true) }
{
    if index.lo() < 0 || index.hi() >= count as i128 {
        return Err(RangeCause::Index);
    }
    Ok((index.lo() as usize, index.hi() as usize + 1))
}

/// The range of some items together.
fn together(items: &[Dec]) -> Result<Abs, RangeCause>
    requires { 0 < length items.now }
    ensures { result ≡ decimals_row items.now }
{
    let mut range = Ok(single(items[0]));
    for item in &items[1..] {
        range = joined(range, Ok(single(*item)));
    }
    range
}

/// The ranges of runs of items, or why a run has none. Contracts see them as a list.
#[derive(Drop)]
struct Level {
    ranges: Vec<Result<Abs, RangeCause>>,
}

impl Model for Level {
    ghost use Rattle.std.specs.Prelude.{List};
    ghost use Rattle.interval_num.specs.Rows.{RowAnswer};

    ghost Value = { List RowAnswer };

    ghost view = { λ l. l.ranges.items };
}

impl Level {
    fn len(&self) -> usize
        ensures { result ≡ length self.now }
    {
        self.ranges.len()
    }

    fn at(&self, i: usize) -> Result<Abs, RangeCause>
        requires { i < length self.now }
        ensures { slice_get self.now i ≡ Some result }
    {
        self.ranges[i]
    }
}

/// The range of what two runs have together.
fn joined(left: Result<Abs, RangeCause>, right: Result<Abs, RangeCause>) -> Result<Abs, RangeCause>
    ensures { result ≡ joined_answers left right }
{
    join(left?, right?)
}

/// The range of one item.
fn single(item: Dec) -> Abs
    ensures { Ok result ≡ decimals_row (item ∷ []) }
{
    let n = item.numerator();
    Abs::new(n, n, item.scale(), item.scale())
}

/// The range of each item.
fn singles(alloc: Global, items: &[Dec]) -> Result<Level, AllocError>
    ensures { IfOk result (λ level. level ≡ single_rows items.now) }
{
    let mut ranges = Vec::new(alloc);
    for item in items {
        ranges.push(Ok(single(*item)))?;
    }
    Ok(Level { ranges })
}

/// The joined ranges of each two neighbours, an odd last one as it is.
fn halved(alloc: Global, level: &Level) -> Result<Level, AllocError>
    ensures { IfOk result (λ half. half ≡ halved level.now) }
{
    let mut ranges = Vec::new(alloc);
    let count = level.len();
    for i in 0..count / 2 {
        ranges.push(joined(level.at(2 * i), level.at(2 * i + 1)))?;
    }
    if count % 2 == 1 {
        ranges.push(level.at(count - 1))?;
    }
    Ok(Level { ranges })
}

/// The ranges of the items, then of twice as many at each level, up to one range of all.
fn levels_of(alloc: Global, items: &[Dec]) -> Result<Vec<Level>, AllocError>
    ensures { IfOk result (λ levels. AreLevelsOf items.now levels.items) }
{
    let mut levels = Vec::new(alloc);
    let mut level = singles(alloc, items)?;
    while level.len() > 1 {
        let next = halved(alloc, &level)?;
        levels.push(level)?;
        level = next;
    }
    levels.push(level)?;
    Ok(levels)
}

/// The range of the runs from `lo` on and before `hi` of the first level together.
fn between(levels: &[Level], lo: usize, hi: usize) -> Result<Abs, RangeCause>
    requires levels { AreLevels levels.now }
    requires some { lo < hi }
    requires inside { hi ≤ length (first_level levels.now) }
    ensures { (runs : List (List Decimal)) → All IsSome runs → first_level levels.now ≡ map decimals_row runs →
        result ≡ decimals_row (items_of (slice_range runs lo hi)) }
{
    let level = &levels[0];
    if hi - lo == 1 {
        return level.at(lo);
    }
    if lo % 2 == 1 {
        return joined(level.at(lo), between(levels, lo + 1, hi));
    }
    if hi % 2 == 1 {
        return joined(between(levels, lo, hi - 1), level.at(hi - 1));
    }
    between(&levels[1..], lo / 2, hi / 2)
}
