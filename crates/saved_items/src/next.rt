//! The next item of a text, behind what was read so far.
ghost use Rattle.std.specs.Prelude.{◌≡◌, ◌+◌, ◌<◌, ◌^◌, ◌++◌, ℕ, List, IfOk, MatchBool, MatchOption, length};
ghost use Rattle.rising_lists.specs.Keyed.{IsRising};
ghost use Rattle.payroll_records.specs.Orders.{day_cmp, key_cmp};
ghost use Rattle.payroll_records.specs.Tables.{key_of};
ghost use Rattle.saved_items.specs.Fronts.{AreFirstItems, nothing, titled, worked, planning, running};
ghost use Rattle.saved_items.specs.private.ItemDecisions.{Fits, IsBeyond, IsLater};
ghost use Rattle.saved_items.specs.private.ItemViews.{HasNoTexts, HasTexts, Reads, ReadsBehind, front_in};
ghost use Rattle.saved_items.specs.private.ItemViews.{plans_of};
ghost use Rattle.saved_items.specs.private.LineViews.{AreWordsOf};
ghost use Rattle.saved_items.specs.SavedBooks.{SavedPlan, saved_day};

use crate::PlanItem;
use crate::front::{Front, Stage};
use crate::item::Item;
use crate::item_words::{PlanLine, is_title, read_count, read_plan_line, read_work};
use crate::lines::{Line, first_line};
use crate::run_words::read_run;
use payroll_records::{Day, Record};
use std::alloc::{AllocError, Global};

/// The most plans of a saved book, as many as a calendar has.
const MOST_PLANS: u64 = plan_calendar::MOST_PLANS as u64;

/// The most runs of a saved book, as many as a book has.
const MOST_RUNS: u64 = payroll_records::MOST_RECORDS as u64;

/// The item that comes next and what follows it, where the text goes on with one that is of its form. The last line is no
/// such item.
pub(crate) fn next_item<'a>(
    alloc: Global,
    front: &Front<'a>,
    rest: &'a [u8],
) -> Result<Option<(Item<'a>, &'a [u8])>, AllocError>
    requires { AreFirstItems (front_in front.now) }
    ensures { IfOk result (Reads (Fits (front_in front.now)) rest.now) }
{
    let Some(line) = first_line(alloc, rest)? else {
        return Ok(None);
    };
    let plans = front.items.plans.as_slice();
    let records = front.items.records.as_slice();
    match front.stage {
        Stage::Title => Ok(next_title(&line)),
        Stage::Work => Ok(next_work(&line)),
        Stage::PlanCount => Ok(next_plan_count(&line)),
        Stage::Plans { count } if (plans.len() as u64) < count => Ok(next_plan(plans, &line)),
        Stage::Plans { .. } => Ok(next_run_count(&line)),
        Stage::Runs { count } if (records.len() as u64) < count => next_run(alloc, records, &line),
        Stage::Runs { .. } => Ok(None),
    }
}

/// The title, which stands first.
fn next_title<'a>(line: &Line<'a>) -> Option<(Item<'a>, &'a [u8])>
    ensures { ReadsBehind (Fits nothing) line.now result }
{
    if !is_title(line.words.as_slice()) {
        return None;
    }
    Some((Item::Title, line.rest))
}

/// The last work, behind the title.
fn next_work<'a>(line: &Line<'a>) -> Option<(Item<'a>, &'a [u8])>
    ensures { ReadsBehind (Fits titled) line.now result }
{
    let (runs, steps) = read_work(line.words.as_slice())?;
    Some((Item::Work { runs, steps }, line.rest))
}

/// The line before the plans, behind the last work.
fn next_plan_count<'a>(line: &Line<'a>) -> Option<(Item<'a>, &'a [u8])>
    ensures { (runs steps : ℕ) → ReadsBehind (Fits (worked runs steps)) line.now result }
{
    let count = read_count(b"plans", MOST_PLANS, line.words.as_slice())?;
    Some((Item::PlanCount(count), line.rest))
}

/// The line before the runs, behind the last plan.
fn next_run_count<'a>(line: &Line<'a>) -> Option<(Item<'a>, &'a [u8])>
    ensures { (runs steps : ℕ) (plans : List SavedPlan) →
        ReadsBehind (Fits (planning runs steps (length plans) plans)) line.now result }
{
    let count = read_count(b"runs", MOST_RUNS, line.words.as_slice())?;
    Some((Item::RunCount(count), line.rest))
}

/// A plan behind others, where there are to be more.
fn next_plan<'a>(plans: &[PlanItem<'a>], line: &Line<'a>) -> Option<(Item<'a>, &'a [u8])>
    requires { IsRising day_cmp saved_day (plans_of plans.now) }
    ensures { (runs steps count : ℕ) → length plans.now < count →
        ReadsBehind (Fits (planning runs steps count (plans_of plans.now))) line.now result }
{
    text_law(line.rest);
    let front = read_plan_line(line.words.as_slice())?;
    let (plan, left) = plan_texts(front, line.rest)?;
    if !is_later(plans, front.day) {
        return None;
    }
    Some((Item::Plan(plan), left))
}

/// A law, with nothing to run: 64 bits count the bytes of a text.
fn text_law(bytes: &[u8])
    ensures { length bytes.now < 2 ^ 64 }
{
    let _ = bytes.len();
}

/// Whether a day is behind those of all plans.
fn is_later(plans: &[PlanItem], day: Day) -> bool
    requires { IsRising day_cmp saved_day (plans_of plans.now) }
    ensures { (p : SavedPlan) → p.day ≡ day →
        MatchBool result (IsLater (plans_of plans.now) p) (IsLater (plans_of plans.now) p → ⊥) }
{
    match plans.last() {
        Some(last) => last.day.cmp(&day).is_lt(),
        None => true,
    }
}

/// The texts of a plan behind its line, and what follows their line feed.
fn plan_texts<'a>(line: PlanLine, rest: &'a [u8]) -> Option<(PlanItem<'a>, &'a [u8])>
    ensures { MatchOption result (HasNoTexts line rest.now)
        (λ n. HasTexts line rest.now n.0 n.1.now) }
{
    let (plan, rest) = front_of(rest, line.plan)?;
    let (limits, rest) = front_of(rest, line.limits)?;
    let (end, rest) = rest.split_first()?;
    if *end != b'\n' {
        return None;
    }
    Some((
        PlanItem {
            day: line.day,
            plan,
            limits,
        },
        rest,
    ))
}

/// The first `count` bytes, and the others.
fn front_of(bytes: &[u8], count: u64) -> Option<(&[u8], &[u8])>
    ensures { MatchOption result (length bytes.now < count)
        (λ p. (length p.0.now ≡ count) × (bytes.now ≡ p.0.now ++ p.1.now)) }
{
    if (bytes.len() as u64) < count {
        return None;
    }
    Some(bytes.split_at(count as usize))
}

/// A run behind others, where there are to be more. Its names take no memory of their own where they are those of the run
/// before it.
fn next_run<'a>(
    alloc: Global,
    records: &[Record],
    line: &Line<'a>,
) -> Result<Option<(Item<'a>, &'a [u8])>, AllocError>
    requires rising { IsRising key_cmp key_of records.now }
    requires words { AreWordsOf line.now.text.now line.now.words.items }
    ensures { (runs steps count : ℕ) (plans : List SavedPlan) → length records.now < count →
        IfOk result (ReadsBehind (Fits (running runs steps plans count records.now)) line.now) }
{
    let Some(run) = read_run(alloc, line.text, line.words.as_slice())? else {
        return Ok(None);
    };
    if !is_beyond(records, &run) {
        return Ok(None);
    }
    let run = run.sharing_names(records.last())?;
    Ok(Some((Item::Run(run), line.rest)))
}

/// Whether a run's key is behind those of all runs.
fn is_beyond(records: &[Record], run: &Record) -> bool
    requires { IsRising key_cmp key_of records.now }
    ensures { MatchBool result (IsBeyond records.now run.now) (IsBeyond records.now run.now → ⊥) }
{
    match records.last() {
        Some(last) => last.key().cmp(&run.key()).is_lt(),
        None => true,
    }
}
