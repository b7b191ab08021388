//! The item of a text that isn't of its form, for the one who reads the text.
ghost use Rattle.std.specs.Prelude.{◌≡◌, ◌↔◌, ◌==◌, ◌-◌, ◌≤◌, IfOk, IsTrue, MatchOption, length, take};
ghost use Rattle.std.specs.List.{count_by, prefix_len};
ghost use Rattle.saved_items.specs.private.ItemViews.{front_in};
ghost use Rattle.saved_items.specs.WrongItems.{IsSavedBook, IsWrongItem, front_line, is_in_line};
ghost use Rattle.saved_items.specs.WrongItems.{line_behind, wanted_behind};

use crate::front::{Front, Stage};
use crate::reading::{is_end, item_count, read_front};
use std::alloc::{AllocError, Global};

/// What has to stand at a place of a saved book.
#[derive(Clone, Copy, Debug)]
pub enum Wanted {
    /// The title.
    Title,
    /// The last work.
    Work,
    /// The line before the plans.
    PlanCount,
    /// One more plan.
    Plan,
    /// The line before the runs.
    RunCount,
    /// One more run.
    Run,
    /// The last line.
    End,
}

impl Wanted {
    /// What this is, in plain words.
    pub fn words(self) -> &'static str {
        match self {
            Wanted::Title => "a saved book begins with the line `papbook 1`",
            Wanted::Work => {
                "the last work has to stand here: the line `work RUNS STEPS`, two whole numbers without leading zeros"
            }
            Wanted::PlanCount => {
                "the number of plans has to stand here: the line `plans P`, P at most 64"
            }
            Wanted::Plan => {
                "a plan has to stand here, one of as many as the line `plans P` says: the line `plan DAY A B`, of a later day than the plan before it, and then all A bytes of the flowchart's file, all B bytes of the range file and a line feed"
            }
            Wanted::RunCount => {
                "the number of runs has to stand here: the line `runs R`, R at most 50000"
            }
            Wanted::Run => {
                "a run has to stand here, one of as many as the line `runs R` says: the line `run EMP DAY NAME=VALUE ..`, in order of employee and day behind the run before it, with its names in order and its values as 7.50, not 007.50"
            }
            Wanted::End => {
                "the last line has to stand here: `end`, with a line feed and nothing behind it"
            }
        }
    }
}

/// The first item of a text that isn't of its form after the earlier ones.
#[derive(Clone, Copy, Debug)]
pub struct WrongItem<'a> {
    /// Its number, counted from 1: the first three lines, each plan, the line before the runs, each run, and the last line.
    pub item: u32,
    /// The line at which it would begin, counted from 1.
    pub line: usize,
    /// What stands in that line.
    pub found: &'a [u8],
    /// Whether the text ends in that line, before a line feed.
    pub is_cut: bool,
    /// What has to stand there.
    pub wanted: Wanted,
}

/// The first item of a text that isn't of its form. None where the text is a saved book.
pub fn wrong_item<'a>(alloc: Global, bytes: &'a [u8]) -> Result<Option<WrongItem<'a>>, AllocError>
    ensures { IfOk result (λ wrong.
        MatchOption wrong (IsSavedBook bytes.now) (IsWrongItem bytes.now)) }
{
    let (front, rest) = read_front(alloc, bytes)?;
    if is_end(&front, rest) {
        return Ok(None);
    }
    Ok(Some(WrongItem {
        item: item_count(&front) + 1,
        line: line_behind(bytes, rest),
        found: front_line(rest),
        is_cut: is_cut(rest),
        wanted: wanted_behind(&front),
    }))
}

/// The line in which what is left of a text begins, counted from 1.
fn line_behind(bytes: &[u8], rest: &[u8]) -> usize
    requires { length rest.now ≤ length bytes.now }
    ensures { result ≡ line_behind (take (length bytes.now - length rest.now) bytes.now) }
{
    feed_count(&bytes[..bytes.len() - rest.len()]) + 1
}

/// How many line feeds there are.
fn feed_count(bytes: &[u8]) -> usize
    ensures count { result ≡ count_by (λ b. b == 10) bytes.now }
    ensures few { result ≤ length bytes.now }
{
    bytes.iter().filter(|b| **b == b'\n').count()
}

/// What stands before the first line feed, or all where there is none.
fn front_line(bytes: &[u8]) -> &[u8]
    ensures { result.now ≡ front_line bytes.now }
{
    bytes.split_at(line_len(bytes)).0
}

/// Whether no line feed ends the line that stands first.
fn is_cut(bytes: &[u8]) -> bool
    ensures { IsTrue result ↔ (front_line bytes.now ≡ bytes.now) }
{
    line_len(bytes) == bytes.len()
}

/// How many bytes stand before the first line feed, or all.
fn line_len(bytes: &[u8]) -> usize
    ensures count { result ≡ prefix_len is_in_line bytes.now }
    ensures within { result ≤ length bytes.now }
{
    bytes.iter().take_while(|b| **b != b'\n').count()
}

/// What has to follow the items that were read.
fn wanted_behind(front: &Front) -> Wanted
    ensures { result ≡ wanted_behind (front_in front.now) }
{
    let plans = front.items.plans.len() as u64;
    let runs = front.items.records.len() as u64;
    match front.stage {
        Stage::Title => Wanted::Title,
        Stage::Work => Wanted::Work,
        Stage::PlanCount => Wanted::PlanCount,
        Stage::Plans { count } if plans < count => Wanted::Plan,
        Stage::Plans { .. } => Wanted::RunCount,
        Stage::Runs { count } if runs < count => Wanted::Run,
        Stage::Runs { .. } => Wanted::End,
    }
}
