//! The ranges where two branches meet.
//!
//! Where two branches meet only what a branch has changed is joined: each change notes the range that it replaced.
//! The shorter list of an IF is walked first and left again by its notes, which is noted too. Then the longer list
//! is walked, and stays in place: its notes lead back to the ranges behind the shorter one, with which it is
//! joined. A range that contains the other at the same scales is their join, and isn't computed.
ghost use Rattle.std.specs.Prelude.{◌≡◌, ◌≤◌, length, drop};
ghost use Rattle.interval_num.specs.Rows.{join_row};
ghost use Rattle.interval_analysis.specs.private.Changes.{AreKept};
ghost use Rattle.interval_analysis.specs.private.Notes.{AreDistinct, TakesBackAs, taken_back};
ghost use Rattle.interval_analysis.specs.private.Meetings.{MeetsAnswer, is_around};

use crate::branches::Change;
use crate::expressions::Stop;
use crate::variables::{Variables, is_kept};
use interval_num::{Abs, RangeCause, join};

/// Joins the ranges of the variables with those behind the other branch, to which the notes behind so many take back. Only what
/// is noted is joined. Where two ranges have no join the cause is at the node `root`.
pub(crate) fn meet(root: u32, variables: &mut Variables, mark: usize) -> Result<(), Stop>
    requires kept { AreKept variables.old.ranges.items }
    requires mark { mark ≤ length variables.old.notes.items }
    ensures meets { MeetsAnswer root variables.old.ranges.items
        (taken_back variables.old.ranges.items (drop mark variables.old.notes.items))
        variables.new.ranges.items result }
    ensures back { TakesBackAs mark variables.old variables.new }
    ensures kept { AreKept variables.new.ranges.items }
{
    variables.drop_repeats(mark)?;
    join_noted(root, &mut variables.ranges, &variables.notes[mark..])
}

/// Joins the range of each variable that is noted with the one in its note.
fn join_noted(root: u32, ranges: &mut [Abs], notes: &[Change]) -> Result<(), Stop>
    requires kept { AreKept ranges.old }
    requires distinct { AreDistinct notes.now }
    ensures meets { MeetsAnswer root ranges.old (taken_back ranges.old notes.now)
        ranges.new result }
    ensures back { taken_back ranges.new notes.now ≡ taken_back ranges.old notes.now }
    ensures kept { AreKept ranges.new }
{
    for note in notes {
        let number = note.number;
        if number < ranges.len() {
            match joined(ranges[number], note.range) {
                Ok(range) => {
                    is_kept(range);
                    ranges[number] = range;
                }
                Err(cause) => return Err(Stop::At { node: root, cause }),
            }
        }
    }
    Ok(())
}

/// The join of two ranges, which is one of them where that contains the other at the same places.
fn joined(range: Abs, other: Abs) -> Result<Abs, RangeCause>
    ensures { result ≡ join_row range other }
{
    is_kept(range);
    is_kept(other);
    if is_around(range, other) {
        return Ok(range);
    }
    if is_around(other, range) {
        return Ok(other);
    }
    join(range, other)
}

/// Whether a range contains another at the same places.
fn is_around(range: Abs, other: Abs) -> bool
    ensures { result ≡ is_around range other }
{
    range.s_hi() == other.s_hi()
        && range.s_lo() <= other.s_lo()
        && range.lo() <= other.lo()
        && other.hi() <= range.hi()
}
