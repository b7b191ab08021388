//! What a walk over a flowchart's ranges found, whether it passes or is refused.
ghost use Rattle.std.specs.Prelude.{◌≡◌, option_map};
ghost use Rattle.range_marks.specs.RangeMarks.{failing_of, failing_in, walk_findings, findings_in, refused_findings};

use interval_analysis::{RangeFault, RefusedSurvey, Survey, ValueRange};
use interval_num::RangeCause;
use pap_tree::{Name, Place};
use std::collections::{BTreeMap, BTreeSet};

/// A node at which a walk stops.
#[derive(Clone, Copy)]
pub struct FailingNode<'a> {
    /// Its statement, by its method and its number there.
    pub place: (Name, u32),
    /// Why it may fail.
    pub cause: RangeCause,
    /// The ranges that its operands have there, from the left.
    pub operands: &'a [ValueRange],
}

/// What a walk found.
#[derive(Clone, Copy)]
pub struct Findings<'a> {
    /// The statements to which it came.
    pub reached: &'a BTreeSet<(Name, u32)>,
    /// The least range of what each EVAL among them puts.
    pub values: &'a BTreeMap<(Name, u32), ValueRange>,
    /// The exits of IFs that were open.
    pub exits: &'a BTreeSet<(Name, u32, bool)>,
    /// The node at which it stopped, where it did.
    pub failing: Option<FailingNode<'a>>,
}

impl<'a> Findings<'a> {
    /// What a walk found that passes.
    pub fn of(survey: &'a Survey) -> Findings<'a>
        ensures { walk_findings result ≡ findings_in survey.now }
    {
        Findings {
            reached: &survey.reached,
            values: &survey.values,
            exits: &survey.exits,
            failing: None,
        }
    }

    /// What a walk found that is refused.
    pub fn refused(refused: &'a RefusedSurvey) -> Findings<'a>
        ensures { walk_findings result ≡ refused_findings refused.now }
    {
        Findings {
            reached: &refused.reached,
            values: &refused.values,
            exits: &refused.exits,
            failing: failing_node(&refused.fault, refused.operands.as_slice()),
        }
    }
}

/// The node for which a walk is refused, where it is for one.
fn failing_node<'a>(fault: &RangeFault, operands: &'a [ValueRange]) -> Option<FailingNode<'a>>
    ensures { option_map failing_of result ≡ failing_in fault.now operands.now }
{
    match fault {
        RangeFault::At { place, cause } => Some(failing_at(place, *cause, operands)),
        RangeFault::Output { .. } | RangeFault::Memory(_) => None,
    }
}

/// The node at a place.
fn failing_at<'a>(place: &Place, cause: RangeCause, operands: &'a [ValueRange]) -> FailingNode<'a>
    ensures { failing_of result ≡ record {
      place = (place.now.method, place.now.stmt);
      cause = cause;
      operands = operands.now;
    } }
{
    FailingNode {
        place: (place.method, place.stmt),
        cause,
        operands,
    }
}
