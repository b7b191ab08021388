//! An IF, with those that stand alone in its ELSE.
ghost use Rattle.std.specs.Prelude.{◌≡◌, IsTrue};
ghost use Rattle.chart_layout.specs.Trees.{stop};
ghost use Rattle.chart_layout.specs.private.Drawn.{HasShape};
ghost use Rattle.chart_layout.specs.private.Trees.{behind_arms};

use crate::figure::{Body, End};
use crate::measures::{RAIL_ROOM, STEP};
use crate::note::Note;
use crate::px::Px;
use crate::statement::Statement;

/// A test with its THEN. An ELSE with one IF and nothing else makes that test the next arm.
#[cycle(figure)]
#[derive(Drop)]
pub struct Arm {
    /// The comments above the test of a later arm.
    pub note: Option<Note>,
    pub test: Statement,
    pub then: Body,
}

/// The tests of an IF and its last ELSE, which may be empty.
#[cycle(figure)]
#[derive(Drop)]
pub struct Choice {
    pub first: Arm,
    /// The other arms, from the last to the second.
    pub later: Vec<Arm>,
    pub otherwise: Body,
}

/// How the branches of an IF come together.
#[derive(Clone, Copy)]
pub(crate) enum Shape {
    /// THEN alone: to the right and back.
    Then,
    /// ELSE alone: to the right and back, with the words exchanged.
    Else,
    /// Nothing on either way.
    Nothing,
    /// By a rail at the right.
    Rail,
}

impl Choice {
    /// How its branches come together.
    pub(crate) fn shape(&self) -> Shape
        ensures { HasShape self.now result }
    {
        if !self.later.is_empty() {
            return Shape::Rail;
        }
        match (self.first.then.is_empty(), self.otherwise.is_empty()) {
            (false, true) => Shape::Then,
            (true, false) => Shape::Else,
            (true, true) => Shape::Nothing,
            (false, false) => Shape::Rail,
        }
    }

    /// Whether the last arm's branch is all that its end has: there is no ELSE.
    pub(crate) fn ends_in_branch(&self) -> bool {
        let last = self.later.first().unwrap_or(&self.first);
        self.otherwise.is_empty() && !last.then.is_empty()
    }

    /// Whether nothing comes behind the arm that stands before so many of the later ones.
    pub(crate) fn is_end(&self, left: usize) -> bool
        ensures { IsTrue result → behind_arms self.now left ≡ stop }
    {
        left == 0 && self.otherwise.is_empty()
    }

    /// The room inside its rail, or all where it has none.
    pub(crate) fn inner(&self) -> Px {
        let (end, indent) = match self.shape() {
            Shape::Rail => (End::Rail, Px(0)),
            Shape::Else => (End::Spine, STEP),
            Shape::Then | Shape::Nothing => (End::Spine, Px(0)),
        };
        let otherwise = self.otherwise.width(end) + indent;
        let mut width = self.first.width(end).max(otherwise);
        for arm in &self.later {
            width = width.max(arm.width(end));
        }
        width
    }

    /// How much room it takes, where it stands at the end of a body with that end. A rail of its own
    /// takes some.
    pub(crate) fn width(&self, end: End) -> Px {
        match (self.shape(), end) {
            (Shape::Rail, End::Spine) => self.inner() + RAIL_ROOM,
            _ => self.inner(),
        }
    }
}

impl Arm {
    /// How much room its test, its comments and its branch take, where that has this end.
    fn width(&self, end: End) -> Px {
        let note = match &self.note {
            Some(note) => note.width(),
            None => Px(0),
        };
        let then = self.then.width(end) + STEP;
        self.test.test_width().max(note).max(then)
    }
}
