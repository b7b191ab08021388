//! What a body is drawn as.
ghost use Rattle.std.specs.Prelude.{◌≡◌, ◌↔◌, ◌+◌, ◌<◌, [], IsTrue};
ghost use Rattle.chart_layout.specs.Drawn.{body_statements, IsBlank};
ghost use Rattle.chart_layout.specs.Trees.{shown_tree, stop};
ghost use Rattle.chart_layout.specs.private.Drawn.{figures_statements};
ghost use Rattle.chart_layout.specs.private.Trees.{figures_tree};
ghost use Rattle.chart_layout.specs.private.Leads.{end_behind};

use crate::choice::Choice;
use crate::measures::{LEAST_SYMBOL, STATEMENT_GAP, TEXT_DROP};
use crate::note::Note;
use crate::px::Px;
use crate::statement::{Call, Statement};

/// A symbol, or a comment beside the spine.
#[cycle(figure)]
#[derive(Drop)]
pub enum Figure {
    Note(Note),
    /// EVALs in a row, in one box.
    Box(Vec<Statement>),
    Call(Call),
    Choice(Choice),
}

/// The statements of a method, a THEN or an ELSE, from the top to the bottom.
#[cycle(figure)]
#[derive(Drop)]
pub struct Body {
    pub figures: Vec<Figure>,
    /// Its width where it ends on its own spine.
    alone: Px,
    /// Its width where its end leads to a rail, which an IF at its end takes.
    shared: Px,
}

/// Whose line a body's end joins.
#[derive(Clone, Copy)]
pub(crate) enum End {
    /// That of its own spine.
    Spine,
    /// The rail at the right.
    Rail,
}

impl End {
    /// That of the figures of a body with this end up to one of a number, of so many: the last alone has it.
    pub(crate) fn at(self, number: usize, count: usize) -> End
        requires { number < count }
        ensures { result ≡ end_behind (number + 1) count self }
    {
        if number + 1 < count { End::Spine } else { self }
    }
}

impl Body {
    /// A body of these figures.
    pub(crate) fn new(figures: Vec<Figure>) -> Body
        ensures statements { body_statements result ≡ figures_statements figures.items }
        ensures tree { shown_tree result ≡ figures_tree figures.items }
    {
        let mut front = Px(0);
        let mut alone = Px(0);
        let mut shared = Px(0);
        for figure in &figures {
            front = alone;
            alone = front.max(figure.width(End::Spine));
            shared = front.max(figure.width(End::Rail));
        }
        Body {
            figures,
            alone,
            shared,
        }
    }

    /// Whether nothing stands in it, no comment either.
    pub fn is_empty(&self) -> bool
        ensures blank { IsTrue result ↔ IsBlank self.now }
        ensures statements { IsTrue result → body_statements self.now ≡ [] }
        ensures tree { IsTrue result → shown_tree self.now ≡ stop }
    {
        self.figures.is_empty()
    }

    /// How much room it takes.
    pub(crate) fn width(&self, end: End) -> Px {
        match end {
            End::Spine => self.alone,
            End::Rail => self.shared,
        }
    }
}

impl Figure {
    /// How much room it takes, where it stands at the end of a body with that end.
    fn width(&self, end: End) -> Px {
        match self {
            Figure::Note(note) => note.width(),
            Figure::Box(row) => row_width(row),
            Figure::Call(call) => call.width(),
            Figure::Choice(choice) => choice.width(end),
        }
    }
}

/// The width of the box of some statements.
pub(crate) fn row_width(row: &[Statement]) -> Px {
    let mut width = LEAST_SYMBOL;
    for statement in row {
        width = width.max(statement.box_width());
    }
    width
}

/// The height of the box of some statements, with the room between them, above them and below them.
pub(crate) fn row_height(row: &[Statement]) -> Px {
    let mut height = TEXT_DROP + TEXT_DROP - STATEMENT_GAP;
    for statement in row {
        height = height + statement.height() + STATEMENT_GAP;
    }
    height
}
