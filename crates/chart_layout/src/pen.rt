//! The pen that draws rows and lines.
ghost use Rattle.std.specs.Prelude.{◌≡◌, ◌<◌, ◌++◌, [], OnOk, vec_len};
ghost use Rattle.chart_layout.specs.Drawn.{drawing_rows, row_statements};
ghost use Rattle.chart_layout.specs.private.Leads.{statements_in, ways_in};
ghost use Rattle.chart_layout.specs.Leads.{leads, row_ways};

use crate::drawing::{Head, Part, Row, Stroke};
use crate::leads::{Entry, Exit, Lead, Rail};
use crate::passage::{Passage, is_taken};
use crate::px::Px;
use std::alloc::{AllocError, Global};

/// What is drawn so far.
#[derive(Drop)]
pub(crate) struct Pen<'a> {
    pub alloc: Global,
    pub parts: Vec<Part<'a>>,
    pub leads: Vec<Lead>,
    /// What a run did at the statements, by their numbers.
    passages: &'a [Passage],
}

impl<'a> Pen<'a> {
    /// A pen that has drawn nothing.
    pub(crate) fn new(alloc: Global, passages: &'a [Passage]) -> Pen<'a>
        ensures rows { drawing_rows result.parts.items ≡ [] }
        ensures leads { result.leads.items ≡ [] }
    {
        Pen {
            alloc,
            parts: Vec::new(alloc),
            leads: Vec::new(alloc),
            passages,
        }
    }

    /// Whether a run left one of these exits.
    pub(crate) fn is_taken(&self, exits: &[Exit]) -> bool {
        is_taken(self.passages, exits)
    }

    /// Where a part begins.
    pub(crate) fn top(&self, part: usize) -> Px {
        match self.parts.get(part) {
            Some(part) => part.top,
            None => Px(0),
        }
    }

    /// The number of the last part.
    pub(crate) fn last(&self) -> usize {
        self.parts.len().saturating_sub(1)
    }

    /// Begins a part.
    pub(crate) fn begin_part(&mut self, top: Px) -> Result<(), AllocError>
        ensures same { OnOk result (drawing_rows self.new.parts.items
            ≡ drawing_rows self.old.parts.items) }
        ensures leads { self.new.leads ≡ self.old.leads }
        ensures some { OnOk result (0 < vec_len self.new.parts) }
    {
        self.parts.push(Part::new(self.alloc, top))?;
        Ok(())
    }

    /// Begins the first part, where there is none.
    fn begin(&mut self) -> Result<(), AllocError>
        ensures same { OnOk result (drawing_rows self.new.parts.items
            ≡ drawing_rows self.old.parts.items) }
        ensures leads { self.new.leads ≡ self.old.leads }
        ensures some { OnOk result (0 < vec_len self.new.parts) }
    {
        if self.parts.is_empty() {
            self.begin_part(Px(0))
        } else {
            Ok(())
        }
    }

    /// Appends a symbol or a word to the last part; the first row begins one.
    pub(crate) fn row(&mut self, row: Row<'a>) -> Result<(), AllocError>
        ensures statements { OnOk result (statements_in (drawing_rows self.new.parts.items)
            ≡ statements_in (drawing_rows self.old.parts.items) ++ row_statements row.entry) }
        ensures ways { OnOk result (ways_in (drawing_rows self.new.parts.items)
            ≡ ways_in (drawing_rows self.old.parts.items) ++ row_ways row.entry) }
        ensures leads { self.new.leads ≡ self.old.leads }
    {
        self.begin()?;
        if let Some(part) = self.parts.last_mut() {
            part.rows.push(row)?;
        }
        Ok(())
    }

    /// Draws a vertical line, cut where parts begin.
    pub(crate) fn vertical(
        &mut self,
        x: Px,
        y: Px,
        end: Px,
        is_taken: bool,
    ) -> Result<(), AllocError>
        ensures same { OnOk result (drawing_rows self.new.parts.items
            ≡ drawing_rows self.old.parts.items) }
        ensures leads { self.new.leads ≡ self.old.leads }
    {
        let mut end = end;
        for number in (0..self.parts.len()).rev() {
            let top = self.top(number);
            self.piece(
                number,
                Stroke {
                    x,
                    y: top.max(y),
                    end,
                    is_taken,
                },
            )?;
            if top <= y {
                return Ok(());
            }
            end = top;
        }
        Ok(())
    }

    /// Draws a vertical line in a part.
    fn piece(&mut self, part: usize, stroke: Stroke) -> Result<(), AllocError>
        ensures same { OnOk result (drawing_rows self.new.parts.items
            ≡ drawing_rows self.old.parts.items) }
        ensures leads { self.new.leads ≡ self.old.leads }
    {
        if let Some(part) = self.parts.get_mut(part) {
            part.verticals.push(stroke)?;
        }
        Ok(())
    }

    /// Draws a horizontal line to the right.
    pub(crate) fn horizontal(
        &mut self,
        x: Px,
        y: Px,
        end: Px,
        is_taken: bool,
    ) -> Result<(), AllocError>
        ensures same { OnOk result (drawing_rows self.new.parts.items
            ≡ drawing_rows self.old.parts.items) }
        ensures leads { self.new.leads ≡ self.old.leads }
    {
        if let Some(part) = self.parts.last_mut() {
            part.horizontals.push(Stroke {
                x,
                y,
                end,
                is_taken,
            })?;
        }
        Ok(())
    }

    /// Draws an arrowhead.
    pub(crate) fn head(
        &mut self,
        x: Px,
        y: Px,
        is_left: bool,
        is_taken: bool,
    ) -> Result<(), AllocError>
        ensures same { OnOk result (drawing_rows self.new.parts.items
            ≡ drawing_rows self.old.parts.items) }
        ensures leads { self.new.leads ≡ self.old.leads }
    {
        if let Some(part) = self.parts.last_mut() {
            part.heads.push(Head {
                x,
                y,
                is_left,
                is_taken,
            })?;
        }
        Ok(())
    }

    /// Draws the line into a symbol from above.
    pub(crate) fn enter(
        &mut self,
        spine: Px,
        from: Px,
        y: Px,
        is_taken: bool,
    ) -> Result<(), AllocError>
        ensures same { OnOk result (drawing_rows self.new.parts.items
            ≡ drawing_rows self.old.parts.items) }
        ensures leads { self.new.leads ≡ self.old.leads }
    {
        self.vertical(spine, from, y, is_taken)?;
        self.head(spine, y, false, is_taken)
    }

    /// Notes that these exits lead to an entry.
    pub(crate) fn lead(&mut self, exits: &[Exit], entry: Entry) -> Result<(), AllocError>
        ensures rows { self.new.parts ≡ self.old.parts }
        ensures leads { OnOk result (self.new.leads.items
            ≡ self.old.leads.items ++ leads exits.now entry) }
    {
        for exit in exits {
            self.leads.push(Lead { exit: *exit, entry })?;
        }
        Ok(())
    }

    /// Draws the line from a branch to a rail, where its exits go on.
    pub(crate) fn meet_rail(
        &mut self,
        rail: &mut Rail,
        x: Px,
        y: Px,
        exits: &[Exit],
    ) -> Result<(), AllocError>
        ensures same { OnOk result (drawing_rows self.new.parts.items
            ≡ drawing_rows self.old.parts.items) }
        ensures leads { self.new.leads ≡ self.old.leads }
        ensures exits { OnOk result (rail.new.exits.items ≡ rail.old.exits.items ++ exits.now) }
    {
        let is_taken = self.is_taken(exits);
        if rail.top.is_none() {
            rail.top = Some(y);
        }
        if is_taken && rail.taken.is_none() {
            rail.taken = Some(y);
        }
        rail.exits.extend_from_slice(exits)?;
        self.horizontal(x, y, rail.x, is_taken)
    }

    /// Draws the rest of a spine, which these exits leave, and the rail that comes back to it.
    pub(crate) fn close_rail(
        &mut self,
        rail: &Rail,
        spine: Px,
        from: Px,
        y: Px,
        exits: &[Exit],
    ) -> Result<(), AllocError>
        ensures same { OnOk result (drawing_rows self.new.parts.items
            ≡ drawing_rows self.old.parts.items) }
        ensures leads { self.new.leads ≡ self.old.leads }
    {
        if from < y {
            let is_taken = self.is_taken(exits);
            self.vertical(spine, from, y, is_taken)?;
        }
        let is_taken = rail.taken.is_some();
        let taken = rail.taken.unwrap_or(y);
        if let Some(top) = rail.top
            && top < taken
        {
            self.vertical(rail.x, top, taken, false)?;
        }
        if is_taken {
            self.vertical(rail.x, taken, y, true)?;
        }
        self.horizontal(spine, y, rail.x, is_taken)?;
        self.head(spine, y, true, is_taken)
    }
}
