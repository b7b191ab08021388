//! The drawing, from the top to the bottom in one pass.
ghost use Rattle.std.specs.Prelude.{◌≡◌, ◌++◌, [], ◌∷◌, OnOk, IfOk, IsTrue, map};
ghost use Rattle.chart_layout.specs.declared.choice.Arm.{out-Arm};
ghost use Rattle.chart_layout.specs.declared.choice.Choice.{out-Choice};
ghost use Rattle.chart_layout.specs.declared.drawing.Word.TheVariants.{Yes, No};
ghost use Rattle.chart_layout.specs.declared.leads.Exit.TheVariants.{Below};
ghost use Rattle.chart_layout.specs.declared.leads.Entry.TheVariants.{Into};
ghost use Rattle.chart_layout.specs.Drawn.{drawn_statement, drawn_call, joined_back, drawing_statements, drawing_rows, body_statements};
ghost use Rattle.chart_layout.specs.Trees.{stop, step, row_tree, shown_tree};
ghost use Rattle.chart_layout.specs.Leads.{at_way, drawing_ways, leads, leaving, lines, method_lines, ways_of, word_ways};
ghost use Rattle.chart_layout.specs.private.Drawn.{figure_statements, choice_statements, arm_statements};
ghost use Rattle.chart_layout.specs.private.Trees.{figure_tree, choice_tree};
ghost use Rattle.chart_layout.specs.private.Leads.{statements_in, ways_in, other_word, with_other, Leaves, LeavesArm};

use crate::build::MethodText;
use crate::choice::{Arm, Choice, Shape};
use crate::drawing::{Anchor, Drawing, Row, Word};
use crate::figure::{Body, End, Figure, row_height, row_width};
use crate::leads::{Entry, Exit, Rail, Way, both, one};
use crate::measures::{
    BELOW_RAIL, BRANCH_DROP, CALL_HEIGHT, CUT_GAP, EITHER_DROP, EMPTY_JOIN_GAP, JOIN_GAP,
    LEAST_TERMINATOR, LONGEST_PART, MARGIN, NOTE_CUT_GAP, NOTE_GAP, RAIL_GAP, RAIL_JOIN_GAP, SPINE,
    STEP, SYMBOL_GAP, TERMINATOR_HEIGHT, TERMINATOR_SIDE, WORD_CHAR, WORD_DROP, WORD_SIDE,
};
use crate::note::Note;
use crate::passage::Passage;
use crate::pen::Pen;
use crate::px::{Px, tenths};
use crate::statement::{Call, Statement};
use pap_tree::Name;
use std::alloc::{AllocError, Global};

/// The drawing of a method, with what a run did at its statements by their numbers: none where there is no run. Takes time linear in
/// its statements.
#[tactic(auto, using(crate::proofs::DrawnLemmas::by_parts))]
pub fn draw<'a>(
    alloc: Global,
    method: &'a MethodText,
    passages: &'a [Passage],
) -> Result<Drawing<'a>, AllocError>
    ensures statements { IfOk result (λ drawing.
        drawing_statements drawing.parts.items ≡ body_statements method.now.body) }
    // Each way of a test has its word.
    ensures ways { IfOk result (λ drawing.
        drawing_ways drawing.parts.items ≡ ways_of (shown_tree method.now.body)) }
    // From each exit a line leads to the next statement on its way, or to the end.
    ensures leads { IfOk result (λ drawing.
        drawing.leads.items ≡ method_lines (shown_tree method.now.body)) }
{
    let mut pen = Pen::new(alloc, passages);
    let height = pen.method(method)?;
    Ok(Drawing {
        width: method_width(method),
        height,
        parts: pen.parts,
        leads: pen.leads,
    })
}

/// The width of the drawing of a method.
fn method_width(method: &MethodText) -> Px {
    let symbols = start_width(&method.name).max(end_width(&method.name));
    method.body.width(End::Spine).max(symbols) + MARGIN + MARGIN
}

/// The width of the symbol with which a method begins.
fn start_width(name: &Name) -> Px {
    terminator_width(name.bytes().len())
}

/// The width of the symbol with which a method ends: END or RETURN.
fn end_width(name: &Name) -> Px {
    terminator_width(if *name == Name::main() { 3 } else { 6 })
}

/// The width of the symbol of a word with which a method begins or ends.
fn terminator_width(chars: usize) -> Px {
    let word = Px::of_tenths(tenths(chars, WORD_CHAR));
    (word + TERMINATOR_SIDE + TERMINATOR_SIDE).max(LEAST_TERMINATOR)
}

/// How far a body is drawn.
#[derive(Drop)]
pub(crate) struct Spot<'a> {
    /// Where the line of its spine ends so far.
    from: Px,
    /// The height at which the next figure is put.
    y: Px,
    /// The comments that stand last, which aren't drawn yet, and their top.
    note: Option<(Px, &'a Note)>,
    /// The exits whose lines have come together in the spine: they lead to what is put next.
    exits: Vec<Exit>,
}

impl<'a> Spot<'a> {
    /// A spine that ends at a height, with the lines of these exits.
    fn at(y: Px, exits: Vec<Exit>) -> Spot<'a>
        ensures { result.exits ≡ exits }
    {
        Spot {
            from: y,
            y,
            note: None,
            exits,
        }
    }

    /// The spot below comments.
    fn below_note(self, note: &'a Note) -> Spot<'a>
        ensures { result.exits ≡ self.entry.exits }
    {
        let top = self.y + NOTE_GAP;
        Spot {
            from: self.from,
            y: top + note.height(),
            note: Some((top, note)),
            exits: self.exits,
        }
    }
}

/// A test that is drawn, with the lines that leave it.
#[derive(Clone, Copy)]
struct Fork {
    /// The left edge of its body.
    x: Px,
    /// The height of its lower edge.
    bottom: Px,
    /// Its number.
    test: u32,
}

impl Fork {
    /// The spine of its body.
    fn spine(&self) -> Px {
        self.x + SPINE
    }

    /// The spine of its branch.
    fn side(&self) -> Px {
        self.x + SPINE + STEP
    }

    /// The exit of one of its ways.
    fn way(&self, word: Word) -> Exit
        ensures { result ≡ at_way self.now.test word }
    {
        Exit::Way(Way {
            test: self.test,
            word,
        })
    }
}

impl<'a> Pen<'a> {
    /// Draws a method, and answers the height of its drawing.
    fn method(&mut self, method: &'a MethodText) -> Result<Px, AllocError>
        ensures statements { OnOk result (statements_in (drawing_rows self.new.parts.items)
            ≡ statements_in (drawing_rows self.old.parts.items) ++ body_statements method.now.body) }
        ensures ways { OnOk result (ways_in (drawing_rows self.new.parts.items)
            ≡ ways_in (drawing_rows self.old.parts.items) ++ ways_of (shown_tree method.now.body)) }
        ensures leads { OnOk result (self.new.leads.items
            ≡ self.old.leads.items ++ method_lines (shown_tree method.now.body)) }
    {
        let x = MARGIN;
        self.row(Row::Start {
            x,
            y: MARGIN,
            width: start_width(&method.name),
        })?;
        let start = one(self.alloc, Exit::Start)?;
        let below = Spot::at(MARGIN + TERMINATOR_HEIGHT, start);
        let mut rail = Rail::new(self.alloc, x);
        let end = self.body(&method.body, x, below, End::Spine, &mut rail)?;
        let y = end.y + SYMBOL_GAP;
        let is_taken = self.is_taken(&end.exits);
        self.enter(x + SPINE, end.from, y, is_taken)?;
        self.lead(&end.exits, Entry::End)?;
        self.row(Row::End {
            x,
            y,
            width: end_width(&method.name),
        })?;
        Ok(y + TERMINATOR_HEIGHT + MARGIN)
    }

    /// Makes room for a symbol of a height below a spot, in a new part where it would end too far below the top of this one,
    /// and draws the comments above it and the line into it. Its upper edge.
    fn place(&mut self, x: Px, spot: &Spot<'a>, height: Px) -> Result<Px, AllocError>
        ensures rows { OnOk result (statements_in (drawing_rows self.new.parts.items)
            ≡ statements_in (drawing_rows self.old.parts.items)) }
        ensures ways { OnOk result (ways_in (drawing_rows self.new.parts.items)
            ≡ ways_in (drawing_rows self.old.parts.items)) }
        ensures leads { self.new.leads ≡ self.old.leads }
    {
        let y = spot.y + SYMBOL_GAP;
        let cut = match spot.note {
            Some((top, _)) => top - NOTE_CUT_GAP,
            None => y - CUT_GAP,
        };
        let top = self.top(self.last());
        if y + height > top + LONGEST_PART && cut > top {
            self.begin_part(cut)?;
        }
        self.note(x, spot)?;
        let is_taken = self.is_taken(&spot.exits);
        self.enter(x + SPINE, spot.from, y, is_taken)?;
        Ok(y)
    }

    /// Draws the comments that stand last.
    fn note(&mut self, x: Px, spot: &Spot<'a>) -> Result<(), AllocError>
        ensures rows { OnOk result (statements_in (drawing_rows self.new.parts.items)
            ≡ statements_in (drawing_rows self.old.parts.items)) }
        ensures ways { OnOk result (ways_in (drawing_rows self.new.parts.items)
            ≡ ways_in (drawing_rows self.old.parts.items)) }
        ensures leads { self.new.leads ≡ self.old.leads }
    {
        match spot.note {
            Some((y, note)) => self.row(Row::Note {
                x: x + SPINE,
                y,
                note,
            }),
            None => Ok(()),
        }
    }

    /// Leads these exits to a statement of one exit, and answers that.
    fn step(&mut self, exits: Vec<Exit>, number: u32) -> Result<Vec<Exit>, AllocError>
        ensures rows { self.new.parts ≡ self.old.parts }
        ensures leads { OnOk result (self.new.leads.items
            ≡ self.old.leads.items ++ leads exits.items (Into number)) }
        ensures exit { IfOk result (λ left. left.items ≡ Below number ∷ []) }
    {
        self.lead(&exits, Entry::Into(number))?;
        let mut exits = exits;
        exits.clear();
        exits.push(Exit::Below(number))?;
        Ok(exits)
    }

    /// Draws a body from a spot on, and answers where it ends. Where its end leads to the rail, an IF at its end takes that.
    #[cycle(draw)]
    fn body(
        &mut self,
        body: &'a Body,
        x: Px,
        spot: Spot<'a>,
        end: End,
        rail: &mut Rail,
    ) -> Result<Spot<'a>, AllocError>
        ensures statements { OnOk result (statements_in (drawing_rows self.new.parts.items)
            ≡ statements_in (drawing_rows self.old.parts.items) ++ body_statements body.now) }
        ensures ways { OnOk result (ways_in (drawing_rows self.new.parts.items)
            ≡ ways_in (drawing_rows self.old.parts.items) ++ ways_of (shown_tree body.now)) }
        ensures leads { OnOk result (self.new.leads.items
            ≡ self.old.leads.items ++ lines spot.entry.exits.items (shown_tree body.now)) }
        ensures leaves { IfOk result (λ s. Leaves end rail.old.exits.items rail.new.exits.items
            s.exits.items (leaving spot.entry.exits.items (shown_tree body.now))) }
    {
        let mut spot = spot;
        let count = body.figures.len();
        for (i, figure) in body.figures.iter().enumerate() {
            spot = self.figure(figure, x, spot, end.at(i, count), rail)?;
        }
        self.note(x, &spot)?;
        spot.note = None;
        Ok(spot)
    }

    /// Draws a figure.
    #[cycle(draw)]
    fn figure(
        &mut self,
        figure: &'a Figure,
        x: Px,
        spot: Spot<'a>,
        end: End,
        rail: &mut Rail,
    ) -> Result<Spot<'a>, AllocError>
        ensures statements { OnOk result (statements_in (drawing_rows self.new.parts.items)
            ≡ statements_in (drawing_rows self.old.parts.items) ++ figure_statements figure.now) }
        ensures ways { OnOk result (ways_in (drawing_rows self.new.parts.items)
            ≡ ways_in (drawing_rows self.old.parts.items) ++ ways_of (figure_tree figure.now)) }
        ensures leads { OnOk result (self.new.leads.items
            ≡ self.old.leads.items ++ lines spot.entry.exits.items (figure_tree figure.now)) }
        ensures leaves { IfOk result (λ s. Leaves end rail.old.exits.items rail.new.exits.items
            s.exits.items (leaving spot.entry.exits.items (figure_tree figure.now))) }
    {
        match figure {
            Figure::Note(note) => Ok(spot.below_note(note)),
            Figure::Box(row) => self.evaluations(row, x, spot),
            Figure::Call(call) => self.call(call, x, spot),
            Figure::Choice(choice) => self.choice(choice, x, spot, end, rail),
        }
    }

    /// Draws the box of some statements.
    #[tactic(auto, using(crate::proofs::LeadLemmas::row_has_no_way))]
    fn evaluations(
        &mut self,
        row: &'a [Statement],
        x: Px,
        spot: Spot<'a>,
    ) -> Result<Spot<'a>, AllocError>
        ensures statements { OnOk result (statements_in (drawing_rows self.new.parts.items)
            ≡ statements_in (drawing_rows self.old.parts.items) ++ map drawn_statement row.now) }
        ensures ways { OnOk result (ways_in (drawing_rows self.new.parts.items)
            ≡ ways_in (drawing_rows self.old.parts.items) ++ ways_of (row_tree row.now)) }
        ensures leads { OnOk result (self.new.leads.items
            ≡ self.old.leads.items ++ lines spot.entry.exits.items (row_tree row.now)) }
        ensures leaves { IfOk result (λ s. s.exits.items ≡ leaving spot.entry.exits.items (row_tree row.now)) }
    {
        let height = row_height(row);
        let width = row_width(row);
        let y = self.place(x, &spot, height)?;
        self.row(Row::Box {
            x,
            y,
            width,
            height,
            row,
        })?;
        let exits = self.in_turn(row, spot.exits)?;
        Ok(Spot::at(y + height, exits))
    }

    /// Leads exits through the statements of a box, and answers what leaves the last.
    fn in_turn(&mut self, row: &[Statement], exits: Vec<Exit>) -> Result<Vec<Exit>, AllocError>
        ensures rows { OnOk result (self.new.parts ≡ self.old.parts) }
        ensures leads { OnOk result (self.new.leads.items
            ≡ self.old.leads.items ++ lines exits.items (row_tree row.now)) }
        ensures exits { IfOk result (λ left. left.items ≡ leaving exits.items (row_tree row.now)) }
    {
        let mut exits = exits;
        for statement in row {
            exits = self.step(exits, statement.number)?;
        }
        Ok(exits)
    }

    /// Draws an EXECUTE.
    fn call(&mut self, call: &'a Call, x: Px, spot: Spot<'a>) -> Result<Spot<'a>, AllocError>
        ensures statements { OnOk result (statements_in (drawing_rows self.new.parts.items)
            ≡ statements_in (drawing_rows self.old.parts.items) ++ (drawn_call call.now ∷ [])) }
        ensures ways { OnOk result (ways_in (drawing_rows self.new.parts.items)
            ≡ ways_in (drawing_rows self.old.parts.items) ++ ways_of (step call.now.number stop)) }
        ensures leads { OnOk result (self.new.leads.items
            ≡ self.old.leads.items ++ lines spot.entry.exits.items (step call.now.number stop)) }
        ensures leaves { IfOk result (λ s. s.exits.items ≡ leaving spot.entry.exits.items (step call.now.number stop)) }
    {
        let y = self.place(x, &spot, CALL_HEIGHT)?;
        self.row(Row::Call { x, y, call })?;
        let exits = self.step(spot.exits, call.number)?;
        Ok(Spot::at(y + CALL_HEIGHT, exits))
    }

    /// Draws an IF.
    #[cycle(draw)]
    fn choice(
        &mut self,
        choice: &'a Choice,
        x: Px,
        spot: Spot<'a>,
        end: End,
        rail: &mut Rail,
    ) -> Result<Spot<'a>, AllocError>
        ensures statements { OnOk result (statements_in (drawing_rows self.new.parts.items)
            ≡ statements_in (drawing_rows self.old.parts.items) ++ choice_statements choice.now) }
        ensures ways { OnOk result (ways_in (drawing_rows self.new.parts.items)
            ≡ ways_in (drawing_rows self.old.parts.items) ++ ways_of (choice_tree choice.now)) }
        ensures leads { OnOk result (self.new.leads.items
            ≡ self.old.leads.items ++ lines spot.entry.exits.items (choice_tree choice.now)) }
        ensures leaves { IfOk result (λ s. Leaves end rail.old.exits.items rail.new.exits.items
            s.exits.items (leaving spot.entry.exits.items (choice_tree choice.now))) }
    {
        let first = &choice.first;
        match choice.shape() {
            Shape::Then => {
                let fork = self.fork(first, x, spot, Word::Yes)?;
                self.one_way(fork, &first.then, Word::Yes, rail)
            }
            Shape::Else => {
                let fork = self.fork(first, x, spot, Word::No)?;
                self.one_way(fork, &choice.otherwise, Word::No, rail)
            }
            Shape::Nothing => {
                let fork = self.test(first, x, spot)?;
                self.either(fork)
            }
            Shape::Rail => self.ways(choice, x, spot, end, rail),
        }
    }

    /// Draws the test of an arm, with the comments above it.
    fn test(&mut self, arm: &'a Arm, x: Px, spot: Spot<'a>) -> Result<Fork, AllocError>
        ensures statements { OnOk result (statements_in (drawing_rows self.new.parts.items)
            ≡ statements_in (drawing_rows self.old.parts.items)
            ++ drawn_statement (out-Arm arm.now).test ∷ []) }
        ensures ways { OnOk result (ways_in (drawing_rows self.new.parts.items)
            ≡ ways_in (drawing_rows self.old.parts.items)) }
        ensures leads { OnOk result (self.new.leads.items ≡ self.old.leads.items
            ++ leads spot.entry.exits.items (Into (out-Arm arm.now).test.number)) }
        ensures number { IfOk result (λ fork. fork.test ≡ (out-Arm arm.now).test.number) }
    {
        let spot = match &arm.note {
            Some(note) => spot.below_note(note),
            None => spot,
        };
        let height = arm.test.test_height();
        let y = self.place(x, &spot, height)?;
        let test = &arm.test;
        self.row(Row::Test { x, y, test })?;
        self.lead(&spot.exits, Entry::Into(test.number))?;
        Ok(Fork {
            x,
            bottom: y + height,
            test: test.number,
        })
    }

    /// Draws the test of an arm with the words of its two ways, of which one leads to the right.
    fn fork(&mut self, arm: &'a Arm, x: Px, spot: Spot<'a>, aside: Word) -> Result<Fork, AllocError>
        ensures statements { OnOk result (statements_in (drawing_rows self.new.parts.items)
            ≡ statements_in (drawing_rows self.old.parts.items)
            ++ drawn_statement (out-Arm arm.now).test ∷ []) }
        ensures ways { OnOk result (ways_in (drawing_rows self.new.parts.items)
            ≡ ways_in (drawing_rows self.old.parts.items)
            ++ (at_way (out-Arm arm.now).test.number Yes ∷ (at_way (out-Arm arm.now).test.number No ∷ []))) }
        ensures leads { OnOk result (self.new.leads.items ≡ self.old.leads.items
            ++ leads spot.entry.exits.items (Into (out-Arm arm.now).test.number)) }
        ensures number { IfOk result (λ fork. fork.test ≡ (out-Arm arm.now).test.number) }
    {
        let fork = self.test(arm, x, spot)?;
        self.word(fork, Word::Yes, aside == Word::Yes)?;
        self.word(fork, Word::No, aside == Word::No)?;
        Ok(fork)
    }

    /// Draws the word of a way, beside the line with which it begins.
    fn word(&mut self, fork: Fork, word: Word, is_aside: bool) -> Result<(), AllocError>
        ensures statements { OnOk result (statements_in (drawing_rows self.new.parts.items)
            ≡ statements_in (drawing_rows self.old.parts.items)) }
        ensures ways { OnOk result (ways_in (drawing_rows self.new.parts.items)
            ≡ ways_in (drawing_rows self.old.parts.items) ++ word_ways fork.test word) }
        ensures leads { self.new.leads ≡ self.old.leads }
    {
        let (x, anchor) = if is_aside {
            (fork.side() + WORD_SIDE, Anchor::Begins)
        } else {
            (fork.spine() - WORD_SIDE, Anchor::Ends)
        };
        self.row(Row::Word {
            x,
            y: fork.bottom + WORD_DROP,
            test: fork.test,
            word,
            anchor,
        })
    }

    /// Draws the branch of a test to the right, and answers where it ends.
    #[cycle(draw)]
    fn branch(
        &mut self,
        fork: Fork,
        branch: &'a Body,
        word: Word,
        end: End,
        rail: &mut Rail,
    ) -> Result<Spot<'a>, AllocError>
        ensures statements { OnOk result (statements_in (drawing_rows self.new.parts.items)
            ≡ statements_in (drawing_rows self.old.parts.items) ++ body_statements branch.now) }
        ensures ways { OnOk result (ways_in (drawing_rows self.new.parts.items)
            ≡ ways_in (drawing_rows self.old.parts.items) ++ ways_of (shown_tree branch.now)) }
        ensures leads { OnOk result (self.new.leads.items
            ≡ self.old.leads.items ++ lines (at_way fork.test word ∷ []) (shown_tree branch.now)) }
        ensures leaves { IfOk result (λ s. Leaves end rail.old.exits.items rail.new.exits.items
            s.exits.items (leaving (at_way fork.test word ∷ []) (shown_tree branch.now))) }
    {
        let y = fork.bottom + BRANCH_DROP;
        let way = one(self.alloc, fork.way(word))?;
        let is_taken = self.is_taken(&way);
        self.vertical(fork.side(), fork.bottom, y, is_taken)?;
        self.body(branch, fork.x + STEP, Spot::at(y, way), end, rail)
    }

    /// Draws the one branch that a test has: to the right and back.
    #[cycle(draw)]
    fn one_way(
        &mut self,
        fork: Fork,
        branch: &'a Body,
        word: Word,
        rail: &mut Rail,
    ) -> Result<Spot<'a>, AllocError>
        ensures statements { OnOk result (statements_in (drawing_rows self.new.parts.items)
            ≡ statements_in (drawing_rows self.old.parts.items) ++ body_statements branch.now) }
        ensures ways { OnOk result (ways_in (drawing_rows self.new.parts.items)
            ≡ ways_in (drawing_rows self.old.parts.items) ++ ways_of (shown_tree branch.now)) }
        ensures leads { OnOk result (self.new.leads.items
            ≡ self.old.leads.items ++ lines (at_way fork.test word ∷ []) (shown_tree branch.now)) }
        ensures leaves { IfOk result (λ s. s.exits.items ≡ with_other word
            (leaving (at_way fork.test word ∷ []) (shown_tree branch.now))
            (at_way fork.test (other_word word) ∷ [])) }
        ensures rail { OnOk result (rail.new.exits.items ≡ rail.old.exits.items) }
    {
        let end = self.branch(fork, branch, word, End::Spine, rail)?;
        self.come_back(fork, end, word)
    }

    /// Draws the way back from the end of the one branch of a word.
    fn come_back(&mut self, fork: Fork, end: Spot<'a>, word: Word) -> Result<Spot<'a>, AllocError>
        ensures rows { OnOk result (statements_in (drawing_rows self.new.parts.items)
            ≡ statements_in (drawing_rows self.old.parts.items)) }
        ensures ways { OnOk result (ways_in (drawing_rows self.new.parts.items)
            ≡ ways_in (drawing_rows self.old.parts.items)) }
        ensures leads { self.new.leads ≡ self.old.leads }
        ensures exits { IfOk result (λ spot. spot.exits.items
            ≡ with_other word end.entry.exits.items (at_way fork.test (other_word word) ∷ [])) }
    {
        let y = end.y + JOIN_GAP;
        let down = one(self.alloc, fork.way(other(word)))?;
        let comes_back = self.is_taken(&end.exits);
        let goes_down = self.is_taken(&down);
        self.vertical(fork.side(), end.from, y, comes_back)?;
        self.vertical(fork.spine(), fork.bottom, y, goes_down)?;
        self.horizontal(fork.spine(), y, fork.side(), comes_back)?;
        self.head(fork.spine(), y, true, comes_back)?;
        let exits = match word {
            Word::No => both(down, &end.exits)?,
            Word::Yes | Word::YesOrNo => both(end.exits, &down)?,
        };
        Ok(Spot::at(y, exits))
    }

    /// Draws the line of a test that leads down both ways, with its word.
    fn either(&mut self, fork: Fork) -> Result<Spot<'a>, AllocError>
        ensures statements { OnOk result (statements_in (drawing_rows self.new.parts.items)
            ≡ statements_in (drawing_rows self.old.parts.items)) }
        ensures ways { OnOk result (ways_in (drawing_rows self.new.parts.items)
            ≡ ways_in (drawing_rows self.old.parts.items) ++ (at_way fork.test Yes ∷ (at_way fork.test No ∷ []))) }
        ensures leads { self.new.leads ≡ self.old.leads }
        ensures exits { IfOk result (λ s. s.exits.items ≡ at_way fork.test Yes ∷ (at_way fork.test No ∷ [])) }
    {
        let y = fork.bottom + EITHER_DROP;
        let mut ways = one(self.alloc, fork.way(Word::Yes))?;
        ways.push(fork.way(Word::No))?;
        let is_taken = self.is_taken(&ways);
        self.vertical(fork.spine(), fork.bottom, y, is_taken)?;
        self.row(Row::Word {
            x: fork.spine() + WORD_SIDE,
            y: fork.bottom + WORD_DROP,
            test: fork.test,
            word: Word::YesOrNo,
            anchor: Anchor::Begins,
        })?;
        Ok(Spot::at(y, ways))
    }

    /// Draws an IF whose branches come together by a rail: that to which the end of its body leads, or one of its own.
    #[cycle(draw)]
    fn ways(
        &mut self,
        choice: &'a Choice,
        x: Px,
        spot: Spot<'a>,
        end: End,
        rail: &mut Rail,
    ) -> Result<Spot<'a>, AllocError>
        ensures statements { OnOk result (statements_in (drawing_rows self.new.parts.items)
            ≡ statements_in (drawing_rows self.old.parts.items) ++ choice_statements choice.now) }
        ensures ways { OnOk result (ways_in (drawing_rows self.new.parts.items)
            ≡ ways_in (drawing_rows self.old.parts.items) ++ ways_of (choice_tree choice.now)) }
        ensures leads { OnOk result (self.new.leads.items
            ≡ self.old.leads.items ++ lines spot.entry.exits.items (choice_tree choice.now)) }
        ensures leaves { IfOk result (λ s. Leaves end rail.old.exits.items rail.new.exits.items
            s.exits.items (leaving spot.entry.exits.items (choice_tree choice.now))) }
    {
        match end {
            End::Rail => self.along(choice, x, spot, rail, false),
            End::Spine => self.around(choice, x, spot),
        }
    }

    /// Draws an IF with a rail of its own.
    #[cycle(draw)]
    fn around(&mut self, choice: &'a Choice, x: Px, spot: Spot<'a>) -> Result<Spot<'a>, AllocError>
        ensures statements { OnOk result (statements_in (drawing_rows self.new.parts.items)
            ≡ statements_in (drawing_rows self.old.parts.items) ++ choice_statements choice.now) }
        ensures ways { OnOk result (ways_in (drawing_rows self.new.parts.items)
            ≡ ways_in (drawing_rows self.old.parts.items) ++ ways_of (choice_tree choice.now)) }
        ensures leads { OnOk result (self.new.leads.items
            ≡ self.old.leads.items ++ lines spot.entry.exits.items (choice_tree choice.now)) }
        ensures leaves { IfOk result (λ s. s.exits.items ≡ leaving spot.entry.exits.items (choice_tree choice.now)) }
    {
        let mut rail = Rail::new(self.alloc, x + choice.inner() + RAIL_GAP);
        let end = self.along(choice, x, spot, &mut rail, true)?;
        let y = if choice.ends_in_branch() {
            end.y
        } else {
            end.y + RAIL_JOIN_GAP
        };
        self.close_rail(&rail, x + SPINE, end.from, y, &end.exits)?;
        let exits = both(rail.exits, &end.exits)?;
        Ok(Spot::at(y, exits))
    }

    /// Draws the arms of an IF and its ELSE beside a rail.
    #[cycle(draw)]
    fn along(
        &mut self,
        choice: &'a Choice,
        x: Px,
        spot: Spot<'a>,
        rail: &mut Rail,
        is_own: bool,
    ) -> Result<Spot<'a>, AllocError>
        ensures statements { OnOk result (statements_in (drawing_rows self.new.parts.items)
            ≡ statements_in (drawing_rows self.old.parts.items) ++ choice_statements choice.now) }
        ensures ways { OnOk result (ways_in (drawing_rows self.new.parts.items)
            ≡ ways_in (drawing_rows self.old.parts.items) ++ ways_of (choice_tree choice.now)) }
        ensures leads { OnOk result (self.new.leads.items
            ≡ self.old.leads.items ++ lines spot.entry.exits.items (choice_tree choice.now)) }
        ensures leaves { IfOk result (λ s. rail.new.exits.items ++ s.exits.items
            ≡ rail.old.exits.items ++ leaving spot.entry.exits.items (choice_tree choice.now)) }
    {
        let end = self.arms(choice, x, spot, rail, is_own)?;
        self.body(&choice.otherwise, x, end, End::Rail, rail)
    }

    /// Draws the arms of an IF, whose branches go to a rail.
    #[cycle(draw)]
    fn arms(
        &mut self,
        choice: &'a Choice,
        x: Px,
        spot: Spot<'a>,
        rail: &mut Rail,
        is_own: bool,
    ) -> Result<Spot<'a>, AllocError>
        ensures statements { OnOk result (statements_in (drawing_rows self.new.parts.items)
            ≡ statements_in (drawing_rows self.old.parts.items)
            ++ (arm_statements (out-Choice choice.now).first
            ++ joined_back (map arm_statements (out-Choice choice.now).later.items))) }
        ensures ways { OnOk result (ways_in (drawing_rows self.new.parts.items)
            ++ ways_of (shown_tree (out-Choice choice.now).otherwise)
            ≡ ways_in (drawing_rows self.old.parts.items) ++ ways_of (choice_tree choice.now)) }
        ensures leads { IfOk result (λ s.
            self.new.leads.items
            ++ lines s.exits.items (shown_tree (out-Choice choice.now).otherwise)
            ≡ self.old.leads.items ++ lines spot.entry.exits.items (choice_tree choice.now)) }
        ensures leaves { IfOk result (λ s. rail.new.exits.items
            ++ leaving s.exits.items (shown_tree (out-Choice choice.now).otherwise)
            ≡ rail.old.exits.items ++ leaving spot.entry.exits.items (choice_tree choice.now)) }
    {
        let mut left = choice.later.len();
        let mut spot = self.arm(&choice.first, x, spot, rail, is_own, choice.is_end(left))?;
        while left > 0 {
            left -= 1;
            spot = self.arm(
                &choice.later[left],
                x,
                spot,
                rail,
                is_own,
                choice.is_end(left),
            )?;
        }
        Ok(spot)
    }

    /// Draws an arm whose branch goes to a rail. Where the branch is all that is left and the rail is the IF's own, it ends at the
    /// spine, to which the rail comes back there.
    #[cycle(draw)]
    fn arm(
        &mut self,
        arm: &'a Arm,
        x: Px,
        spot: Spot<'a>,
        rail: &mut Rail,
        is_own: bool,
        is_end: bool,
    ) -> Result<Spot<'a>, AllocError>
        ensures statements { OnOk result (statements_in (drawing_rows self.new.parts.items)
            ≡ statements_in (drawing_rows self.old.parts.items) ++ arm_statements arm.now) }
        ensures ways { OnOk result (ways_in (drawing_rows self.new.parts.items)
            ≡ ways_in (drawing_rows self.old.parts.items) ++ (at_way (out-Arm arm.now).test.number Yes ∷ (at_way (out-Arm arm.now).test.number No
            ∷ ways_of (shown_tree (out-Arm arm.now).then)))) }
        ensures leads { OnOk result (self.new.leads.items
            ≡ self.old.leads.items ++ (leads spot.entry.exits.items (Into (out-Arm arm.now).test.number)
            ++ lines (at_way (out-Arm arm.now).test.number Yes ∷ [])
            (shown_tree (out-Arm arm.now).then))) }
        ensures leaves { IfOk result (λ s. LeavesArm is_end rail.old.exits.items rail.new.exits.items
            s.exits.items
            (leaving (at_way (out-Arm arm.now).test.number Yes ∷ []) (shown_tree (out-Arm arm.now).then))
            (at_way (out-Arm arm.now).test.number No ∷ [])) }
    {
        if is_end && arm.then.is_empty() {
            let fork = self.test(arm, x, spot)?;
            self.either(fork)
        } else {
            let fork = self.fork(arm, x, spot, Word::Yes)?;
            self.to_rail(fork, &arm.then, rail, is_end && is_own)
        }
    }

    /// Draws a branch that ends at a rail, or at the spine where the rail comes back.
    #[cycle(draw)]
    fn to_rail(
        &mut self,
        fork: Fork,
        branch: &'a Body,
        rail: &mut Rail,
        is_closing: bool,
    ) -> Result<Spot<'a>, AllocError>
        ensures statements { OnOk result (statements_in (drawing_rows self.new.parts.items)
            ≡ statements_in (drawing_rows self.old.parts.items) ++ body_statements branch.now) }
        ensures ways { OnOk result (ways_in (drawing_rows self.new.parts.items)
            ≡ ways_in (drawing_rows self.old.parts.items) ++ ways_of (shown_tree branch.now)) }
        ensures leads { OnOk result (self.new.leads.items
            ≡ self.old.leads.items ++ lines (at_way fork.test Yes ∷ []) (shown_tree branch.now)) }
        ensures leaves { IfOk result (λ s. LeavesArm is_closing rail.old.exits.items rail.new.exits.items
            s.exits.items (leaving (at_way fork.test Yes ∷ []) (shown_tree branch.now))
            (at_way fork.test No ∷ [])) }
    {
        let end = self.branch(fork, branch, Word::Yes, End::Rail, rail)?;
        let gap = if branch.is_empty() {
            EMPTY_JOIN_GAP
        } else {
            JOIN_GAP
        };
        let y = end.y + gap;
        let is_taken = self.is_taken(&end.exits);
        self.vertical(fork.side(), end.from, y, is_taken)?;
        self.leave_branch(fork, y, end.exits, rail, is_closing)
    }

    /// Draws what leaves the end of a branch: the way to the rail, and the spine beside the branch.
    fn leave_branch(
        &mut self,
        fork: Fork,
        y: Px,
        exits: Vec<Exit>,
        rail: &mut Rail,
        is_closing: bool,
    ) -> Result<Spot<'a>, AllocError>
        ensures rows { OnOk result (statements_in (drawing_rows self.new.parts.items)
            ≡ statements_in (drawing_rows self.old.parts.items)) }
        ensures ways { OnOk result (ways_in (drawing_rows self.new.parts.items)
            ≡ ways_in (drawing_rows self.old.parts.items)) }
        ensures leads { self.new.leads ≡ self.old.leads }
        ensures leaves { IfOk result (λ s. LeavesArm is_closing rail.old.exits.items rail.new.exits.items
            s.exits.items exits.items (at_way fork.test No ∷ [])) }
    {
        let down = one(self.alloc, fork.way(Word::No))?;
        let is_taken = self.is_taken(&down);
        if is_closing {
            self.vertical(fork.spine(), fork.bottom, y, is_taken)?;
            return Ok(Spot::at(y, both(exits, &down)?));
        }
        self.meet_rail(rail, fork.side(), y, &exits)?;
        let end = y + BELOW_RAIL;
        self.vertical(fork.spine(), fork.bottom, end, is_taken)?;
        Ok(Spot::at(end, down))
    }
}

/// The word of the other way.
fn other(word: Word) -> Word
    ensures { result ≡ other_word word }
{
    match word {
        Word::Yes => Word::No,
        Word::No => Word::Yes,
        Word::YesOrNo => Word::YesOrNo,
    }
}
