//! From the statements of a plan's file to figures.
ghost use Rattle.std.specs.Prelude.{◌≡◌, ◌++◌, [], ◌∷◌, IsTrue, IfOk, OnOk, map};
ghost use Rattle.pap_tree.specs.Grammar.{Level, Assignment, assignment};
ghost use Rattle.pap_tree.specs.Term.{term_of};
ghost use Rattle.pap_reader.specs.Trees.{raw_body_of};
ghost use Rattle.chart_layout.specs.Drawn.{drawn_statement, body_statements};
ghost use Rattle.chart_layout.specs.private.Drawn.{arm_statements, choice_statements, figures_statements};
ghost use Rattle.chart_layout.specs.Statements.{expression, execution, statements_of, is_number, meaning_text, IsSpelledAs, AreDrawn};
ghost use Rattle.chart_layout.specs.private.Statements.{statements_in, after, next_drawn, Adds};
ghost use Rattle.chart_layout.specs.Trees.{stop, step, fork, above, drawing_of, row_tree, shown_tree};
ghost use Rattle.chart_layout.specs.private.Trees.{arm_tree, choice_tree, figures_tree, drawing_in};
ghost use Rattle.chart_layout.specs.Counts.{count_of};

use crate::choice::{Arm, Choice};
use crate::figure::{Body, Figure, row_height};
use crate::measures::{
    BOX_SIDE, HIGHEST_BOX, LEAST_ROOM, STATEMENT_GAP, STEP, TEST_SIDE, WIDEST_ROOM,
};
use crate::note::Note;
use crate::passage::{Passage, passage_at};
use crate::px::Px;
use crate::statement::{Call, Site, Statement};
use pap_expr::{ExprFault, parse_assign, parse_expr};
use pap_reader::RawStmt;
use pap_tree::{Expr, Name, print_expr};
use plan_notes::{Element, Walk};
use std::alloc::{AllocError, Global};

/// A method as it is drawn.
#[derive(Drop)]
pub struct MethodText {
    pub name: Name,
    /// Its body.
    pub body: Body,
    /// How many statements it has.
    pub count: u32,
}

/// The statements of a method, in the order of the file, with numbers from 0. The walk stands behind its start tag: the comments
/// before each tag come from there. `refused` is the number of the statement for which the plan is refused, and `passages` says by
/// their numbers what a run did at the statements, none where there is no run.
pub fn read_method<'a>(
    alloc: Global,
    name: Name,
    statements: &[RawStmt],
    walk: Walk<'a>,
    refused: Option<u32>,
    passages: &'a [Passage],
) -> Result<MethodText, AllocError>
    ensures name { IfOk result (λ method. method.name ≡ name) }
    ensures statements { IfOk result (λ method.
        AreDrawn refused 0 (statements_of (raw_body_of statements.now)) (body_statements method.body)) }
    // What it shows is the file's body: the figures of THEN and of ELSE at their ways, and what follows behind both.
    ensures tree { IfOk result (λ method.
        shown_tree method.body ≡ drawing_of 0 (raw_body_of statements.now)) }
    ensures count { IfOk result (λ method. method.count
        ≡ count_of (statements_of (raw_body_of statements.now))) }
{
    let mut builder = Builder {
        alloc,
        method: name,
        walk,
        numbering: Numbering { next: 0, refused },
        passages,
    };
    let mut figures = Vec::new(alloc);
    builder.body(statements, 0, &mut figures)?;
    Ok(MethodText {
        name,
        body: Body::new(figures),
        count: builder.numbering.next,
    })
}

/// The reading of a method.
#[derive(Drop)]
struct Builder<'a> {
    alloc: Global,
    method: Name,
    walk: Walk<'a>,
    numbering: Numbering,
    /// What a run did at the statements, by their numbers.
    passages: &'a [Passage],
}

/// The numbers of a method's statements.
#[derive(Clone, Copy)]
struct Numbering {
    /// That of the next statement: how many were read.
    next: u32,
    /// That of the statement for which the plan is refused.
    refused: Option<u32>,
}

impl Builder<'_> {
    /// Appends the figures of a body, up to its end tag, with the comments before that. `depth` is the number of THENs around
    /// it.
    #[cycle(build)]
    fn body(
        &mut self,
        statements: &[RawStmt],
        depth: u32,
        figures: &mut Vec<Figure>,
    ) -> Result<(), AllocError>
        ensures statements { OnOk result (Adds self.old.numbering self.new.numbering
            (statements_of (raw_body_of statements.now))
            (figures_statements figures.old.items) (figures_statements figures.new.items)) }
        ensures tree { OnOk result (figures_tree figures.new.items
            ≡ above (figures_tree figures.old.items)
            (drawing_of self.old.numbering.next (raw_body_of statements.now))) }
    {
        for statement in statements {
            self.statement(statement, depth, figures)?;
        }
        self.next_tag(depth, figures)
    }

    /// Appends the figures of a statement, with the comments before it.
    #[cycle(build)]
    fn statement(
        &mut self,
        statement: &RawStmt,
        depth: u32,
        figures: &mut Vec<Figure>,
    ) -> Result<(), AllocError>
        ensures statements { OnOk result (Adds self.old.numbering self.new.numbering (statements_in statement.now)
            (figures_statements figures.old.items) (figures_statements figures.new.items)) }
        ensures tree { OnOk result (figures_tree figures.new.items
            ≡ above (figures_tree figures.old.items) (drawing_in self.old.numbering.next statement.now)) }
    {
        self.next_tag(depth, figures)?;
        match statement {
            RawStmt::Eval { exec } => self.evaluation(exec, depth, figures)?,
            RawStmt::Execute { method } => self.execution(*method, figures)?,
            RawStmt::If { test, yes, no } => {
                let test = self.next_test(test, depth)?;
                let then = self.branch(yes, depth.saturating_add(1))?;
                let otherwise = self.otherwise(no, depth, then.is_empty())?;
                push_choice(self.alloc, figures, test, then, otherwise)?;
            }
        }
        self.next_tag(depth, figures)
    }

    /// Appends the figures of an EVAL.
    fn evaluation(
        &mut self,
        exec: &[u8],
        depth: u32,
        figures: &mut Vec<Figure>,
    ) -> Result<(), AllocError>
        ensures statements { OnOk result (Adds self.old.numbering self.new.numbering
            (expression Assignment exec.now ∷ [])
            (figures_statements figures.old.items) (figures_statements figures.new.items)) }
        ensures tree { OnOk result (figures_tree figures.new.items
            ≡ above (figures_tree figures.old.items) (step self.old.numbering.next stop)) }
    {
        let text = spelled_assignment(self.alloc, exec)?;
        let statement = self.written(text, depth, BOX_SIDE)?;
        push_evaluation(self.alloc, figures, statement)
    }

    /// Appends the figure of an EXECUTE.
    fn execution(&mut self, method: Name, figures: &mut Vec<Figure>) -> Result<(), AllocError>
        ensures statements { OnOk result (Adds self.old.numbering self.new.numbering (execution method ∷ [])
            (figures_statements figures.old.items) (figures_statements figures.new.items)) }
        ensures tree { OnOk result (figures_tree figures.new.items
            ≡ above (figures_tree figures.old.items) (step self.old.numbering.next stop)) }
    {
        let site = self.site();
        figures.push(Figure::Call(Call::new(site, method)))?;
        Ok(())
    }

    /// The figures of ELSE, none where there is no ELSE. `is_alone` says that THEN has none.
    #[cycle(build)]
    fn otherwise(
        &mut self,
        no: &[RawStmt],
        depth: u32,
        is_alone: bool,
    ) -> Result<Vec<Figure>, AllocError>
        ensures statements { IfOk result (λ figures. Adds self.old.numbering self.new.numbering
            (statements_of (raw_body_of no.now)) [] (figures_statements figures.items)) }
        ensures tree { IfOk result (λ figures. figures_tree figures.items
            ≡ drawing_of self.old.numbering.next (raw_body_of no.now)) }
    {
        if no.is_empty() && !self.walk.is_at(Element::Else) {
            Ok(Vec::new(self.alloc))
        } else {
            self.branch(no, else_depth(depth, is_alone, no))
        }
    }

    /// The figures of a branch, with the comments before its start tag.
    #[cycle(build)]
    fn branch(&mut self, statements: &[RawStmt], depth: u32) -> Result<Vec<Figure>, AllocError>
        ensures statements { IfOk result (λ figures. Adds self.old.numbering self.new.numbering
            (statements_of (raw_body_of statements.now)) [] (figures_statements figures.items)) }
        ensures tree { IfOk result (λ figures. figures_tree figures.items
            ≡ drawing_of self.old.numbering.next (raw_body_of statements.now)) }
    {
        let mut figures = Vec::new(self.alloc);
        self.next_tag(depth, &mut figures)?;
        self.body(statements, depth, &mut figures)?;
        Ok(figures)
    }

    /// Appends the comments before the next tag, and goes past it.
    fn next_tag(&mut self, depth: u32, figures: &mut Vec<Figure>) -> Result<(), AllocError>
        ensures numbering { self.new.numbering ≡ self.old.numbering }
        ensures same { OnOk result
            (figures_statements figures.new.items ≡ figures_statements figures.old.items) }
        ensures tree { OnOk result
            (figures_tree figures.new.items ≡ figures_tree figures.old.items) }
    {
        let comments = self.walk.next_tag();
        push_comments(self.alloc, figures, comments, room_at(depth))
    }

    /// The next statement, which is the test of an IF.
    #[tactic(auto, using(crate::proofs::AddingLemmas::test_drawn))]
    fn next_test(&mut self, test: &[u8], depth: u32) -> Result<Statement, AllocError>
        ensures numbering { OnOk result (self.new.numbering ≡ after self.old.numbering) }
        ensures drawn { IfOk result (λ s.
            AreDrawn self.old.numbering.refused self.old.numbering.next
            (expression (Level 0) test.now ∷ []) (drawn_statement s ∷ [])) }
    {
        let text = spelled_test(self.alloc, test)?;
        let statement = self.written(text, depth, TEST_SIDE)?;
        Ok(statement)
    }

    /// The next statement, of a text that stands in a symbol with so much room on each side.
    fn written(&mut self, text: Vec<u8>, depth: u32, side: Px) -> Result<Statement, AllocError>
        ensures numbering { self.new.numbering ≡ after self.old.numbering }
        ensures drawn { IfOk result (λ s.
            drawn_statement s ≡ next_drawn self.old.numbering text.items) }
    {
        let site = self.site();
        let room = room_at(depth) - side - side;
        Statement::new(self.alloc, site, text, room)
    }

    /// The place of the next statement.
    fn site(&mut self) -> Site
        ensures numbering { self.new.numbering ≡ after self.old.numbering }
        ensures number { result.number ≡ self.old.numbering.next }
        ensures refused { result.is_refused
            ≡ is_number self.old.numbering.refused self.old.numbering.next }
    {
        let number = self.numbering.next;
        self.numbering.next = number.saturating_add(1);
        let is_refused = self.numbering.refused == Some(number);
        let signs = if is_refused { 9 } else { 1 };
        let name = self.method.bytes().len();
        Site {
            number,
            is_refused,
            chars: name.saturating_add(digits(number)).saturating_add(signs),
            passage: passage_at(self.passages, number),
        }
    }
}

/// The room of a body with some THENs around it: its right edge stays where it is.
fn room_at(depth: u32) -> Px {
    (WIDEST_ROOM - STEP.times(depth as usize)).max(LEAST_ROOM)
}

/// The least numbers of two digits and more.
const TENS: [u32; 9] = [
    10,
    100,
    1_000,
    10_000,
    100_000,
    1_000_000,
    10_000_000,
    100_000_000,
    1_000_000_000,
];

/// How many digits a number has.
fn digits(number: u32) -> usize {
    TENS.iter().filter(|least| number >= **least).count() + 1
}

/// How deep an ELSE stands: where it alone has statements, it is the branch to the right.
fn else_depth(depth: u32, is_alone: bool, statements: &[RawStmt]) -> u32 {
    if is_alone && !is_one_if(statements) {
        depth.saturating_add(1)
    } else {
        depth
    }
}

/// Whether an ELSE has one IF and nothing else.
fn is_one_if(statements: &[RawStmt]) -> bool {
    matches!(statements, [RawStmt::If { .. }])
}

/// Appends comments: to those that stand last, where some do.
#[tactic(auto, using(crate::proofs::DrawnLemmas::figures_push))]
fn push_comments(
    alloc: Global,
    figures: &mut Vec<Figure>,
    comments: &[String],
    room: Px,
) -> Result<(), AllocError>
    ensures statements { OnOk result
        (figures_statements figures.new.items ≡ figures_statements figures.old.items) }
    ensures tree { OnOk result
        (figures_tree figures.new.items ≡ figures_tree figures.old.items) }
{
    if comments.is_empty() {
        return Ok(());
    }
    let mut note = last_note(alloc, figures)?;
    note.append(alloc, comments, room)?;
    figures.push(Figure::Note(note))?;
    Ok(())
}

/// Takes out the comments that stand last, if some do.
#[tactic(auto, using(crate::proofs::DrawnLemmas::figures_push))]
fn last_note(alloc: Global, figures: &mut Vec<Figure>) -> Result<Note, AllocError>
    ensures statements { OnOk result
        (figures_statements figures.new.items ≡ figures_statements figures.old.items) }
    ensures tree { OnOk result
        (figures_tree figures.new.items ≡ figures_tree figures.old.items) }
{
    match figures.pop() {
        Some(Figure::Note(note)) => return Ok(note),
        Some(last) => figures.push(last)?,
        None => {}
    }
    Ok(Note {
        lines: Vec::new(alloc),
    })
}

/// Appends an IF of a test, its THEN and its ELSE.
fn push_choice(
    alloc: Global,
    figures: &mut Vec<Figure>,
    test: Statement,
    then: Vec<Figure>,
    otherwise: Vec<Figure>,
) -> Result<(), AllocError>
    ensures statements { OnOk result (figures_statements figures.new.items
        ≡ figures_statements figures.old.items
        ++ (drawn_statement test
        ∷ (figures_statements then.items ++ figures_statements otherwise.items))) }
    ensures tree { OnOk result (figures_tree figures.new.items
        ≡ above (figures_tree figures.old.items)
        (fork test.number (figures_tree then.items) (figures_tree otherwise.items) stop)) }
{
    let choice = joined(alloc, test, Body::new(then), otherwise)?;
    figures.push(Figure::Choice(choice))?;
    Ok(())
}

/// An IF of a test, its THEN and what stands in its ELSE: one IF alone, with comments before it at most, gives its arms.
#[tactic(auto, using(crate::proofs::DrawnLemmas::figures_push))]
fn joined(
    alloc: Global,
    test: Statement,
    then: Body,
    mut otherwise: Vec<Figure>,
) -> Result<Choice, AllocError>
    ensures statements { IfOk result (λ choice. choice_statements choice
        ≡ drawn_statement test ∷ (body_statements then ++ figures_statements otherwise.items)) }
    ensures tree { IfOk result (λ choice. choice_tree choice
        ≡ fork test.number (shown_tree then) (figures_tree otherwise.items) stop) }
{
    let first = Arm {
        note: None,
        test,
        then,
    };
    match otherwise.pop() {
        Some(Figure::Choice(choice)) if are_comments(&otherwise) => {
            cascade(first, note_of(otherwise.pop()), choice)
        }
        Some(last) => {
            otherwise.push(last)?;
            Ok(one_arm(alloc, first, otherwise))
        }
        None => Ok(one_arm(alloc, first, otherwise)),
    }
}

/// Whether figures are comments at most.
fn are_comments(figures: &[Figure]) -> bool
    ensures statements { IsTrue result → figures_statements figures.now ≡ [] }
    ensures tree { IsTrue result → figures_tree figures.now ≡ stop }
{
    matches!(figures, [] | [Figure::Note(_)])
}

/// The comments of a figure that is nothing else.
fn note_of(figure: Option<Figure>) -> Option<Note> {
    match figure {
        Some(Figure::Note(note)) => Some(note),
        _ => None,
    }
}

/// An IF of one arm.
fn one_arm(alloc: Global, first: Arm, otherwise: Vec<Figure>) -> Choice
    ensures statements { choice_statements result
        ≡ arm_statements first ++ figures_statements otherwise.items }
    ensures tree { choice_tree result ≡ arm_tree first (figures_tree otherwise.items) }
{
    Choice {
        first,
        later: Vec::new(alloc),
        otherwise: Body::new(otherwise),
    }
}

/// An IF of an arm and those of the IF that stands alone in its ELSE, with the comments before that.
fn cascade(first: Arm, note: Option<Note>, choice: Choice) -> Result<Choice, AllocError>
    ensures statements { IfOk result (λ whole. choice_statements whole
        ≡ arm_statements first ++ choice_statements choice) }
    ensures tree { IfOk result (λ whole. choice_tree whole
        ≡ arm_tree first (choice_tree choice)) }
{
    let Choice {
        first: second,
        mut later,
        otherwise,
    } = choice;
    later.push(Arm {
        note,
        test: second.test,
        then: second.then,
    })?;
    Ok(Choice {
        first,
        later,
        otherwise,
    })
}

/// Appends an EVAL: to the box before it, where that has room.
#[tactic(auto, using(crate::proofs::DrawnLemmas::figures_push))]
fn push_evaluation(
    alloc: Global,
    figures: &mut Vec<Figure>,
    statement: Statement,
) -> Result<(), AllocError>
    ensures statements { OnOk result (figures_statements figures.new.items
        ≡ figures_statements figures.old.items ++ drawn_statement statement ∷ []) }
    ensures tree { OnOk result (figures_tree figures.new.items
        ≡ above (figures_tree figures.old.items) (step statement.number stop)) }
{
    let mut row = last_box(alloc, figures, statement.height())?;
    row.push(statement)?;
    figures.push(Figure::Box(row))?;
    Ok(())
}

/// Takes out the statements of the box that stands last, if it has room for one more of a height.
#[tactic(auto, using(crate::proofs::DrawnLemmas::figures_push, crate::proofs::TreeLemmas::tree_push, crate::proofs::TreeLemmas::above_stop))]
fn last_box(
    alloc: Global,
    figures: &mut Vec<Figure>,
    height: Px,
) -> Result<Vec<Statement>, AllocError>
    ensures statements { IfOk result (λ row. figures_statements figures.old.items
        ≡ figures_statements figures.new.items ++ map drawn_statement row.items) }
    ensures tree { IfOk result (λ row. figures_tree figures.old.items
        ≡ above (figures_tree figures.new.items) (row_tree row.items)) }
{
    match figures.pop() {
        Some(Figure::Box(row)) => {
            if row_height(&row) + height + STATEMENT_GAP <= HIGHEST_BOX {
                return Ok(row);
            }
            figures.push(Figure::Box(row))?;
        }
        Some(last) => figures.push(last)?,
        None => {}
    }
    Ok(Vec::new(alloc))
}

/// An assignment in its canonical spelling, or as it is written where it isn't one.
fn spelled_assignment(alloc: Global, text: &[u8]) -> Result<Vec<u8>, AllocError>
    ensures { IfOk result (λ spelling. IsSpelledAs Assignment text.now spelling.items) }
{
    match parse_assign(alloc, text) {
        Ok((target, value)) => assignment_text(alloc, target, &value),
        Err(ExprFault::Memory) => Err(AllocError),
        Err(_) => Vec::from_slice(alloc, text),
    }
}

/// An assignment in its canonical spelling.
fn assignment_text(alloc: Global, target: Name, value: &Expr) -> Result<Vec<u8>, AllocError>
    ensures { IfOk result
        (λ text. text.items ≡ meaning_text (assignment target (term_of value.now))) }
{
    let value = print_expr(alloc, value)?;
    let mut spelled = Vec::from_slice(alloc, target.bytes())?;
    spelled.extend_from_slice(b" = ")?;
    spelled.extend_from_slice(&value)?;
    Ok(spelled)
}

/// A test in its canonical spelling, or as it is written where it isn't one.
fn spelled_test(alloc: Global, text: &[u8]) -> Result<Vec<u8>, AllocError>
    ensures { IfOk result (λ spelling. IsSpelledAs (Level 0) text.now spelling.items) }
{
    match parse_expr(alloc, text) {
        Ok(test) => print_expr(alloc, &test),
        Err(ExprFault::Memory) => Err(AllocError),
        Err(_) => Vec::from_slice(alloc, text),
    }
}
