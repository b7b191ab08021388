//! The lines of statements.
ghost use Rattle.std.specs.Prelude.{◌≡◌, ◌++◌, IfOk, OnOk};
ghost use Rattle.plan_notes.specs.declared.tag.Starts.TheVariants.{Of, OfStatements};
ghost use Rattle.plan_notes.specs.Walks.{is_start};
ghost use Rattle.source_lines.specs.Lines.{statement_lines, starts_before, lines_of_file, line_at};

use crate::cursor::{first_spot, spot_of};
use plan_notes::{Element, Mark};
use std::alloc::{AllocError, Global};
use std::marker::Model;

/// The lines of a file on which statements begin.
#[derive(Drop)]
pub struct SourceLines {
    /// Of each method, how many statements of the file begin before it: MAIN first, and then the others.
    firsts: Vec<usize>,
    /// The line of each statement, in the order of the file.
    lines: Vec<usize>,
}

impl Model for SourceLines {
    ghost use Rattle.source_lines.specs.Lines.{FileLines};

    ghost Value = { FileLines };

    ghost view = { λ l. record { firsts = l.firsts.items; lines = l.lines.items } };
}

impl SourceLines {
    /// The line on which a statement begins, counted from 1: of MAIN, which is method 0, or of the others, from 1 in the order of
    /// the file. `None` where the file has none there.
    pub fn line(&self, method: usize, statement: usize) -> Option<usize>
        ensures { result ≡ line_at self.now method statement }
    {
        let first = *self.firsts.get(method)?;
        let lines = self.lines.get(first..)?;
        lines.get(statement).copied()
    }
}

/// The lines on which the statements of a file with these tags begin. Takes time linear in the file where the tags stand in its
/// order. Fails only for lack of memory.
pub fn source_lines(alloc: Global, file: &[u8], marks: &[Mark]) -> Result<SourceLines, AllocError>
    ensures { IfOk result (λ lines. lines ≡ lines_of_file file.now marks.now) }
{
    let mut firsts = Vec::new(alloc);
    add_firsts(&mut firsts, marks, Element::Main)?;
    add_firsts(&mut firsts, marks, Element::Method)?;
    let lines = statement_lines(alloc, file, marks)?;
    Ok(SourceLines { firsts, lines })
}

/// Whether a statement begins at a tag.
fn starts_statement(mark: &Mark) -> bool
    ensures { result ≡ is_start OfStatements mark.now }
{
    let is_statement = matches!(mark.element, Element::Eval | Element::Execute | Element::If);
    is_statement && !mark.is_end
}

/// Whether an element begins at a tag.
fn starts(mark: &Mark, element: Element) -> bool
    ensures { result ≡ is_start (Of element) mark.now }
{
    mark.element == element && !mark.is_end
}

/// Appends, for each start tag of an element, how many statements begin before it.
#[tactic(auto, using(crate::proofs::LineLemmas::one_first, crate::proofs::LineLemmas::one_counted, crate::proofs::LineLemmas::one_passed))]
fn add_firsts(firsts: &mut Vec<usize>, marks: &[Mark], element: Element) -> Result<(), AllocError>
    ensures { OnOk result (firsts.new.items
        ≡ firsts.old.items ++ starts_before element 0 marks.now) }
{
    let mut count = 0;
    for mark in marks {
        if starts(mark, element) {
            firsts.push(count)?;
        } else if starts_statement(mark) {
            count += 1;
        }
    }
    Ok(())
}

/// The line of each statement, in the order of the tags.
#[tactic(auto, using(crate::proofs::LineLemmas::one_line, crate::proofs::LineLemmas::no_line))]
fn statement_lines(alloc: Global, file: &[u8], marks: &[Mark]) -> Result<Vec<usize>, AllocError>
    ensures { IfOk result (λ lines. lines.items ≡ statement_lines file.now marks.now) }
{
    let mut lines = Vec::new(alloc);
    let mut spot = first_spot(file);
    for mark in marks {
        if starts_statement(mark) {
            spot = spot_of(file, spot, mark.at);
            lines.push(spot.line)?;
        }
    }
    Ok(lines)
}
