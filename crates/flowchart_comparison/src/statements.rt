//! The lines of a method.
ghost use Rattle.std.specs.Prelude.{◌≡◌, ◌≤◌, ◌++◌, codes, IfOk, OnOk, vec_len};
ghost use Rattle.pap_tree.specs.Flowchart.{body_of, stmt_then, done};
ghost use Rattle.pap_tree.specs.Term.{term_of};
ghost use Rattle.pap_tree.specs.Spelling.{spelling};
ghost use Rattle.flowchart_comparison.specs.Outlines.{outline_lines};
ghost use Rattle.flowchart_comparison.specs.private.OutlineViews.{AddsLines, AddsOne, AddsMark, AddsElse};

use crate::Line;
use pap_tree::{Expr, Name, Stmt, print_expr};
use std::alloc::{AllocError, Global};

/// Writes the lines of a method, and numbers its statements.
#[derive(Drop)]
struct LineWriter {
    alloc: Global,
    next: usize,
    lines: Vec<Line>,
    ghost within: { next ≤ vec_len lines },
}

impl LineWriter {
    /// Appends the lines of a list of statements.
    #[cycle(write)]
    fn write_body(&mut self, body: &[Stmt]) -> Result<(), AllocError>
        ensures { OnOk result (AddsLines (body_of body.now)
            self.old.next self.new.next self.old.lines.items self.new.lines.items) }
    {
        for statement in body {
            self.write_statement(statement)?;
        }
        Ok(())
    }

    /// Appends the lines of a statement.
    #[cycle(write)]
    fn write_statement(&mut self, statement: &Stmt) -> Result<(), AllocError>
        ensures { OnOk result (AddsLines (stmt_then statement.now done)
            self.old.next self.new.next self.old.lines.items self.new.lines.items) }
    {
        match statement {
            Stmt::Eval { target, value } => {
                let text = assignment_text(self.alloc, target, value)?;
                self.push_statement(text)
            }
            Stmt::If { test, yes, no } => {
                let text = test_text(self.alloc, test)?;
                self.push_statement(text)?;
                self.write_body(yes)?;
                self.push_else(no)?;
                self.write_body(no)?;
                self.push_mark(b"END IF")
            }
            Stmt::Execute { method } => {
                let text = call_text(self.alloc, method)?;
                self.push_statement(text)
            }
        }
    }

    /// Appends the line of the next statement.
    fn push_statement(&mut self, text: Vec<u8>) -> Result<(), AllocError>
        ensures { OnOk result (AddsOne text.items
            self.old.next self.new.next self.old.lines.items self.new.lines.items) }
    {
        self.lines.push(Line::statement(self.next, text))?;
        self.next += 1;
        Ok(())
    }

    /// Appends ELSE before the second list of an IF, where that has a statement.
    fn push_else(&mut self, body: &[Stmt]) -> Result<(), AllocError>
        ensures { OnOk result (AddsElse (body_of body.now)
            self.old.next self.new.next self.old.lines.items self.new.lines.items) }
    {
        if body.is_empty() {
            return Ok(());
        }
        self.push_mark(b"ELSE")
    }

    /// Appends a line that begins no statement.
    fn push_mark(&mut self, word: &[u8]) -> Result<(), AllocError>
        ensures { OnOk result (AddsMark word.now
            self.old.next self.new.next self.old.lines.items self.new.lines.items) }
    {
        let text = Vec::from_slice(self.alloc, word)?;
        self.lines.push(Line::mark(text))?;
        Ok(())
    }
}

/// The text of an assignment.
fn assignment_text(alloc: Global, target: &Name, value: &Expr) -> Result<Vec<u8>, AllocError>
    ensures { IfOk result (λ text. text.items
        ≡ target.now ++ (codes " = " ++ spelling (term_of value.now))) }
{
    let mut text = Vec::from_slice(alloc, target.bytes())?;
    text.extend_from_slice(b" = ")?;
    text.extend_from_slice(&print_expr(alloc, value)?)?;
    Ok(text)
}

/// The text of a test.
fn test_text(alloc: Global, test: &Expr) -> Result<Vec<u8>, AllocError>
    ensures { IfOk result (λ text. text.items ≡ codes "IF " ++ spelling (term_of test.now)) }
{
    let mut text = Vec::from_slice(alloc, b"IF ")?;
    text.extend_from_slice(&print_expr(alloc, test)?)?;
    Ok(text)
}

/// The text of an EXECUTE.
fn call_text(alloc: Global, method: &Name) -> Result<Vec<u8>, AllocError>
    ensures { IfOk result (λ text. text.items ≡ codes "EXECUTE " ++ method.now) }
{
    let mut text = Vec::from_slice(alloc, b"EXECUTE ")?;
    text.extend_from_slice(method.bytes())?;
    Ok(text)
}

/// The lines of a method's statements, in the order of the text.
pub(crate) fn method_lines(alloc: Global, body: &[Stmt]) -> Result<Vec<Line>, AllocError>
    ensures { IfOk result (λ lines. lines.items ≡ outline_lines 0 (body_of body.now)) }
{
    let mut writer = LineWriter {
        alloc,
        next: 0,
        lines: Vec::new(alloc),
    };
    writer.write_body(body)?;
    Ok(writer.lines)
}
