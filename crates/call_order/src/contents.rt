//! What lists of statements have: how many statements, and which methods they execute.
ghost use Rattle.std.specs.Prelude.{◌≡◌, ◌+◌, ◌<◌, ◌≤◌, ◌^◌, OnOk, IfOk, length};
ghost use Rattle.std.specs.List.{push};
ghost use Rattle.pap_tree.specs.Flowchart.{body_of, stmt_then, done, flowchart_of};
ghost use Rattle.pap_tree.specs.Limits.{most_methods};
ghost use Rattle.pap_tree.specs.Statements.{written};
ghost use Rattle.call_order.specs.Graphs.{content_of, graph_of};
ghost use Rattle.call_order.specs.Chains.{no_content};
ghost use Rattle.call_order.specs.private.ContentViews.{IsAdded};

use pap_tree::Stmt;
use pap_types::Typed;
use std::alloc::{AllocError, Global};
use std::marker::Model;

/// A list of statements in short: how many they are, as written, and the methods that they execute, by number.
#[derive(Drop)]
pub(crate) struct Contents {
    statements: u64,
    methods: Vec<u32>,
}

impl Model for Contents {
    ghost use Rattle.call_order.specs.Graphs.{Content};

    ghost Value = { Content };

    ghost view = { λ c. record { statements = c.statements; methods = c.methods.items } };
}

impl Contents {
    /// No statement.
    fn new(alloc: Global) -> Contents
        ensures { result ≡ no_content }
    {
        Contents {
            statements: 0,
            methods: Vec::new(alloc),
        }
    }

    /// One more statement.
    fn count(&mut self)
        requires { self.old.statements + 1 < 2 ^ 64 }
        ensures { self.new ≡ record self.old { statements = self.old.statements + 1 } }
    {
        self.statements += 1;
    }

    /// One more executed method.
    fn add(&mut self, method: u32) -> Result<(), AllocError>
        ensures statements { OnOk result (self.new.statements ≡ self.old.statements) }
        ensures methods { OnOk result (self.new.methods ≡ push self.old.methods method) }
    {
        self.methods.push(method)?;
        Ok(())
    }

    /// How many statements there are, as written.
    pub fn statements(&self) -> u64
        ensures { result ≡ self.now.statements }
    {
        self.statements
    }

    /// The methods that are executed, as written.
    pub fn methods(&self) -> &[u32]
        ensures { result.now ≡ self.now.methods }
    {
        &self.methods
    }
}

/// Adds a list of statements.
#[cycle(collect)]
fn collect(contents: &mut Contents, t: &Typed, body: &[Stmt]) -> Result<(), AllocError>
    requires methods { length (flowchart_of t.now).methods ≤ most_methods }
    requires room { contents.old.statements + written (body_of body.now) < 2 ^ 64 }
    ensures { OnOk result (IsAdded t.now (body_of body.now) contents.old contents.new) }
{
    for statement in body {
        collect_one(contents, t, statement)?;
    }
    Ok(())
}

/// Adds a statement.
#[cycle(collect)]
fn collect_one(contents: &mut Contents, t: &Typed, statement: &Stmt) -> Result<(), AllocError>
    requires methods { length (flowchart_of t.now).methods ≤ most_methods }
    requires room { contents.old.statements + written (stmt_then statement.now done) < 2 ^ 64 }
    ensures { OnOk result (IsAdded t.now (stmt_then statement.now done) contents.old contents.new) }
{
    contents.count();
    match statement {
        Stmt::Eval { .. } => Ok(()),
        Stmt::If { yes, no, .. } => {
            collect(contents, t, yes)?;
            collect(contents, t, no)
        }
        // No well-typed plan executes a method that isn't there.
        Stmt::Execute { method } => match t.method(method) {
            Some(number) => contents.add(number as u32),
            None => Ok(()),
        },
    }
}

/// What a list of statements has.
pub(crate) fn content_of(alloc: Global, t: &Typed, body: &[Stmt]) -> Result<Contents, AllocError>
    requires methods { length (flowchart_of t.now).methods ≤ most_methods }
    requires room { written (body_of body.now) < 2 ^ 64 }
    ensures { IfOk result (λ c. c ≡ content_of (flowchart_of t.now).methods (body_of body.now)) }
{
    let mut contents = Contents::new(alloc);
    collect(&mut contents, t, body)?;
    Ok(contents)
}

/// What each method has.
pub(crate) fn graph_of(alloc: Global, t: &Typed) -> Result<Vec<Contents>, AllocError>
    ensures graph { IfOk result (λ graph. graph.items ≡ graph_of (flowchart_of t.now).methods) }
    ensures few { IfOk result (λ graph. length graph.items ≤ most_methods) }
{
    let mut graph = Vec::new(alloc);
    for method in &t.plan().methods {
        graph.push(content_of(alloc, t, &method.body)?)?;
    }
    Ok(graph)
}
