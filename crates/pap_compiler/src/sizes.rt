//! How much room code takes.
ghost use Rattle.std.specs.Prelude.{◌≡◌, ◌<◌, ◌+◌, ◌^◌, max};
ghost use Rattle.pap_tree.specs.Term.{term_of};
ghost use Rattle.pap_tree.specs.Flowchart.{body_of, stmt_then, branch, done};
ghost use Rattle.pap_compiler.specs.CodeDecisions.{term_length, body_length};
ghost use Rattle.pap_compiler.specs.private.SizeViews.{IsTermSize, IsBodySize};

use pap_tree::{Binary, Expr, Stmt};

/// How many instructions code has, and how many values it has on the stack at most.
#[derive(Clone, Copy)]
pub(crate) struct Size {
    pub length: u32,
    pub height: u32,
}

impl Size {
    const NONE: Size = Size {
        length: 0,
        height: 0,
    };

    /// That of one instruction which puts a value on the stack.
    const ONE: Size = Size {
        length: 1,
        height: 1,
    };

    /// That of one more instruction, which puts no further value on the stack.
    fn and_one(self) -> Size
        requires { self.length + 1 < 2 ^ 32 }
        ensures length { result.length ≡ self.length + 1 }
        ensures height { result.height ≡ self.height }
    {
        Size {
            length: self.length + 1,
            height: self.height,
        }
    }

    /// That of one code and then another, which begins with as many values.
    fn then(self, next: Size) -> Size
        requires { self.length + next.length < 2 ^ 32 }
        ensures length { result.length ≡ self.length + next.length }
        ensures height { result.height ≡ max self.height next.height }
    {
        Size {
            length: self.length + next.length,
            height: self.height.max(next.height),
        }
    }

    /// The same above one more value.
    fn above_one(self) -> Size
        requires { self.height + 1 < 2 ^ 32 }
        ensures length { result.length ≡ self.length }
        ensures height { result.height ≡ self.height + 1 }
    {
        Size {
            length: self.length,
            height: self.height + 1,
        }
    }
}

/// The size of an expression's code.
#[tactic(auto, using(crate::proofs::SizeLemmas::height_within))]
pub(crate) fn term_size(e: &Expr) -> Size
    requires { term_length (term_of e.now) < 2 ^ 32 }
    ensures { IsTermSize (term_of e.now) result }
{
    match e {
        Expr::Int(_)
        | Expr::Long(_)
        | Expr::Point(_)
        | Expr::Text(_)
        | Expr::Known(_)
        | Expr::Var(_) => Size::ONE,
        Expr::Item(_, e)
        | Expr::ValueOf(e)
        | Expr::ValueOfScaled(e, _)
        | Expr::NewInt(e)
        | Expr::Unary(_, e)
        | Expr::SetScale(e, _, _) => term_size(e).and_one(),
        Expr::Binary(Binary::And | Binary::Or, a, b) => {
            term_size(a).then(term_size(b)).and_one()
        }
        Expr::Binary(_, a, b) | Expr::Call(_, a, b) | Expr::Divide(a, b, _, _) => {
            term_size(a).then(term_size(b).above_one()).and_one()
        }
        Expr::Choose(c, a, b) => {
            let parts = term_size(a).then(term_size(b));
            term_size(c).then(parts).and_one().and_one()
        }
    }
}

/// The size of the code of a list of statements.
#[cycle(size)]
#[tactic(auto, using(crate::proofs::SizeLemmas::size_at, crate::proofs::SizeLemmas::size_if))]
pub(crate) fn body_size(body: &[Stmt]) -> Size
    requires { body_length (body_of body.now) < 2 ^ 32 }
    ensures { IsBodySize (body_of body.now) result }
{
    let mut size = Size::NONE;
    for s in body {
        size = size.then(stmt_size(s));
    }
    size
}

#[cycle(size)]
#[tactic(auto, using(crate::proofs::SizeLemmas::size_at, crate::proofs::SizeLemmas::size_if))]
fn stmt_size(s: &Stmt) -> Size
    requires { body_length (stmt_then s.now done) < 2 ^ 32 }
    ensures { IsBodySize (stmt_then s.now done) result }
{
    match s {
        Stmt::Eval { value, .. } => term_size(value).and_one(),
        Stmt::If { test, yes, no } => choice_size(test, yes, no),
        Stmt::Execute { .. } => Size {
            length: 1,
            height: 0,
        },
    }
}

#[cycle(size)]
fn choice_size(test: &Expr, yes: &[Stmt], no: &[Stmt]) -> Size
    requires { body_length (branch (term_of test.now) (body_of yes.now) (body_of no.now) done)
        < 2 ^ 32 }
    ensures { IsBodySize (branch (term_of test.now) (body_of yes.now) (body_of no.now) done)
        result }
{
    let branches = body_size(yes).then(body_size(no));
    term_size(test).then(branches).and_one().and_one()
}
