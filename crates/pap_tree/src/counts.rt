//! How many statements there are in lists.
ghost use Rattle.std.specs.Prelude.{◌≡◌, ◌<◌, ◌^◌};
ghost use Rattle.pap_tree.specs.Flowchart.{body_of, stmt_then, done};
ghost use Rattle.pap_tree.specs.Statements.{written};

use crate::Stmt;

/// The number of statements of a list, those of its branches among them. Time is linear in it.
#[cycle(count)]
#[tactic(auto, using(crate::proofs::CountLemmas::written_at, crate::proofs::CountLemmas::written_if))]
pub fn written(body: &[Stmt]) -> u32
    requires { written (body_of body.now) < 2 ^ 32 }
    ensures { result ≡ written (body_of body.now) }
{
    let mut count = 0;
    for stmt in body {
        count += written_in(stmt);
    }
    count
}

/// The number of statements in one: itself, and those of its branches.
#[cycle(count)]
#[tactic(auto, using(crate::proofs::CountLemmas::written_at, crate::proofs::CountLemmas::written_if))]
pub fn written_in(stmt: &Stmt) -> u32
    requires { written (stmt_then stmt.now done) < 2 ^ 32 }
    ensures { result ≡ written (stmt_then stmt.now done) }
{
    match stmt {
        Stmt::If { yes, no, .. } => 1 + written(yes) + written(no),
        Stmt::Eval { .. } | Stmt::Execute { .. } => 1,
    }
}
