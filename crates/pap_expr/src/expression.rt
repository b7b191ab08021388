//! From a text to its tree.

ghost use Rattle.std.specs.Prelude.{◌≡◌, ◌≤◌, Result, Some, None, true, length, IsTrue, IfOk, IfErr, IfSome, MatchOption};
ghost use Rattle.pap_tree.specs.Names.{is_name};
ghost use Rattle.pap_tree.specs.Term.{term_of};
ghost use Rattle.pap_tree.specs.Tokens.{Mark, Equals, Word};
ghost use Rattle.pap_tree.specs.Numbering.{nodes};
ghost use Rattle.pap_tree.specs.Grammar as grammar;
ghost use Rattle.pap_tree.specs.Grammar.{Level, LineMeaning, tree, assignment};
ghost use Rattle.pap_tree.specs.Expressions.{IsAccepted};
ghost use Rattle.expr_tokens.specs.Spots.{token_of, spots_of};
ghost use Rattle.expr_grammar.specs.Machine.{Due, Want, Naming, naming_step, first_state};
ghost use Rattle.expr_grammar.specs.Run.{Refusal, run, answer, never};
ghost use Rattle.pap_tree.specs.Scales.{KeepsScales};
ghost use Rattle.pap_tree.specs.Limits.{most_tokens};
ghost use Rattle.pap_expr.specs.private.Views.{refusal_of};
ghost use Rattle.pap_expr.specs.private.Answers.{line_of, base_of, Answers};
ghost use Rattle.pap_expr.specs.private.Traces.{Traces};
ghost use Rattle.pap_expr.specs.NodeBytes.{placed_tokens, HaveBytes};
ghost use Rattle.pap_expr.specs.Faults.{IsFaultOf};

use crate::fault::ExprFault;
use crate::reading::{Reading, read};
use crate::steps::{is_sign, refused};
use crate::stretch::Stretch;
use crate::trail::Trail;
use expr_tokens::{Placed, Sign, Token, read_tokens};
use pap_tree::{Expr, MOST_TOKENS, Name};
use std::alloc::Global;

/// The expression of a test.
pub fn parse_expr(alloc: Global, text: &[u8]) -> Result<Expr, ExprFault>
    ensures tree { IfOk result (λ e. IsAccepted (Level 0) text.now (tree (term_of e))) }
    ensures fault { IfErr result (IsFaultOf (Level 0) text.now) }
    ensures nodes { IfOk result (λ e. nodes (term_of e) ≤ most_tokens) }
    ensures scales { IfOk result (λ e. KeepsScales (term_of e)) }
{
    let (expr, _) = test(alloc, text, false)?;
    Ok(expr)
}

/// The expression of a test, and the bytes on which its nodes stand, by number.
pub fn parse_expr_placed(alloc: Global, text: &[u8]) -> Result<(Expr, Vec<Stretch>), ExprFault>
    ensures tree { IfOk result (λ r. IsAccepted (Level 0) text.now (tree (term_of r.0))) }
    ensures fault { IfErr result (IsFaultOf (Level 0) text.now) }
    ensures nodes { IfOk result (λ r. nodes (term_of r.0) ≤ most_tokens) }
    ensures scales { IfOk result (λ r. KeepsScales (term_of r.0)) }
    ensures places { IfOk result (λ r. HaveBytes text.now (tree (term_of r.0)) r.1.items) }
    ensures counted { IfOk result (λ r. length r.1.items ≡ nodes (term_of r.0)) }
{
    test(alloc, text, true)
}

/// The target and the expression of an assignment.
pub fn parse_assign(alloc: Global, text: &[u8]) -> Result<(Name, Expr), ExprFault>
    ensures tree { IfOk result
        (λ r. IsAccepted grammar.Assignment text.now (assignment r.0 (term_of r.1))) }
    ensures fault { IfErr result (IsFaultOf grammar.Assignment text.now) }
    ensures nodes { IfOk result (λ r. nodes (term_of r.1) ≤ most_tokens) }
    ensures scales { IfOk result (λ r. KeepsScales (term_of r.1)) }
{
    let (target, expr, _) = assign(alloc, text, false)?;
    Ok((target, expr))
}

/// The target and the expression of an assignment, and the bytes on which the expression's nodes stand, by number.
pub fn parse_assign_placed(
    alloc: Global,
    text: &[u8],
) -> Result<(Name, Expr, Vec<Stretch>), ExprFault>
    ensures tree { IfOk result
        (λ r. IsAccepted grammar.Assignment text.now (assignment r.0 (term_of r.1))) }
    ensures fault { IfErr result (IsFaultOf grammar.Assignment text.now) }
    ensures nodes { IfOk result (λ r. nodes (term_of r.1) ≤ most_tokens) }
    ensures scales { IfOk result (λ r. KeepsScales (term_of r.1)) }
    ensures places { IfOk result
        (λ r. HaveBytes text.now (assignment r.0 (term_of r.1)) r.2.items) }
    ensures counted { IfOk result (λ r. length r.2.items ≡ nodes (term_of r.1)) }
{
    assign(alloc, text, true)
}

/// The expression of a test, and where its nodes stand, if that is kept. The text is never read to an assignment: the
/// fault for that case is made up.
fn test(alloc: Global, text: &[u8], is_kept: bool) -> Result<(Expr, Vec<Stretch>), ExprFault>
    ensures tree { IfOk result (λ r. IsAccepted (Level 0) text.now (tree (term_of r.0))) }
    ensures fault { IfErr result (IsFaultOf (Level 0) text.now) }
    ensures nodes { IfOk result (λ r. nodes (term_of r.0) ≤ most_tokens) }
    ensures scales { IfOk result (λ r. KeepsScales (term_of r.0)) }
    ensures places { is_kept ≡ true
        → IfOk result (λ r. HaveBytes text.now (tree (term_of r.0)) r.1.items) }
{
    let tokens = read_tokens(alloc, text)?;
    let mut trail = Trail::new(alloc, text, is_kept);
    let read = answer(alloc, Kind::Test, &tokens, text.len(), &mut trail)?;
    let Reading::Test(expr) = read else {
        return Err(ExprFault::Syntax { at: text.len() });
    };
    Ok((expr, trail.nodes()))
}

/// The target and the expression of an assignment, and where its nodes stand, if that is kept. The text is never read to
/// a test: the fault for that case is made up.
fn assign(
    alloc: Global,
    text: &[u8],
    is_kept: bool,
) -> Result<(Name, Expr, Vec<Stretch>), ExprFault>
    ensures tree { IfOk result
        (λ r. IsAccepted grammar.Assignment text.now (assignment r.0 (term_of r.1))) }
    ensures fault { IfErr result (IsFaultOf grammar.Assignment text.now) }
    ensures nodes { IfOk result (λ r. nodes (term_of r.1) ≤ most_tokens) }
    ensures scales { IfOk result (λ r. KeepsScales (term_of r.1)) }
    ensures places { is_kept ≡ true → IfOk result
        (λ r. HaveBytes text.now (assignment r.0 (term_of r.1)) r.2.items) }
{
    let tokens = read_tokens(alloc, text)?;
    let mut trail = Trail::new(alloc, text, is_kept);
    let read = answer(alloc, Kind::Assignment, &tokens, text.len(), &mut trail)?;
    let Reading::Assignment(target, expr) = read else {
        return Err(ExprFault::Syntax { at: text.len() });
    };
    Ok((target, expr, trail.nodes()))
}

/// What a text is read as.
#[derive(Clone, Copy)]
pub(crate) enum Kind {
    /// The expression of a test.
    Test,
    /// An assignment.
    Assignment,
}

/// What all tokens of a text of so many bytes are read to: at most 1,000 of them.
fn answer(
    alloc: Global,
    kind: Kind,
    tokens: &[Placed],
    len: usize,
    trail: &mut Trail<'_>,
) -> Result<Reading, ExprFault>
    ensures answer { Answers (answer (line_of kind) len (spots_of tokens.now)) result }
    ensures places { Traces trail.old
        (placed_tokens trail.old.text.now (spots_of tokens.now)) trail.new result }
{
    if tokens.len() <= MOST_TOKENS {
        return line(alloc, kind, tokens, ExprFault::Syntax { at: len }, trail);
    }
    let deep = ExprFault::Deep {
        at: tokens[MOST_TOKENS].at,
    };
    let (front, _) = tokens.split_at(MOST_TOKENS);
    never(line(alloc, kind, front, deep, trail), deep)
}

/// The fault in place of what was read.
fn never(read: Result<Reading, ExprFault>, fault: ExprFault) -> Result<Reading, ExprFault>
    ensures answer { (r : Result LineMeaning Refusal) → Answers r read
        → Answers (never (refusal_of fault) r) result }
    ensures fails { IfOk result (λ _. ⊥) }
{
    match read {
        Ok(_) => Err(fault),
        Err(error) => Err(error),
    }
}

/// What so many tokens as are allowed are read to. `end` is what is wrong where they end too early.
fn line(
    alloc: Global,
    kind: Kind,
    front: &[Placed],
    end: ExprFault,
    trail: &mut Trail<'_>,
) -> Result<Reading, ExprFault>
    ensures answer { Answers (run (line_of kind) (refusal_of end) (first_state (line_of kind))
        (spots_of front.now)) result }
    ensures places { Traces trail.old
        (placed_tokens trail.old.text.now (spots_of front.now)) trail.new result }
{
    match kind {
        Kind::Test => read(alloc, None, front, end, trail),
        Kind::Assignment => assigned(alloc, front, end, trail),
    }
}

/// The tokens of an assignment: a name, `=` and the expression.
fn assigned(
    alloc: Global,
    front: &[Placed],
    end: ExprFault,
    trail: &mut Trail<'_>,
) -> Result<Reading, ExprFault>
    ensures answer { Answers
        (run grammar.Assignment (refusal_of end) Naming (spots_of front.now)) result }
    ensures places { Traces trail.old
        (placed_tokens trail.old.text.now (spots_of front.now)) trail.new result }
{
    let Some((first, rest)) = front.split_first() else {
        return Err(end);
    };
    let Some(target) = target_of(first) else {
        return Err(refused(first));
    };
    let Some((second, rest)) = rest.split_first() else {
        return Err(end);
    };
    if !is_sign(Sign::Equals, second) {
        return Err(refused(second));
    }
    read(alloc, Some(target), rest, end, trail)
}

/// The name that an assignment begins with.
fn target_of(found: &Placed) -> Option<Name>
    ensures step { MatchOption result (naming_step (token_of found.now.token) ≡ None)
        (λ w. naming_step (token_of found.now.token)
        ≡ Some (Due 0 (Mark Equals) (Want (base_of (Some w))))) }
    ensures word { IfSome result (λ w. token_of found.now.token ≡ Word w) }
    ensures named { IfSome result (λ w. IsTrue (is_name w)) }
{
    match found.token {
        Token::Name(name) => some_name(name),
        _ => None,
    }
}

/// The name itself. A function of its own, so that the proof learns that the word is a name.
fn some_name(name: Name) -> Option<Name>
    ensures some { result ≡ Some name }
    ensures named { IsTrue (is_name name) }
{
    Some(name)
}
