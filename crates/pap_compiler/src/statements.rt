//! From statements to instructions.
ghost use Rattle.std.specs.Prelude.{OnOk};
ghost use Rattle.pap_tree.specs.Term.{term_of};
ghost use Rattle.pap_tree.specs.Flowchart.{body_of, stmt_then, eval, branch, execute, done};
ghost use Rattle.pap_compiler.specs.CodeDecisions.{term_length, body_length};
ghost use Rattle.pap_compiler.specs.private.NameViews.{IsMade};
ghost use Rattle.pap_compiler.specs.private.EmitViews.{HasRoom};
ghost use Rattle.pap_compiler.specs.private.StatementViews.{HasBody, HasFactor, IsLedOn};

use crate::emit::{emit_term, patch, place, put};
use crate::names::Names;
use pap_machine::Instr;
use pap_tree::{Expr, Name, Stmt};
use pap_types::{NodeKind, at_factor_scale, has_few_places};
use scaled_decimal::Dec;
use std::alloc::AllocError;

/// Appends the code of a list of statements.
#[cycle(emit_body)]
pub(crate) fn emit_body(
    code: &mut Vec<Instr>,
    names: &Names,
    body: &[Stmt],
) -> Result<(), AllocError>
    requires made { IsMade names.now }
    requires room { HasRoom code.old.items (body_length (body_of body.now)) }
    ensures { OnOk result (HasBody names.now (body_of body.now) code.old.items code.new.items) }
{
    for s in body {
        emit_stmt(code, names, s)?;
    }
    Ok(())
}

/// Appends the code of one statement, whatever follows it.
#[cycle(emit_body)]
fn emit_stmt(code: &mut Vec<Instr>, names: &Names, s: &Stmt) -> Result<(), AllocError>
    requires made { IsMade names.now }
    requires room { HasRoom code.old.items (body_length (stmt_then s.now done)) }
    ensures { OnOk result (IsLedOn names.now (stmt_then s.now) code.old.items code.new.items) }
{
    match s {
        Stmt::Eval { target, value } => emit_eval(code, names, target, value),
        Stmt::If { test, yes, no } => emit_if(code, names, test, yes, no),
        Stmt::Execute { method } => emit_execute(code, names, method),
    }
}

/// Appends the code of an IF.
#[cycle(emit_body)]
fn emit_if(
    code: &mut Vec<Instr>,
    names: &Names,
    test: &Expr,
    yes: &[Stmt],
    no: &[Stmt],
) -> Result<(), AllocError>
    requires made { IsMade names.now }
    requires room { HasRoom code.old.items
        (body_length (branch (term_of test.now) (body_of yes.now) (body_of no.now) done)) }
    ensures { OnOk result (IsLedOn names.now
        (branch (term_of test.now) (body_of yes.now) (body_of no.now))
        code.old.items code.new.items) }
{
    emit_term(code, names, test)?;
    let to_no = place(code);
    put(code, Instr::JumpFalse(0))?;
    emit_body(code, names, yes)?;
    let to_end = place(code);
    put(code, Instr::Jump(0))?;
    let no_at = place(code);
    patch(code, to_no, Instr::JumpFalse(no_at));
    emit_body(code, names, no)?;
    let end = place(code);
    patch(code, to_end, Instr::Jump(end));
    Ok(())
}

/// Appends the code of an EXECUTE, which is a call.
#[tactic(auto, using(crate::proofs::StatementLemmas::execute_whole))]
fn emit_execute(code: &mut Vec<Instr>, names: &Names, method: &Name) -> Result<(), AllocError>
    requires { IsMade names.now }
    ensures { OnOk result (IsLedOn names.now (execute method.now) code.old.items code.new.items) }
{
    put(code, Instr::Call(names.entry(method)))
}

/// Appends the code of an assignment.
#[tactic(auto, using(crate::proofs::StatementLemmas::eval_whole))]
fn emit_eval(
    code: &mut Vec<Instr>,
    names: &Names,
    target: &Name,
    value: &Expr,
) -> Result<(), AllocError>
    requires made { IsMade names.now }
    requires room { HasRoom code.old.items (term_length (term_of value.now)) }
    ensures { OnOk result (IsLedOn names.now (eval target.now (term_of value.now))
        code.old.items code.new.items) }
{
    if names.typed.kind_of_name(target) == NodeKind::Factor {
        emit_factor(code, names, value)?;
    } else {
        emit_term(code, names, value)?;
    }
    put(code, Instr::Store(names.slot(target)))
}

/// Appends the code of the value of a `double`, of which a literal gets three places.
fn emit_factor(code: &mut Vec<Instr>, names: &Names, value: &Expr) -> Result<(), AllocError>
    requires made { IsMade names.now }
    requires room { HasRoom code.old.items (term_length (term_of value.now)) }
    ensures { OnOk result (HasFactor names.now (term_of value.now) code.old.items code.new.items) }
{
    match value {
        Expr::Int(number) => {
            put(
                code,
                Instr::Lit(at_factor_scale(Dec::new(*number as i128, 0))),
            )
        }
        Expr::Point(number) if has_few_places(*number) => {
            put(code, Instr::Lit(at_factor_scale(*number)))
        }
        _ => emit_term(code, names, value),
    }
}
