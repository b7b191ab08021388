//! From expressions to instructions.
ghost use Rattle.std.specs.Prelude.{◌≡◌, ◌<◌, ◌+◌, ◌^◌, ◌∷◌, [], OnOk, length, slice_set};
ghost use Rattle.pap_tree.specs.Term.{term_of, unary, value_of, one, two, choice, operator};
ghost use Rattle.pap_compiler.specs.CodeDecisions.{term_length, instr_of_one, instr_of_method};
ghost use Rattle.pap_compiler.specs.private.NameViews.{IsMade, scope_of_names};
ghost use Rattle.pap_compiler.specs.private.EmitViews.{IsAppended, HasRoom, HasTerm, HasOne, HasTwo};
ghost use Rattle.pap_compiler.specs.private.EmitViews.{HasJoined, HasInstr, two_length, skip_to};

use crate::names::Names;
use pap_machine::Instr;
use pap_tree::{Binary, Call, Expr, Unary};
use pap_types::shortened;
use scaled_decimal::Dec;
use std::alloc::AllocError;

/// Appends the code of an expression.
#[cycle(emit)]
pub(crate) fn emit_term(code: &mut Vec<Instr>, names: &Names, e: &Expr) -> Result<(), AllocError>
    requires made { IsMade names.now }
    requires room { HasRoom code.old.items (term_length (term_of e.now)) }
    ensures { OnOk result (HasTerm names.now (term_of e.now) code.old.items code.new.items) }
{
    match e {
        Expr::Int(number) => put(code, Instr::Lit(Dec::new(*number as i128, 0))),
        Expr::Long(number) => put(code, Instr::Lit(Dec::new(*number as i128, 0))),
        Expr::Point(number) => put(code, Instr::Lit(*number)),
        Expr::Text(number) => put(code, Instr::Lit(*number)),
        Expr::Known(known) => put(code, Instr::Lit(known.value())),
        Expr::Var(name) => put(code, names.load(name)),
        Expr::Item(name, operand) => emit_one(code, names, operand, Instr::Item(names.table(name))),
        Expr::ValueOf(operand) => emit_value_of(code, names, operand),
        Expr::ValueOfScaled(operand, places) => {
            emit_one(code, names, operand, Instr::Scaled(*places))
        }
        Expr::NewInt(operand) => emit_one(code, names, operand, Instr::Same),
        Expr::Unary(op, operand) => emit_one(code, names, operand, instr_of_unary(*op)),
        Expr::Binary(op, left, right) => emit_operator(code, names, *op, left, right),
        Expr::Call(method, left, right) => {
            let last = instr_of_call(names, *method, right);
            emit_two(code, names, left, right, last)
        }
        Expr::Divide(left, right, places, mode) => {
            emit_two(code, names, left, right, Instr::Div(*places, *mode))
        }
        Expr::SetScale(operand, places, mode) => {
            emit_one(code, names, operand, Instr::Set(*places, *mode))
        }
        Expr::Choose(test, first, second) => emit_choice(code, names, test, first, second),
    }
}

/// Appends the code of an operand and the instruction behind it.
#[cycle(emit)]
fn emit_one(
    code: &mut Vec<Instr>,
    names: &Names,
    operand: &Expr,
    last: Instr,
) -> Result<(), AllocError>
    requires made { IsMade names.now }
    requires room { HasRoom code.old.items (term_length (term_of operand.now) + 1) }
    ensures { OnOk result (HasOne names.now (term_of operand.now) last
        code.old.items code.new.items) }
{
    emit_term(code, names, operand)?;
    put(code, last)
}

/// Appends the code of `valueOf`, under which a literal with a point loses the zeros that end it.
#[cycle(emit)]
fn emit_value_of(code: &mut Vec<Instr>, names: &Names, operand: &Expr) -> Result<(), AllocError>
    requires made { IsMade names.now }
    requires room { HasRoom code.old.items (term_length (term_of operand.now) + 1) }
    ensures { OnOk result (HasTerm names.now (one value_of (term_of operand.now))
        code.old.items code.new.items) }
{
    if let Expr::Point(number) = operand {
        put(code, Instr::Lit(shortened(*number)))?;
    } else {
        emit_term(code, names, operand)?;
    }
    put(code, Instr::Same)
}

/// Appends the code of an operator.
#[cycle(emit)]
fn emit_operator(
    code: &mut Vec<Instr>,
    names: &Names,
    op: Binary,
    left: &Expr,
    right: &Expr,
) -> Result<(), AllocError>
    requires made { IsMade names.now }
    requires room { HasRoom code.old.items (two_length (term_of left.now) (term_of right.now)) }
    ensures { OnOk result (HasTerm names.now
        (two (operator op) (term_of left.now) (term_of right.now)) code.old.items code.new.items) }
{
    match instr_of_operator(op) {
        Some(last) => emit_two(code, names, left, right, last),
        None => emit_joined(code, names, op, left, right),
    }
}

/// Appends the code of two operands and the instruction behind them.
#[cycle(emit)]
fn emit_two(
    code: &mut Vec<Instr>,
    names: &Names,
    left: &Expr,
    right: &Expr,
    last: Instr,
) -> Result<(), AllocError>
    requires made { IsMade names.now }
    requires room { HasRoom code.old.items (two_length (term_of left.now) (term_of right.now)) }
    ensures { OnOk result (HasTwo names.now (term_of left.now) (term_of right.now) last
        code.old.items code.new.items) }
{
    emit_term(code, names, left)?;
    emit_term(code, names, right)?;
    put(code, last)
}

/// Appends the code of `&&` or `||`.
#[cycle(emit)]
fn emit_joined(
    code: &mut Vec<Instr>,
    names: &Names,
    op: Binary,
    left: &Expr,
    right: &Expr,
) -> Result<(), AllocError>
    requires made { IsMade names.now }
    requires room { HasRoom code.old.items (two_length (term_of left.now) (term_of right.now)) }
    ensures { OnOk result (HasJoined names.now op (term_of left.now) (term_of right.now)
        code.old.items code.new.items) }
{
    emit_term(code, names, left)?;
    let skip = place(code);
    put(code, skip_to(op, 0))?;
    emit_term(code, names, right)?;
    let end = place(code);
    patch(code, skip, skip_to(op, end));
    Ok(())
}

/// Appends the code of a conditional.
#[cycle(emit)]
fn emit_choice(
    code: &mut Vec<Instr>,
    names: &Names,
    test: &Expr,
    first: &Expr,
    second: &Expr,
) -> Result<(), AllocError>
    requires made { IsMade names.now }
    requires room { HasRoom code.old.items
        (term_length (choice (term_of test.now) (term_of first.now) (term_of second.now))) }
    ensures { OnOk result (HasTerm names.now
        (choice (term_of test.now) (term_of first.now) (term_of second.now))
        code.old.items code.new.items) }
{
    emit_term(code, names, test)?;
    let to_second = place(code);
    put(code, Instr::JumpFalse(0))?;
    emit_term(code, names, first)?;
    let to_end = place(code);
    put(code, Instr::Jump(0))?;
    let second_at = place(code);
    patch(code, to_second, Instr::JumpFalse(second_at));
    emit_term(code, names, second)?;
    let end = place(code);
    patch(code, to_end, Instr::Jump(end));
    Ok(())
}

fn instr_of_unary(op: Unary) -> Instr
    ensures { result ≡ instr_of_one (unary op) }
{
    match op {
        Unary::Minus => Instr::IntNeg,
        Unary::Not => Instr::Not,
        Unary::Negate => Instr::Neg,
        Unary::Abs => Instr::Abs,
    }
}

/// The instruction behind the operands of an operator, which `&&` and `||` have none of.
fn instr_of_operator(op: Binary) -> Option<Instr>
    ensures { HasInstr op result }
{
    match op {
        Binary::Mul => Some(Instr::IntMul),
        Binary::Div => Some(Instr::IntDiv),
        Binary::Rem => Some(Instr::IntRem),
        Binary::Plus => Some(Instr::IntAdd),
        Binary::Sub => Some(Instr::IntSub),
        Binary::Less => Some(Instr::Less),
        Binary::LessEq => Some(Instr::LessEq),
        Binary::More => Some(Instr::More),
        Binary::MoreEq => Some(Instr::MoreEq),
        Binary::Same => Some(Instr::Equal),
        Binary::Differs => Some(Instr::Differs),
        Binary::And | Binary::Or => None,
    }
}

/// The instruction of a method with one argument; that of `divide` has the divisor's own number.
fn instr_of_call(names: &Names, method: Call, argument: &Expr) -> Instr
    ensures { result ≡ instr_of_method (scope_of_names names.now) method (term_of argument.now) }
{
    match method {
        Call::Add => Instr::Add,
        Call::Subtract => Instr::Sub,
        Call::Multiply => Instr::Mul,
        Call::DivideExact => Instr::DivExact(names.shown_number(argument)),
        Call::CompareTo => Instr::Cmp,
        Call::Min => Instr::Min,
        Call::Max => Instr::Max,
    }
}

/// What skips the right operand of `&&` or `||`.
fn skip_to(op: Binary, to: u32) -> Instr
    ensures { result ≡ skip_to op to }
{
    match op {
        Binary::Or => Instr::OrSkip(to),
        _ => Instr::AndSkip(to),
    }
}

/// The number of the next instruction.
pub(crate) fn place(code: &Vec<Instr>) -> u32
    requires { length code.now.items < 2 ^ 32 }
    ensures { result ≡ length code.now.items }
{
    code.len() as u32
}

/// Appends an instruction.
pub(crate) fn put(code: &mut Vec<Instr>, instr: Instr) -> Result<(), AllocError>
    ensures { OnOk result (IsAppended code.old.items (instr ∷ []) 1 code.new.items) }
{
    code.push(instr)?;
    Ok(())
}

/// Writes an instruction in the place of another.
pub(crate) fn patch(code: &mut Vec<Instr>, at: u32, instr: Instr)
    requires { at < length code.old.items }
    ensures { code.new.items ≡ slice_set code.old.items at instr }
{
    code[at as usize] = instr;
}
