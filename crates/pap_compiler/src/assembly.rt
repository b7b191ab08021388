//! From a plan to its code.
ghost use Rattle.std.specs.Prelude.{◌≡◌, ◌<◌, ◌+◌, ◌^◌, ◌++◌, IfOk, OnOk, length, map, []};
ghost use Rattle.pap_tree.specs.Flowchart.{flowchart_of, routine_of, body_of};
ghost use Rattle.pap_tree.specs.Declarations.{declaration_of};
ghost use Rattle.pap_types.specs.Scopes.{variables_of, first_value};
ghost use Rattle.call_order.specs.Orders.{IsOrdered};
ghost use Rattle.pap_compiler.specs.CodeDecisions.{body_length, entries_from};
ghost use Rattle.pap_compiler.specs.private.CodeDecisions.{methods_length};
ghost use Rattle.pap_compiler.specs.CodeDecisions.{first_method, code_of, compiled, numbers_from};
ghost use Rattle.pap_compiler.specs.Correct.{IsCodeOf};
ghost use Rattle.pap_compiler.specs.private.EmitViews.{HasRoom};
ghost use Rattle.pap_compiler.specs.private.NameViews.{IsMade, plan_in};
ghost use Rattle.pap_compiler.specs.private.PlanViews.{methods_code_in, IsLayout, tables_in};

use crate::depths::depth;
use crate::emit::put;
use crate::names::Names;
use crate::sizes::body_size;
use crate::statements::emit_body;
use crate::values::{push_tables, push_values};
use pap_machine::{Code, Instr};
use pap_tree::{Declared, Method, Stmt};
use pap_types::Typed;
use scaled_decimal::Dec;
use std::alloc::{AllocError, Global};

/// The code of a plan, given an order of its methods, each after those that it executes.
///
/// Each method's code stands once, and an EXECUTE is a call. On every list of inputs that is safe for the plan, the code
/// is safe, leaves the plan's outputs in its slots, and runs as many instructions as the plan has steps. It has room for
/// as many open calls as the longest chain that MAIN begins has methods, and for as many values on the stack as an
/// expression has at most. Fails only where memory runs out.
pub fn compile(alloc: Global, t: &Typed, order: &[u32]) -> Result<Code, AllocError>
    requires ordered { IsOrdered (flowchart_of t.now) order.now }
    ensures means { IfOk result (IsCodeOf (flowchart_of t.now)) }
    ensures compiled { IfOk result (λ code. code ≡ compiled (flowchart_of t.now)) }
{
    let plan = t.plan();
    let layout = layout_of(alloc, &plan.main, &plan.methods)?;
    let code = assemble(alloc, t, order, layout)?;
    Ok(code)
}

/// The parts of the code put together.
fn assemble(alloc: Global, t: &Typed, order: &[u32], layout: Layout) -> Result<Code, AllocError>
    requires ordered { IsOrdered (flowchart_of t.now) order.now }
    requires layout { IsLayout (flowchart_of t.now).main (flowchart_of t.now).methods layout }
    ensures { IfOk result (λ code. code ≡ compiled (flowchart_of t.now)) }
{
    let plan = t.plan();
    let instrs = instrs(alloc, t, &layout.entries)?;
    let tables = tables(alloc, t)?;
    let outputs = numbers(alloc, plan.inputs.len() as u32, &plan.outputs)?;
    let start = start(alloc, t)?;
    let depth = depth(alloc, t, order)?;
    Ok(Code {
        instrs,
        tables,
        inputs: plan.inputs.len() as u32,
        outputs,
        start,
        depth,
        height: layout.height,
    })
}

/// Where the methods stand in the code, and how high its stack grows.
#[derive(Drop)]
struct Layout {
    /// The first instruction of each method.
    entries: Vec<u32>,
    /// The greatest number of values on the stack.
    height: u32,
}

/// The layout of the code: MAIN, the end, and the methods in the order of the text.
#[tactic(auto, using(crate::proofs::PlanLemmas::split_at))]
fn layout_of(alloc: Global, main: &[Stmt], methods: &[Method]) -> Result<Layout, AllocError>
    requires { body_length (body_of main.now) + 1 + methods_length (map routine_of methods.now)
        < 2 ^ 32 }
    ensures { IfOk result (IsLayout (body_of main.now) (map routine_of methods.now)) }
{
    let main = body_size(main);
    let mut entries = Vec::new(alloc);
    let mut at = main.length + 1;
    let mut height = main.height;
    for m in methods {
        let size = body_size(&m.body);
        entries.push(at)?;
        at += size.length + 1;
        height = height.max(size.height);
    }
    Ok(Layout { entries, height })
}

/// The instructions of a plan, whose methods stand at these entries.
fn instrs(alloc: Global, t: &Typed, entries: &[u32]) -> Result<Vec<Instr>, AllocError>
    requires { entries.now ≡
        entries_from (first_method (flowchart_of t.now)) (flowchart_of t.now).methods }
    ensures { IfOk result (λ code. code.items ≡ code_of (flowchart_of t.now)) }
{
    let _counted = t.plan();
    let names = Names { typed: t, entries };
    let mut code = Vec::new(alloc);
    emit_plan(&mut code, &names)?;
    Ok(code)
}

/// Appends the code of MAIN, the end and the methods.
fn emit_plan(code: &mut Vec<Instr>, names: &Names) -> Result<(), AllocError>
    requires made { IsMade names.now }
    requires empty { code.old.items ≡ [] }
    ensures { OnOk result (code.new.items ≡ code_of (plan_in names.now)) }
{
    let plan = names.typed.plan();
    emit_body(code, names, &plan.main)?;
    put(code, Instr::End)?;
    emit_methods(code, names, &plan.methods)
}

/// Appends the code of each method.
fn emit_methods(code: &mut Vec<Instr>, names: &Names, methods: &[Method]) -> Result<(), AllocError>
    requires made { IsMade names.now }
    requires room { HasRoom code.old.items (methods_length (map routine_of methods.now)) }
    ensures { OnOk result (code.new.items ≡ code.old.items
        ++ methods_code_in names.now (length code.old.items) (map routine_of methods.now)) }
{
    for m in methods {
        emit_body(code, names, &m.body)?;
        put(code, Instr::Return)?;
    }
    Ok(())
}

/// The first values of the slots: those of the variables in declared order.
fn start(alloc: Global, t: &Typed) -> Result<Vec<Dec>, AllocError>
    ensures { IfOk result (λ v. v.items ≡ map first_value (variables_of (flowchart_of t.now))) }
{
    let plan = t.plan();
    let mut values = Vec::new(alloc);
    push_values(&mut values, &plan.inputs)?;
    push_values(&mut values, &plan.outputs)?;
    push_values(&mut values, &plan.internals)?;
    Ok(values)
}

/// The tables of all names in declared order, those of the constants last.
fn tables(alloc: Global, t: &Typed) -> Result<Vec<Vec<Dec>>, AllocError>
    ensures { IfOk result (λ v. map (λ t. t.items) v.items ≡ tables_in (flowchart_of t.now)) }
{
    let plan = t.plan();
    let mut tables = Vec::new(alloc);
    push_tables(&mut tables, alloc, &plan.inputs)?;
    push_tables(&mut tables, alloc, &plan.outputs)?;
    push_tables(&mut tables, alloc, &plan.internals)?;
    push_tables(&mut tables, alloc, &plan.constants)?;
    Ok(tables)
}

/// As many numbers as there are declarations, from the first one on.
fn numbers(alloc: Global, first: u32, declared: &[Declared]) -> Result<Vec<u32>, AllocError>
    requires { first + length declared.now < 2 ^ 32 }
    ensures { IfOk result (λ v. v.items ≡ numbers_from first (map declaration_of declared.now)) }
{
    let mut numbers = Vec::new(alloc);
    for i in 0..declared.len() {
        numbers.push(first + i as u32)?;
    }
    Ok(numbers)
}
