//! The declarations of a plan, with their literals.
ghost use Rattle.std.specs.Prelude.{map};
ghost use Rattle.std.specs.Option.{option_map};
ghost use Rattle.pap_tree.specs.Declarations.{declared_of, declaration_of};
ghost use Rattle.pap_reader.specs.Trees.{raw_declaration_of};
ghost use Rattle.plan_text.specs.Plans.{IsLiteralText, IsDeclaration, AreDeclarations};
ghost use Rattle.plan_text.specs.Sites.{declared_sites, literal_sites};
ghost use Rattle.plan_text.specs.private.Views.{Tells};

use crate::PlanFault;
use crate::fault::{Spot, expr_fault};
use pap_expr::parse_constant;
use pap_reader::RawDeclared;
use pap_tree::{Declared, Literal};
use std::alloc::Global;

/// The declarations of a list, in its order.
pub(crate) fn read_declarations(
    alloc: Global,
    raw: &[RawDeclared],
) -> Result<Vec<Declared>, PlanFault>
    ensures { Tells (declared_sites (map raw_declaration_of raw.now))
        (λ read. AreDeclarations (map raw_declaration_of raw.now) (map declaration_of read.items))
        result }
{
    let mut read = Vec::new(alloc);
    for declaration in raw {
        read.push(read_declaration(alloc, declaration)?)?;
    }
    Ok(read)
}

fn read_declaration(alloc: Global, raw: &RawDeclared) -> Result<Declared, PlanFault>
    ensures { Tells (literal_sites (raw_declaration_of raw.now))
        (λ read. IsDeclaration (raw_declaration_of raw.now) (declaration_of read)) result }
{
    let value = read_value(alloc, raw)?;
    Ok(Declared {
        name: raw.name,
        kind: raw.kind,
        value,
    })
}

/// The literal of a declared name, where one is written.
fn read_value(alloc: Global, raw: &RawDeclared) -> Result<Option<Literal>, PlanFault>
    ensures { Tells (literal_sites (raw_declaration_of raw.now))
        (λ read. IsLiteralText (raw_declaration_of raw.now).value
        (option_map declared_of read)) result }
{
    match &raw.value {
        None => Ok(None),
        Some(text) => match parse_constant(alloc, text) {
            Ok(literal) => Ok(Some(literal)),
            Err(fault) => Err(expr_fault(Spot::Declared { name: raw.name }, fault)),
        },
    }
}
