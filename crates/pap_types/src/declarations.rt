//! The checks of a plan's declarations.
ghost use Rattle.std.specs.Prelude.{◌≡◌, ◌∷◌, true, map};
ghost use Rattle.std.specs.Option.{option_map, option_map_or};
ghost use Rattle.pap_tree.specs.Declarations.{declared_of, declaration_of};
ghost use Rattle.pap_tree.specs.declared.declaration.Kind.TheVariants.{Factor};
ghost use Rattle.pap_types.specs.Checks.{is_of_type};
ghost use Rattle.pap_tree.specs.Flowchart.{routine_of};
ghost use Rattle.pap_tree.specs.Names.{main_name};
ghost use Rattle.pap_types.specs.private.PlanViews.{AreMethodNames};
ghost use Rattle.pap_types.specs.private.DeclarationViews.{AreDeclared, IsDeclared, IsAdded, IsPlaced};

use crate::TypeFault;
use crate::declared_names::DeclaredNames;
use crate::kinds::has_few_places;
use pap_tree::{Declared, Kind, Literal, Method, Name};

/// Adds the names of declarations behind earlier names. Each is new and has a literal of its type, or the first that
/// isn't so is answered.
pub(crate) fn declare(
    names: &mut DeclaredNames,
    earlier: &DeclaredNames,
    declared: &[Declared],
) -> Result<(), TypeFault>
    ensures { AreDeclared earlier.now names.old names.new
        (map declaration_of declared.now) result }
{
    for declaration in declared {
        declare_one(names, earlier, declaration)?;
    }
    Ok(())
}

/// Adds the name of a declaration behind earlier names, also where its literal isn't of its type.
pub(crate) fn declare_one(
    names: &mut DeclaredNames,
    earlier: &DeclaredNames,
    declared: &Declared,
) -> Result<(), TypeFault>
    ensures declared { IsDeclared earlier.now names.old names.new
        (declaration_of declared.now) result }
    ensures placed { IsPlaced earlier.now names.old names.new declared.now.name result }
{
    let name = declared.name;
    if earlier.contains(&name) {
        return Err(TypeFault::Twice { name });
    }
    add(names, name)?;
    if !has_its_type(declared) {
        return Err(TypeFault::Value { name });
    }
    Ok(())
}

/// Adds a name, which is new.
pub(crate) fn add(names: &mut DeclaredNames, name: Name) -> Result<(), TypeFault>
    ensures { IsAdded names.old names.new name result }
{
    match names.insert(name) {
        Ok(true) => Ok(()),
        Ok(false) => Err(TypeFault::Twice { name }),
        Err(failed) => Err(TypeFault::Memory(failed)),
    }
}

/// Adds the names of methods behind earlier ones. Each is new and isn't that of MAIN, or the first that isn't so is
/// answered.
pub(crate) fn name_methods(names: &mut DeclaredNames, methods: &[Method]) -> Result<(), TypeFault>
    ensures { AreMethodNames names.old names.new (map routine_of methods.now) result }
{
    for method in methods {
        name_method(names, method.name)?;
    }
    Ok(())
}

/// Adds the name of a method, which is new and isn't that of MAIN.
pub(crate) fn name_method(names: &mut DeclaredNames, name: Name) -> Result<(), TypeFault>
    ensures { IsAdded (main_name ∷ names.old) (main_name ∷ names.new) name result }
{
    if name == Name::main() {
        return Err(TypeFault::Twice { name });
    }
    add(names, name)
}

/// Whether a declaration's literal, where one is written, is of its type.
fn has_its_type(declared: &Declared) -> bool
    ensures { result
        ≡ option_map_or (is_of_type declared.now.kind)
        (option_map declared_of declared.now.value) true }
{
    match &declared.value {
        Some(literal) => is_of_type(declared.kind, literal),
        None => true,
    }
}

/// An `int` takes an `int` literal, a `long` one of either, a `double` a number of at most three places, a `BigDecimal`
/// a decimal, a table a list.
fn is_of_type(kind: Kind, literal: &Literal) -> bool
    ensures { result ≡ is_of_type kind (declared_of literal.now) }
{
    match kind {
        Kind::Int => matches!(literal, Literal::Int(_)),
        Kind::Long => matches!(literal, Literal::Int(_) | Literal::Long(_)),
        Kind::Factor => is_factor(literal),
        Kind::Big => matches!(literal, Literal::Big(_)),
        Kind::Table => matches!(literal, Literal::Table(_)),
    }
}

/// Whether a literal is a number of at most three places.
fn is_factor(literal: &Literal) -> bool
    ensures { result ≡ is_of_type Factor (declared_of literal.now) }
{
    match literal {
        Literal::Int(_) => true,
        Literal::Point(number) => has_few_places(*number),
        _ => false,
    }
}
