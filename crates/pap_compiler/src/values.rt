//! What the declared names of a plan begin with.
ghost use Rattle.std.specs.Prelude.{◌≡◌, ◌++◌, OnOk, map};
ghost use Rattle.std.specs.List.{All};
ghost use Rattle.pap_tree.specs.Declarations.{declaration_of};
ghost use Rattle.pap_types.specs.Scopes.{first_value, declared_table};
ghost use Rattle.pap_types.specs.Typing.{HasItsType};

use pap_tree::Declared;
use pap_types::{first_value, items_of};
use scaled_decimal::Dec;
use std::alloc::{AllocError, Global};

/// Appends the value that each declared name begins with.
#[tactic(auto, using(crate::proofs::ValueLemmas::values_at, crate::proofs::ValueLemmas::type_at))]
pub(crate) fn push_values(values: &mut Vec<Dec>, declared: &[Declared]) -> Result<(), AllocError>
    requires { All HasItsType (map declaration_of declared.now) }
    ensures { OnOk result (values.new.items ≡
        values.old.items ++ map first_value (map declaration_of declared.now)) }
{
    for declaration in declared {
        values.push(first_value(declaration))?;
    }
    Ok(())
}

/// Appends the items of each declared table; a name that isn't a table has none.
#[tactic(auto, using(crate::proofs::ValueLemmas::tables_at))]
pub(crate) fn push_tables(
    tables: &mut Vec<Vec<Dec>>,
    alloc: Global,
    declared: &[Declared],
) -> Result<(), AllocError>
    ensures { OnOk result (map (λ t. t.items) tables.new.items ≡
        map (λ t. t.items) tables.old.items
        ++ map (λ d. declared_table d.value) (map declaration_of declared.now)) }
{
    for declaration in declared {
        tables.push(items_of(declaration).to_vec(alloc)?)?;
    }
    Ok(())
}
