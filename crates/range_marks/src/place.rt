//! Places of statements.
ghost use Rattle.std.specs.Prelude.{◌≡◌, IfOk};

use pap_tree::Name;
use std::alloc::AllocError;

/// The place of the statement of a number in a method of this name. No memory holds so many statements that a number doesn't fit.
pub(crate) fn place_of(name: &Name, at: usize) -> Result<(Name, u32), AllocError>
    ensures { IfOk result (λ place. place ≡ (name.now, at)) }
{
    match u32::try_from(at) {
        Ok(number) => Ok((*name, number)),
        Err(_) => Err(AllocError),
    }
}
