//! What a test leaves of the ranges of the variables.
ghost use Rattle.std.specs.Prelude.{◌≡◌, [], Some, None, if◌then◌else◌};
ghost use Rattle.std.specs.Option.{option_map};
ghost use Rattle.interval_analysis.specs.private.Changes.{turned_changes};

use interval_num::Abs;
use std::alloc::Global;

/// A variable, by its number, with its new range.
#[derive(Clone, Copy)]
pub(crate) struct Change {
    pub number: usize,
    pub range: Abs,
}

/// The changes of the variables that the sides of a comparison name.
#[derive(Clone, Copy)]
pub(crate) struct Narrowed {
    pub left: Option<Change>,
    /// That of the right side, which comes after the left one's.
    pub right: Option<Change>,
}

/// What joins two tests.
#[derive(Clone, Copy)]
pub(crate) enum Connective {
    And,
    Or,
}

/// The changes of the variables' ranges where a test holds and where it fails; None where it can't.
#[derive(Drop)]
pub(crate) struct Branches {
    pub holds: Option<Vec<Change>>,
    pub fails: Option<Vec<Change>>,
}

/// No changes, where there are to be some.
pub(crate) fn unchanged_if(alloc: Global, wanted: bool) -> Option<Vec<Change>>
    ensures { option_map (λ changes. changes.items) result ≡ (if wanted then Some [] else None) }
{
    if wanted { Some(Vec::new(alloc)) } else { None }
}

/// The branches of the opposite of a test.
pub(crate) fn opposite(branches: Branches) -> Branches
    ensures holds { result.holds ≡ branches.fails }
    ensures fails { result.fails ≡ branches.holds }
{
    let Branches { holds, fails } = branches;
    Branches {
        holds: fails,
        fails: holds,
    }
}

/// `||` is tested as `&&` of the opposites: its right side where its left one fails.
pub(crate) fn turned(connective: Connective, branches: Branches) -> Branches
    ensures { result ≡ turned_changes connective branches }
{
    match connective {
        Connective::And => branches,
        Connective::Or => opposite(branches),
    }
}
