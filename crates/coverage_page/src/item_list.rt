//! The lists of items to which no run came.
ghost use Rattle.std.specs.Prelude.{◌≡◌};
ghost use Rattle.coverage_page.specs.private.ItemLists.{is_in_list};

use coverage_text::Item;

/// Which items a list has.
#[derive(Clone, Copy)]
pub(crate) enum ItemList {
    /// Those to which a run may come, and none came.
    NeverReached,
    /// Those to which none within the ranges may come.
    Unreachable,
}

impl ItemList {
    /// Whether the list has an item.
    pub(crate) fn has(self, item: &Item) -> bool
        ensures { result ≡ is_in_list self item.now }
    {
        match self {
            ItemList::NeverReached => item.is_never_reached(),
            ItemList::Unreachable => item.is_unreachable(),
        }
    }
}
