//! Texts that are cut at a mark.
ghost use Rattle.std.specs.Prelude.{◌≡◌, ◌≢◌, ◌++◌, List, ℕ, MatchOption};
ghost use Rattle.messages.specs.Fields.{IsFreeOf};
ghost use Rattle.messages.specs.private.Cuts.{IsFirstCut};

/// What stands before the first such mark, and what behind it.
pub(crate) fn cut<'a>(text: &'a str, mark: &str) -> Option<(&'a str, &'a str)>
    ensures { MatchOption result (IsFreeOf text.now mark.now)
        (λ parts. IsFirstCut mark.now text.now parts.0.now parts.1.now) }
{
    text.split_once(mark)
}

/// What stands behind such a front.
pub(crate) fn behind<'a>(text: &'a str, front: &str) -> Option<&'a str>
    ensures { MatchOption result ((rest : List ℕ) → text.now ≢ front.now ++ rest)
        (λ rest. text.now ≡ front.now ++ rest.now) }
{
    text.strip_prefix(front)
}
