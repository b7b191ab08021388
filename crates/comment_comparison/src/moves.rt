//! Which comments that aren't aligned have only moved.
ghost use Rattle.std.specs.Prelude.{◌≡◌, ℕ, ◌-◌, List, [], ◌∷◌, ◌++◌, IfOk, OnOk};
ghost use Rattle.comment_comparison.specs.Comments.{comment_texts};
ghost use Rattle.comment_comparison.specs.CommentChanges.{times, gone_texts, new_texts, AreSome};
ghost use Rattle.comment_comparison.specs.private.Tallies.{AreUnmoved, KeepsUnmoved};

use crate::change::CommentChange;
use crate::comment::Comment;
use crate::tally::{Tally, take_moved, tally_of};
use std::alloc::{AllocError, Global};

/// Those of some changes whose comment hasn't only moved: an old one and a new one of the same text are left out, as often as there
/// are such two.
pub(crate) fn unmoved(
    alloc: Global,
    old: &[Comment],
    new: &[Comment],
    changes: &[CommentChange],
) -> Result<Vec<CommentChange>, AllocError>
    ensures some { IfOk result (λ told. AreSome changes.now told.items) }
    ensures gone { IfOk result (λ told. (text : List ℕ)
        → times text (gone_texts (comment_texts old.now) told.items)
        ≡ times text (gone_texts (comment_texts old.now) changes.now)
        - times text (new_texts (comment_texts new.now) changes.now)) }
    ensures new_ones { IfOk result (λ told. (text : List ℕ)
        → times text (new_texts (comment_texts new.now) told.items)
        ≡ times text (new_texts (comment_texts new.now) changes.now)
        - times text (gone_texts (comment_texts old.now) changes.now)) }
{
    let mut tally = tally_of(alloc, old, new, changes)?;
    let mut told = Vec::new(alloc);
    for change in changes {
        tell_unmoved(&mut told, &mut tally, old, new, *change)?;
    }
    Ok(told)
}

/// Appends a change, unless its comment has only moved.
fn tell_unmoved<'a>(
    told: &mut Vec<CommentChange>,
    tally: &mut Tally<'a>,
    old: &'a [Comment],
    new: &'a [Comment],
    change: CommentChange,
) -> Result<(), AllocError>
    ensures { OnOk result (KeepsUnmoved (comment_texts old.now) (comment_texts new.now) change
        told.old.items tally.old told.new.items tally.new) }
{
    if take_moved(tally, old, new, change)? {
        return Ok(());
    }
    told.push(change)?;
    Ok(())
}
