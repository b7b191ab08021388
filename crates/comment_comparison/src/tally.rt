//! How often texts stand among others.
ghost use Rattle.std.specs.Prelude.{◌≡◌, ℕ, ◌+◌, ◌<◌, ◌^◌, List, [], ◌∷◌, true, false, IfOk, OnOk};
ghost use Rattle.comment_comparison.specs.Comments.{comment_texts};
ghost use Rattle.comment_comparison.specs.CommentChanges.{gone_text, new_text};
ghost use Rattle.comment_comparison.specs.private.Tallies.{count_in, CountsMore, CountsLess, other_count, IsTally};
ghost use Rattle.flowchart_comparison.specs.Entries.{compared_text};

use crate::change::CommentChange;
use crate::comment::Comment;
use std::alloc::{AllocError, Global};
use std::collections::BTreeMap;

/// How often each text stands.
type Counts<'a> = BTreeMap<&'a [u8], usize>;

/// How often the texts of some changes stand among those that are gone, and among those that are new.
#[derive(Drop)]
pub(crate) struct Tally<'a> {
    gone_counts: Counts<'a>,
    new_counts: Counts<'a>,
}

/// The tally of some changes.
pub(crate) fn tally_of<'a>(
    alloc: Global,
    old: &'a [Comment],
    new: &'a [Comment],
    changes: &[CommentChange],
) -> Result<Tally<'a>, AllocError>
    ensures { IfOk result (λ tally.
        IsTally (comment_texts old.now) (comment_texts new.now) changes.now tally) }
{
    let mut tally = Tally {
        gone_counts: BTreeMap::new(alloc),
        new_counts: BTreeMap::new(alloc),
    };
    for change in changes {
        count_change(&mut tally, old, new, *change)?;
    }
    Ok(tally)
}

/// Counts a change.
fn count_change<'a>(
    tally: &mut Tally<'a>,
    old: &'a [Comment],
    new: &'a [Comment],
    change: CommentChange,
) -> Result<(), AllocError>
    requires gone_few { (text : List ℕ) → count_in tally.old.gone_counts text + 1 < 2 ^ 64 }
    requires new_few { (text : List ℕ) → count_in tally.old.new_counts text + 1 < 2 ^ 64 }
    ensures gone { OnOk result (CountsMore tally.old.gone_counts tally.new.gone_counts
        (gone_text (comment_texts old.now) change)) }
    ensures new_ones { OnOk result (CountsMore tally.old.new_counts tally.new.new_counts
        (new_text (comment_texts new.now) change)) }
{
    match change {
        CommentChange::Gone(place) => add_one(&mut tally.gone_counts, text_at(old, place)),
        CommentChange::New(place) => add_one(&mut tally.new_counts, text_at(new, place)),
    }
}

/// Takes the text of a change away from those of the other side. Gives whether it stood there.
pub(crate) fn take_moved<'a>(
    tally: &mut Tally<'a>,
    old: &'a [Comment],
    new: &'a [Comment],
    change: CommentChange,
) -> Result<bool, AllocError>
    ensures stood { IfOk result (λ taken. taken ≡ true
        → 0 < other_count (comment_texts old.now) (comment_texts new.now) tally.old change) }
    ensures absent { IfOk result (λ taken. taken ≡ false
        → other_count (comment_texts old.now) (comment_texts new.now) tally.old change ≡ 0) }
    ensures gone_left { OnOk result (CountsLess tally.old.gone_counts tally.new.gone_counts
        (new_text (comment_texts new.now) change)) }
    ensures new_left { OnOk result (CountsLess tally.old.new_counts tally.new.new_counts
        (gone_text (comment_texts old.now) change)) }
{
    match change {
        CommentChange::Gone(place) => take_one(&mut tally.new_counts, text_at(old, place)),
        CommentChange::New(place) => take_one(&mut tally.gone_counts, text_at(new, place)),
    }
}

/// The text of the comment at a place, and nothing where there is none.
fn text_at(comments: &[Comment], place: usize) -> &[u8]
    ensures { result.now ≡ compared_text (comment_texts comments.now) place }
{
    if place < comments.len() {
        comments[place].text().as_bytes()
    } else {
        &[]
    }
}

/// How often a text stands.
fn count_of<'a>(counts: &Counts<'a>, text: &'a [u8]) -> usize
    ensures { result ≡ count_in counts.now text.now }
{
    counts.get(&text).copied().unwrap_or(0)
}

/// Counts a text once more.
fn add_one<'a>(counts: &mut Counts<'a>, text: &'a [u8]) -> Result<(), AllocError>
    requires { count_in counts.old text.now + 1 < 2 ^ 64 }
    ensures { OnOk result (CountsMore counts.old counts.new (text.now ∷ [])) }
{
    let count = count_of(counts, text);
    counts.insert(text, count + 1)?;
    Ok(())
}

/// Takes a text away once. Gives whether it stood there.
fn take_one<'a>(counts: &mut Counts<'a>, text: &'a [u8]) -> Result<bool, AllocError>
    ensures stood { IfOk result (λ taken. taken ≡ true → 0 < count_in counts.old text.now) }
    ensures absent { IfOk result (λ taken. taken ≡ false → count_in counts.old text.now ≡ 0) }
    ensures left { OnOk result (CountsLess counts.old counts.new (text.now ∷ [])) }
{
    let count = count_of(counts, text);
    if count == 0 {
        return Ok(false);
    }
    counts.insert(text, count - 1)?;
    Ok(true)
}
