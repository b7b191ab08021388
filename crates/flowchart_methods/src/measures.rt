//! The measures of what stands in a symbol or beside it, in px. Those of the symbols themselves are
//! `chart_layout`'s.
use chart_layout::Px;
use flowchart_markup::Fill;

/// A measure as it stands in markup.
pub(crate) fn px(measure: Px) -> Fill<'static> {
    Fill::Number(u64::from(measure.0))
}

/// How far below the top of a line of a statement its letters stand.
pub(crate) const TEXT_BASE: Px = Px(13);

/// How far below it those of a statement's place stand.
pub(crate) const PLACE_BASE: Px = Px(12);

/// How much wider than its text the mark of a refused statement is, on each side.
pub(crate) const MARK_SIDE: Px = Px(6);

/// How far the two lines of an EXECUTE are from its sides.
pub(crate) const CALL_LINE: Px = Px(7);

/// How far below the top of an EXECUTE the letters of its method stand.
pub(crate) const CALL_BASE: Px = Px(21);

/// How far below it those of its place stand.
pub(crate) const CALL_PLACE_BASE: Px = Px(20);

/// How much higher its place stands where a word stands below it.
pub(crate) const CALL_PLACE_RISE: Px = Px(6);

/// How far below its place that word stands.
pub(crate) const CALL_WORD_DROP: Px = Px(14);

/// How far below the top of the symbol with which a method begins or ends its letters stand.
pub(crate) const TERMINATOR_BASE: Px = Px(20);

/// How far the right end of the bracket beside comments is from the spine.
pub(crate) const BRACKET: Px = Px(16);

/// How far their text is from it.
pub(crate) const NOTE_TEXT: Px = Px(18);

/// How far below the top of a line of comments its letters stand.
pub(crate) const NOTE_BASE: Px = Px(11);

/// How far the two sides of the words at a way's line are from one another.
pub(crate) const WORD_SIDES: Px = Px(12);
