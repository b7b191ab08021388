//! The measures of a drawing: lengths in px, and widths of characters in tenths of a px.
use crate::px::Px;

// ---- a symbol with its text

/// The room above a symbol's text, and below it.
pub const TEXT_DROP: Px = Px(8);

/// The height of a line of a statement.
pub const LINE_HEIGHT: Px = Px(18);

/// How far a line is indented for each character.
pub(crate) const INDENT: Px = Px(7);

/// How far the lines below a statement's text are indented.
pub const BENEATH_INDENT: Px = Px(28);

/// The room between two statements of a box.
pub const STATEMENT_GAP: Px = Px(4);

/// The room beside a box's text, on each side.
pub const BOX_SIDE: Px = Px(12);

/// The room beside a test's text, on each side.
pub const TEST_SIDE: Px = Px(24);

/// The room beside an EXECUTE's names, on each side.
pub const CALL_SIDE: Px = Px(20);

/// The height of an EXECUTE.
pub const CALL_HEIGHT: Px = Px(34);

/// The room beside the word in the symbol with which a method begins or ends, on each side.
pub const TERMINATOR_SIDE: Px = Px(16);

/// The height of that symbol.
pub const TERMINATOR_HEIGHT: Px = Px(30);

/// Its least width.
pub(crate) const LEAST_TERMINATOR: Px = Px(56);

/// The least width of another symbol.
pub(crate) const LEAST_SYMBOL: Px = Px(200);

/// What the width of another symbol is a multiple of.
pub(crate) const SYMBOL_STEP: u32 = 40;

/// The greatest height of a box of several statements.
pub(crate) const HIGHEST_BOX: Px = Px(900);

/// The room of a body that stands in no THEN.
pub(crate) const WIDEST_ROOM: Px = Px(640);

/// The least room of a body.
pub(crate) const LEAST_ROOM: Px = Px(340);

// ---- characters, in tenths of a px

/// A character of a statement.
pub(crate) const CODE_CHAR: u32 = 73;

/// One of a statement's place.
pub(crate) const PLACE_CHAR: u32 = 59;

/// One of the word with which a method begins or ends.
pub(crate) const WORD_CHAR: u32 = 80;

/// One of a comment that is no capital.
pub(crate) const NOTE_CHAR: u32 = 62;

/// A capital of a comment.
pub(crate) const NOTE_CAPITAL: u32 = 86;

// ---- comments

/// The height of a line of comments.
pub const NOTE_LINE: Px = Px(14);

/// The room above comments.
pub(crate) const NOTE_GAP: Px = Px(14);

/// How much wider comments are than their text.
pub(crate) const NOTE_SIDES: Px = Px(50);

/// How many characters fewer a line of comments has than one of a statement.
pub(crate) const NOTE_CHARS_LESS: u32 = 8;

// ---- the room between symbols

/// The room round a drawing.
pub(crate) const MARGIN: Px = Px(2);

/// How far a spine is from its body's left edge.
pub(crate) const SPINE: Px = Px(28);

/// One step to the right.
pub(crate) const STEP: Px = Px(44);

/// The room above a symbol.
pub(crate) const SYMBOL_GAP: Px = Px(20);

/// The room between a statement's text, or an EXECUTE's name, and its place.
pub(crate) const PLACE_GAP: Px = Px(14);

/// How far a part reaches from its top to the end of its last symbol.
pub(crate) const LONGEST_PART: Px = Px(1070);

/// How far above a symbol a part may end.
pub(crate) const CUT_GAP: Px = Px(8);

/// How far above comments.
pub(crate) const NOTE_CUT_GAP: Px = Px(2);

// ---- the ways of a test

/// How far a branch goes down before its first figure.
pub(crate) const BRANCH_DROP: Px = Px(8);

/// How far a word stands from its line.
pub(crate) const WORD_SIDE: Px = Px(6);

/// How far it stands below its test.
pub(crate) const WORD_DROP: Px = Px(16);

/// How far a test's line goes down where nothing stands on either way.
pub(crate) const EITHER_DROP: Px = Px(26);

/// How far a branch goes down behind its last figure.
pub(crate) const JOIN_GAP: Px = Px(12);

/// How far one of no figure goes down.
pub(crate) const EMPTY_JOIN_GAP: Px = Px(14);

/// How far a rail is from what it passes.
pub(crate) const RAIL_GAP: Px = Px(18);

/// The room that it takes.
pub(crate) const RAIL_ROOM: Px = Px(20);

/// How far a spine goes on below a branch that met a rail.
pub(crate) const BELOW_RAIL: Px = Px(2);

/// How far it goes on below an ELSE before its rail comes back.
pub(crate) const RAIL_JOIN_GAP: Px = Px(14);
