//! What a run did at the statements of a method, as far as a drawing needs it.
use crate::drawing::Word;
use crate::leads::{Exit, Way};

/// What a run did at a statement.
#[derive(Clone, Copy)]
pub struct Passage {
    /// The run executed it.
    pub is_run: bool,
    /// The run went on behind it.
    pub goes_on: bool,
    /// Its test held at least once.
    pub yes: bool,
    /// Its test didn't hold at least once.
    pub no: bool,
    /// How many lines stand below its text.
    pub lines: usize,
    /// How many characters the longest of them has.
    pub chars: usize,
}

/// What is known of a statement that no run executed.
const NO_PASSAGE: Passage = Passage {
    is_run: false,
    goes_on: false,
    yes: false,
    no: false,
    lines: 0,
    chars: 0,
};

/// What a run did at the statement of a number.
pub(crate) fn passage_at(passages: &[Passage], number: u32) -> Passage {
    match passages.get(number as usize) {
        Some(passage) => *passage,
        None => NO_PASSAGE,
    }
}

/// Whether a run left one of these exits.
pub(crate) fn is_taken(passages: &[Passage], exits: &[Exit]) -> bool {
    for exit in exits {
        if is_left(passages, exit) {
            return true;
        }
    }
    false
}

/// Whether a run left an exit. It left the start of a method exactly if it executed the first statement.
fn is_left(passages: &[Passage], exit: &Exit) -> bool {
    match exit {
        Exit::Start => passage_at(passages, 0).is_run,
        Exit::Below(number) => passage_at(passages, *number).goes_on,
        Exit::Way(Way { test, word }) => match word {
            Word::Yes => passage_at(passages, *test).yes,
            Word::No => passage_at(passages, *test).no,
            Word::YesOrNo => passage_at(passages, *test).goes_on,
        },
    }
}
