//! The symbols of a drawing that aren't statements: where a method begins and ends, comments, and the words of tests.
ghost use Rattle.std.specs.Prelude.{[], OnOk};
ghost use Rattle.flowchart_methods.specs.Turns.{AddsInTurn};

use crate::kind::ExitKind;
use crate::measures::{BRACKET, NOTE_BASE, NOTE_TEXT, TERMINATOR_BASE, WORD_SIDES, px};
use crate::statement::Subject;
use chart_layout::{Anchor, NOTE_LINE, Note, Px, TERMINATOR_HEIGHT, TERMINATOR_SIDE, Word};
use flowchart_markup::{Fill, Page};
use pap_tree::Name;
use std::alloc::{AllocError, Global};

/// Appends the symbol with which a method begins.
pub(crate) fn write_start(
    page: &mut Page,
    subject: Subject<'_>,
    x: Px,
    y: Px,
    width: Px,
) -> Result<(), AllocError>
    ensures { OnOk result (AddsInTurn [] page.old page.new) }
{
    let name = subject.name.as_str();
    write_terminator(page, subject.is_refused, x, y, width, name)
}

/// Appends the symbol with which a method ends.
pub(crate) fn write_end(
    page: &mut Page,
    name: &Name,
    x: Px,
    y: Px,
    width: Px,
) -> Result<(), AllocError>
    ensures { OnOk result (AddsInTurn [] page.old page.new) }
{
    let word = if *name == Name::main() {
        "END"
    } else {
        "RETURN"
    };
    write_terminator(page, false, x, y, width, word)
}

/// Appends the symbol with which a method begins or ends, with its word.
#[tactic(auto, using(crate::proofs::TurnLemmas::adds_html))]
fn write_terminator(
    page: &mut Page,
    is_refused: bool,
    x: Px,
    y: Px,
    width: Px,
    word: &str,
) -> Result<(), AllocError>
    ensures { OnOk result (AddsInTurn [] page.old page.new) }
{
    page.append(&terminator(page.alloc(), is_refused, x, y, width, word)?)?;
    Ok(())
}

/// The symbol with which a method begins or ends, with its word.
fn terminator(
    alloc: Global,
    is_refused: bool,
    x: Px,
    y: Px,
    width: Px,
    word: &str,
) -> Result<Page, AllocError> {
    let mut page = Page::new(alloc);
    let fills = [
        px(x),
        px(y),
        px(width),
        px(TERMINATOR_HEIGHT),
        px(TERMINATOR_HEIGHT.half()),
        px(x + TERMINATOR_SIDE),
        px(y + TERMINATOR_BASE),
        Fill::Text(word.as_bytes()),
    ];
    if is_refused {
        page.put(
            "<rect class=\"t bad\" x=\"%\" y=\"%\" width=\"%\" height=\"%\" rx=\"%\"/><text class=\"n\" x=\"%\" y=\"%\">%</text>",
            &fills,
        )?;
    } else {
        page.put(
            "<rect class=\"t\" x=\"%\" y=\"%\" width=\"%\" height=\"%\" rx=\"%\"/><text class=\"n\" x=\"%\" y=\"%\">%</text>",
            &fills,
        )?;
    }
    Ok(page)
}

/// Appends a word of a test's ways.
#[tactic(auto, using(crate::proofs::TurnLemmas::adds_html))]
pub(crate) fn write_word(
    page: &mut Page,
    subject: Subject<'_>,
    x: Px,
    y: Px,
    test: u32,
    word: Word,
    anchor: Anchor,
) -> Result<(), AllocError>
    ensures { OnOk result (AddsInTurn [] page.old page.new) }
{
    let exit = subject.exit(test, word);
    page.append(&word_symbol(page.alloc(), x, y, word, anchor, exit)?)?;
    Ok(())
}

/// A word of a test's ways, and what is known of the way.
fn word_symbol(
    alloc: Global,
    x: Px,
    y: Px,
    word: Word,
    anchor: Anchor,
    exit: ExitKind,
) -> Result<Page, AllocError> {
    let mut page = Page::new(alloc);
    let word = match word {
        Word::Yes => "yes",
        Word::No => "no",
        Word::YesOrNo => "yes or no",
    };
    match anchor {
        Anchor::Begins => put_word_behind(&mut page, x, y, word, exit)?,
        Anchor::Ends => put_word_before(&mut page, x, y, word, exit)?,
    }
    Ok(page)
}

/// Appends a word that stands behind the line of its way.
fn put_word_behind(
    page: &mut Page,
    x: Px,
    y: Px,
    word: &str,
    exit: ExitKind,
) -> Result<(), AllocError> {
    let fills = [px(x), px(y), Fill::Text(word.as_bytes())];
    match exit {
        ExitKind::Open | ExitKind::Unwalked => {
            page.put("<text class=\"y\" x=\"%\" y=\"%\">%</text>", &fills)
        }
        ExitKind::Taken => page.put("<text class=\"y ran\" x=\"%\" y=\"%\">%</text>", &fills),
        ExitKind::Counted(count) => put_counted(page, x, y, word, Anchor::Begins, count),
        ExitKind::Missed => page.put(
            "<text class=\"y missed\" x=\"%\" y=\"%\">% missed</text>",
            &fills,
        ),
        ExitKind::Dead => page.put(
            "<text class=\"y dead\" x=\"%\" y=\"%\">% never</text>",
            &fills,
        ),
    }
}

/// Appends a word that stands before the line of its way; what is known of the way stands behind the line.
fn put_word_before(
    page: &mut Page,
    x: Px,
    y: Px,
    word: &str,
    exit: ExitKind,
) -> Result<(), AllocError> {
    let fills = [
        px(x),
        px(y),
        Fill::Text(word.as_bytes()),
        px(x + WORD_SIDES),
        px(y),
    ];
    match exit {
        ExitKind::Open | ExitKind::Unwalked => {
            page.put("<text class=\"e\" x=\"%\" y=\"%\">%</text>", &fills)
        }
        ExitKind::Taken => page.put("<text class=\"e ran\" x=\"%\" y=\"%\">%</text>", &fills),
        ExitKind::Counted(count) => put_counted(page, x, y, word, Anchor::Ends, count),
        ExitKind::Missed => page.put(
            "<text class=\"e missed\" x=\"%\" y=\"%\">%</text><text class=\"y missed\" x=\"%\" y=\"%\">missed</text>",
            &fills,
        ),
        ExitKind::Dead => page.put(
            "<text class=\"e dead\" x=\"%\" y=\"%\">%</text><text class=\"y dead\" x=\"%\" y=\"%\">never</text>",
            &fills,
        ),
    }
}

/// Appends a word of a way and how many runs took the way: behind the word, or where the word stands before the line, behind the line.
fn put_counted(
    page: &mut Page,
    x: Px,
    y: Px,
    word: &str,
    anchor: Anchor,
    count: u64,
) -> Result<(), AllocError> {
    let word = Fill::Text(word.as_bytes());
    let count = Fill::Number(count);
    match anchor {
        Anchor::Begins => page.put(
            "<text class=\"y\" x=\"%\" y=\"%\">% %</text>",
            &[px(x), px(y), word, count],
        ),
        Anchor::Ends => page.put(
            "<text class=\"e\" x=\"%\" y=\"%\">%</text><text class=\"y\" x=\"%\" y=\"%\">%</text>",
            &[px(x), px(y), word, px(x + WORD_SIDES), px(y), count],
        ),
    }
}

/// Appends comments beside the spine.
#[tactic(auto, using(crate::proofs::TurnLemmas::adds_html))]
pub(crate) fn write_note(page: &mut Page, spine: Px, y: Px, note: &Note) -> Result<(), AllocError>
    ensures { OnOk result (AddsInTurn [] page.old page.new) }
{
    page.append(&note_symbol(page.alloc(), spine, y, note)?)?;
    Ok(())
}

/// Comments beside the spine: a bracket with a stroke to it, and their lines.
fn note_symbol(alloc: Global, spine: Px, y: Px, note: &Note) -> Result<Page, AllocError> {
    let mut page = Page::new(alloc);
    let height = note.height();
    let middle = y + height.half();
    let right = spine + BRACKET;
    page.put(
        "<path class=\"k\" d=\"M% %h10M% %h-6v%h6\"/>",
        &[px(spine), px(middle), px(right), px(y), px(height)],
    )?;
    write_note_lines(&mut page, spine + NOTE_TEXT, y + NOTE_BASE, note)?;
    Ok(page)
}

/// Appends the lines of comments, the first with its letters at a height.
fn write_note_lines(page: &mut Page, x: Px, base: Px, note: &Note) -> Result<(), AllocError> {
    let mut base = base;
    for line in &note.lines {
        page.put(
            "<text class=\"c\" x=\"%\" y=\"%\">%</text>",
            &[px(x), px(base), Fill::Text(line.as_bytes())],
        )?;
        base = base + NOTE_LINE;
    }
    Ok(())
}
