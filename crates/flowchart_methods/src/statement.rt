//! The statements of a drawing.
ghost use Rattle.std.specs.Prelude.{◌≡◌, ◌++◌, ◌∷◌, [], Some, None, false, IfOk, OnOk, map, option_map, string_bytes};
ghost use Rattle.chart_layout.specs.Drawn.{drawn, drawn_statement, drawn_call};
ghost use Rattle.flowchart_methods.specs.Turns.{AddsInTurn};
ghost use Rattle.flowchart_methods.specs.Conditions.{condition_at};
ghost use Rattle.flowchart_methods.specs.Marks.{mark_at, mark_words};
ghost use Rattle.flowchart_methods.specs.Captions.{condition_text, placed_caption, statement_caption, statement_captions};
ghost use Rattle.flowchart_methods.specs.private.Subjects.{beside_subject};

use crate::conditions::Condition;
use crate::kind::{ExitKind, MarkKind};
use crate::mark::Mark;
use crate::measures::{
    CALL_BASE, CALL_LINE, CALL_PLACE_BASE, CALL_PLACE_RISE, CALL_WORD_DROP, MARK_SIDE, PLACE_BASE,
    TEXT_BASE, px,
};
use chart_layout::{
    BENEATH_INDENT, BOX_SIDE, CALL_HEIGHT, CALL_SIDE, Call, LINE_HEIGHT, Line, Piece, Px,
    STATEMENT_GAP, Statement, TEST_SIDE, TEXT_DROP, Word, Written,
};
use flowchart_markup::{Fill, Page};
use pap_tree::Name;
use std::alloc::{AllocError, Global};

/// The start of the group of a statement of which something is known.
const KNOWN_START: &str = "<g id=\"%:%\" role=\"group\" aria-label=\"%:%%: %; %\" class=\"s\">";

/// That of one that a run executed.
const RAN_START: &str = "<g id=\"%:%\" role=\"group\" aria-label=\"%:%%: %; %\" class=\"s ran\">";

/// That of one to which no run came.
const MISSED_START: &str =
    "<g id=\"%:%\" role=\"group\" aria-label=\"%:%%: %; %\" class=\"s missed\">";

/// That of one to which no run within the ranges comes.
const DEAD_START: &str = "<g id=\"%:%\" role=\"group\" aria-label=\"%:%%: %; %\" class=\"s dead\">";

/// That of the one at which the walk over the ranges stops.
const FAILING_START: &str =
    "<g id=\"%:%\" role=\"group\" aria-label=\"%:%%: %; %\" class=\"s bad\">";

/// The method that is drawn.
#[derive(Clone, Copy)]
pub(crate) struct Subject<'a> {
    pub name: &'a Name,
    /// Where each statement stands, by its number.
    pub conditions: &'a [Option<Condition>],
    /// What is known of it, by its number.
    pub marks: &'a [Mark],
    /// The plan is refused for the method.
    pub is_refused: bool,
    /// The names of the methods that there are, in order.
    pub methods: &'a [Name],
}

impl<'a> Subject<'a> {
    /// What is known of the statement of a number.
    pub(crate) fn mark(self, number: u32) -> Option<&'a Mark> {
        self.marks.get(number as usize)
    }

    /// What kind of thing is known of the statement of a number.
    fn kind(self, number: u32) -> MarkKind
        ensures { result ≡ (mark_at self.entry.marks.now number).kind }
    {
        match self.marks.get(number as usize) {
            Some(mark) => mark.kind(),
            None => MarkKind::Nothing,
        }
    }

    /// What is known of the exit of the test of a number at which a word stands.
    pub(crate) fn exit(self, test: u32, word: Word) -> ExitKind {
        let Some(mark) = self.mark(test) else {
            return ExitKind::Open;
        };
        match word {
            Word::Yes => mark.exit(true),
            Word::No => mark.exit(false),
            Word::YesOrNo => mark.either_exit(),
        }
    }
}

/// Where the text of a statement stands.
#[derive(Clone, Copy)]
struct TextFrame {
    x: Px,
    top: Px,
    /// Where it ends at the right.
    end: Px,
}

/// Appends a box with some statements.
#[tactic(auto, using(crate::proofs::Laws::adds_before))]
pub(crate) fn write_box(
    page: &mut Page,
    subject: Subject<'_>,
    x: Px,
    y: Px,
    width: Px,
    height: Px,
    row: &[Statement],
) -> Result<(), AllocError>
    ensures { OnOk result (AddsInTurn
        (statement_captions subject.entry.name.now (beside_subject subject.entry)
        (map drawn_statement row.now)) page.old page.new) }
{
    page.append(&box_symbol(page.alloc(), subject, x, y, width, height, row)?)?;
    let frame = TextFrame {
        x: x + BOX_SIDE,
        top: y + TEXT_DROP,
        end: x + width - BOX_SIDE,
    };
    write_statements(page, subject, row, frame)?;
    Ok(())
}

/// The line round a box. It is marked by what is known of its first statement, and so of all of them.
fn box_symbol(
    alloc: Global,
    subject: Subject<'_>,
    x: Px,
    y: Px,
    width: Px,
    height: Px,
    row: &[Statement],
) -> Result<Page, AllocError> {
    let mut page = Page::new(alloc);
    let fills = [px(x), px(y), px(width), px(height)];
    match first_kind(subject, row) {
        MarkKind::Nothing | MarkKind::Told | MarkKind::Came | MarkKind::Failing => page.put(
            "<rect class=\"b\" x=\"%\" y=\"%\" width=\"%\" height=\"%\"/>",
            &fills,
        )?,
        MarkKind::Run(_) => page.put(
            "<rect class=\"b ran\" x=\"%\" y=\"%\" width=\"%\" height=\"%\"/>",
            &fills,
        )?,
        MarkKind::Missed => page.put(
            "<rect class=\"b missed\" x=\"%\" y=\"%\" width=\"%\" height=\"%\"/>",
            &fills,
        )?,
        MarkKind::Dead => page.put(
            "<rect class=\"b dead\" x=\"%\" y=\"%\" width=\"%\" height=\"%\"/>",
            &fills,
        )?,
    }
    Ok(page)
}

/// What kind of thing is known of the first of some statements.
fn first_kind(subject: Subject<'_>, row: &[Statement]) -> MarkKind {
    match row.first() {
        Some(statement) => subject.kind(statement.number),
        None => MarkKind::Nothing,
    }
}

/// Appends statements one below the other.
fn write_statements(
    page: &mut Page,
    subject: Subject<'_>,
    row: &[Statement],
    frame: TextFrame,
) -> Result<(), AllocError>
    ensures { OnOk result (AddsInTurn
        (statement_captions subject.entry.name.now (beside_subject subject.entry)
        (map drawn_statement row.now)) page.old page.new) }
{
    let mut frame = frame;
    for statement in row {
        write_statement(page, subject, statement, frame)?;
        frame.top = frame.top + statement.height() + STATEMENT_GAP;
    }
    Ok(())
}

/// Appends the hexagon of a test.
#[tactic(auto, using(crate::proofs::Laws::adds_before))]
pub(crate) fn write_test(
    page: &mut Page,
    subject: Subject<'_>,
    x: Px,
    y: Px,
    test: &Statement,
) -> Result<(), AllocError>
    ensures { OnOk result (AddsInTurn
        (statement_captions subject.entry.name.now (beside_subject subject.entry)
        (drawn_statement test.now ∷ [])) page.old page.new) }
{
    let kind = subject.kind(test.number);
    page.append(&hexagon(page.alloc(), x, y, test, kind)?)?;
    let width = test.test_width();
    let frame = TextFrame {
        x: x + TEST_SIDE,
        top: y + TEXT_DROP,
        end: x + width - TEST_SIDE,
    };
    write_statement(page, subject, test, frame)?;
    Ok(())
}

/// The line round a test.
fn hexagon(
    alloc: Global,
    x: Px,
    y: Px,
    test: &Statement,
    kind: MarkKind,
) -> Result<Page, AllocError> {
    let mut page = Page::new(alloc);
    let half = test.test_height().half();
    let point = TEST_SIDE.half();
    let flat = test.test_width() - TEST_SIDE;
    let numbers = [
        px(x),
        px(y + half),
        px(point),
        px(half),
        px(flat),
        px(point),
        px(half),
        px(point),
        px(half),
        px(flat),
    ];
    if test.is_refused {
        page.put(
            "<path class=\"d bad\" d=\"M% %l% -%h%l% %l-% %h-%z\"/>",
            &numbers,
        )?;
    } else {
        put_hexagon(&mut page, kind, &numbers)?;
    }
    Ok(page)
}

/// Appends a hexagon of these measures, by what is known of its test.
fn put_hexagon(page: &mut Page, kind: MarkKind, numbers: &[Fill<'_>]) -> Result<(), AllocError> {
    match kind {
        MarkKind::Nothing | MarkKind::Told | MarkKind::Came => page.put(
            "<path class=\"d\" d=\"M% %l% -%h%l% %l-% %h-%z\"/>",
            numbers,
        ),
        MarkKind::Run(_) => page.put(
            "<path class=\"d ran\" d=\"M% %l% -%h%l% %l-% %h-%z\"/>",
            numbers,
        ),
        MarkKind::Missed => page.put(
            "<path class=\"d missed\" d=\"M% %l% -%h%l% %l-% %h-%z\"/>",
            numbers,
        ),
        MarkKind::Dead => page.put(
            "<path class=\"d dead\" d=\"M% %l% -%h%l% %l-% %h-%z\"/>",
            numbers,
        ),
        MarkKind::Failing => page.put(
            "<path class=\"d bad\" d=\"M% %l% -%h%l% %l-% %h-%z\"/>",
            numbers,
        ),
    }
}

/// Appends a statement: its caption, its lines, and its place at their right end.
#[tactic(auto, using(crate::proofs::TurnLemmas::adds_front))]
fn write_statement(
    page: &mut Page,
    subject: Subject<'_>,
    statement: &Statement,
    frame: TextFrame,
) -> Result<(), AllocError>
    ensures { OnOk result (AddsInTurn
        (statement_captions subject.entry.name.now (beside_subject subject.entry)
        (drawn_statement statement.now ∷ [])) page.old page.new) }
{
    write_caption(
        page,
        subject,
        statement.number,
        statement.is_refused,
        &statement.written.text,
    )?;
    page.append(&statement_lines(page.alloc(), subject, statement, frame)?)?;
    Ok(())
}

/// Appends an EXECUTE: its caption, its symbol, and its place.
#[tactic(auto, using(crate::proofs::TurnLemmas::adds_front))]
pub(crate) fn write_call(
    page: &mut Page,
    subject: Subject<'_>,
    x: Px,
    y: Px,
    call: &Call,
) -> Result<(), AllocError>
    ensures { OnOk result (AddsInTurn
        (statement_captions subject.entry.name.now (beside_subject subject.entry)
        (drawn_call call.now ∷ [])) page.old page.new) }
{
    write_caption(
        page,
        subject,
        call.number,
        call.is_refused,
        call.method.bytes(),
    )?;
    page.append(&call_symbol(page.alloc(), subject, x, y, call)?)?;
    Ok(())
}

/// Appends the start of a statement's group: its place as the name to which links lead, and what is read aloud of it: its place,
/// under which condition it stands, and its text. Its class marks the refused one.
fn write_caption(
    page: &mut Page,
    subject: Subject<'_>,
    number: u32,
    is_refused: bool,
    text: &[u8],
) -> Result<(), AllocError>
    ensures { OnOk result (page.new ≡ page.old ++ statement_caption subject.entry.name.now
        (condition_at subject.entry.conditions.now number)
        (mark_at subject.entry.marks.now number) (drawn number is_refused text.now)) }
{
    let condition = condition_at(subject.conditions, number);
    let condition = condition_text(page.alloc(), subject.name, condition)?;
    match words_at(page.alloc(), subject.marks, number)? {
        Some(words) => {
            let kind = subject.kind(number);
            put_known(page, subject.name, number, &condition, text, &words, kind)
        }
        None => put_caption(page, subject.name, number, is_refused, &condition, text),
    }
}

/// What is known of the statement of a number, as it is read aloud. `None` where there is nothing to read.
fn words_at(alloc: Global, marks: &[Mark], number: u32) -> Result<Option<Vec<u8>>, AllocError>
    ensures { IfOk result (λ words. option_map (λ w. w.items) words
        ≡ mark_words (mark_at marks.now number)) }
{
    match marks.get(number as usize) {
        Some(mark) => mark.words(alloc),
        None => Ok(None),
    }
}

/// Appends the start of the group of a statement of which something is known.
fn put_known<'a>(
    page: &mut Page,
    name: &Name,
    number: u32,
    condition: &'a str,
    text: &'a [u8],
    words: &'a [u8],
    kind: MarkKind,
) -> Result<(), AllocError>
    ensures { OnOk result (page.new ≡ page.old
        ++ placed_caption name.now condition.now (Some words.now) kind (drawn number false text.now)) }
{
    let number = u64::from(number);
    let fills = [
        Fill::OfName(*name),
        Fill::Number(number),
        Fill::OfName(*name),
        Fill::Number(number),
        Fill::Text(condition.as_bytes()),
        Fill::Text(text),
        Fill::Text(words),
    ];
    match kind {
        MarkKind::Nothing => page.put(KNOWN_START, &fills),
        MarkKind::Run(_) => page.put(RAN_START, &fills),
        MarkKind::Told => page.put(KNOWN_START, &fills),
        MarkKind::Came => page.put(KNOWN_START, &fills),
        MarkKind::Missed => page.put(MISSED_START, &fills),
        MarkKind::Dead => page.put(DEAD_START, &fills),
        MarkKind::Failing => page.put(FAILING_START, &fills),
    }
}

/// Appends the start of a statement's group, by its condition as it is read aloud.
fn put_caption<'a>(
    page: &mut Page,
    name: &Name,
    number: u32,
    is_refused: bool,
    condition: &'a str,
    text: &'a [u8],
) -> Result<(), AllocError>
    ensures { OnOk result (page.new ≡ page.old
        ++ placed_caption name.now condition.now None MarkKind.Nothing
        (drawn number is_refused text.now)) }
{
    let place = u64::from(number);
    if is_refused {
        page.put(
            "<g id=\"%:%\" role=\"group\" aria-label=\"%:%%: %\" class=\"s bad\">",
            &[
                Fill::OfName(*name),
                Fill::Number(place),
                Fill::OfName(*name),
                Fill::Number(place),
                Fill::Text(condition.as_bytes()),
                Fill::Text(text),
            ],
        )
    } else {
        page.put(
            "<g id=\"%:%\" role=\"group\" aria-label=\"%:%%: %\" class=\"s\">",
            &[
                Fill::OfName(*name),
                Fill::Number(place),
                Fill::OfName(*name),
                Fill::Number(place),
                Fill::Text(condition.as_bytes()),
                Fill::Text(text),
            ],
        )
    }
}

/// The condition under which a statement of a number stands.
fn condition_at(conditions: &[Option<Condition>], number: u32) -> Option<Condition>
    ensures { result ≡ condition_at conditions.now number }
{
    match conditions.get(number as usize) {
        Some(condition) => *condition,
        None => None,
    }
}

/// A condition as it is read aloud.
fn condition_text(
    alloc: Global,
    method: &Name,
    condition: Option<Condition>,
) -> Result<String, AllocError>
    ensures { IfOk result (λ text. string_bytes text ≡ condition_text method.now condition) }
{
    match condition {
        Some(Condition { test, holds: true }) => format!(in alloc; ", where {method}:{test} holds"),
        Some(Condition { test, holds: false }) => {
            format!(in alloc; ", where {method}:{test} does not hold")
        }
        None => Ok(String::new(alloc)),
    }
}

/// What stands in a statement's group.
fn statement_lines(
    alloc: Global,
    subject: Subject<'_>,
    statement: &Statement,
    frame: TextFrame,
) -> Result<Page, AllocError> {
    let mut page = Page::new(alloc);
    if statement.is_refused {
        write_mark(&mut page, frame, statement.height())?;
    }
    write_lines(
        &mut page,
        &statement.written,
        frame.x,
        frame.top + TEXT_BASE,
    )?;
    let beneath = frame.top + statement.text_height();
    write_told_lines(&mut page, subject.mark(statement.number), frame.x, beneath)?;
    let base = frame.top + PLACE_BASE;
    write_place(
        &mut page,
        subject,
        statement.number,
        statement.is_refused,
        frame.end,
        base,
    )?;
    page.put("</g>", &[])?;
    Ok(page)
}

/// Appends what is told of a statement, below its text.
fn write_told_lines(
    page: &mut Page,
    mark: Option<&Mark>,
    x: Px,
    top: Px,
) -> Result<(), AllocError> {
    let Some(mark) = mark else {
        return Ok(());
    };
    let mut base = top + TEXT_BASE;
    for line in mark.lines() {
        page.put(
            "<text class=\"v\" x=\"%\" y=\"%\">%</text>",
            &[px(x + BENEATH_INDENT), px(base), Fill::Text(line)],
        )?;
        base = base + LINE_HEIGHT;
    }
    Ok(())
}

/// Appends the mark of a refused statement, of a height.
fn write_mark(page: &mut Page, frame: TextFrame, height: Px) -> Result<(), AllocError> {
    let x = frame.x - MARK_SIDE;
    let width = frame.end + MARK_SIDE - x;
    page.put(
        "<rect x=\"%\" y=\"%\" width=\"%\" height=\"%\"/>",
        &[px(x), px(frame.top), px(width), px(height)],
    )
}

/// Appends the lines of a text, the first with its letters at a height.
fn write_lines(page: &mut Page, written: &Written, x: Px, base: Px) -> Result<(), AllocError> {
    let mut base = base;
    for line in &written.lines {
        write_line(page, written, line, x, base)?;
        base = base + LINE_HEIGHT;
    }
    Ok(())
}

/// Appends a line of a text.
fn write_line(
    page: &mut Page,
    written: &Written,
    line: &Line,
    x: Px,
    base: Px,
) -> Result<(), AllocError> {
    let x = x + line.left();
    page.put("<text x=\"%\" y=\"%\">", &[px(x), px(base)])?;
    let pieces = written.pieces.get(line.first..line.last).unwrap_or(&[]);
    write_pieces(page, &written.text, pieces)?;
    page.put("</text>", &[])
}

/// Appends pieces of a text, those in grey that only say where a name comes from.
fn write_pieces(page: &mut Page, text: &[u8], pieces: &[Piece]) -> Result<(), AllocError> {
    let mut is_grey = false;
    for (i, piece) in pieces.iter().enumerate() {
        write_gap(page, piece, i == 0, is_grey)?;
        is_grey = piece.is_qualifier;
        page.text(text.get(piece.start..piece.end).unwrap_or(&[]))?;
    }
    if is_grey {
        page.put("</tspan>", &[])?;
    }
    Ok(())
}

/// Appends what stands before a piece: its space, and where grey begins or ends.
fn write_gap(
    page: &mut Page,
    piece: &Piece,
    is_first: bool,
    is_grey: bool,
) -> Result<(), AllocError> {
    if is_grey && !piece.is_qualifier {
        page.put("</tspan>", &[])?;
    }
    if piece.is_spaced && !is_first {
        page.put(" ", &[])?;
    }
    if piece.is_qualifier && !is_grey {
        page.put("<tspan>", &[])?;
    }
    Ok(())
}

/// Appends a statement's place, which ends at `x`: as a link to the first of its entries in the list of a run, where that executed it.
fn write_place(
    page: &mut Page,
    subject: Subject<'_>,
    number: u32,
    is_refused: bool,
    x: Px,
    y: Px,
) -> Result<(), AllocError> {
    if let MarkKind::Run(first) = subject.kind(number) {
        return page.put(
            "<a href=\"#visit-%\"><text class=\"p\" x=\"%\" y=\"%\">%:%</text></a>",
            &[
                Fill::Number(first),
                px(x),
                px(y),
                Fill::OfName(*subject.name),
                Fill::Number(u64::from(number)),
            ],
        );
    }
    let fills = [
        px(x),
        px(y),
        Fill::OfName(*subject.name),
        Fill::Number(u64::from(number)),
    ];
    if is_refused {
        page.put(
            "<text class=\"p\" x=\"%\" y=\"%\">refused %:%</text>",
            &fills,
        )
    } else {
        page.put("<text class=\"p\" x=\"%\" y=\"%\">%:%</text>", &fills)
    }
}

/// What stands in the group of an EXECUTE: its symbol, as a link to its method where that is there, and its place.
fn call_symbol(
    alloc: Global,
    subject: Subject<'_>,
    x: Px,
    y: Px,
    call: &Call,
) -> Result<Page, AllocError> {
    let mut page = Page::new(alloc);
    write_call_link(&mut page, subject, x, y, call)?;
    let end = x + call.width() - CALL_SIDE;
    write_call_place(&mut page, subject, call, end, y + CALL_PLACE_BASE)?;
    page.put("</g>", &[])?;
    Ok(page)
}

/// Appends the place of an EXECUTE, which ends at `x`, and below it a word for what is known of it, where something is.
fn write_call_place(
    page: &mut Page,
    subject: Subject<'_>,
    call: &Call,
    x: Px,
    y: Px,
) -> Result<(), AllocError> {
    match call_word(subject, call.number) {
        Some(word) => {
            let above = y - CALL_PLACE_RISE;
            write_place(page, subject, call.number, call.is_refused, x, above)?;
            page.put(
                "<text class=\"p v\" x=\"%\" y=\"%\">%</text>",
                &[px(x), px(above + CALL_WORD_DROP), Fill::Text(word)],
            )
        }
        None => write_place(page, subject, call.number, call.is_refused, x, y),
    }
}

/// What is known of the EXECUTE of a number, in a word: the first line of its mark, or that no run may come there.
fn call_word<'a>(subject: Subject<'a>, number: u32) -> Option<&'a [u8]> {
    let mark = subject.mark(number)?;
    match mark.kind() {
        MarkKind::Dead => Some("unreachable".as_bytes()),
        _ => first_line(mark.lines()),
    }
}

/// The first of some lines.
fn first_line(lines: &[Vec<u8>]) -> Option<&[u8]> {
    match lines {
        [line, ..] => Some(line.as_slice()),
        [] => None,
    }
}

/// Appends the box of an EXECUTE, as a link to its method where that is there.
fn write_call_link(
    page: &mut Page,
    subject: Subject<'_>,
    x: Px,
    y: Px,
    call: &Call,
) -> Result<(), AllocError> {
    let method = call.method;
    if subject.methods.binary_search(&method).is_err() {
        return write_call_box(page, &method, x, y, call.width());
    }
    page.put("<a href=\"#method-%\">", &[Fill::OfName(method)])?;
    write_call_box(page, &method, x, y, call.width())?;
    page.put("</a>", &[])
}

/// Appends the box of an EXECUTE, with the name of its method.
fn write_call_box(
    page: &mut Page,
    method: &Name,
    x: Px,
    y: Px,
    width: Px,
) -> Result<(), AllocError> {
    let left = x + CALL_LINE;
    let right = x + width - CALL_LINE;
    let height = CALL_HEIGHT;
    page.put(
        "<rect class=\"x\" x=\"%\" y=\"%\" width=\"%\" height=\"%\"/><path class=\"xx\" d=\"M% %v%M% %v%\"/><text class=\"m\" x=\"%\" y=\"%\">%</text>",
        &[
            px(x),
            px(y),
            px(width),
            px(height),
            px(left),
            px(y),
            px(height),
            px(right),
            px(y),
            px(height),
            px(x + CALL_SIDE),
            px(y + CALL_BASE),
            Fill::OfName(*method),
        ],
    )
}
