//! A drawing as SVG.
ghost use Rattle.std.specs.Prelude.{[], OnOk};
ghost use Rattle.std.specs.List.{flat_map};
ghost use Rattle.chart_layout.specs.Drawn.{row_statements, drawing_statements};
ghost use Rattle.flowchart_methods.specs.Turns.{AddsInTurn};
ghost use Rattle.flowchart_methods.specs.Captions.{statement_captions};
ghost use Rattle.flowchart_methods.specs.private.Subjects.{beside_subject};

use crate::measures::px;
use crate::statement::{Subject, write_box, write_call, write_test};
use crate::symbols::{write_end, write_note, write_start, write_word};
use chart_layout::{Drawing, Head, Part, Px, Row, Stroke};
use flowchart_markup::{Fill, Page};
use pap_tree::Name;
use std::alloc::{AllocError, Global};

/// Appends the parts of a drawing.
pub(crate) fn write_drawing(
    page: &mut Page,
    subject: Subject<'_>,
    drawing: &Drawing<'_>,
) -> Result<(), AllocError>
    ensures { OnOk result (AddsInTurn
        (statement_captions subject.entry.name.now (beside_subject subject.entry)
        (drawing_statements drawing.now.parts.items)) page.old page.new) }
{
    for (i, part) in drawing.parts.iter().enumerate() {
        write_part(page, subject, drawing, i, part)?;
    }
    Ok(())
}

/// Appends the part of a number.
fn write_part(
    page: &mut Page,
    subject: Subject<'_>,
    drawing: &Drawing<'_>,
    number: usize,
    part: &Part<'_>,
) -> Result<(), AllocError>
    ensures { OnOk result (AddsInTurn
        (statement_captions subject.entry.name.now (beside_subject subject.entry)
        (flat_map row_statements part.now.rows.items)) page.old page.new) }
{
    page.append(&part_start(page.alloc(), subject.name, drawing, number, part)?)?;
    write_rows(page, subject, &part.rows)?;
    page.put("</svg>", &[])?;
    Ok(())
}

/// The start of a part: its tag, its title and its lines.
fn part_start(
    alloc: Global,
    name: &Name,
    drawing: &Drawing<'_>,
    number: usize,
    part: &Part<'_>,
) -> Result<Page, AllocError> {
    let mut page = Page::new(alloc);
    write_part_tag(&mut page, name, drawing, number, part.top)?;
    write_part_lines(&mut page, part)?;
    Ok(page)
}

/// Appends the start tag of the part of a number, and its title.
fn write_part_tag(
    page: &mut Page,
    name: &Name,
    drawing: &Drawing<'_>,
    number: usize,
    top: Px,
) -> Result<(), AllocError> {
    let title = part_title(page.alloc(), name, number, drawing.parts.len())?;
    let height = part_end(drawing, number) - top;
    put_part_tag(page, name, number, drawing.width, height, top, &title)
}

/// Appends the start tag of the part of a number, of this size, and this title.
fn put_part_tag(
    page: &mut Page,
    name: &Name,
    number: usize,
    width: Px,
    height: Px,
    top: Px,
    title: &str,
) -> Result<(), AllocError> {
    let fills = [
        Fill::OfName(*name),
        Fill::Number(number as u64),
        px(width),
        px(height),
        px(top),
        px(width),
        px(height),
        Fill::OfName(*name),
        Fill::Number(number as u64),
        Fill::Text(title.as_bytes()),
    ];
    page.put(
        "<svg role=\"group\" aria-labelledby=\"t-%-%\" width=\"%\" height=\"%\" viewBox=\"0 % % %\"><title id=\"t-%-%\">%</title>",
        &fills,
    )
}

/// Appends the lines of a part, and its arrowheads: those along which a run went behind the others.
fn write_part_lines(page: &mut Page, part: &Part<'_>) -> Result<(), AllocError> {
    let alloc = page.alloc();
    let lines = lines_text(alloc, part, false)?;
    let heads = heads_text(alloc, &part.heads, false)?;
    page.put(
        "<path aria-hidden=\"true\" class=\"l\" d=\"%\"/><path aria-hidden=\"true\" class=\"a\" d=\"%\"/>",
        &[Fill::Text(lines.as_bytes()), Fill::Text(heads.as_bytes())],
    )?;
    let lines = lines_text(alloc, part, true)?;
    let heads = heads_text(alloc, &part.heads, true)?;
    if lines.is_empty() {
        return Ok(());
    }
    page.put(
        "<path aria-hidden=\"true\" class=\"l ran\" d=\"%\"/><path aria-hidden=\"true\" class=\"a ran\" d=\"%\"/>",
        &[Fill::Text(lines.as_bytes()), Fill::Text(heads.as_bytes())],
    )
}

/// The text of a path of the lines of a part: those along which a run went, or the others.
fn lines_text(alloc: Global, part: &Part<'_>, is_taken: bool) -> Result<String, AllocError> {
    let mut lines = String::new(alloc);
    push_strokes(alloc, &mut lines, &part.verticals, "V", is_taken)?;
    push_strokes(alloc, &mut lines, &part.horizontals, "H", is_taken)?;
    Ok(lines)
}

/// Where the part of a number ends: where the next begins, or at the drawing's height.
fn part_end(drawing: &Drawing<'_>, number: usize) -> Px {
    match drawing.parts.get(number.saturating_add(1)) {
        Some(next) => next.top,
        None => drawing.height,
    }
}

/// The title of a part of a number, of so many.
fn part_title(
    alloc: Global,
    name: &Name,
    number: usize,
    count: usize,
) -> Result<String, AllocError> {
    if count == 1 {
        return format!(in alloc; "Flowchart of {name}");
    }
    let number = number.saturating_add(1);
    format!(in alloc; "Flowchart of {name}, part {number} of {count}")
}

/// Appends lines to the text of a path, those along which a run went or the others; `to` is the letter of the way on which they go.
fn push_strokes(
    alloc: Global,
    path: &mut String,
    strokes: &[Stroke],
    to: &str,
    is_taken: bool,
) -> Result<(), AllocError> {
    for stroke in strokes {
        if stroke.is_taken == is_taken {
            let Stroke { x, y, end, .. } = *stroke;
            path.push_str(&format!(in alloc; "M{x} {y}{to}{end}")?)?;
        }
    }
    Ok(())
}

/// The text of a path of arrowheads: those to which a run came, or the others.
fn heads_text(alloc: Global, heads: &[Head], is_taken: bool) -> Result<String, AllocError> {
    let mut path = String::new(alloc);
    for head in heads {
        if head.is_taken == is_taken {
            let Head { x, y, is_left, .. } = *head;
            let shape = if is_left { "l7-4v8z" } else { "l-4-7h8z" };
            path.push_str(&format!(in alloc; "M{x} {y}{shape}")?)?;
        }
    }
    Ok(path)
}

/// Appends the symbols and words of a part.
fn write_rows(page: &mut Page, subject: Subject<'_>, rows: &[Row<'_>]) -> Result<(), AllocError>
    ensures { OnOk result (AddsInTurn
        (statement_captions subject.entry.name.now (beside_subject subject.entry)
        (flat_map row_statements rows.now)) page.old page.new) }
{
    for row in rows {
        write_row(page, subject, row)?;
    }
    Ok(())
}

/// Appends a symbol or a word.
fn write_row(page: &mut Page, subject: Subject<'_>, row: &Row<'_>) -> Result<(), AllocError>
    ensures { OnOk result (AddsInTurn
        (statement_captions subject.entry.name.now (beside_subject subject.entry)
        (row_statements row.now)) page.old page.new) }
{
    match row {
        Row::Box {
            x,
            y,
            width,
            height,
            row,
        } => write_box(page, subject, *x, *y, *width, *height, row),
        Row::Test { x, y, test } => write_test(page, subject, *x, *y, test),
        Row::Call { x, y, call } => write_call(page, subject, *x, *y, call),
        Row::Start { x, y, width } => write_start(page, subject, *x, *y, *width),
        Row::End { x, y, width } => write_end(page, subject.name, *x, *y, *width),
        Row::Note { x, y, note } => write_note(page, *x, *y, note),
        Row::Word {
            x,
            y,
            test,
            word,
            anchor,
        } => write_word(page, subject, *x, *y, *test, *word, *anchor),
    }
}
