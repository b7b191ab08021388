//! The sections of the methods.
ghost use Rattle.std.specs.Prelude.{◌≡◌, ◌++◌, ◌∷◌, [], OnOk};
ghost use Rattle.std.specs.List.{flat_map};
ghost use Rattle.flowchart_methods.specs.Turns.{AddsInTurn};
ghost use Rattle.chart_layout.specs.Drawn.{body_statements};
ghost use Rattle.flowchart_methods.specs.Captions.{heading, statement_captions};
ghost use Rattle.flowchart_methods.specs.Chapters.{chapter_captions};
ghost use Rattle.flowchart_methods.specs.private.Subjects.{beside_subject};

use crate::callers::Callers;
use crate::chapter::Chapter;
use crate::comments::write_paragraph;
use crate::figure::write_drawing;
use crate::site::Site;
use crate::statement::Subject;
use chart_layout::draw;
use flowchart_markup::{Fill, Page};
use pap_reader::Elements;
use pap_tree::Name;
use std::alloc::{AllocError, Global};

/// Appends the methods: of each its name, its comments, what executes it, and its drawing. `elements` is the plan that they were
/// read from. Takes time linear in the plan.
pub fn write_methods(
    page: &mut Page,
    elements: &Elements,
    chapters: &[Chapter<'_>],
    site: &Site,
) -> Result<(), AllocError>
    ensures { OnOk result
        (AddsInTurn (flat_map chapter_captions chapters.now) page.old page.new) }
{
    let alloc = page.alloc();
    let callers = Callers::new(alloc, elements)?;
    let names = names_in_order(alloc, chapters)?;
    for (i, chapter) in chapters.iter().enumerate() {
        write_method(page, chapter, callers.of(i), &names, site)?;
    }
    Ok(())
}

/// The names of the methods, in the order of their bytes.
fn names_in_order(alloc: Global, chapters: &[Chapter<'_>]) -> Result<Vec<Name>, AllocError> {
    let mut names = Vec::new(alloc);
    for chapter in chapters {
        names.push(chapter.text.name)?;
    }
    names.sort()?;
    Ok(names)
}

/// Appends a method. `methods` are the names of all in order.
fn write_method(
    page: &mut Page,
    chapter: &Chapter<'_>,
    callers: &[Name],
    methods: &[Name],
    site: &Site,
) -> Result<(), AllocError>
    ensures { OnOk result (AddsInTurn (chapter_captions chapter.now) page.old page.new) }
{
    let name = &chapter.text.name;
    let is_refused = *site == Site::Method(*name);
    write_method_head(page, chapter, callers, is_refused)?;
    let subject = Subject {
        name,
        conditions: &chapter.conditions,
        marks: chapter.marks,
        is_refused,
        methods,
    };
    write_figure(page, subject, chapter)?;
    page.put("</div></section>\n", &[])?;
    Ok(())
}

/// Appends what stands before a method's drawing: its name, its comments, and what executes it.
#[tactic(auto, using(crate::proofs::TurnLemmas::adds_middle))]
fn write_method_head(
    page: &mut Page,
    chapter: &Chapter<'_>,
    callers: &[Name],
    is_refused: bool,
) -> Result<(), AllocError>
    ensures { OnOk result (AddsInTurn (heading chapter.now.text.name ∷ []) page.old page.new) }
{
    let alloc = page.alloc();
    let name = chapter.text.name;
    page.append(&section_start(alloc, &name, is_refused)?)?;
    write_heading(page, &name)?;
    page.append(&figure_start(alloc, chapter.comments, callers)?)?;
    Ok(())
}

/// Appends the drawing of a method.
#[tactic(auto, using(crate::proofs::TurnLemmas::adds_same))]
fn write_figure(
    page: &mut Page,
    subject: Subject<'_>,
    chapter: &Chapter<'_>,
) -> Result<(), AllocError>
    ensures { OnOk result (AddsInTurn
        (statement_captions subject.entry.name.now (beside_subject subject.entry)
        (body_statements chapter.now.text.body)) page.old page.new) }
{
    let drawing = draw(page.alloc(), &chapter.text, &chapter.passages)?;
    write_drawing(page, subject, &drawing)?;
    Ok(())
}

/// The start tag of a method's section.
fn section_start(alloc: Global, name: &Name, is_refused: bool) -> Result<Page, AllocError> {
    let mut page = Page::new(alloc);
    let fills = [Fill::OfName(*name), Fill::OfName(*name)];
    if is_refused {
        page.put(
            "<section class=\"m bad\" id=\"method-%\" aria-labelledby=\"h-%\">",
            &fills,
        )?;
    } else {
        page.put(
            "<section class=\"m\" id=\"method-%\" aria-labelledby=\"h-%\">",
            &fills,
        )?;
    }
    Ok(page)
}

/// Appends a method's name as a heading.
fn write_heading(page: &mut Page, name: &Name) -> Result<(), AllocError>
    ensures { OnOk result (page.new ≡ page.old ++ heading name.now) }
{
    page.put(
        "<h3 id=\"h-%\">%</h3>",
        &[Fill::OfName(*name), Fill::OfName(*name)],
    )
}

/// What stands between a method's name and its drawing: its comments, and what executes it.
fn figure_start(alloc: Global, comments: &[String], callers: &[Name]) -> Result<Page, AllocError> {
    let mut page = Page::new(alloc);
    page.put("\n", &[])?;
    write_paragraph(&mut page, comments)?;
    write_callers(&mut page, callers)?;
    page.put("<div class=\"fig\">", &[])?;
    Ok(page)
}

/// Appends what executes a method, where something does.
fn write_callers(page: &mut Page, callers: &[Name]) -> Result<(), AllocError> {
    if callers.is_empty() {
        return Ok(());
    }
    page.put("<p class=\"by\">Executed by ", &[])?;
    write_links(page, callers)?;
    page.put("</p>\n", &[])
}

/// Appends links to methods, with a comma between two of them.
fn write_links(page: &mut Page, methods: &[Name]) -> Result<(), AllocError> {
    for (i, method) in methods.iter().enumerate() {
        if i > 0 {
            page.put(", ", &[])?;
        }
        page.put(
            "<a href=\"#method-%\">%</a>",
            &[Fill::OfName(*method), Fill::OfName(*method)],
        )?;
    }
    Ok(())
}
