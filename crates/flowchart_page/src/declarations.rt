//! The table of declared names.
ghost use Rattle.std.specs.Prelude.{◌≡◌, ◌++◌, [], IsTrue, IfOk, OnOk, length, map, string_bytes, unwrap_or};
ghost use Rattle.pap_tree.specs.Declarations.{declared_of};
ghost use Rattle.pap_reader.specs.Attributes.{type_word};
ghost use Rattle.pap_reader.specs.Trees.{raw_declaration_of, tree_of};
ghost use Rattle.flowchart_page.specs.Declarations.{value_cells, table_item_text, table_items_text, comments_above, items_cell, literal_cells, row_start, is_named, range_shown, group_title, group_heading};
ghost use Rattle.flowchart_page.specs.Ranges.{output_text, refused_output_text, wide_text};
ghost use Rattle.flowchart_page.specs.private.TableViews.{source_of, AddsCells, AddsRow, AddsNamed, AddsRows, AddsGroup, AddsTable};
ghost use Rattle.flowchart_page.specs.Judged.{finding_of};
ghost use Rattle.flowchart_methods.specs.Turns.{AddsInTurn};

use crate::ranges::{input_range, internal_range, output_range};
use crate::verdict::Verdict;
use flowchart_markup::{Fill, Page};
use flowchart_methods::{Site, write_comments, write_paragraphs};
use interval_analysis::RangeFault;
use limits_file::Limits;
use pap_expr::{ExprFault, parse_constant};
use pap_plan::PlanRefusal;
use pap_reader::{Elements, RawDeclared};
use pap_tree::{Kind, Literal, Name};
use plan_notes::{Element, Notes};
use scaled_decimal::Dec;
use std::alloc::{AllocError, Global};

/// What the table is made of.
#[derive(Clone, Copy)]
pub(crate) struct Declarations<'a> {
    pub elements: &'a Elements,
    pub notes: &'a Notes,
    /// The range file, where it is read.
    pub limits: &'a Option<Limits>,
    pub verdict: &'a Verdict,
    /// The ranges of the internals over the whole run, in declared order; nothing where they aren't known.
    pub internals: &'a [Vec<u8>],
    /// What the refusal names.
    pub site: &'a Site,
}

/// A kind of declared names.
#[derive(Clone, Copy)]
struct Group<'a> {
    /// The element that holds them.
    home: Element,
    element: Element,
    names: &'a [RawDeclared],
}

/// Appends the table: inputs, outputs, internals and constants.
#[tactic(auto, using(crate::proofs::TableLemmas::table_inside))]
pub(crate) fn write_declarations(
    page: &mut Page,
    declarations: Declarations<'_>,
) -> Result<(), AllocError>
    ensures { OnOk result
        (AddsTable (source_of declarations.entry) (tree_of declarations.entry.elements.now) page.old page.new) }
{
    page.append(&before_table(page.alloc(), declarations.notes)?)?;
    write_table(page, declarations)?;
    page.append(&behind_table(page.alloc(), declarations.notes)?)?;
    Ok(())
}

/// What stands before the table: its title, and the comments before its groups.
fn before_table(alloc: Global, notes: &Notes) -> Result<Page, AllocError> {
    let mut page = Page::new(alloc);
    page.put("<section id=\"declarations\"><h2>Declarations</h2>\n", &[])?;
    write_paragraphs(&mut page, notes, Element::Interface, false)?;
    write_paragraphs(&mut page, notes, Element::Variables, false)?;
    page.put(
        "<div class=\"scroll\"><table aria-label=\"Declarations\"><thead><tr><th scope=\"col\">Name<th scope=\"col\">Type<th scope=\"col\">Default or value<th scope=\"col\">Range<th scope=\"col\">Comment</tr></thead>\n",
        &[],
    )?;
    Ok(page)
}

/// What stands behind it.
fn behind_table(alloc: Global, notes: &Notes) -> Result<Page, AllocError> {
    let mut page = Page::new(alloc);
    page.put("</table></div>\n", &[])?;
    write_paragraphs(&mut page, notes, Element::Interface, true)?;
    write_paragraphs(&mut page, notes, Element::Variables, true)?;
    page.put("</section>\n", &[])?;
    Ok(page)
}

/// Appends the kinds of the table.
fn write_table(page: &mut Page, declarations: Declarations<'_>) -> Result<(), AllocError>
    ensures { OnOk result
        (AddsTable (source_of declarations.entry) (tree_of declarations.entry.elements.now) page.old page.new) }
{
    let elements = declarations.elements;
    write_group(
        page,
        declarations,
        Group {
            home: Element::Inputs,
            element: Element::Input,
            names: &elements.inputs,
        },
    )?;
    write_group(
        page,
        declarations,
        Group {
            home: Element::Outputs,
            element: Element::Output,
            names: &elements.outputs,
        },
    )?;
    write_group(
        page,
        declarations,
        Group {
            home: Element::Internals,
            element: Element::Internal,
            names: &elements.internals,
        },
    )?;
    write_group(
        page,
        declarations,
        Group {
            home: Element::Constants,
            element: Element::Constant,
            names: &elements.constants,
        },
    )?;
    Ok(())
}

/// Whether comments stand before a tag of an element.
fn has_comments(notes: &Notes, element: Element) -> bool {
    notes
        .marks
        .iter()
        .any(|mark| mark.element == element && mark.first < mark.last)
}

/// Appends a kind of names under its title, in the order of the file: a row for each name, and one for the comments before each
/// other tag. Nothing where there are no names and no comments.
fn write_group(
    page: &mut Page,
    declarations: Declarations<'_>,
    group: Group<'_>,
) -> Result<(), AllocError>
    ensures { OnOk result (AddsGroup (source_of declarations.entry) group.entry.element
        (map raw_declaration_of group.entry.names.now) page.old page.new) }
{
    if is_blank(declarations.notes, group) {
        return Ok(());
    }
    write_group_heading(page, group.element, group.names.len())?;
    write_names(page, declarations, group)?;
    page.put("</tbody>\n", &[])?;
    Ok(())
}

/// Whether a kind has neither names nor comments.
fn is_blank(notes: &Notes, group: Group<'_>) -> bool
    ensures { IsTrue result → length group.entry.names.now ≡ 0 }
{
    group.names.is_empty() && !has_comments(notes, group.home)
}

/// Appends the title of a kind, and how many names it has.
fn write_group_heading(page: &mut Page, element: Element, count: usize) -> Result<(), AllocError>
    ensures { OnOk result (page.new ≡ page.old ++ group_heading element count) }
{
    page.put(
        "<tbody><tr><th class=\"g\" colspan=\"5\" scope=\"rowgroup\">% <span>%</span></tr>\n",
        &[
            Fill::Text(group_title(element).as_bytes()),
            Fill::Number(count as u64),
        ],
    )
}

/// The title of a kind.
fn group_title(element: Element) -> &'static str
    ensures { result.now ≡ group_title element }
{
    match element {
        Element::Input => "Inputs",
        Element::Output => "Outputs",
        Element::Internal => "Internals",
        Element::Constant => "Constants",
        _ => "",
    }
}

/// Appends the rows of a kind.
fn write_names(
    page: &mut Page,
    declarations: Declarations<'_>,
    group: Group<'_>,
) -> Result<(), AllocError>
    ensures { OnOk result (AddsRows (source_of declarations.entry) group.entry.element
        (map raw_declaration_of group.entry.names.now) page.old page.new) }
{
    let between = comment_rows(page.alloc(), declarations.notes, group)?;
    write_rows(page, declarations, group.element, group.names, &between)
}

/// Appends a row for each of some names, with other rows before each and behind the last.
fn write_rows(
    page: &mut Page,
    declarations: Declarations<'_>,
    element: Element,
    names: &[RawDeclared],
    between: &[Page],
) -> Result<(), AllocError>
    ensures { OnOk result (AddsRows (source_of declarations.entry) element
        (map raw_declaration_of names.now) page.old page.new) }
{
    let mut walk = declarations.notes.walk();
    for (number, declared) in names.iter().enumerate() {
        append_part(page, between, number)?;
        let comments = walk.skip_to(element);
        write_name(page, declarations, element, number, declared, comments)?;
    }
    append_others(page, between, names.len())?;
    Ok(())
}

/// The rows of comments that stand before each name of a kind, and behind the last: those before tags that no name has.
fn comment_rows(alloc: Global, notes: &Notes, group: Group<'_>) -> Result<Vec<Page>, AllocError> {
    let mut parts = Vec::new(alloc);
    let mut rows = Page::new(alloc);
    for mark in &notes.marks {
        if mark.element == group.element && !mark.is_end {
            parts.push(rows)?;
            rows = Page::new(alloc);
        } else if mark.element == group.home || mark.element == group.element {
            write_comments_row(&mut rows, notes.before(mark))?;
        }
    }
    parts.push(rows)?;
    Ok(parts)
}

/// Appends the part of a number, where there is one.
fn append_part(page: &mut Page, parts: &[Page], number: usize) -> Result<(), AllocError>
    ensures { OnOk result (AddsInTurn [] page.old page.new) }
{
    match parts.get(number) {
        Some(part) => append_rows(page, part),
        None => Ok(()),
    }
}

/// Appends the parts from a number on.
fn append_others(page: &mut Page, parts: &[Page], from: usize) -> Result<(), AllocError>
    ensures { OnOk result (AddsInTurn [] page.old page.new) }
{
    let mut others = Page::new(page.alloc());
    for part in parts.get(from..).unwrap_or(&[]) {
        others.append(part)?;
    }
    append_rows(page, &others)
}

/// Appends a part.
#[tactic(auto, using(crate::proofs::TableLemmas::adds_html))]
fn append_rows(page: &mut Page, rows: &Page) -> Result<(), AllocError>
    ensures { OnOk result (AddsInTurn [] page.old page.new) }
{
    page.append(rows)?;
    Ok(())
}

/// Appends the row of the comments before a tag that no name has, where there are some.
fn write_comments_row(page: &mut Page, comments: &[String]) -> Result<(), AllocError> {
    if comments.is_empty() {
        return Ok(());
    }
    page.put("<tr><td class=\"com\" colspan=\"5\">", &[])?;
    write_comments(page, comments)?;
    page.put("</tr>\n", &[])
}

/// Appends the row of the name of a number among those of its kind.
fn write_name(
    page: &mut Page,
    declarations: Declarations<'_>,
    element: Element,
    number: usize,
    declared: &RawDeclared,
    comments: &[String],
) -> Result<(), AllocError>
    ensures { OnOk result (AddsNamed (source_of declarations.entry) element number comments.now
        (raw_declaration_of declared.now) page.old page.new) }
{
    let range = range_of(page.alloc(), declarations, element, number, &declared.name)?;
    let is_refused = is_named(declarations.site, &declared.name);
    write_row(page, is_refused, declared, &range, comments)?;
    Ok(())
}

/// Whether a declared name is what a refusal names.
fn is_named(site: &Site, name: &Name) -> bool
    ensures { result ≡ is_named site.now name.now }
{
    match site {
        Site::Declared(named) => named == name,
        Site::Statement { .. } | Site::Method(_) | Site::Nowhere => false,
    }
}

/// The range of the name of a number among those of its kind.
fn range_of(
    alloc: Global,
    declarations: Declarations<'_>,
    element: Element,
    number: usize,
    name: &Name,
) -> Result<Vec<u8>, AllocError>
    ensures { IfOk result (λ text. text.items
        ≡ range_shown (source_of declarations.entry) element number name.now) }
{
    match (element, declarations.limits) {
        (Element::Input, Some(limits)) => Ok(input_range(alloc, limits, name)?.into_bytes()),
        (Element::Output, _) => {
            Ok(found_range(alloc, declarations.verdict, number, name)?.into_bytes())
        }
        (Element::Internal, _) => internal_range(alloc, declarations.internals, number),
        _ => Ok(Vec::new(alloc)),
    }
}

/// The range of the output of a number and a name, where the plan is accepted, or that the plan is refused for it.
fn found_range(
    alloc: Global,
    verdict: &Verdict,
    number: usize,
    name: &Name,
) -> Result<String, AllocError>
    ensures { IfOk result (λ text. string_bytes text
        ≡ output_text (finding_of verdict.now) number name.now) }
{
    match verdict {
        Verdict::Accepted(plan) => match plan.outputs().get(number) {
            Some(output) => output_range(alloc, output),
            None => Ok(String::new(alloc)),
        },
        Verdict::InOrder => Ok(String::new(alloc)),
        Verdict::Refused(reason) => refused_range(alloc, &reason.refusal, name),
    }
}

/// What a refusal says of the values of the output of a name. Empty where the plan isn't refused for them.
fn refused_range(alloc: Global, refusal: &PlanRefusal, name: &Name) -> Result<String, AllocError>
    ensures { IfOk result (λ text. string_bytes text ≡ refused_output_text refusal.now name.now) }
{
    match refusal {
        PlanRefusal::Range(RangeFault::Output { name: output }) => {
            wide_text(alloc, *output == *name)
        }
        _ => Ok(String::new(alloc)),
    }
}

/// That an output's values may be too long or too great, where they may.
fn wide_text(alloc: Global, is_wide: bool) -> Result<String, AllocError>
    ensures { IfOk result (λ text. string_bytes text ≡ wide_text is_wide) }
{
    if is_wide {
        format!(in alloc; "may have more than 12 places, or exceed 10^20")
    } else {
        Ok(String::new(alloc))
    }
}

/// Appends the row of a name.
#[tactic(auto, using(crate::proofs::TableLemmas::row_added))]
fn write_row(
    page: &mut Page,
    is_refused: bool,
    declared: &RawDeclared,
    range: &[u8],
    comments: &[String],
) -> Result<(), AllocError>
    ensures { OnOk result (AddsRow is_refused range.now comments.now
        (raw_declaration_of declared.now) page.old page.new) }
{
    write_row_start(page, is_refused, declared)?;
    write_value(page, declared, range, comments)?;
    page.put("</tr>\n", &[])?;
    Ok(())
}

/// Appends a row up to the type of its name.
fn write_row_start(
    page: &mut Page,
    is_refused: bool,
    declared: &RawDeclared,
) -> Result<(), AllocError>
    ensures { OnOk result (page.new
        ≡ page.old ++ row_start is_refused declared.now.name declared.now.kind) }
{
    let fills = [
        Fill::OfName(declared.name),
        Fill::OfName(declared.name),
        Fill::Text(kind_word(declared.kind).as_bytes()),
    ];
    if is_refused {
        page.put(
            "<tr id=\"name-%\" class=\"bad\"><th scope=\"row\">%<td>%",
            &fills,
        )
    } else {
        page.put("<tr id=\"name-%\"><th scope=\"row\">%<td>%", &fills)
    }
}

/// Appends the cells behind the type of a name: its value or values, its range, and comments.
fn write_value(
    page: &mut Page,
    declared: &RawDeclared,
    range: &[u8],
    comments: &[String],
) -> Result<(), AllocError>
    ensures { OnOk result (AddsCells (unwrap_or (raw_declaration_of declared.now).value [])
        range.now comments.now page.old page.new) }
{
    let text = value_text(declared);
    match parse_constant(page.alloc(), text) {
        Ok(literal) => write_literal(page, &literal, range, comments)?,
        Err(ExprFault::Memory) => return Err(AllocError),
        Err(_) => {
            let line = plan_notes::one_line(page.alloc(), text)?;
            write_cells(page, &line, range, comments)?;
        }
    }
    Ok(())
}

/// The text of a declared value, empty where there is none.
fn value_text(declared: &RawDeclared) -> &[u8]
    ensures { result.now ≡ unwrap_or (raw_declaration_of declared.now).value [] }
{
    match &declared.value {
        Some(text) => text.as_slice(),
        None => &[],
    }
}

/// Appends the cells of a declared literal.
fn write_literal(
    page: &mut Page,
    literal: &Literal,
    range: &[u8],
    comments: &[String],
) -> Result<(), AllocError>
    ensures { OnOk result (page.new
        ≡ page.old ++ literal_cells (declared_of literal.now) range.now comments.now) }
{
    match literal {
        Literal::Table(items) => write_items(page, items, comments),
        Literal::Int(number) => {
            let text = format!(in page.alloc(); "{number}")?;
            write_cells(page, &text, range, comments)
        }
        Literal::Long(number) => {
            let text = format!(in page.alloc(); "{number}")?;
            write_cells(page, &text, range, comments)
        }
        Literal::Point(number) | Literal::Big(number) => {
            let text = format!(in page.alloc(); "{number}")?;
            write_cells(page, &text, range, comments)
        }
    }
}

/// Appends the cells of a value, a range and comments.
fn write_cells(
    page: &mut Page,
    value: &str,
    range: &[u8],
    comments: &[String],
) -> Result<(), AllocError>
    ensures { OnOk result (page.new ≡ page.old ++ value_cells value.now range.now comments.now) }
{
    page.put(
        "<td class=\"num\">%<td class=\"num\">%<td>",
        &[Fill::Text(value.as_bytes()), Fill::Text(range)],
    )?;
    write_comments(page, comments)?;
    Ok(())
}

/// Appends one cell for the values of a table, each with its index, below its comments.
fn write_items(page: &mut Page, items: &[Dec], comments: &[String]) -> Result<(), AllocError>
    ensures { OnOk result (page.new ≡ page.old ++ items_cell items.now comments.now) }
{
    page.put("<td colspan=\"3\">", &[])?;
    write_comments_above(page, comments)?;
    page.put("<span class=\"tab\">", &[])?;
    write_numbered(page, items)?;
    page.put("</span>", &[])?;
    Ok(())
}

/// Appends the comments of a table above its values, where there are some.
fn write_comments_above(page: &mut Page, comments: &[String]) -> Result<(), AllocError>
    ensures { OnOk result (page.new ≡ page.old ++ comments_above comments.now) }
{
    if comments.is_empty() {
        return Ok(());
    }
    write_comments(page, comments)?;
    page.put("<br>", &[])?;
    Ok(())
}

/// Appends values, each with its index.
fn write_numbered(page: &mut Page, items: &[Dec]) -> Result<(), AllocError>
    ensures { OnOk result (page.new ≡ page.old ++ table_items_text 0 items.now) }
{
    for (i, item) in items.iter().enumerate() {
        write_item(page, i, *item)?;
    }
    Ok(())
}

/// Appends a value with its index, behind a space where it isn't the first.
fn write_item(page: &mut Page, index: usize, item: Dec) -> Result<(), AllocError>
    ensures { OnOk result (page.new ≡ page.old ++ table_item_text index item) }
{
    let value = format!(in page.alloc(); "{item}")?;
    let fills = [Fill::Number(index as u64), Fill::Text(value.as_bytes())];
    if index == 0 {
        page.put("<span><i>%</i>%</span>", &fills)
    } else {
        page.put(" <span><i>%</i>%</span>", &fills)
    }
}

/// The word of a type in the file.
fn kind_word(kind: Kind) -> &'static str
    ensures { result.now ≡ type_word kind }
{
    match kind {
        Kind::Int => "int",
        Kind::Long => "long",
        Kind::Big => "BigDecimal",
        Kind::Factor => "double",
        Kind::Table => "BigDecimal[]",
    }
}
