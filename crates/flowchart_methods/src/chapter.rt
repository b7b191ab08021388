//! The methods of a plan as a page has them.
ghost use Rattle.std.specs.Prelude.{◌≡◌, map, IfOk};
ghost use Rattle.std.specs.List.{flat_map};
ghost use Rattle.pap_reader.specs.Trees.{raw_body_of, tree_of};
ghost use Rattle.chart_layout.specs.Statements.{statements_of};
ghost use Rattle.chart_layout.specs.Counts.{count_of};
ghost use Rattle.flowchart_methods.specs.Sites.{named_statement, number_in};
ghost use Rattle.flowchart_methods.specs.Captions.{methods_of, AreCaptions};
ghost use Rattle.flowchart_methods.specs.Chapters.{chapter_captions, AreCommented};
ghost use Rattle.flowchart_methods.specs.private.Chapters.{IsChapter};

use crate::conditions::{Condition, read_conditions};
use crate::mark::{Mark, MethodMarks, marks_of};
use crate::site::Site;
use chart_layout::{MethodText, Passage, read_method};
use pap_reader::{Elements, RawStmt};
use pap_tree::Name;
use plan_notes::{Element, Notes, Walk};
use std::alloc::{AllocError, Global};

/// A method with what stands beside its drawing.
#[derive(Drop)]
pub struct Chapter<'a> {
    /// The method with its drawing's statements.
    pub text: MethodText,
    /// Under which condition each statement stands, by its number.
    pub conditions: Vec<Option<Condition>>,
    /// The comments before it in the file.
    pub comments: &'a [String],
    /// What is known of its statements, by their numbers.
    pub marks: &'a [Mark],
    /// The same, as far as the drawing needs it.
    pub passages: Vec<Passage>,
}

/// The methods, MAIN first, with the comments before each. The statement that `site` names is marked as the refused one. `marks`
/// says what is known of the methods' statements, by their numbers; there are none where nothing is.
#[tactic(auto, using(crate::proofs::ChapterLemmas::first_chapter))]
pub fn read_chapters<'a>(
    alloc: Global,
    elements: &Elements,
    notes: &'a Notes,
    site: &Site,
    marks: &'a [MethodMarks],
) -> Result<Vec<Chapter<'a>>, AllocError>
    ensures captions { IfOk result (λ chapters.
        AreCaptions (named_statement site.now) marks.now (methods_of (tree_of elements.now))
        (flat_map chapter_captions chapters.items)) }
    // The comments before its start tag, and how many statements it has.
    ensures comments { IfOk result (λ chapters. AreCommented notes.now 0 chapters.items) }
    ensures counts { IfOk result (λ chapters. map (λ c. c.text.count) chapters.items
        ≡ map (λ m. count_of (statements_of m.body)) (methods_of (tree_of elements.now))) }
{
    let mut chapters = Vec::new(alloc);
    let main = Name::main();
    let mut to_main = notes.walk();
    let comments = to_main.skip_to(Element::Main);
    let of_main = marks_of(marks, 0);
    let first = read_chapter(
        alloc,
        main,
        &elements.main,
        comments,
        to_main,
        site,
        of_main,
    )?;
    chapters.push(first)?;
    let mut walk = notes.walk();
    for method in &elements.methods {
        let comments = walk.skip_to(Element::Method);
        let of_next = marks_of(marks, chapters.len());
        let next = read_chapter(
            alloc,
            method.name,
            &method.body,
            comments,
            walk,
            site,
            of_next,
        )?;
        chapters.push(next)?;
    }
    Ok(chapters)
}

/// A method with the comments before it. The walk stands behind its start tag.
fn read_chapter<'a>(
    alloc: Global,
    name: Name,
    body: &[RawStmt],
    comments: &'a [String],
    walk: Walk<'_>,
    site: &Site,
    marks: &'a [Mark],
) -> Result<Chapter<'a>, AllocError>
    ensures chapter { IfOk result (IsChapter (number_in (named_statement site.now) name) name
        (raw_body_of body.now) marks.now) }
    ensures comments { IfOk result (λ chapter. chapter.comments.now ≡ comments.now) }
    ensures count { IfOk result (λ chapter. chapter.text.count
        ≡ count_of (statements_of (raw_body_of body.now))) }
{
    let refused = site.statement_in(&name);
    let passages = passages_of(alloc, marks)?;
    let text = read_method(alloc, name, body, walk, refused, &passages)?;
    let conditions = read_conditions(alloc, body)?;
    Ok(Chapter {
        text,
        conditions,
        comments,
        marks,
        passages,
    })
}

/// What the drawing of a method needs of the marks of its statements.
fn passages_of(alloc: Global, marks: &[Mark]) -> Result<Vec<Passage>, AllocError> {
    let mut passages = Vec::new(alloc);
    for mark in marks {
        passages.push(mark.passage())?;
    }
    Ok(passages)
}
