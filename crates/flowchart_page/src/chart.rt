//! The whole page.
ghost use Rattle.std.specs.Prelude.{◌≡◌, ◌++◌, [], Some, map, option_map, IfOk, OnOk, string_bytes};
ghost use Rattle.std.specs.List.{flat_map};
ghost use Rattle.pap_reader.specs.Contents.{AreRead};
ghost use Rattle.pap_reader.specs.Trees.{tree_of};
ghost use Rattle.flowchart_methods.specs.Chapters.{chapter_captions};
ghost use Rattle.flowchart_methods.specs.Turns.{AddsInTurn};
ghost use Rattle.plain_words.specs.Places.{named_text};
ghost use Rattle.flowchart_page.specs.Verdicts.{IsJudged};
ghost use Rattle.flowchart_methods.specs.declared.site.Site.TheVariants.{Nowhere};
ghost use Rattle.flowchart_page.specs.Findings.{IsFound};
ghost use Rattle.flowchart_page.specs.Judged.{finding_of, words_of, HasLine};
ghost use Rattle.flowchart_page.specs.Pages.{IsWholePage, AreLimits, IsPage, IsRunPage};
ghost use Rattle.flowchart_page.specs.Runs.{all_runs, stop_text, stopped_runs, run_parts, run_subject, run_texts, run_marks, run_internals};
ghost use Rattle.flowchart_page.specs.private.PageViews.{IsAround, ShowsTree, ShowsRead, HasTable, IsBehind, ShowsVerdict};
ghost use Rattle.flowchart_page.specs.private.SourceViews.{table_source};
ghost use Rattle.flowchart_page.specs.private.VerdictViews.{verdict_text};

use crate::declarations::{Declarations, write_declarations};
use crate::header::{Head, push_head, push_own, push_page, push_verdict};
use crate::index::{Marking, write_index, write_key};
use crate::site::site_shown;
use crate::subject::Subject;
use crate::verdict::{Reason, Verdict, judge};
use flowchart_markup::{Fill, Page};
use flowchart_methods::{
    Chapter, MethodMarks, Site, read_chapters, write_last_paragraph, write_methods,
    write_paragraphs,
};
use limits_file::{Limits, LimitsFault, read_limits};
use pap_reader::{Elements, ReadFault, Tokens, elements_of, read_tokens};
use pap_tree::Name;
use plain_words::TextFile;
use plan_notes::{Element, Notes, notes_of};
use std::alloc::{AllocError, Global};

/// A page, and why the plan is refused.
#[derive(Drop)]
pub struct Chart {
    /// The page, as HTML in UTF-8.
    pub page: Vec<u8>,
    /// Why the plan is refused, in plain words in one line; `None` where it isn't.
    pub reason: Option<String>,
}

/// What a page shows of a run, or of all runs.
#[derive(Clone, Copy)]
pub struct RunShown<'a> {
    /// What the page shows.
    pub subject: Subject,
    /// The part of the page that tells of the run, or of all runs: it stands above the index of the methods.
    pub part: &'a Page,
    /// What is known of the statements of each method, MAIN first; nothing where they aren't marked.
    pub marks: &'a [MethodMarks],
    /// What the marks tell.
    pub marking: Marking,
    /// The ranges of the internals over the whole run, in declared order; nothing where they aren't known.
    pub internals: &'a [Vec<u8>],
}

impl<'a> RunShown<'a> {
    /// What the page shows: the flowchart alone where there is no run.
    fn subject(run: Option<RunShown<'a>>) -> Subject
        ensures { result ≡ run_subject (option_map run_parts run.entry) }
    {
        match run {
            Some(run) => run.subject,
            None => Subject::Flowchart,
        }
    }

    /// What is known of the statements of each method: nothing where there is no run.
    fn marks(run: Option<RunShown<'a>>) -> &'a [MethodMarks]
        ensures { result.now ≡ run_marks (option_map run_parts run.entry) }
    {
        match run {
            Some(run) => run.marks,
            None => &[],
        }
    }

    /// The ranges of the internals: nothing where there is no run.
    fn internals(run: Option<RunShown<'a>>) -> &'a [Vec<u8>]
        ensures { map (λ t. t.items) result.now ≡ run_internals (option_map run_parts run.entry) }
    {
        match run {
            Some(run) => run.internals,
            None => &[],
        }
    }
}

/// The page of a plan's bytes: with a range file whether the plan is accepted with it, without one what can be said before.
/// The name of the plan's file stands for the plan's own name where that has none. Takes time linear in the plan, beside what
/// judging it takes and a look through the range file's tables for each input, and fails only for want of memory.
#[tactic(auto, using(crate::proofs::PageLemmas::reworded))]
pub fn draw_chart(
    alloc: Global,
    plan: TextFile<'_>,
    limits: Option<TextFile<'_>>,
) -> Result<Chart, AllocError>
    // Why the plan is refused, where it is.
    ensures judged { IfOk result (λ chart. IsJudged (named_text plan.entry)
        (option_map (λ file. named_text file) limits.entry)
        (option_map (λ words. string_bytes words) chart.reason)) }
    // What the page says of the plan, and that it draws its statements.
    ensures page { IfOk result (λ chart. IsPage plan.entry.bytes.now
        (option_map (λ file. file.bytes.now) limits.entry)
        (option_map (λ words. string_bytes words) chart.reason) chart.page.items) }
{
    let verdict = judge(alloc, plan, limits)?;
    let page = draw_judged(alloc, plan, limits, &verdict, None)?;
    Ok(Chart {
        page,
        reason: words_of(verdict),
    })
}

/// The page of a plan that is judged, with what it shows of a run, where there is one. Takes time linear in the plan, beside a look
/// through the range file's tables for each input, and fails only for want of memory.
#[tactic(auto, using(crate::proofs::PageLemmas::judged_page))]
pub fn draw_judged(
    alloc: Global,
    plan: TextFile<'_>,
    limits: Option<TextFile<'_>>,
    verdict: &Verdict,
    run: Option<RunShown<'_>>,
) -> Result<Vec<u8>, AllocError>
    requires found { IsFound plan.bytes.now
        (option_map (λ file. file.bytes.now) limits) (finding_of verdict.now) }
    requires line { HasLine plan.bytes.now verdict.now }
    ensures { IfOk result (λ page. IsRunPage (option_map run_parts run.entry)
        plan.entry.bytes.now (option_map (λ file. file.bytes.now) limits.entry)
        (words_of verdict.now) page.items) }
{
    write_chart(alloc, plan, limits, verdict, run)
}

/// The page of a plan's bytes and a range file's, with what is known of all runs: in the drawings, and of the internals in the table of
/// declarations, a text for each in declared order. Takes time as `draw_chart`.
pub fn draw_ranged(
    alloc: Global,
    plan: TextFile<'_>,
    limits: TextFile<'_>,
    marks: &[MethodMarks],
    internals: &[Vec<u8>],
) -> Result<Chart, AllocError>
    // Why the plan is refused, where it is.
    ensures judged { IfOk result (λ chart. IsJudged (named_text plan.entry)
        (Some (named_text limits.entry)) (option_map (λ words. string_bytes words) chart.reason)) }
    // What the page says of the plan, and that its drawings have these marks and its internals these ranges.
    ensures page { IfOk result (λ chart. IsRunPage
        (Some (all_runs marks.now (map (λ t. t.items) internals.now)))
        plan.entry.bytes.now (Some limits.entry.bytes.now)
        (option_map (λ words. string_bytes words) chart.reason) chart.page.items) }
{
    let part = Page::new(alloc);
    let shown = RunShown {
        subject: Subject::Flowchart,
        part: &part,
        marks,
        marking: Marking::Ranges,
        internals,
    };
    draw_shown(alloc, plan, limits, shown)
}

/// The page of a plan's bytes and a range file's, with what the walk over the ranges found before it stopped at a statement: in the
/// drawings, and in a sentence above them. `stop` is the statement, by its method and its number there. Takes time as `draw_chart`.
pub fn draw_stopped(
    alloc: Global,
    plan: TextFile<'_>,
    limits: TextFile<'_>,
    marks: &[MethodMarks],
    stop: (Name, u32),
) -> Result<Chart, AllocError>
    // Why the plan is refused, where it is.
    ensures judged { IfOk result (λ chart. IsJudged (named_text plan.entry)
        (Some (named_text limits.entry)) (option_map (λ words. string_bytes words) chart.reason)) }
    // What the page says of the plan, and that its drawings have these marks and a sentence says where the walk stops.
    ensures page { IfOk result (λ chart. IsRunPage (Some (stopped_runs stop marks.now))
        plan.entry.bytes.now (Some limits.entry.bytes.now)
        (option_map (λ words. string_bytes words) chart.reason) chart.page.items) }
{
    let (method, number) = stop;
    let part = stop_part(alloc, method, number)?;
    let shown = RunShown {
        subject: Subject::Flowchart,
        part: &part,
        marks,
        marking: Marking::Stopped,
        internals: &[],
    };
    draw_shown(alloc, plan, limits, shown)
}

/// At which statement the walk over the ranges stops, by its method and its number there.
fn stop_part(alloc: Global, method: Name, number: u32) -> Result<Page, AllocError>
    ensures { IfOk result (λ part. part ≡ stop_text method number) }
{
    let mut part = Page::new(alloc);
    let place = u64::from(number);
    put_stop(&mut part, method, place)?;
    Ok(part)
}

/// Appends at which statement the walk stops.
fn put_stop(part: &mut Page, method: Name, number: u64) -> Result<(), AllocError>
    ensures { OnOk result (part.new ≡ part.old ++ stop_text method number) }
{
    part.put(
        "<p class=\"blocked\">The walk over the ranges stops at <a href=\"#%:%\">%:%</a>. What stands behind it was not walked.</p>\n",
        &[
            Fill::OfName(method),
            Fill::Number(number),
            Fill::OfName(method),
            Fill::Number(number),
        ],
    )
}

/// The page of a plan's bytes and a range file's, with what is shown of its runs.
#[tactic(auto, using(crate::proofs::PageLemmas::reworded))]
fn draw_shown(
    alloc: Global,
    plan: TextFile<'_>,
    limits: TextFile<'_>,
    shown: RunShown<'_>,
) -> Result<Chart, AllocError>
    ensures judged { IfOk result (λ chart. IsJudged (named_text plan.entry)
        (Some (named_text limits.entry)) (option_map (λ words. string_bytes words) chart.reason)) }
    ensures page { IfOk result (λ chart. IsRunPage (Some (run_parts shown.entry))
        plan.entry.bytes.now (Some limits.entry.bytes.now)
        (option_map (λ words. string_bytes words) chart.reason) chart.page.items) }
{
    let verdict = judge(alloc, plan, Some(limits))?;
    let page = draw_judged(alloc, plan, Some(limits), &verdict, Some(shown))?;
    Ok(Chart {
        page,
        reason: words_of(verdict),
    })
}

/// The words of a verdict's reason.
fn words_of(verdict: Verdict) -> Option<String>
    ensures { option_map (λ words. string_bytes words) result ≡ words_of verdict }
{
    match verdict {
        Verdict::Refused(Reason { words, .. }) => Some(words),
        Verdict::Accepted(_) | Verdict::InOrder => None,
    }
}

/// The page of a plan that is judged.
fn write_chart(
    alloc: Global,
    plan: TextFile<'_>,
    limits: Option<TextFile<'_>>,
    verdict: &Verdict,
    run: Option<RunShown<'_>>,
) -> Result<Vec<u8>, AllocError>
    ensures { IfOk result (λ page. ShowsVerdict
        (option_map run_parts run.entry) plan.entry.bytes.now
        (option_map (λ file. file.bytes.now) limits.entry) (finding_of verdict.now)
        (verdict_text verdict.now) page.items) }
{
    let tokens = read_tokens(alloc, plan.bytes)?;
    let page = page_of_tokens(alloc, plan, limits, verdict, run, &tokens)?;
    Ok(page)
}

/// The same of a plan whose tokens are read.
#[tactic(auto, using(crate::proofs::PageLemmas::read_page))]
fn page_of_tokens(
    alloc: Global,
    plan: TextFile<'_>,
    limits: Option<TextFile<'_>>,
    verdict: &Verdict,
    run: Option<RunShown<'_>>,
    tokens: &Tokens<'_>,
) -> Result<Vec<u8>, AllocError>
    requires { AreRead plan.bytes.now tokens.now }
    ensures { IfOk result (λ page. ShowsVerdict
        (option_map run_parts run.entry) plan.entry.bytes.now
        (option_map (λ file. file.bytes.now) limits.entry) (finding_of verdict.now)
        (verdict_text verdict.now) page.items) }
{
    match elements_of(alloc, plan.bytes, tokens) {
        Ok(elements) => Ok(read_page(alloc, plan, limits, verdict, run, &elements, tokens)?),
        Err(ReadFault::Memory) => Err(AllocError),
        Err(_) => Ok(empty_page(alloc, plan.name, verdict, run)?),
    }
}

/// The page of a plan whose elements are read, with its comments and the ranges of its range file.
fn read_page(
    alloc: Global,
    plan: TextFile<'_>,
    limits: Option<TextFile<'_>>,
    verdict: &Verdict,
    run: Option<RunShown<'_>>,
    elements: &Elements,
    tokens: &Tokens<'_>,
) -> Result<Vec<u8>, AllocError>
    requires { AreRead plan.bytes.now tokens.now }
    ensures { IfOk result (λ page. ShowsTree
        (option_map run_parts run.entry) plan.entry.bytes.now
        (option_map (λ file. file.bytes.now) limits.entry) (finding_of verdict.now)
        (verdict_text verdict.now) (tree_of elements.now) page.items) }
{
    let notes = notes_of(alloc, tokens)?;
    let limits = limits_of(alloc, limits)?;
    let source = Source {
        file: plan.name,
        notes: &notes,
        limits: &limits,
        verdict,
        run,
    };
    plan_page(alloc, elements, source)
}

/// The ranges of a range file, where it is read.
fn limits_of(alloc: Global, file: Option<TextFile<'_>>) -> Result<Option<Limits>, AllocError>
    ensures { IfOk result (AreLimits (option_map (λ file. file.bytes.now) file.entry)) }
{
    match file {
        Some(file) => limits_read(alloc, file.bytes),
        None => Ok(None),
    }
}

/// The ranges of the bytes of a range file, where they are read.
fn limits_read(alloc: Global, bytes: &[u8]) -> Result<Option<Limits>, AllocError>
    ensures { IfOk result (AreLimits (Some bytes.now)) }
{
    match read_limits(alloc, bytes) {
        Ok(limits) => Ok(Some(limits)),
        Err(LimitsFault::Memory(error)) => Err(error),
        Err(_) => Ok(None),
    }
}

/// What a page has beside the plan's elements.
#[derive(Clone, Copy)]
struct Source<'a> {
    file: &'a str,
    notes: &'a Notes,
    limits: &'a Option<Limits>,
    verdict: &'a Verdict,
    /// What is told of a run.
    run: Option<RunShown<'a>>,
}

/// The page of a file that is no plan: its head alone, and what is told of a run.
fn empty_page(
    alloc: Global,
    file: &str,
    verdict: &Verdict,
    run: Option<RunShown<'_>>,
) -> Result<Vec<u8>, AllocError>
    ensures { IfOk result (λ page. IsWholePage (run_subject (option_map run_parts run.entry))
        (verdict_text verdict.now Nowhere) (run_texts (option_map run_parts run.entry) ++ []) page.items) }
{
    let mut rest = Page::new(alloc);
    rest.put(
        "<p class=\"sub\" id=\"methods\">There is nothing to draw: the file is not read as a flowchart.</p></header>",
        &[],
    )?;
    append_run(&mut rest, run)?;
    let subject = RunShown::subject(run);
    let head = Head {
        subject,
        title: file,
        version: None,
        lead: &[],
    };
    page_of(alloc, head, verdict, &Site::Nowhere, rest)
}

/// A page from what stands before its verdict up to its end. `rest` is what stands behind the verdict.
fn page_of(
    alloc: Global,
    head: Head<'_>,
    verdict: &Verdict,
    site: &Site,
    rest: Page,
) -> Result<Vec<u8>, AllocError>
    ensures { IfOk result (λ page. IsAround head.entry.subject
        (verdict_text verdict.now site.now) rest page.items) }
{
    let mut html = Vec::new(alloc);
    push_head(alloc, &mut html, head)?;
    push_verdict(alloc, &mut html, verdict, site)?;
    push_page(&mut html, rest)?;
    push_own(&mut html, "</body></html>\n")?;
    Ok(html)
}

/// The page of a plan with its methods.
fn plan_page(alloc: Global, elements: &Elements, source: Source<'_>) -> Result<Vec<u8>, AllocError>
    ensures { IfOk result (λ page. ShowsRead (option_map run_parts source.entry.run)
        source.entry.notes.now source.entry.limits.now
        (finding_of source.entry.verdict.now) (verdict_text source.entry.verdict.now)
        (tree_of elements.now) page.items) }
{
    let site = site_shown(elements, source.verdict);
    let marks = RunShown::marks(source.run);
    let chapters = read_chapters(alloc, elements, source.notes, &site, marks)?;
    whole_page(alloc, elements, source, &chapters, &site)
}

/// The page of a plan with these methods.
fn whole_page(
    alloc: Global,
    elements: &Elements,
    source: Source<'_>,
    chapters: &[Chapter<'_>],
    site: &Site,
) -> Result<Vec<u8>, AllocError>
    ensures { IfOk result (λ page. HasTable (option_map run_parts source.entry.run)
        (table_source source.entry site.now) (tree_of elements.now)
        (flat_map chapter_captions chapters.now) (verdict_text source.entry.verdict.now site.now)
        page.items) }
{
    let rest = behind_verdict(alloc, elements, source, chapters, site)?;
    page_of(alloc, head_of(source), source.verdict, site, rest)
}

/// What stands behind the sentence on a plan.
fn behind_verdict(
    alloc: Global,
    elements: &Elements,
    source: Source<'_>,
    chapters: &[Chapter<'_>],
    site: &Site,
) -> Result<Page, AllocError>
    ensures { IfOk result (IsBehind (option_map run_parts source.entry.run)
        (table_source source.entry site.now) (tree_of elements.now)
        (flat_map chapter_captions chapters.now)) }
{
    let mut page = counts_of(alloc, chapters)?;
    append_run(&mut page, source.run)?;
    let marking = marking_of(source.run);
    page.append(&index_of(alloc, chapters, site, marking)?)?;
    let declarations = Declarations {
        elements,
        notes: source.notes,
        limits: source.limits,
        verdict: source.verdict,
        internals: RunShown::internals(source.run),
        site,
    };
    write_declarations(&mut page, declarations)?;
    page.append(&before_methods(alloc, source.notes, marking)?)?;
    write_methods(&mut page, elements, chapters, site)?;
    page.append(&behind_methods(alloc, source.notes)?)?;
    Ok(page)
}

/// The head of a plan's page: its name, its version and the comments before it.
fn head_of<'a>(source: Source<'a>) -> Head<'a>
    ensures { result.subject ≡ run_subject (option_map run_parts source.entry.run) }
{
    let notes = source.notes;
    let title = match &notes.name {
        Some(name) => name.as_str(),
        None => source.file,
    };
    let version = match &notes.version {
        Some(version) => Some(version.as_str()),
        None => None,
    };
    Head {
        subject: RunShown::subject(source.run),
        title,
        version,
        lead: notes.walk().skip_to(Element::Pap),
    }
}

/// Appends what is told of a run, where there is one.
fn append_run(page: &mut Page, run: Option<RunShown<'_>>) -> Result<(), AllocError>
    ensures { OnOk result (AddsInTurn (run_texts (option_map run_parts run.entry))
        page.old page.new) }
{
    match run {
        Some(run) => page.append(run.part),
        None => Ok(()),
    }
}

/// How many methods and statements there are.
fn counts_of(alloc: Global, chapters: &[Chapter<'_>]) -> Result<Page, AllocError> {
    let mut page = Page::new(alloc);
    write_counts(&mut page, chapters)?;
    Ok(page)
}

/// What the marks in the drawings tell.
fn marking_of(run: Option<RunShown<'_>>) -> Marking {
    match run {
        Some(run) => run.marking,
        None => Marking::Nothing,
    }
}

/// The index of the methods, which stands before the declarations. Where the way of a run is marked in the drawings, the rest of them is
/// pale.
fn index_of(
    alloc: Global,
    chapters: &[Chapter<'_>],
    site: &Site,
    marking: Marking,
) -> Result<Page, AllocError> {
    let mut page = Page::new(alloc);
    write_index(&mut page, chapters, site, marking)?;
    Ok(page)
}

/// What stands between the declarations and the methods: the key of the drawings, and comments.
fn before_methods(alloc: Global, notes: &Notes, marking: Marking) -> Result<Page, AllocError> {
    let mut page = Page::new(alloc);
    write_key(&mut page, marking)?;
    write_paragraphs(&mut page, notes, Element::Methods, false)?;
    Ok(page)
}

/// What stands behind the methods: the comments there, and the ends of what is open.
fn behind_methods(alloc: Global, notes: &Notes) -> Result<Page, AllocError> {
    let mut page = Page::new(alloc);
    write_paragraphs(&mut page, notes, Element::Methods, true)?;
    write_paragraphs(&mut page, notes, Element::Pap, true)?;
    write_last_paragraph(&mut page, notes)?;
    page.put("</section></main></div>", &[])?;
    Ok(page)
}

/// Appends how many methods and statements there are.
fn write_counts(page: &mut Page, chapters: &[Chapter<'_>]) -> Result<(), AllocError> {
    let methods = chapters.len();
    let statements = count_statements(chapters);
    let method = if methods == 1 { "method" } else { "methods" };
    let statement = if statements == 1 {
        "statement"
    } else {
        "statements"
    };
    page.put(
        "<p class=\"sub\">% %, % %</p></header>\n",
        &[
            Fill::Number(methods as u64),
            Fill::Text(method.as_bytes()),
            Fill::Number(u64::from(statements)),
            Fill::Text(statement.as_bytes()),
        ],
    )
}

/// How many statements there are.
fn count_statements(chapters: &[Chapter<'_>]) -> u32 {
    let mut count: u32 = 0;
    for chapter in chapters {
        count = count.saturating_add(chapter.text.count);
    }
    count
}
