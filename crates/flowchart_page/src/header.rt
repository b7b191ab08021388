//! The head of the page and its verdict: texts that are known byte by byte.
ghost use Rattle.std.specs.Prelude.{◌≡◌, ◌++◌, ◌∷◌, [], IfOk, OnOk, option_map, string_bytes};
ghost use Rattle.pap_types.specs.Meaning.{bound_of};
ghost use Rattle.pap_plan.specs.Plans.{meaning};
ghost use Rattle.flowchart_markup.specs.Escapes.{escaped};
ghost use Rattle.flowchart_markup.specs.Fragments.{IsMarkedUp};
ghost use Rattle.flowchart_page.specs.Heads.{page_head, head_start, title_end, version_text, lead_text};
ghost use Rattle.flowchart_page.specs.Pages.{shown_parts, shown_words, link_text, accepted_text, refused_text};
ghost use Rattle.flowchart_page.specs.private.VerdictViews.{verdict_text};

use crate::subject::Subject;
use crate::verdict::{Reason, Verdict};
use flowchart_markup::{Page, push_escaped};
use flowchart_methods::{Site, write_comments};
use page_frame::{page_start, style_sheet};
use pap_plan::Plan;
use std::alloc::{AllocError, Global};

/// What stands between the style sheet and the title of the page's body.
const BODY_START: &str =
    "\n</style>\n</head>\n<body>\n<a class=\"skip\" href=\"#methods\">Skip to the drawings</a>\n<header><h1>";

/// What stands in the head of a page.
#[derive(Clone, Copy)]
pub(crate) struct Head<'a> {
    /// What the page shows.
    pub subject: Subject,
    pub title: &'a str,
    pub version: Option<&'a str>,
    /// The comments before the plan.
    pub lead: &'a [String],
}

/// Appends what stands before the verdict.
pub(crate) fn push_head(alloc: Global, html: &mut Vec<u8>, head: Head<'_>) -> Result<(), AllocError>
    ensures { OnOk result (html.new.items ≡ html.old.items ++ page_head head.entry.subject head.entry.title.now
        (option_map (λ version. version.now) head.entry.version) head.entry.lead.now) }
{
    push_head_start(html, head.subject, head.title)?;
    push_version(html, head.version)?;
    push_lead(alloc, html, head.lead)?;
    Ok(())
}

/// Appends how a page begins, with its title in its head and in its body.
fn push_head_start(html: &mut Vec<u8>, subject: Subject, title: &str) -> Result<(), AllocError>
    ensures { OnOk result (html.new.items ≡ html.old.items ++ head_start subject title.now) }
{
    push_own(html, page_start())?;
    push_escaped(html, title.as_bytes())?;
    push_own(html, title_end(subject))?;
    push_own(html, style_sheet())?;
    push_own(html, BODY_START)?;
    push_escaped(html, title.as_bytes())?;
    Ok(())
}

/// The end of the title in the head of a page, which says what the page shows.
fn title_end(subject: Subject) -> &'static str
    ensures { result.now ≡ title_end subject }
{
    match subject {
        Subject::Flowchart => ": flowchart</title>\n<style>\n",
        Subject::Run => ": run</title>\n<style>\n",
        Subject::Coverage => ": coverage</title>\n<style>\n",
    }
}

/// Appends the version of a plan, where it has one, and the end of the title.
fn push_version(html: &mut Vec<u8>, version: Option<&str>) -> Result<(), AllocError>
    ensures { OnOk result (html.new.items
        ≡ html.old.items ++ version_text (option_map (λ version. version.now) version.entry)) }
{
    match version {
        Some(version) => push_marked(html, " <small>", version.as_bytes(), "</small></h1>\n"),
        None => push_own(html, "</h1>\n"),
    }
}

/// Appends the comments before the plan.
fn push_lead(alloc: Global, html: &mut Vec<u8>, comments: &[String]) -> Result<(), AllocError>
    ensures { OnOk result (html.new.items ≡ html.old.items ++ lead_text comments.now) }
{
    if comments.is_empty() {
        return Ok(());
    }
    let mut text = Page::new(alloc);
    write_comments(&mut text, comments)?;
    push_own(html, "<p class=\"lead\">")?;
    push_page(html, text)?;
    push_own(html, "</p>\n")?;
    Ok(())
}

/// Appends a part of a page.
pub(crate) fn push_page(html: &mut Vec<u8>, part: Page) -> Result<(), AllocError>
    ensures grown { OnOk result (html.new.items ≡ html.old.items ++ part) }
    ensures marked_up { IsMarkedUp part }
{
    html.extend_from_slice(&part.into_bytes())
}

/// Appends HTML.
pub(crate) fn push_own(html: &mut Vec<u8>, own: &str) -> Result<(), AllocError>
    ensures { OnOk result (html.new.items ≡ html.old.items ++ own.now) }
{
    html.extend_from_slice(own.as_bytes())
}

/// Appends a text between HTML before it and behind it.
fn push_marked(
    html: &mut Vec<u8>,
    before: &str,
    text: &[u8],
    behind: &str,
) -> Result<(), AllocError>
    ensures { OnOk result (html.new.items
        ≡ html.old.items ++ (before.now ++ (escaped text.now ++ behind.now))) }
{
    push_own(html, before)?;
    push_escaped(html, text)?;
    push_own(html, behind)?;
    Ok(())
}

/// Appends what is said of the plan.
pub(crate) fn push_verdict(
    alloc: Global,
    html: &mut Vec<u8>,
    verdict: &Verdict,
    site: &Site,
) -> Result<(), AllocError>
    ensures { OnOk result
        (html.new.items ≡ html.old.items ++ verdict_text verdict.now site.now) }
{
    match verdict {
        Verdict::Accepted(plan) => push_accepted(alloc, html, plan),
        Verdict::InOrder => push_own(
            html,
            "<p class=\"ok\"><b>In order</b>, as far as it can be said without a range file: its expressions, names, types and methods. Whether each run is safe is said with a range file.</p>\n",
        ),
        Verdict::Refused(reason) => push_reason(alloc, html, reason, site),
    }
}

/// Appends that the plan is accepted, with its bound.
fn push_accepted(alloc: Global, html: &mut Vec<u8>, plan: &Plan) -> Result<(), AllocError>
    ensures { OnOk result (html.new.items
        ≡ html.old.items ++ accepted_text (bound_of (meaning plan.now).flowchart)) }
{
    let text = accepted_text(alloc, plan.bound())?;
    push_own(html, &text)
}

/// The verdict on an accepted plan of a bound.
fn accepted_text(alloc: Global, bound: u64) -> Result<String, AllocError>
    ensures { IfOk result (λ text. string_bytes text ≡ accepted_text bound) }
{
    format!(in alloc;
        "<p class=\"ok\"><b>Accepted.</b> On every input within the ranges a run is safe and takes at most <b>{bound}</b> steps.</p>\n"
    )
}

/// Appends that the plan is refused, and why.
fn push_reason(
    alloc: Global,
    html: &mut Vec<u8>,
    reason: &Reason,
    site: &Site,
) -> Result<(), AllocError>
    ensures { OnOk result (html.new.items ≡ html.old.items
        ++ refused_text (string_bytes reason.now.words) reason.now.line.items site.now) }
{
    let link = link_text(alloc, site)?;
    push_own(html, "<div class=\"no\"><p><b>Refused.</b> ")?;
    push_words(html, &reason.words)?;
    push_own(html, ".</p>\n<p><code>")?;
    push_escaped(html, &reason.line)?;
    push_own(html, "</code>")?;
    push_own(html, &link)?;
    push_own(html, "</p></div>\n")?;
    Ok(())
}

/// Appends plain words, with what stands in backquotes as code.
fn push_words(html: &mut Vec<u8>, words: &str) -> Result<(), AllocError>
    ensures { OnOk result (html.new.items ≡ html.old.items ++ shown_words words.now) }
{
    let mut is_code = false;
    for part in words.as_bytes().split(|byte| *byte == b'`') {
        push_part(html, part, is_code)?;
        is_code = !is_code;
    }
    Ok(())
}

/// Appends a part of plain words, as code or not.
fn push_part(html: &mut Vec<u8>, part: &[u8], is_code: bool) -> Result<(), AllocError>
    ensures { OnOk result
        (html.new.items ≡ html.old.items ++ shown_parts is_code (part.now ∷ [])) }
{
    if is_code {
        push_marked(html, "<code>", part, "</code>")
    } else {
        push_escaped(html, part)
    }
}

/// The link to what a refusal names.
fn link_text(alloc: Global, site: &Site) -> Result<String, AllocError>
    ensures { IfOk result (λ text. string_bytes text ≡ link_text site.now) }
{
    match site {
        Site::Statement { method, number } => format!(in alloc;
            " <a href=\"#{method}:{number}\">Show it in the drawing</a>"
        ),
        Site::Method(name) => format!(in alloc;
            " <a href=\"#method-{name}\">Show it in the drawing</a>"
        ),
        Site::Declared(name) => format!(in alloc;
            " <a href=\"#name-{name}\">Show it in the table</a>"
        ),
        Site::Nowhere => Ok(String::new(alloc)),
    }
}
