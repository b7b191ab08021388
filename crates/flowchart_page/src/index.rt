//! The index of the methods, and the key of their drawings.
use flowchart_markup::{Fill, Page};
use flowchart_methods::{Chapter, Site};
use std::alloc::AllocError;

/// The key of the symbols, above the drawings.
const KEY: &str =
    "<section id=\"methods\"><h2>Drawings</h2>\n<div class=\"key\"><svg aria-hidden=\"true\" width=\"566\" height=\"26\" viewBox=\"0 0 566 26\"><path class=\"d\" d=\"M2 13l10-10h34l10 10l-10 10h-34z\"/><text class=\"c\" x=\"63\" y=\"17\">test</text><rect class=\"b\" x=\"104\" y=\"3\" width=\"44\" height=\"20\"/><text class=\"c\" x=\"155\" y=\"17\">assignments</text><rect class=\"x\" x=\"242\" y=\"3\" width=\"44\" height=\"20\"/><path class=\"xx\" d=\"M247 3v20M281 3v20\"/><text class=\"c\" x=\"293\" y=\"17\">another method</text><path class=\"k\" d=\"M402 13h10M418 3h-6v20h6\"/><text class=\"c\" x=\"424\" y=\"17\">comment of the file</text></svg><p>After a test, <i>yes</i> goes one step to the right and <i>no</i> straight down, unless the words beside the lines say otherwise. The grey words are the places of the statements, as refusals name them.</p></div>\n";

/// What the marks in the drawings tell.
#[derive(Clone, Copy)]
pub enum Marking {
    /// Nothing: there are none.
    Nothing,
    /// The way of a run.
    Run,
    /// What is known of all runs within the ranges.
    Ranges,
    /// What the walk over the ranges found before it stopped.
    Stopped,
    /// How many runs came to each statement.
    Counts,
}

/// What the marks of a page with ranges tell, below the key.
const RANGES_KEY: &str =
    "<p class=\"key\">Under each assignment stands the range of what it puts: from the least to the greatest value that a run within the ranges of the inputs can give it. What no such run comes to is grey and dashed, and says so.</p>\n";

/// What the marks of a page tell where the walk over the ranges stops, below the key.
const STOPPED_KEY: &str =
    "<p class=\"key\">Under each assignment stands the range of what it puts, as far as the walk over the ranges went before it stopped. The statement that may fail is red, and says why and which ranges its operands have. Dashed ways were not walked: whether a run takes them is not known.</p>\n";

/// What the marks of a page with numbers of runs tell, below the key.
const COUNTS_KEY: &str =
    "<p class=\"key\">Each statement says how many runs came there, and each way of a test how many took it. What no run came to is red and dashed, and says never or missed. What no run within the ranges of the inputs can come to is grey and dashed, and says unreachable.</p>\n";

/// Appends the index of the methods, and the start of what stands beside it, by what the drawings tell.
pub(crate) fn write_index(
    page: &mut Page,
    chapters: &[Chapter<'_>],
    site: &Site,
    marking: Marking,
) -> Result<(), AllocError> {
    page.put(
        "<div class=\"cols\"><nav aria-labelledby=\"index\"><h2 id=\"index\">Methods</h2><ul>\n",
        &[],
    )?;
    for chapter in chapters {
        write_entry(page, chapter, site)?;
    }
    match marking {
        Marking::Nothing => page.put(
            "</ul><p><a href=\"#declarations\">Declarations</a></p></nav><main>\n",
            &[],
        ),
        Marking::Run => page.put(
            "</ul><p><a href=\"#declarations\">Declarations</a></p></nav><main class=\"traced\">\n",
            &[],
        ),
        Marking::Ranges | Marking::Stopped | Marking::Counts => page.put(
            "</ul><p><a href=\"#declarations\">Declarations</a></p></nav><main class=\"ranged\">\n",
            &[],
        ),
    }
}

/// Appends the entry of a method: a link to it, and how many statements it has.
fn write_entry(page: &mut Page, chapter: &Chapter<'_>, site: &Site) -> Result<(), AllocError> {
    let name = chapter.text.name;
    let fills = [
        Fill::OfName(name),
        Fill::OfName(name),
        Fill::Number(u64::from(chapter.text.count)),
    ];
    if site.is_in(&name) {
        page.put(
            "<li class=\"bad\"><a href=\"#method-%\">%</a> <span>%</span></li>\n",
            &fills,
        )
    } else {
        page.put(
            "<li><a href=\"#method-%\">%</a> <span>%</span></li>\n",
            &fills,
        )
    }
}

/// Appends the key of the drawings, which begins their section.
pub(crate) fn write_key(page: &mut Page, marking: Marking) -> Result<(), AllocError> {
    page.put(KEY, &[])?;
    match marking {
        Marking::Ranges => page.put(RANGES_KEY, &[]),
        Marking::Stopped => page.put(STOPPED_KEY, &[]),
        Marking::Counts => page.put(COUNTS_KEY, &[]),
        Marking::Nothing | Marking::Run => Ok(()),
    }
}
