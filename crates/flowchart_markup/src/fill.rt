//! Markup with numbers, names and texts in it.
ghost use Rattle.std.specs.Prelude.{◌≡◌, ◌+◌, ◌<◌, ◌^◌, ◌++◌, ◌∷◌, [], All, IsTrue, OnOk, map, slice_get, unwrap_or};
ghost use Rattle.std.specs.Fmt.{decimal};
ghost use Rattle.std.specs.List.{list_all};
ghost use Rattle.flowchart_markup.specs.Escapes.{is_inert};
ghost use Rattle.flowchart_markup.specs.Fragments.{fill_text, template_text, template_text_from};
ghost use Rattle.flowchart_markup.specs.private.Holes.{holes};

use crate::escape::push_escaped;
use pap_tree::Name;
use std::alloc::{AllocError, Global};

/// What stands at a percent sign of markup.
#[derive(Clone, Copy)]
pub enum Fill<'a> {
    /// A number in digits.
    Number(u64),
    /// A name of the flowchart.
    OfName(Name),
    /// A text, of a file or of the page's own.
    Text(&'a [u8]),
}

/// Where something stands in a template.
const HOLE: u8 = b'%';

/// Appends a template with these in place of its percent signs.
pub(crate) fn push_filled(
    alloc: Global,
    page: &mut Vec<u8>,
    template: &[u8],
    fills: &[Fill<'_>],
) -> Result<(), AllocError>
    ensures { OnOk result
        (page.new.items ≡ page.old.items ++ template_text template.now (map fill_text fills.now)) }
{
    let mut index: usize = 0;
    for byte in template {
        push_byte_filled(alloc, page, *byte, fills, index)?;
        index = index_behind(index, *byte);
    }
    Ok(())
}

/// Appends a byte of a template: at a percent sign what stands there, by its index.
fn push_byte_filled(
    alloc: Global,
    page: &mut Vec<u8>,
    byte: u8,
    fills: &[Fill<'_>],
    index: usize,
) -> Result<(), AllocError>
    ensures { OnOk result (page.new.items
        ≡ page.old.items ++ template_text_from (byte ∷ []) index (map fill_text fills.now)) }
{
    if byte == HOLE {
        push_fill_at(alloc, page, fills, index)
    } else {
        page.extend_from_slice(&[byte])
    }
}

/// The index of the next percent sign behind a byte of a template.
fn index_behind(index: usize, byte: u8) -> usize
    requires { index + 1 < 2 ^ 64 }
    ensures { result ≡ index + holes (byte ∷ []) }
{
    if byte == HOLE { index + 1 } else { index }
}

/// Appends what stands at the percent sign of an index, where something does.
fn push_fill_at(
    alloc: Global,
    page: &mut Vec<u8>,
    fills: &[Fill<'_>],
    index: usize,
) -> Result<(), AllocError>
    ensures { OnOk result (page.new.items
        ≡ page.old.items ++ unwrap_or (slice_get (map fill_text fills.now) index) []) }
{
    match fills.get(index) {
        Some(fill) => push_fill(alloc, page, fill),
        None => Ok(()),
    }
}

/// Appends a number, a name or a text.
fn push_fill(alloc: Global, page: &mut Vec<u8>, fill: &Fill<'_>) -> Result<(), AllocError>
    ensures { OnOk result (page.new.items ≡ page.old.items ++ fill_text fill.now) }
{
    match fill {
        Fill::Number(number) => {
            let digits = format!(in alloc; "{number}")?;
            page.extend_from_slice(digits.as_bytes())
        }
        Fill::OfName(name) => page.extend_from_slice(name.bytes()),
        Fill::Text(text) => push_escaped(page, text),
    }
}

/// Each of these has no mark of HTML, as its type says.
pub(crate) fn each_is_inert(fills: &[Fill<'_>])
    ensures { All (λ fill. IsTrue (list_all is_inert (fill_text fill))) fills.now }
{
    for fill in fills {
        is_inert(fill);
    }
}

/// A number, a name and an escaped text have no mark of HTML.
#[tactic(auto, using(crate::proofs::FragmentLemmas::name_inert, crate::proofs::FragmentLemmas::text_is_inert))]
fn is_inert(fill: &Fill<'_>)
    ensures { IsTrue (list_all is_inert (fill_text fill.now)) }
{
    match fill {
        Fill::Number(number) => number_is_inert(*number),
        Fill::OfName(name) => {
            let _ = name.bytes();
        }
        Fill::Text(_) => {}
    }
}

/// The digits of a number have no mark of HTML.
#[tactic(auto, using(crate::proofs::FragmentLemmas::number_inert))]
fn number_is_inert(number: u64)
    ensures { IsTrue (list_all is_inert (decimal number)) }
{
    let _ = number;
}
