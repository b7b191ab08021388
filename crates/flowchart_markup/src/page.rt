//! A page as it is written.
ghost use Rattle.std.specs.Prelude.{◌≡◌, ◌++◌, ◌↔◌, [], IsTrue, OnOk, length, map};
ghost use Rattle.std.specs.List.{list_all};
ghost use Rattle.flowchart_markup.specs.Escapes.{escaped};
ghost use Rattle.flowchart_markup.specs.Templates.{own_templates, is_own};
ghost use Rattle.flowchart_markup.specs.Fragments.{fill_text, template_text, IsMarkedUp};
ghost use Rattle.flowchart_markup.specs.TemplateLaws.{between, has_whole_tags, shows_all};

use crate::fill::{Fill, each_is_inert, push_filled};
use std::alloc::{AllocError, Global};
use std::marker::Model;

/// A page of HTML, or a part of one: the page's own markup, and in it numbers, names and texts. There is no other way to write on
/// it, so nothing that stands on it is hidden, and no text of a file is read as markup.
#[derive(Drop)]
pub struct Page {
    alloc: Global,
    bytes: Vec<u8>,
}

impl Model for Page {
    ghost use Rattle.std.specs.Prelude.{ℕ, List};
    ghost use Rattle.flowchart_markup.specs.Fragments.{IsMarkedUp};

    ghost Value = { List ℕ };

    ghost view = { λ p. p.bytes.items };

    ghost invariant = { λ p. IsMarkedUp p.bytes.items };
}

impl Page {
    /// A page of nothing.
    pub fn new(alloc: Global) -> Page
        ensures { result ≡ [] }
    {
        Page {
            alloc,
            bytes: Vec::new(alloc),
        }
    }

    /// Where a page takes its memory.
    pub fn alloc(&self) -> Global {
        self.alloc
    }

    /// Whether nothing stands on it.
    pub fn is_empty(&self) -> bool
        ensures { IsTrue result ↔ (length self.now ≡ 0) }
    {
        self.bytes.is_empty()
    }

    /// The bytes of a page.
    pub fn into_bytes(self) -> Vec<u8>
        ensures bytes { result.items ≡ self }
        ensures marked_up { IsMarkedUp self }
    {
        self.bytes
    }

    /// Appends markup of the page's own, with these in place of its percent signs.
    pub fn put(&mut self, template: &str, fills: &[Fill<'_>]) -> Result<(), AllocError>
        requires { IsTrue (is_own template.now) }
        ensures { OnOk result
            (self.new ≡ self.old ++ template_text template.now (map fill_text fills.now)) }
    {
        each_is_inert(fills);
        let mut html = Vec::new(self.alloc);
        push_filled(self.alloc, &mut html, template.as_bytes(), fills)?;
        self.bytes.extend_from_slice(&html)
    }

    /// Appends a text.
    pub fn text(&mut self, text: &[u8]) -> Result<(), AllocError>
        ensures { OnOk result (self.new ≡ self.old ++ escaped text.now) }
    {
        self.put("%", &[Fill::Text(text)])
    }

    /// Appends a part of a page.
    pub fn append(&mut self, part: &Page) -> Result<(), AllocError>
        ensures { OnOk result (self.new ≡ self.old ++ part.now) }
    {
        self.bytes.extend_from_slice(&part.bytes)
    }
}

/// The laws of the page's own markup: it has whole tags alone, and none of it says a verdict, hides, runs or fetches anything.
pub fn template_laws()
    ensures whole { IsTrue (list_all (has_whole_tags between) own_templates) }
    ensures shown { IsTrue (list_all shows_all own_templates) }
{}
