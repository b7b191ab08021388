//! A declaration as a text.
ghost use Rattle.std.specs.Prelude.{◌≡◌};
ghost use Rattle.flowchart_comparison.specs.Outlines.{text_item};

use pap_tree::Name;
use std::marker::Model;

/// A declared name, and the text of its declaration: its group, its type and its value, as `INPUT int = 1`.
#[derive(Drop)]
pub struct Item {
    name: Name,
    text: Vec<u8>,
}

impl Model for Item {
    ghost use Rattle.flowchart_comparison.specs.Outlines.{TextItem};

    ghost Value = { TextItem };

    ghost view = { λ x. record { name = x.name; text = x.text.items } };
}

impl Item {
    /// A name with a text.
    pub(crate) fn new(name: Name, text: Vec<u8>) -> Item
        ensures { result ≡ text_item name text.items }
    {
        Item { name, text }
    }

    /// The declared name.
    pub fn name(&self) -> Name
        ensures { result ≡ self.now.name }
    {
        self.name
    }

    /// The bytes of its name.
    pub(crate) fn name_bytes(&self) -> &[u8]
        ensures { result.now ≡ self.now.name }
    {
        self.name.bytes()
    }

    /// The text of the declaration.
    pub fn text(&self) -> &[u8]
        ensures { result.now ≡ self.now.text }
    {
        &self.text
    }
}
