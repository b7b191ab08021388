//! The tags of a plan's file.
ghost use Rattle.std.specs.Prelude.{◌≡◌, ℕ, List};
ghost use Rattle.plan_notes.specs.Edges.{Edge, HasEdges};
ghost use Rattle.plan_notes.specs.TagNames.{tag_name_at};
ghost use Rattle.plan_notes.specs.Walks.{is_start};

use pap_reader::{Element, split_letters};

/// A tag, with the comments between the tag before and it. An empty tag counts as a start tag and an end tag.
#[derive(Clone, Copy, Debug)]
pub struct Mark {
    /// Its element.
    pub element: Element,
    /// It is an end tag, else a start tag.
    pub is_end: bool,
    /// The byte at which it begins.
    pub at: usize,
    /// The number of its first comment, counted from 0 in the whole file.
    pub first: usize,
    /// One more than the number of its last comment; `first` where it has none.
    pub last: usize,
}

/// Which start tags are looked for.
#[derive(Clone, Copy, Debug, PartialEq, Eq)]
pub enum Starts {
    /// Those of an element.
    Of(Element),
    /// Those of the statements: of EVAL, EXECUTE and IF.
    OfStatements,
}

impl Starts {
    /// Whether a tag is one of them.
    pub(crate) fn has(self, mark: &Mark) -> bool
        ensures { result ≡ is_start self mark.now }
    {
        let is_sought = match self {
            Starts::Of(element) => mark.element == element,
            Starts::OfStatements => {
                matches!(mark.element, Element::Eval | Element::Execute | Element::If)
            }
        };
        is_sought && !mark.is_end
    }
}

/// The letters behind the `<` or `</` with which a text begins; of a tag, the name of its element. Nothing where a text begins
/// with neither.
pub fn element_name(text: &[u8]) -> &[u8]
    ensures { result.now ≡ tag_name_at text.now }
{
    match text.strip_prefix(b"<") {
        Some(inner) => split_letters(inner.strip_prefix(b"/").unwrap_or(inner)).0,
        None => &[],
    }
}

/// The law of the tags of a file: its elements begin and end at one list of places.
pub fn tag_laws()
    ensures one_list { (file : List ℕ) (edges others : List Edge)
        → HasEdges file edges → HasEdges file others → edges ≡ others }
{}
