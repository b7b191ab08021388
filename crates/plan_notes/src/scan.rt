//! The notes of a plan's file, from its tokens.
ghost use Rattle.std.specs.Prelude.{◌≡◌, ◌<◌, [], ◌∷◌, false, map, length, vec_len, All, IfOk, OnOk, option_map, string_bytes};
ghost use Rattle.std.specs.List.{fold};
ghost use Rattle.std.specs.List.Sorted.{IsNonDecreasingBy};
ghost use Rattle.pap_reader.specs.Tags.{tag_of, attributes_of};
ghost use Rattle.pap_reader.specs.Marks.{marks_of, begins};
ghost use Rattle.pap_reader.specs.Attributes.{attribute_value};
ghost use Rattle.pap_reader.specs.Contents.{token_meant, tokens_of};
ghost use Rattle.plan_notes.specs.Lines.{line_text};
ghost use Rattle.plan_notes.specs.Edges.{HasEdges, edge, edges_by};
ghost use Rattle.plan_notes.specs.Marks.{edge_of, HaveComments};
ghost use Rattle.plan_notes.specs.Contents.{place, items_by, root_at, root_by};
ghost use Rattle.plan_notes.specs.Notes.{IsNoted, HasNotes};
ghost use Rattle.plan_notes.specs.private.ScanViews.{Holds, Keeps, SameRoot, AddsComment, KeepsRoot};

use crate::notes::Notes;
use crate::tag::Mark;
use crate::text::one_line;
use pap_reader::{Element, Form, Tag, Token, Tokens, read_tokens, value_of};
use std::alloc::{AllocError, Global};

/// The tags and comments so far.
#[derive(Drop)]
struct Scan {
    alloc: Global,
    notes: Notes,
    /// The number of the first comment behind the last tag.
    first: usize,
}

/// The tags and comments of a plan's file, up to its end or to a place where neither a tag nor a comment nor white space
/// stands. A tag of no element is passed over, and a comment that is blank. Takes time linear in the file, and fails only for
/// lack of memory.
pub fn read_notes(alloc: Global, file: &[u8]) -> Result<Notes, AllocError>
    // The comments and the places, in the file's order, and what its root says.
    ensures notes { IfOk result (λ notes. HasNotes file.now notes) }
    // Elements begin and end where the marks say, and nowhere else.
    ensures tags { IfOk result (λ notes. HasEdges file.now (map edge_of notes.marks.items)) }
    ensures places { IfOk result (λ notes. All (λ mark. mark.at < length file.now) notes.marks.items) }
    ensures in_order { IfOk result (λ notes. IsNonDecreasingBy (λ mark. mark.at) notes.marks.items) }
    ensures comments { IfOk result (λ notes.
        HaveComments notes.marks.items (vec_len notes.comments)) }
{
    let tokens = read_tokens(alloc, file)?;
    notes_of(alloc, &tokens)
}

/// The same of a file whose tokens are read.
pub fn notes_of(alloc: Global, tokens: &Tokens<'_>) -> Result<Notes, AllocError>
    ensures { IfOk result (λ notes. IsNoted (tokens_of tokens.now) notes) }
{
    let mut scan = Scan::new(alloc);
    for token in &tokens.items {
        scan.take(token)?;
    }
    Ok(scan.notes)
}

impl Scan {
    /// Nothing yet.
    fn new(alloc: Global) -> Scan
        ensures { Holds result [] [] }
    {
        Scan {
            alloc,
            notes: Notes {
                marks: Vec::new(alloc),
                comments: Vec::new(alloc),
                name: None,
                version: None,
            },
            first: 0,
        }
    }

    /// Keeps a token.
    fn take(&mut self, token: &Token<'_>) -> Result<(), AllocError>
        ensures { OnOk result (Keeps self.old self.new
            (items_by (token_meant token.now)) (λ before. root_by before (token_meant token.now))) }
    {
        match token {
            Token::Comment { inside, .. } => self.keep_comment(inside),
            Token::Tag { at, tag } => self.keep_tag(*at, tag),
        }
    }

    /// Keeps a comment in one line, unless it is blank.
    fn keep_comment(&mut self, inside: &[u8]) -> Result<(), AllocError>
        ensures told { OnOk result (AddsComment self.old.notes.comments.items
            self.new.notes.comments.items inside.now) }
        ensures marks { OnOk result (self.new.notes.marks.items ≡ self.old.notes.marks.items) }
        ensures first { OnOk result (self.new.first ≡ self.old.first) }
        ensures root { OnOk result (SameRoot self.old.notes self.new.notes) }
    {
        let line = one_line(self.alloc, inside)?;
        if !line.is_empty() {
            self.notes.comments.push(line)?;
        }
        Ok(())
    }

    /// Keeps the tag that begins at a place.
    fn keep_tag(&mut self, at: usize, tag: &Tag<'_>) -> Result<(), AllocError>
        ensures { OnOk result (Keeps self.old self.new
            (map place (edges_by at (marks_of (tag_of tag.now))))
            (λ before. fold root_at before (marks_of (tag_of tag.now)))) }
    {
        let Some(element) = Element::named(tag.name) else {
            return Ok(());
        };
        match tag.form {
            Form::Start => self.begin(at, element, tag),
            Form::Empty => {
                self.begin(at, element, tag)?;
                self.mark(at, element, true)
            }
            Form::End => self.mark(at, element, true),
        }
    }

    /// Keeps where an element begins, and what its tag says of the plan, where it is the root's.
    fn begin(&mut self, at: usize, element: Element, tag: &Tag<'_>) -> Result<(), AllocError>
        ensures { OnOk result (Keeps self.old self.new
            (place (edge element false at) ∷ [])
            (λ before. root_at before (begins element (attributes_of tag.now.attributes.items)))) }
    {
        self.keep_root(element, tag)?;
        self.mark(at, element, false)
    }

    /// Keeps what the start tag of an element says of the plan, where it is the root's.
    fn keep_root(&mut self, element: Element, tag: &Tag<'_>) -> Result<(), AllocError>
        ensures root { OnOk result (KeepsRoot self.old.notes self.new.notes
            element (attributes_of tag.now.attributes.items)) }
        ensures marks { OnOk result (self.new.notes.marks ≡ self.old.notes.marks) }
        ensures comments { OnOk result (self.new.notes.comments ≡ self.old.notes.comments) }
        ensures first { OnOk result (self.new.first ≡ self.old.first) }
    {
        if element != Element::Pap {
            return Ok(());
        }
        self.notes.name = line_of(self.alloc, tag, b"name")?;
        self.notes.version = line_of(self.alloc, tag, b"version")?;
        Ok(())
    }

    /// Appends a tag, with the comments since the one before.
    fn mark(&mut self, at: usize, element: Element, is_end: bool) -> Result<(), AllocError>
        ensures { OnOk result (Keeps self.old self.new
            (place (edge element is_end at) ∷ []) (λ before. before)) }
    {
        let first = self.first;
        let last = self.notes.comments.len();
        self.first = last;
        self.notes.marks.push(Mark {
            element,
            is_end,
            at,
            first,
            last,
        })?;
        Ok(())
    }
}

/// The value of an attribute of a tag, in one line. `None` where the tag has no such attribute.
fn line_of(alloc: Global, tag: &Tag<'_>, name: &[u8]) -> Result<Option<String>, AllocError>
    ensures { IfOk result (λ line. option_map (λ text. string_bytes text) line
        ≡ option_map line_text
        (attribute_value name.now (attributes_of tag.now.attributes.items))) }
{
    match value_of(&tag.attributes, name) {
        Some(value) => Ok(Some(one_line(alloc, value)?)),
        None => Ok(None),
    }
}
