//! The tags and comments that are found, and a walk along the tags.
ghost use Rattle.std.specs.Prelude.{◌≡◌, ◌+◌, drop, slice_get, find, option_map};
ghost use Rattle.plan_notes.specs.Walks.{notes_of, marks_left, is_start, start_byte, behind_start, behind_starts, comments_at, comments_of, begins_wanted};

use crate::tag::{Mark, Starts};
use pap_reader::Element;

/// The tags and comments of a plan's file, and what its root says of itself.
#[derive(Drop)]
pub struct Notes {
    /// The tags in the order of the file.
    pub marks: Vec<Mark>,
    /// The comments in the order of the file, each in one line: white space and control characters are one space, bytes that
    /// aren't UTF-8 are U+FFFD. A comment that is blank is left out.
    pub comments: Vec<String>,
    /// The root's attribute `name`, in one line.
    pub name: Option<String>,
    /// The root's attribute `version`, in one line.
    pub version: Option<String>,
}

impl Notes {
    /// The comments before a tag. Empty where the tag's numbers are beyond these comments.
    pub fn before(&self, mark: &Mark) -> &[String]
        ensures { result.now ≡ comments_at self.now.comments.items mark.now }
    {
        self.comments.get(mark.first..mark.last).unwrap_or(&[])
    }

    /// A walk from the first tag on.
    pub fn walk(&self) -> Walk<'_>
        ensures left { marks_left result ≡ self.now.marks.items }
        ensures notes { notes_of result ≡ self.now }
    {
        Walk {
            notes: self,
            left: &self.marks,
        }
    }
}

/// A walk along the tags of a file, from the first to the last. Contracts see the tags that are left.
#[derive(Clone, Copy)]
pub struct Walk<'a> {
    notes: &'a Notes,
    left: &'a [Mark],
}

impl<'a> Walk<'a> {
    /// The comments before the next start tag of an element; the walk goes on behind it. Empty where there is no such
    /// tag, and the walk stays.
    pub fn skip_to(&mut self, element: Element) -> &'a [String]
        ensures comments { result.now ≡ comments_of (notes_of self.old)
            (find (is_start (Starts.Of element)) (marks_left self.old)) }
        ensures left { marks_left self.new
            ≡ behind_start (Starts.Of element) (marks_left self.old) }
        ensures notes { notes_of self.new ≡ notes_of self.old }
    {
        match self.next_start(Starts::Of(element)) {
            Some(mark) => self.notes.before(mark),
            None => &[],
        }
    }

    /// The byte at which the start tag of a number begins, among those that are looked for from here on, counted from 0; the
    /// walk goes on behind it. `None` where there are fewer, and the walk stands behind the last of them.
    pub fn find_start(&mut self, starts: Starts, number: usize) -> Option<usize>
        ensures byte { result ≡ start_byte starts number (marks_left self.old) }
        ensures left { marks_left self.new
            ≡ behind_starts starts (number + 1) (marks_left self.old) }
        ensures notes { notes_of self.new ≡ notes_of self.old }
    {
        for _passed in 0..number {
            self.next_start(starts)?;
        }
        let mark = self.next_start(starts)?;
        Some(mark.at)
    }

    /// The next start tag of those that are looked for; the walk goes on behind it. `None` where there is none, and the walk
    /// stays.
    fn next_start(&mut self, starts: Starts) -> Option<&'a Mark>
        ensures mark { option_map (λ mark. mark.now) result
            ≡ find (is_start starts) (marks_left self.old) }
        ensures left { marks_left self.new ≡ behind_start starts (marks_left self.old) }
        ensures notes { notes_of self.new ≡ notes_of self.old }
    {
        let mut left = self.left;
        while let Some((mark, rest)) = left.split_first() {
            left = rest;
            if starts.has(mark) {
                self.left = rest;
                return Some(mark);
            }
        }
        None
    }

    /// Whether the next tag is a start tag of an element.
    pub fn is_at(&self, element: Element) -> bool
        ensures { result ≡ begins_wanted (Starts.Of element) (marks_left self.now) }
    {
        match self.left.split_first() {
            Some((mark, _)) => Starts::Of(element).has(mark),
            None => false,
        }
    }

    /// The comments before the next tag; the walk goes on behind it. Empty at the end.
    pub fn next_tag(&mut self) -> &'a [String]
        ensures comments { result.now ≡ comments_of (notes_of self.old)
            (slice_get (marks_left self.old) 0) }
        ensures left { marks_left self.new ≡ drop 1 (marks_left self.old) }
        ensures notes { notes_of self.new ≡ notes_of self.old }
    {
        let Some((mark, left)) = self.left.split_first() else {
            return &[];
        };
        self.left = left;
        self.notes.before(mark)
    }
}
