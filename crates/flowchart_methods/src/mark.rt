//! What is known of the statements of a flowchart, as its drawings show it.
ghost use Rattle.std.specs.Prelude.{◌≡◌, ◌++◌, Some, IfOk, OnOk, map, option_map, string_bytes};
ghost use Rattle.flowchart_methods.specs.Marks.{unmarked, marks_at, way_words, counted_way, runs_text, exit_words, spoken_line, spoken_lines, told_words, mark_words, has_some};

use crate::kind::{ExitKind, MarkKind};
use chart_layout::Passage;
use std::alloc::{AllocError, Global};
use std::marker::Model;

/// What is known of a statement.
#[derive(Drop)]
pub struct Mark {
    kind: MarkKind,
    lines: Vec<Vec<u8>>,
    yes: ExitKind,
    no: ExitKind,
}

impl Model for Mark {
    ghost use Rattle.std.specs.Prelude.{map};
    ghost use Rattle.flowchart_methods.specs.Marks.{Marked};

    ghost Value = { Marked };

    ghost view = { λ m. record { kind = m.kind; lines = map (λ l. l.items) m.lines.items; yes = m.yes; no = m.no } };
}

/// What is known of the statements of a method, by their numbers.
#[derive(Drop)]
pub struct MethodMarks {
    marks: Vec<Mark>,
}

impl Model for MethodMarks {
    ghost use Rattle.std.specs.Prelude.{List};
    ghost use Rattle.flowchart_methods.specs.Marks.{Marked};

    ghost Value = { List Marked };

    ghost view = { λ m. m.marks.items };
}

impl Mark {
    /// The mark of a statement: what kind of thing is known of it, what is told of it line by line, and what is known of the exits
    /// behind it, where it is a test.
    pub fn new(kind: MarkKind, lines: Vec<Vec<u8>>, yes: ExitKind, no: ExitKind) -> Mark
        ensures { result ≡ record {
          kind = kind;
          lines = map (λ l. l.items) lines.items;
          yes = yes;
          no = no;
        } }
    {
        Mark {
            kind,
            lines,
            yes,
            no,
        }
    }

    /// The mark of a statement of which nothing is known.
    pub fn none(alloc: Global) -> Mark
        ensures { result ≡ unmarked }
    {
        Mark {
            kind: MarkKind::Nothing,
            lines: Vec::new(alloc),
            yes: ExitKind::Open,
            no: ExitKind::Open,
        }
    }

    /// What kind of thing is known of the statement.
    pub(crate) fn kind(&self) -> MarkKind
        ensures { result ≡ self.now.kind }
    {
        self.kind
    }

    /// What is told of the statement.
    pub(crate) fn lines(&self) -> &[Vec<u8>] {
        &self.lines
    }

    /// What is known of the exit behind a test that is taken where the test holds, or of the other one.
    pub(crate) fn exit(&self, holds: bool) -> ExitKind {
        if holds { self.yes } else { self.no }
    }

    /// What is known of the way on which both exits behind a test go.
    pub(crate) fn either_exit(&self) -> ExitKind {
        match self.kind {
            MarkKind::Run(_) => ExitKind::Taken,
            MarkKind::Nothing
            | MarkKind::Told
            | MarkKind::Came
            | MarkKind::Missed
            | MarkKind::Dead => ExitKind::Open,
            MarkKind::Failing => ExitKind::Unwalked,
        }
    }

    /// Whether runs come to the statement.
    pub(crate) fn is_visited(&self) -> bool {
        match self.kind {
            MarkKind::Run(_) | MarkKind::Told | MarkKind::Came | MarkKind::Failing => true,
            MarkKind::Nothing | MarkKind::Missed | MarkKind::Dead => false,
        }
    }

    /// Whether runs go on behind the statement.
    fn is_passed(&self) -> bool {
        match self.kind {
            MarkKind::Failing => false,
            MarkKind::Nothing
            | MarkKind::Run(_)
            | MarkKind::Told
            | MarkKind::Came
            | MarkKind::Missed
            | MarkKind::Dead => self.is_visited(),
        }
    }

    /// What the drawing of its method needs of it.
    pub(crate) fn passage(&self) -> Passage {
        let mut chars = 0;
        for line in &self.lines {
            chars = line.len().max(chars);
        }
        Passage {
            is_run: self.is_visited(),
            goes_on: self.is_passed(),
            yes: is_way(self.kind, self.yes),
            no: is_way(self.kind, self.no),
            lines: self.lines.len(),
            chars,
        }
    }

    /// What is known of the statement, as it is read aloud behind its text. `None` where there is nothing to read.
    pub(crate) fn words(&self, alloc: Global) -> Result<Option<Vec<u8>>, AllocError>
        ensures { IfOk result (λ words. option_map (λ w. w.items) words ≡ mark_words self.now) }
    {
        let told = self.told_words(alloc)?;
        match self.kind.words(has_some(&told)) {
            Some(lead) => Ok(Some(led_words(alloc, lead, &told)?)),
            None => Ok(None),
        }
    }

    /// What is told of the statement and of the exits behind it, as it is read aloud.
    fn told_words(&self, alloc: Global) -> Result<Vec<u8>, AllocError>
        ensures { IfOk result (λ words. words.items ≡ told_words self.now) }
    {
        let mut words = Vec::new(alloc);
        push_lines(&mut words, &self.lines)?;
        push_exits(alloc, &mut words, self.yes, self.no)?;
        Ok(words)
    }
}

/// Whether there are some bytes.
fn has_some(bytes: &[u8]) -> bool
    ensures { result ≡ has_some bytes.now }
{
    match bytes {
        [] => false,
        _ => true,
    }
}

/// Words behind others.
fn led_words(alloc: Global, lead: &str, told: &[u8]) -> Result<Vec<u8>, AllocError>
    ensures { IfOk result (λ words. words.items ≡ lead.now ++ told.now) }
{
    let mut words = Vec::new(alloc);
    words.extend_from_slice(lead.as_bytes())?;
    words.extend_from_slice(told)?;
    Ok(words)
}

/// Whether runs take an exit of a test of which this kind of thing is known.
fn is_way(kind: MarkKind, exit: ExitKind) -> bool {
    match exit {
        ExitKind::Taken | ExitKind::Counted(_) => true,
        ExitKind::Open => matches!(kind, MarkKind::Told | MarkKind::Came),
        ExitKind::Missed | ExitKind::Dead | ExitKind::Unwalked => false,
    }
}

/// Appends lines as they are read aloud.
fn push_lines(words: &mut Vec<u8>, lines: &[Vec<u8>]) -> Result<(), AllocError>
    ensures { OnOk result (words.new.items ≡ words.old.items ++ spoken_lines (map (λ l. l.items) lines.now)) }
{
    for line in lines {
        push_line(words, line)?;
    }
    Ok(())
}

/// Appends a line as it is read aloud.
fn push_line(words: &mut Vec<u8>, line: &[u8]) -> Result<(), AllocError>
    ensures { OnOk result (words.new.items ≡ words.old.items ++ spoken_line line.now) }
{
    words.extend_from_slice(b"; ")?;
    words.extend_from_slice(line)
}

/// Appends what is known of the exits of a test, as it is read aloud.
fn push_exits(
    alloc: Global,
    words: &mut Vec<u8>,
    yes: ExitKind,
    no: ExitKind,
) -> Result<(), AllocError>
    ensures { OnOk result (words.new.items ≡ words.old.items ++ exit_words yes no) }
{
    push_ways(words, b"taken", yes.is_taken(), no.is_taken())?;
    push_count(alloc, words, b"yes", yes.count())?;
    push_count(alloc, words, b"no", no.count())?;
    push_ways(words, b"missed", yes.is_missed(), no.is_missed())?;
    push_ways(words, b"never taken", yes.is_dead(), no.is_dead())?;
    Ok(())
}

/// Appends how many runs took a way behind a test, as it is read aloud.
fn push_count(
    alloc: Global,
    words: &mut Vec<u8>,
    way: &[u8],
    count: Option<u64>,
) -> Result<(), AllocError>
    ensures { OnOk result (words.new.items ≡ words.old.items ++ counted_way way.now count) }
{
    match count {
        Some(count) => push_runs(alloc, words, way, count),
        None => Ok(()),
    }
}

/// Appends that so many runs took a way behind a test, as it is read aloud.
fn push_runs(alloc: Global, words: &mut Vec<u8>, way: &[u8], count: u64) -> Result<(), AllocError>
    ensures { OnOk result (words.new.items ≡ words.old.items ++ counted_way way.now (Some count)) }
{
    let runs = runs_text(alloc, count)?;
    words.extend_from_slice(b"; ")?;
    words.extend_from_slice(way)?;
    words.extend_from_slice(b": ")?;
    words.extend_from_slice(runs.as_bytes())
}

/// A number of runs.
pub fn runs_text(alloc: Global, count: u64) -> Result<String, AllocError>
    ensures { IfOk result (λ text. string_bytes text ≡ runs_text count) }
{
    if count == 1 {
        format!(in alloc; "{count} run")
    } else {
        format!(in alloc; "{count} runs")
    }
}

/// Appends which of the ways behind a test are so, as they are read aloud.
fn push_ways(words: &mut Vec<u8>, what: &[u8], yes: bool, no: bool) -> Result<(), AllocError>
    ensures { OnOk result (words.new.items ≡ words.old.items ++ way_words what.now yes no) }
{
    match (yes, no) {
        (true, true) => push_way(words, b"; ways ", what, b": yes, no"),
        (true, false) => push_way(words, b"; way ", what, b": yes"),
        (false, true) => push_way(words, b"; way ", what, b": no"),
        (false, false) => Ok(()),
    }
}

/// Appends three texts.
fn push_way(words: &mut Vec<u8>, lead: &[u8], what: &[u8], ways: &[u8]) -> Result<(), AllocError>
    ensures { OnOk result (words.new.items ≡ words.old.items ++ (lead.now ++ (what.now ++ ways.now))) }
{
    words.extend_from_slice(lead)?;
    words.extend_from_slice(what)?;
    words.extend_from_slice(ways)
}

impl MethodMarks {
    /// The marks of the statements of a method.
    pub fn new(marks: Vec<Mark>) -> MethodMarks
        ensures { result ≡ marks.items }
    {
        MethodMarks { marks }
    }

    /// The marks by the numbers of the statements.
    pub fn marks(&self) -> &[Mark]
        ensures { result.now ≡ self.now }
    {
        &self.marks
    }
}

/// The marks of the statements of the method of a number: none where nothing is known of it.
pub(crate) fn marks_of(marks: &[MethodMarks], method: usize) -> &[Mark]
    ensures { result.now ≡ marks_at marks.now method }
{
    match marks.get(method) {
        Some(marks) => marks.marks(),
        None => &[],
    }
}
