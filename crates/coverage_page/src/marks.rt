//! How many runs came to each statement of a flowchart, as its drawings show it.
ghost use Rattle.std.specs.Prelude.{◌≡◌, ◌∷◌, [], ◌++◌, IfOk, OnOk};
ghost use Rattle.std.specs.List.{flat_map};
ghost use Rattle.coverage_page.specs.CoverageMarks.{coverage_kind, coverage_line, counted_exit, yes_exit, no_exit, coverage_mark, item_mark, covered_marks, coverage_marks};

use coverage_text::{ExitRuns, Item, MethodItems};
use flowchart_methods::{ExitKind, Mark, MarkKind, MethodMarks, runs_text};
use std::alloc::{AllocError, Global};

/// How many runs came to each statement, for the drawings: the methods in their order, of each the statements by their numbers. Takes
/// time linear in the items. Fails only for lack of memory.
pub fn coverage_marks(
    alloc: Global,
    methods: &[MethodItems],
) -> Result<Vec<MethodMarks>, AllocError>
    ensures { IfOk result (λ marks. marks.items ≡ coverage_marks methods.now) }
{
    let mut marks = Vec::with_capacity(alloc, methods.len())?;
    for method in methods {
        marks.push(covered_marks(alloc, method)?)?;
    }
    Ok(marks)
}

/// The marks of a method's statements.
fn covered_marks(alloc: Global, method: &MethodItems) -> Result<MethodMarks, AllocError>
    ensures { IfOk result (λ marks. marks ≡ covered_marks method.now) }
{
    let marks = marks_of(alloc, method.items())?;
    Ok(MethodMarks::new(marks))
}

/// The marks of the statements among some items.
fn marks_of(alloc: Global, items: &[Item]) -> Result<Vec<Mark>, AllocError>
    ensures { IfOk result (λ marks. marks.items ≡ flat_map item_mark items.now) }
{
    let mut marks = Vec::new(alloc);
    for item in items {
        add_mark(alloc, &mut marks, item)?;
    }
    Ok(marks)
}

/// Appends the mark of an item, where it is a statement.
fn add_mark(alloc: Global, marks: &mut Vec<Mark>, item: &Item) -> Result<(), AllocError>
    ensures { OnOk result (marks.new.items ≡ marks.old.items ++ item_mark item.now) }
{
    if item.is_exit_item() {
        return Ok(());
    }
    marks.push(coverage_mark(alloc, item)?)?;
    Ok(())
}

/// The mark of a statement.
fn coverage_mark(alloc: Global, item: &Item) -> Result<Mark, AllocError>
    ensures { IfOk result (λ mark. mark ≡ coverage_mark item.now) }
{
    let line = coverage_line(alloc, item)?;
    let exits = item.exits();
    marked(
        alloc,
        coverage_kind(item),
        line,
        yes_exit(exits),
        no_exit(exits),
    )
}

/// A mark with one line.
fn marked(
    alloc: Global,
    kind: MarkKind,
    line: Vec<u8>,
    yes: ExitKind,
    no: ExitKind,
) -> Result<Mark, AllocError>
    ensures { IfOk result (λ mark. mark
        ≡ record { kind = kind; lines = line.items ∷ []; yes = yes; no = no }) }
{
    let mut lines = Vec::new(alloc);
    lines.push(line)?;
    Ok(Mark::new(kind, lines, yes, no))
}

/// The kind of a statement's mark.
fn coverage_kind(item: &Item) -> MarkKind
    ensures { result ≡ coverage_kind item.now }
{
    if item.is_unreachable() {
        MarkKind::Dead
    } else if item.is_never_reached() {
        MarkKind::Missed
    } else {
        MarkKind::Came
    }
}

/// The line of a statement: that no run may come there, that none came, or how many came.
fn coverage_line(alloc: Global, item: &Item) -> Result<Vec<u8>, AllocError>
    ensures { IfOk result (λ line. line.items ≡ coverage_line item.now) }
{
    if item.is_unreachable() {
        return line_of(alloc, b"unreachable");
    }
    if item.is_never_reached() {
        return line_of(alloc, b"never");
    }
    let text = runs_text(alloc, item.runs())?;
    Ok(text.into_bytes())
}

/// A line of these bytes.
fn line_of(alloc: Global, bytes: &[u8]) -> Result<Vec<u8>, AllocError>
    ensures { IfOk result (λ line. line.items ≡ bytes.now) }
{
    let mut line = Vec::new(alloc);
    line.extend_from_slice(bytes)?;
    Ok(line)
}

/// The exit of a statement where its test holds.
fn yes_exit(exits: Option<ExitRuns>) -> ExitKind
    ensures { result ≡ yes_exit exits }
{
    match exits {
        Some(taken) => counted_exit(taken.yes),
        None => ExitKind::Open,
    }
}

/// The exit where it doesn't hold.
fn no_exit(exits: Option<ExitRuns>) -> ExitKind
    ensures { result ≡ no_exit exits }
{
    match exits {
        Some(taken) => counted_exit(taken.no),
        None => ExitKind::Open,
    }
}

/// An exit that so many runs took.
fn counted_exit(count: u64) -> ExitKind
    ensures { result ≡ counted_exit count }
{
    if count == 0 {
        ExitKind::Missed
    } else {
        ExitKind::Counted(count)
    }
}
