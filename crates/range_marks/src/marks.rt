//! The marks of a flowchart's statements.
ghost use Rattle.std.specs.Prelude.{◌≡◌, ◌++◌, IfOk, Some, map, option_copied, option_map};
ghost use Rattle.interval_num.specs.Causes.{cause_text};
ghost use Rattle.pap_tree.specs.Flowchart.{flowchart_of};
ghost use Rattle.range_marks.specs.RangeTexts.{ends_text};
ghost use Rattle.range_marks.specs.RangeMarks.{walk_findings, failing_of, dead_mark, failing_mark, failing_lines, unreached_mark, walked_mark, marked_beside, is_same_place, unfound_exit, open_mark, put_lines, exit_of, reached_mark, range_mark};
ghost use Rattle.range_marks.specs.RangeMarks.{statement_marks, method_name_at, method_marks, range_marks};

use crate::findings::{FailingNode, Findings};
use crate::place::place_of;
use crate::text::ends_text;
use flowchart_methods::{ExitKind, Mark, MarkKind, MethodMarks};
use interval_analysis::ValueRange;
use interval_num::RangeCause;
use pap_tree::{Name, PlanText};
use statement_list::{Form, ListedMethod, ListedStatement, list_statements};
use std::alloc::{AllocError, Global};

/// What a walk found at the statements of its flowchart, for the drawings: MAIN first, and then the other methods in the order of the
/// text. Takes time linear in the flowchart, with a factor logarithmic in its statements at each of them. Fails only for lack of
/// memory.
pub fn range_marks(
    alloc: Global,
    plan: &PlanText,
    findings: &Findings<'_>,
) -> Result<Vec<MethodMarks>, AllocError>
    ensures { IfOk result (λ marks. marks.items
        ≡ range_marks (flowchart_of plan.now) (walk_findings findings.now)) }
{
    let methods = list_statements(alloc, plan)?;
    mark_methods(alloc, plan, findings, &methods)
}

/// The marks of methods.
fn mark_methods(
    alloc: Global,
    plan: &PlanText,
    findings: &Findings<'_>,
    methods: &[ListedMethod],
) -> Result<Vec<MethodMarks>, AllocError>
    ensures { IfOk result (λ marks. marks.items
        ≡ method_marks (walk_findings findings.now) (flowchart_of plan.now) 0 methods.now) }
{
    let mut marks = Vec::with_capacity(alloc, methods.len())?;
    for (number, method) in methods.iter().enumerate() {
        let name = method_name_at(plan, number);
        let of_method = mark_method(alloc, findings, &name, method)?;
        marks.push(of_method)?;
    }
    Ok(marks)
}

/// The name of the method of a number: MAIN is method 0, the others are counted from 1.
#[tactic(auto, using(crate::proofs::MarkLemmas::item_of))]
pub(crate) fn method_name_at(plan: &PlanText, number: usize) -> Name
    ensures { result ≡ method_name_at (flowchart_of plan.now) number }
{
    if number == 0 {
        return Name::main();
    }
    match plan.methods.get(number - 1) {
        Some(method) => method.name,
        None => Name::main(),
    }
}

/// The marks of a method of this name.
fn mark_method(
    alloc: Global,
    findings: &Findings<'_>,
    name: &Name,
    method: &ListedMethod,
) -> Result<MethodMarks, AllocError>
    ensures { IfOk result (λ marks. marks
        ≡ statement_marks (walk_findings findings.now) name.now 0 method.now) }
{
    let marks = mark_statements(alloc, findings, name, method.statements())?;
    Ok(MethodMarks::new(marks))
}

/// The marks of a method's statements.
fn mark_statements(
    alloc: Global,
    findings: &Findings<'_>,
    name: &Name,
    statements: &[ListedStatement],
) -> Result<Vec<Mark>, AllocError>
    ensures { IfOk result (λ marks. marks.items
        ≡ statement_marks (walk_findings findings.now) name.now 0 statements.now) }
{
    let mut marks = Vec::with_capacity(alloc, statements.len())?;
    for (at, statement) in statements.iter().enumerate() {
        let mark = mark_at(alloc, findings, name, at, statement.form())?;
        marks.push(mark)?;
    }
    Ok(marks)
}

/// The mark of the statement of a number.
fn mark_at(
    alloc: Global,
    findings: &Findings<'_>,
    name: &Name,
    at: usize,
    form: Form,
) -> Result<Mark, AllocError>
    ensures { IfOk result (λ mark. mark
        ≡ range_mark (walk_findings findings.now) (name.now, at) form) }
{
    let place = place_of(name, at)?;
    mark_statement(alloc, findings, &place, form)
}

/// The mark of the statement at a place.
fn mark_statement(
    alloc: Global,
    findings: &Findings<'_>,
    place: &(Name, u32),
    form: Form,
) -> Result<Mark, AllocError>
    ensures { IfOk result (λ mark. mark ≡ range_mark (walk_findings findings.now) place.now form) }
{
    match &findings.failing {
        Some(node) => mark_beside(alloc, findings, node, place, form),
        None => walked_mark(alloc, findings, place, form),
    }
}

/// The mark of the statement at a place, beside a failing node.
fn mark_beside(
    alloc: Global,
    findings: &Findings<'_>,
    node: &FailingNode<'_>,
    place: &(Name, u32),
    form: Form,
) -> Result<Mark, AllocError>
    ensures { IfOk result (λ mark. mark ≡ marked_beside (Some (failing_of node.now)) place.now
        (walked_mark (walk_findings findings.now) place.now form)) }
{
    if is_same_place(&node.place, place) {
        failing_mark(alloc, node)
    } else {
        walked_mark(alloc, findings, place, form)
    }
}

/// Whether two places are of one statement.
fn is_same_place(place: &(Name, u32), other: &(Name, u32)) -> bool
    ensures { result ≡ is_same_place place.now other.now }
{
    place.0 == other.0 && place.1 == other.1
}

/// The mark of the statement at a place, by whether the walk came there.
fn walked_mark(
    alloc: Global,
    findings: &Findings<'_>,
    place: &(Name, u32),
    form: Form,
) -> Result<Mark, AllocError>
    ensures { IfOk result (λ mark. mark ≡ walked_mark (walk_findings findings.now) place.now form) }
{
    if findings.reached.contains(place) {
        reached_mark(alloc, findings, place, form)
    } else {
        unreached_mark(alloc, &findings.failing)
    }
}

/// The mark of a statement to which the walk didn't come.
fn unreached_mark(alloc: Global, failing: &Option<FailingNode<'_>>) -> Result<Mark, AllocError>
    ensures { IfOk result (λ mark. mark ≡ unreached_mark (option_map failing_of failing.now)) }
{
    match failing {
        Some(_) => Ok(Mark::none(alloc)),
        None => dead_mark(alloc),
    }
}

/// The mark of the statement of a failing node.
fn failing_mark(alloc: Global, node: &FailingNode<'_>) -> Result<Mark, AllocError>
    ensures { IfOk result (λ mark. mark ≡ failing_mark (failing_of node.now)) }
{
    let lines = failing_lines(alloc, node)?;
    Ok(Mark::new(
        MarkKind::Failing,
        lines,
        ExitKind::Unwalked,
        ExitKind::Unwalked,
    ))
}

/// What is told of that statement: why its node may fail, and the ranges of the node's operands.
fn failing_lines(alloc: Global, node: &FailingNode<'_>) -> Result<Vec<Vec<u8>>, AllocError>
    ensures { IfOk result (λ lines. map (λ l. l.items) lines.items
        ≡ failing_lines (failing_of node.now)) }
{
    let cause = cause_line(alloc, node.cause)?;
    match node.operands {
        [] => Ok(vec![in alloc; cause]?),
        [only] => {
            let line = operand_line(alloc, b"operand ", only)?;
            Ok(vec![in alloc; cause, line]?)
        }
        [first, second, ..] => {
            let first = operand_line(alloc, b"first operand ", first)?;
            let second = operand_line(alloc, b"second operand ", second)?;
            Ok(vec![in alloc; cause, first, second]?)
        }
    }
}

/// Why a node may fail.
fn cause_line(alloc: Global, cause: RangeCause) -> Result<Vec<u8>, AllocError>
    ensures { IfOk result (λ line. line.items ≡ cause_text cause) }
{
    let text = format!(in alloc; "{cause}")?;
    Ok(text.into_bytes())
}

/// The range of an operand, behind words that say which it is.
fn operand_line(alloc: Global, which: &[u8], range: &ValueRange) -> Result<Vec<u8>, AllocError>
    ensures { IfOk result (λ line. line.items ≡ which.now ++ ends_text range.now) }
{
    let mut line = Vec::new(alloc);
    line.extend_from_slice(which)?;
    line.extend_from_slice(&ends_text(alloc, range)?)?;
    Ok(line)
}

/// The mark of a statement that no run within the ranges executes.
fn dead_mark(alloc: Global) -> Result<Mark, AllocError>
    ensures { IfOk result (λ mark. mark ≡ dead_mark) }
{
    let mut line = Vec::new(alloc);
    line.extend_from_slice(b"never executed within the ranges")?;
    let mut lines = Vec::new(alloc);
    lines.push(line)?;
    Ok(Mark::new(MarkKind::Dead, lines, ExitKind::Open, ExitKind::Open))
}

/// The mark of a statement to which runs may come, with these lines and these exits.
fn open_mark(lines: Vec<Vec<u8>>, yes: ExitKind, no: ExitKind) -> Mark
    ensures { result ≡ open_mark (map (λ l. l.items) lines.items) yes no }
{
    Mark::new(MarkKind::Told, lines, yes, no)
}

/// The mark of a statement to which runs may come: of an EVAL the range of what it puts, of a test its exits.
fn reached_mark(
    alloc: Global,
    findings: &Findings<'_>,
    place: &(Name, u32),
    form: Form,
) -> Result<Mark, AllocError>
    ensures { IfOk result (λ mark. mark ≡ reached_mark (walk_findings findings.now) place.now form) }
{
    match form {
        Form::Set(_) => {
            let lines = put_lines(alloc, findings.values.get(place))?;
            Ok(open_mark(lines, ExitKind::Open, ExitKind::Open))
        }
        Form::Test => {
            let yes = exit_of(findings, place, true);
            let no = exit_of(findings, place, false);
            Ok(open_mark(Vec::new(alloc), yes, no))
        }
        Form::Enter(_) => Ok(open_mark(Vec::new(alloc), ExitKind::Open, ExitKind::Open)),
    }
}

/// The line below an EVAL that puts values in this range.
fn put_lines(alloc: Global, range: Option<&ValueRange>) -> Result<Vec<Vec<u8>>, AllocError>
    ensures { IfOk result (λ lines. map (λ l. l.items) lines.items
        ≡ put_lines (option_copied range.entry)) }
{
    let mut lines = Vec::new(alloc);
    if let Some(range) = range {
        lines.push(ends_text(alloc, range)?)?;
    }
    Ok(lines)
}

/// An exit of a test.
fn exit_of(findings: &Findings<'_>, place: &(Name, u32), holds: bool) -> ExitKind
    ensures { result ≡ exit_of (walk_findings findings.now) place.now holds }
{
    let (name, number) = *place;
    if findings.exits.contains(&(name, number, holds)) {
        ExitKind::Open
    } else {
        unfound_exit(&findings.failing)
    }
}

/// An exit that wasn't open: no run within the ranges takes it, unless the walk stopped before it came there.
fn unfound_exit(failing: &Option<FailingNode<'_>>) -> ExitKind
    ensures { result ≡ unfound_exit (option_map failing_of failing.now) }
{
    match failing {
        Some(_) => ExitKind::Unwalked,
        None => ExitKind::Dead,
    }
}
