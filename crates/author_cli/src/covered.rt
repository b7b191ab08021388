//! To which statements and exits of a plan the runs of a table come.
ghost use Rattle.std.specs.Prelude.{◌≡◌, Some, None, IfOk, IsErrOf, OnOk, string_bytes};
ghost use Rattle.std.specs.Option.{ForSome};
ghost use Rattle.outside.specs.Causes.{Caused};
ghost use Rattle.plain_words.specs.Places.{named_text};
ghost use Rattle.table_coverage.specs.TableCoverages.{IsCoverRefused};
ghost use Rattle.script_steps.specs.LineTexts.{table_detail};
ghost use Rattle.author_cli.specs.Ends.{words_of};
ghost use Rattle.author_cli.specs.CallClauses.{IsMissingOfThree};
ghost use Rattle.author_cli.specs.private.CoveredViews.{AreThreeFronts, IsSomeMeaning};
ghost use Rattle.author_cli.specs.private.WordViews.{medium_of};
ghost use Rattle.flowchart_page.specs.Pages.{IsRunPage};
ghost use Rattle.author_cli.specs.Covered.{IsCoverAnswer, IsUncovered, cover_files, IsUnreadTable, IsLongTable, WritesFound, shown_coverage};
ghost use Rattle.author_cli.specs.Covered.{share_words, low_share_words};

use crate::answer::Answer;
use crate::traced::answer_refused;
use crate::words::Medium;
use flowchart_page::{Marking, RunShown, Subject, draw_judged, judge};
use outside::{FileAnswer, Files};
use payroll_records::{LONGEST_TABLE, MOST_RECORDS, TableFault};
use plain_words::{TextFile, table_words};
use plan_answers::{read_both, refusal};
use std::alloc::{AllocError, Global};
use table_coverage::{CoverRefusal, TableCoverage, cover_table};

/// What is read of three files.
#[derive(Drop)]
pub(crate) struct CoverBytes {
    pub plan: Vec<u8>,
    pub limits: Vec<u8>,
    pub table: Vec<u8>,
}

/// The bytes of a plan's file, of a range file and of a table, each by one call for one byte more than its limit.
pub(crate) fn read_three<F: Files>(
    alloc: Global,
    plan: &str,
    limits: &str,
    table: &str,
    files: &mut F,
) -> Result<CoverBytes, FileAnswer>
    ensures read { IfOk result (λ read. ForSome (F.told files.old)
        (λ map. AreThreeFronts map plan.now limits.now table.now read)) }
    ensures same { F.told files.new ≡ F.told files.old }
    ensures cause { Caused FileAnswer.Failed (F.faults files.old) (F.faults files.new) result }
    ensures failed { IsErrOf result FileAnswer.Failed →
        IsMissingOfThree (F.told files.old) plan.now limits.now table.now (F.failed files.new) }
    ensures kept { OnOk result (F.failed files.new ≡ F.failed files.old) }
    ensures kept_memory { IsErrOf result FileAnswer.Memory
        → F.failed files.new ≡ F.failed files.old }
{
    let (plan, limits) = read_both(alloc, plan, limits, files)?;
    let table = files.read_front(alloc, table, LONGEST_TABLE + 1)?;
    Ok(CoverBytes {
        plan,
        limits,
        table,
    })
}

/// What is told of the runs of a table through a plan, or why nothing is.
pub(crate) fn cover_plan(
    alloc: Global,
    medium: Medium,
    plan: TextFile<'_>,
    limits: TextFile<'_>,
    table: TextFile<'_>,
    least: Option<u8>,
) -> Result<Answer, AllocError>
    ensures { IfOk result (λ answer. IsCoverAnswer (medium_of medium) least (named_text plan.entry)
        (named_text limits.entry) (named_text table.entry).bytes
        answer.text.items (words_of answer.reason)) }
{
    match cover_table(alloc, plan.bytes, limits.bytes, table.bytes) {
        Ok(found) => {
            let text = write_found(alloc, medium, plan, limits, &found)?;
            let share = found.share()?;
            let reason = share_words(alloc, share, least)?;
            Ok(Answer { text, reason })
        }
        Err(why) => answer_uncovered(alloc, plan, limits, table, why),
    }
}

/// What is found of the runs of a table, as a text or as the page of their plan.
fn write_found(
    alloc: Global,
    medium: Medium,
    plan: TextFile<'_>,
    limits: TextFile<'_>,
    found: &TableCoverage,
) -> Result<Vec<u8>, AllocError>
    requires { IsSomeMeaning plan.bytes.now limits.bytes.now }
    ensures { IfOk result (λ text. WritesFound (medium_of medium) plan.entry.bytes.now
        limits.entry.bytes.now found.now text.items) }
{
    match medium {
        Medium::Text => found.text(alloc),
        Medium::Page => draw_found(alloc, plan, limits, found),
    }
}

/// The page of an accepted plan with what is found of the runs of a table.
fn draw_found(
    alloc: Global,
    plan: TextFile<'_>,
    limits: TextFile<'_>,
    found: &TableCoverage,
) -> Result<Vec<u8>, AllocError>
    requires { IsSomeMeaning plan.bytes.now limits.bytes.now }
    ensures { IfOk result (λ page. IsRunPage (Some (shown_coverage found.now))
        plan.entry.bytes.now (Some limits.entry.bytes.now) None page.items) }
{
    let verdict = judge(alloc, plan, Some(limits))?;
    let part = found.part(alloc)?;
    let marks = found.marks(alloc)?;
    let shown = RunShown {
        subject: Subject::Coverage,
        part: &part,
        marks: &marks,
        marking: Marking::Counts,
        internals: &[],
    };
    let page = draw_judged(alloc, plan, Some(limits), &verdict, Some(shown))?;
    Ok(page)
}

/// Why nothing is told of the runs of a table.
fn answer_uncovered(
    alloc: Global,
    plan: TextFile<'_>,
    limits: TextFile<'_>,
    table: TextFile<'_>,
    why: CoverRefusal,
) -> Result<Answer, AllocError>
    requires { IsCoverRefused
        (cover_files (named_text plan) (named_text limits) table.bytes.now) why }
    ensures { IfOk result (λ answer. IsUncovered (named_text plan.entry)
        (named_text limits.entry) (named_text table.entry).bytes
        answer.text.items (words_of answer.reason)) }
{
    match why {
        CoverRefusal::Plan(fault) => answer_refused(alloc, plan, limits, &fault),
        CoverRefusal::Table(fault) => answer_unread_table(alloc, table, &fault),
        CoverRefusal::Records => answer_long_table(alloc),
        CoverRefusal::Memory(error) => Err(error),
    }
}

/// What is said of a share below the one that is asked for. Nothing where it isn't below, or none is asked for.
fn share_words(alloc: Global, share: u8, least: Option<u8>) -> Result<Option<String>, AllocError>
    ensures { IfOk result (λ words. words_of words ≡ share_words share least) }
{
    match least {
        Some(least) => low_share_words(alloc, share, least),
        None => Ok(None),
    }
}

/// What is said of a share below this one. Nothing where it isn't below.
fn low_share_words(alloc: Global, share: u8, least: u8) -> Result<Option<String>, AllocError>
    ensures { IfOk result (λ words. words_of words ≡ low_share_words share least) }
{
    if share >= least {
        return Ok(None);
    }
    Ok(Some(format!(in alloc; "covered {share} percent, less than the {least} percent asked for")?))
}

/// The line of a table that isn't read, as `load` writes it, and what is wrong with it.
fn answer_unread_table(
    alloc: Global,
    table: TextFile<'_>,
    fault: &TableFault,
) -> Result<Answer, AllocError>
    ensures { IfOk result (λ answer. IsUnreadTable fault.now answer.text.items
        (words_of answer.reason)) }
{
    let detail = table_detail(alloc, fault)?;
    let reply = refusal(alloc, detail.as_bytes())?;
    let reason = table_words(alloc, table, fault)?;
    Ok(Answer {
        text: reply.text,
        reason: Some(reason),
    })
}

/// The group, the name and the details of a table's refusal.
fn table_detail(alloc: Global, fault: &TableFault) -> Result<String, AllocError>
    ensures { IfOk result (λ detail. string_bytes detail ≡ table_detail fault.now) }
{
    match fault {
        TableFault::Header => format!(in alloc; "table Header"),
        TableFault::Width { row } => format!(in alloc; "table Width {row}"),
        TableFault::Employee { row } => format!(in alloc; "table Employee {row}"),
        TableFault::Month { row } => format!(in alloc; "table Month {row}"),
        TableFault::Day { row } => format!(in alloc; "table Day {row}"),
        TableFault::Value { row, name } => format!(in alloc; "table Value {row} {name}"),
        TableFault::Repeat { row } => format!(in alloc; "table Repeat {row}"),
        TableFault::TableLong => format!(in alloc; "table TableLong"),
        TableFault::Memory(_) => Err(AllocError),
    }
}

/// The line of a table with too many runs, as `load` writes it, and what helps.
fn answer_long_table(alloc: Global) -> Result<Answer, AllocError>
    ensures { IfOk result (λ answer. IsLongTable answer.text.items (words_of answer.reason)) }
{
    let reply = refusal(alloc, b"edit Records")?;
    let reason = format!(in alloc;
        "there are more than {MOST_RECORDS} runs; split them by employee into several tables"
    )?;
    Ok(Answer {
        text: reply.text,
        reason: Some(reason),
    })
}
