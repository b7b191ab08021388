//! The comparison of two plans.
ghost use Rattle.std.specs.Prelude.{◌≡◌, ◌++◌, IfOk, IsErrOf, OnOk, Some, option_map};
ghost use Rattle.std.specs.Option.{ForSome};
ghost use Rattle.outside.specs.Causes.{Caused};
ghost use Rattle.pap_tree.specs.Flowchart.{flowchart_of};
ghost use Rattle.pap_plan.specs.AcceptanceClauses.{IsUnreadPlan};
ghost use Rattle.plan_text.specs.Plans.{IsPlan};
ghost use Rattle.plan_answers.specs.Fronts.{IsMissing};
ghost use Rattle.plain_words.specs.Places.{named_text};
ghost use Rattle.author_cli.specs.Ends.{words_of};
ghost use Rattle.comparison_page.specs.Texts.{comparison_text};
ghost use Rattle.comparison_page.specs.CommentTexts.{comment_changes_text};
ghost use Rattle.author_cli.specs.Compared.{TellsComparison, IsComparedText, IsUnreadable, IsCompared, comparison_in, ranges_text, difference_words};
ghost use Rattle.author_cli.specs.private.WordViews.{medium_of};
ghost use Rattle.author_cli.specs.private.TwoFronts.{AreTwoFronts};

use crate::answer::Answer;
use crate::words::Medium;
use comment_comparison::{CommentComparison, compare_comments};
use comparison_page::{
    FileNames, commented_page, comparison_text, ranges_differ, write_comment_changes,
    write_range_changes,
};
use flowchart_comparison::{Comparison, Outline, compare, differs, read_outline};
use outside::{FileAnswer, Files};
use pap_plan::{PlanRefusal, read_plan};
use pap_reader::LONGEST_PLAN;
use pap_tree::PlanText;
use plain_words::{TextFile, plan_words};
use plan_answers::refused;
use range_comparison::RangeChange;
use std::alloc::{AllocError, Global};

/// The bytes of both files, each by one call for one byte more than its limit.
pub(crate) fn read_two<F: Files>(
    alloc: Global,
    old: &str,
    new: &str,
    files: &mut F,
) -> Result<(Vec<u8>, Vec<u8>), FileAnswer>
    ensures read { IfOk result (λ both. ForSome (F.told files.old)
        (λ map. AreTwoFronts map old.now new.now both.0.items both.1.items)) }
    ensures same { F.told files.new ≡ F.told files.old }
    ensures cause { Caused FileAnswer.Failed (F.faults files.old) (F.faults files.new) result }
    ensures failed { IsErrOf result FileAnswer.Failed →
        IsMissing (F.told files.old) old.now new.now (F.failed files.new) }
    ensures kept { OnOk result (F.failed files.new ≡ F.failed files.old) }
    ensures kept_memory { IsErrOf result FileAnswer.Memory
        → F.failed files.new ≡ F.failed files.old }
{
    let old_bytes = files.read_front(alloc, old, LONGEST_PLAN + 1)?;
    let new_bytes = files.read_front(alloc, new, LONGEST_PLAN + 1)?;
    Ok((old_bytes, new_bytes))
}

/// The comparison of two plans' bytes, or the line of the first that isn't read as a plan.
pub(crate) fn compare_plans(
    alloc: Global,
    medium: Medium,
    old: TextFile<'_>,
    new: TextFile<'_>,
) -> Result<Answer, AllocError>
    ensures { IfOk result (λ answer. IsCompared (medium_of medium) (named_text old.entry)
        (named_text new.entry) answer.text.items (words_of answer.reason)) }
{
    match read_plan(alloc, old.bytes) {
        Ok(plan) => compare_with(alloc, medium, old, &plan, new),
        Err(refusal) => answer_unreadable(alloc, old, &refusal),
    }
}

/// The comparison of a plan that is read with the bytes of another.
fn compare_with(
    alloc: Global,
    medium: Medium,
    old: TextFile<'_>,
    plan: &PlanText,
    new: TextFile<'_>,
) -> Result<Answer, AllocError>
    requires { IsPlan old.bytes.now (flowchart_of plan.now) }
    ensures { IfOk result (λ answer. IsCompared (medium_of medium) (named_text old.entry)
        (named_text new.entry) answer.text.items (words_of answer.reason)) }
{
    match read_plan(alloc, new.bytes) {
        Ok(other) => tell_plans(alloc, medium, old, plan, new, &other),
        Err(refusal) => answer_unreadable(alloc, new, &refusal),
    }
}

/// The comparison of two plans that are read.
fn tell_plans(
    alloc: Global,
    medium: Medium,
    old: TextFile<'_>,
    old_plan: &PlanText,
    new: TextFile<'_>,
    new_plan: &PlanText,
) -> Result<Answer, AllocError>
    requires old_read { IsPlan old.bytes.now (flowchart_of old_plan.now) }
    requires new_read { IsPlan new.bytes.now (flowchart_of new_plan.now) }
    ensures { IfOk result (λ answer. IsComparedText (medium_of medium) (named_text old.entry)
        (named_text new.entry) answer.text.items (words_of answer.reason)) }
{
    tell_comparison(alloc, medium, old, old_plan, new, new_plan, None)
}

/// What is told of two plans beside the comparison of their flowcharts.
#[derive(Clone, Copy)]
struct Beside<'a> {
    /// The changes of their range files, where these are compared.
    ranges: Option<&'a [RangeChange]>,
    /// Their comments.
    comments: &'a CommentComparison,
}

/// The comparison of two plans and of the comments of their files, with the changes of their range files where these are compared.
pub(crate) fn tell_comparison(
    alloc: Global,
    medium: Medium,
    old: TextFile<'_>,
    old_plan: &PlanText,
    new: TextFile<'_>,
    new_plan: &PlanText,
    ranges: Option<&[RangeChange]>,
) -> Result<Answer, AllocError>
    ensures { IfOk result (λ answer. TellsComparison (medium_of medium)
        (named_text old.entry) (named_text new.entry)
        (flowchart_of old_plan.now) (flowchart_of new_plan.now)
        (option_map (λ changes. changes.now) ranges.entry)
        answer.text.items (words_of answer.reason)) }
{
    let names = FileNames {
        old: old.name,
        new: new.name,
    };
    let comments = compare_comments(alloc, old.bytes, new.bytes)?;
    let old = read_outline(alloc, old_plan)?;
    let new = read_outline(alloc, new_plan)?;
    let comparison = compare(alloc, &old, &new)?;
    let beside = Beside {
        ranges,
        comments: &comments,
    };
    let text = write_comparison(alloc, medium, names, &old, &new, &comparison, beside)?;
    let is_other = differs(&old, &new, &comparison);
    let reason = difference_words(alloc, is_other, ranges_differ(ranges))?;
    Ok(Answer { text, reason })
}

/// A comparison as it is written.
fn write_comparison(
    alloc: Global,
    medium: Medium,
    names: FileNames<'_>,
    old: &Outline,
    new: &Outline,
    comparison: &Comparison,
    beside: Beside<'_>,
) -> Result<Vec<u8>, AllocError>
    ensures { IfOk result (λ text. text.items ≡ comparison_in (medium_of medium)
        names.entry.old.now names.entry.new.now old.now new.now comparison.now
        (option_map (λ changes. changes.now) beside.entry.ranges) beside.entry.comments.now) }
{
    let (ranges, comments) = (beside.ranges, beside.comments);
    match medium {
        Medium::Text => text_within(alloc, old, new, comparison, ranges, comments),
        Medium::Page => commented_page(alloc, names, old, new, comparison, ranges, Some(comments)),
    }
}

/// A comparison as a text, with the changes of range files and of comments below it.
fn text_within(
    alloc: Global,
    old: &Outline,
    new: &Outline,
    comparison: &Comparison,
    ranges: Option<&[RangeChange]>,
    comments: &CommentComparison,
) -> Result<Vec<u8>, AllocError>
    ensures { IfOk result (λ text. text.items ≡ comparison_text old.now new.now comparison.now
        ++ (ranges_text (option_map (λ changes. changes.now) ranges.entry)
        ++ comment_changes_text comments.now)) }
{
    let mut text = comparison_text(alloc, old, new, comparison)?;
    write_ranges(alloc, &mut text, ranges)?;
    write_comment_changes(alloc, &mut text, comments)?;
    Ok(text)
}

/// Appends the changes of range files, where they are compared.
fn write_ranges(
    alloc: Global,
    text: &mut Vec<u8>,
    ranges: Option<&[RangeChange]>,
) -> Result<(), AllocError>
    ensures { OnOk result (text.new.items
        ≡ text.old.items ++ ranges_text (option_map (λ changes. changes.now) ranges.entry)) }
{
    match ranges {
        Some(changes) => write_range_changes(alloc, text, changes),
        None => Ok(()),
    }
}

/// What is said where two flowcharts differ, or their range files.
fn difference_words(
    alloc: Global,
    is_other: bool,
    is_other_range: bool,
) -> Result<Option<String>, AllocError>
    ensures { IfOk result (λ words. words_of words ≡ difference_words is_other is_other_range) }
{
    match (is_other, is_other_range) {
        (false, false) => Ok(None),
        (true, false) => said(alloc, "the flowcharts differ"),
        (false, true) => said(alloc, "the range files differ"),
        (true, true) => said(alloc, "the flowcharts and the range files differ"),
    }
}

/// These words.
fn said(alloc: Global, words: &str) -> Result<Option<String>, AllocError>
    ensures { IfOk result (λ said. words_of said ≡ Some words.now) }
{
    Ok(Some(String::from_str(alloc, words)?))
}

/// The line of a file that isn't read as a plan, as `papcalc check` writes it.
#[tactic(auto, using(crate::proofs::UnreadLemmas::unreadable))]
fn answer_unreadable(
    alloc: Global,
    plan: TextFile<'_>,
    refusal: &PlanRefusal,
) -> Result<Answer, AllocError>
    requires { IsUnreadPlan plan.bytes.now refusal.now }
    ensures { IfOk result (λ answer. IsUnreadable (named_text plan.entry)
        answer.text.items (words_of answer.reason)) }
{
    let reply = refused(alloc, plan.bytes, refusal)?;
    let ranges = TextFile {
        name: "",
        bytes: &[],
    };
    let reason = plan_words(alloc, plan, ranges, refusal)?;
    Ok(Answer {
        text: reply.text,
        reason: Some(reason),
    })
}
