//! What is wrong with a plan or its range file.
ghost use Rattle.std.specs.Prelude.{◌≡◌, ◌≢◌, ◌++◌, IfOk, OnOk, []};
ghost use Rattle.std.specs.String.{string_bytes};
ghost use Rattle.plain_words.specs.Lines.{IsOneLine, StartsWith};
ghost use Rattle.plain_words.specs.Places.{files_of};
ghost use Rattle.plain_words.specs.Refusals.{IsPlaceOf, BeginsAtRefusal};
ghost use Rattle.plain_words.specs.RefusalTexts.{plan_refusal_text};
ghost use Rattle.plain_words.specs.Helps.{help_of};
ghost use Rattle.plain_words.specs.private.DetailViews.{undeclared_text, AppendsDetail};
ghost use Rattle.plain_words.specs.private.FoundViews.{place_of, IsOfPlan, IsOfRanges, IsPlaceBeside, HelpsAs};

use crate::elements::find_element;
use crate::expressions::find_expression;
use crate::found::Found;
use crate::help::help_of;
use crate::kinds::find_kind;
use crate::methods::find_order;
use crate::place::TextFile;
use crate::range_file::{find_binding, find_entry, find_limit_kind, find_limit_name};
use crate::ranges::find_range;
use crate::reason::reason_line;
use crate::refusal_texts::{write_binding, write_limit_name, write_refusal};
use crate::sites::Outline;
use pap_plan::PlanRefusal;
use std::alloc::{AllocError, Global};

/// What is wrong with a plan or its range file, in one line of plain words that begins with the file and the place in it, as
/// `plan.xml:12:7: `: the refusal's own text, what stands there, and behind `; ` what helps. Fails only for lack of memory.
pub fn plan_words(
    alloc: Global,
    plan: TextFile<'_>,
    limits: TextFile<'_>,
    refusal: &PlanRefusal,
) -> Result<String, AllocError>
    ensures line { IfOk result (λ words. IsOneLine (string_bytes words)) }
    ensures place { IfOk result (λ words.
        BeginsAtRefusal (files_of plan.entry limits.entry) refusal.now (string_bytes words)) }
{
    let mut detail = String::new(alloc);
    let found = find_refusal(plan, limits, refusal, &mut detail)?;
    let wrong = wrong_text(refusal, &detail)?;
    reason_line(alloc, plan, limits, found, &wrong)
}

/// What is wrong, which is never empty: the refusal's own text, and behind it what stands there.
#[tactic(auto, using(crate::proofs::Shown::starts_whole, crate::proofs::Shown::starts_none))]
fn wrong_text(refusal: &PlanRefusal, detail: &String) -> Result<String, AllocError>
    ensures some { IfOk result (λ wrong. string_bytes wrong ≢ []) }
    ensures starts { IfOk result (λ wrong.
        StartsWith (plan_refusal_text refusal.now ++ string_bytes detail.now) (string_bytes wrong)) }
{
    let mut wrong = String::new(*detail.allocator());
    write_refusal(&mut wrong, refusal)?;
    wrong.push_str(detail)?;
    if wrong.is_empty() {
        return String::from_str(*detail.allocator(), "the plan is refused");
    }
    Ok(wrong)
}

/// Where a plan or its range file is refused, and what helps; what stands there is appended.
fn find_refusal(
    plan: TextFile<'_>,
    limits: TextFile<'_>,
    refusal: &PlanRefusal,
    detail: &mut String,
) -> Result<Found, AllocError>
    ensures place { IfOk result
        (λ found. IsPlaceOf plan.entry.bytes.now refusal.now (place_of found)) }
    ensures help { IfOk result (λ found. HelpsAs (help_of refusal.now) found) }
    ensures detail { OnOk result (AppendsDetail plan.entry.bytes.now refusal.now
        (string_bytes detail.old) (string_bytes detail.new)) }
{
    let found = find_place(plan, limits, refusal, detail)?;
    match help_of(refusal) {
        Some(help) => Ok(found.with_help(help)),
        None => Ok(found),
    }
}

/// Where a plan or its range file is refused, and what helps where the refusal alone doesn't decide it; what stands there is
/// appended.
fn find_place(
    plan: TextFile<'_>,
    limits: TextFile<'_>,
    refusal: &PlanRefusal,
    detail: &mut String,
) -> Result<Found, AllocError>
    ensures place { IfOk result
        (λ found. IsPlaceOf plan.entry.bytes.now refusal.now (place_of found)) }
    ensures detail { OnOk result (AppendsDetail plan.entry.bytes.now refusal.now
        (string_bytes detail.old) (string_bytes detail.new)) }
{
    match refusal {
        PlanRefusal::Read(fault) => find_element(plan, fault, detail),
        PlanRefusal::Limits(fault) => find_entry(limits, fault, detail),
        PlanRefusal::Memory => Err(AllocError),
        PlanRefusal::LimitName { .. } | PlanRefusal::LimitKind { .. } | PlanRefusal::Bind { .. } =>
            find_beside(plan, limits, refusal, detail),
        _ => find_within(plan, refusal, detail),
    }
}

/// Where a plan whose elements are read is refused by itself; what stands there is appended.
fn find_within(
    plan: TextFile<'_>,
    refusal: &PlanRefusal,
    detail: &mut String,
) -> Result<Found, AllocError>
    ensures { IfOk result (λ found. IsOfPlan found) }
{
    let Some(outline) = Outline::read(*detail.allocator(), plan)? else {
        return Ok(Found::in_plan(None));
    };
    let source = outline.source(plan);
    match refusal {
        PlanRefusal::Expr { spot, fault } => find_expression(source, spot, fault, detail),
        PlanRefusal::Types(fault) => find_kind(source, fault, detail),
        PlanRefusal::Order(fault) => find_order(source, fault, detail),
        PlanRefusal::Range(fault) => find_range(source, fault, detail),
        _ => Ok(Found::in_plan(None)),
    }
}

/// Where a plan whose elements are read and its range file don't fit each other; what stands there is appended.
fn find_beside(
    plan: TextFile<'_>,
    limits: TextFile<'_>,
    refusal: &PlanRefusal,
    detail: &mut String,
) -> Result<Found, AllocError>
    ensures place { IfOk result
        (λ found. IsPlaceBeside plan.entry.bytes.now refusal.now (place_of found)) }
    ensures detail { OnOk result (AppendsDetail plan.entry.bytes.now refusal.now
        (string_bytes detail.old) (string_bytes detail.new)) }
{
    let Some(outline) = Outline::read(*detail.allocator(), plan)? else {
        return find_undeclared(refusal, detail);
    };
    let source = outline.source(plan);
    match refusal {
        PlanRefusal::LimitName { name } => find_limit_name(source, limits, name, detail),
        PlanRefusal::LimitKind { name } => Ok(find_limit_kind(source, limits, name)),
        PlanRefusal::Bind { name } => find_binding(source, limits, name, detail),
        _ => Ok(Found::in_ranges(None)),
    }
}

/// Where a limit or a binding stands that is of no input, where the flowchart declares none of its name; that is appended.
fn find_undeclared(refusal: &PlanRefusal, detail: &mut String) -> Result<Found, AllocError>
    ensures place { IfOk result (λ found. IsOfRanges found) }
    ensures detail { OnOk result (string_bytes detail.new
        ≡ string_bytes detail.old ++ undeclared_text refusal.now) }
{
    write_undeclared(detail, refusal)?;
    Ok(Found::in_ranges(None))
}

/// Appends that a limit or a binding is of no input, where the flowchart declares none of its name.
fn write_undeclared(detail: &mut String, refusal: &PlanRefusal) -> Result<(), AllocError>
    ensures { OnOk result (string_bytes detail.new
        ≡ string_bytes detail.old ++ undeclared_text refusal.now) }
{
    match refusal {
        PlanRefusal::LimitName { name } => write_limit_name(detail, name, false),
        PlanRefusal::Bind { name } => write_binding(detail, name, false),
        _ => detail.push_str(""),
    }
}
