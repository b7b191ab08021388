//! The text.
ghost use Rattle.std.specs.Prelude.{◌≡◌, ◌++◌, IfOk, OnOk, string_bytes};
ghost use Rattle.std.specs.List.{flat_map};
ghost use Rattle.coverage_text.specs.Shares.{IsCountedWithin};
ghost use Rattle.coverage_text.specs.CoverageTexts.{count_words, share_lines, total_lines, open_runs_line, method_line, missed_line, missed_lines, coverage_text};

use crate::counts::{CoverageCounts, count_methods, share_of};
use crate::item::{Item, MethodItems};
use std::alloc::{AllocError, Global};

/// To which statements and exits runs came, as a text: the totals, how many of so many runs have no amounts, the counts of each
/// method, and a line for each statement and each exit to which no run came. Those to which no run within the ranges may come are
/// told apart, and aren't counted as missed. Takes time linear in the items. Fails only for lack of memory.
pub fn coverage_text(
    alloc: Global,
    methods: &[MethodItems],
    without: u64,
    runs: u64,
) -> Result<Vec<u8>, AllocError>
    ensures { IfOk result (λ text. text.items ≡ coverage_text methods.now without runs) }
{
    let mut out = Vec::new(alloc);
    write_totals(alloc, &mut out, count_methods(methods)?)?;
    write_open_runs(alloc, &mut out, without, runs)?;
    write_methods(alloc, &mut out, methods)?;
    write_missed(&mut out, methods)?;
    Ok(out)
}

/// Appends the totals.
fn write_totals(alloc: Global, out: &mut Vec<u8>, counts: CoverageCounts) -> Result<(), AllocError>
    requires { IsCountedWithin counts }
    ensures { OnOk result (out.new.items ≡ out.old.items ++ total_lines counts) }
{
    let share = share_of(counts);
    write_share(alloc, out, counts, share)
}

/// Appends the totals with this share.
fn write_share(
    alloc: Global,
    out: &mut Vec<u8>,
    counts: CoverageCounts,
    share: u8,
) -> Result<(), AllocError>
    ensures { OnOk result (out.new.items ≡ out.old.items ++ share_lines counts share) }
{
    let words = count_words(alloc, counts)?;
    let unreachable = counts.unreachable;
    let lines = format!(in alloc;
        "covered {words}, {share} percent\nunreachable within the ranges {unreachable}\n"
    )?;
    out.extend_from_slice(lines.as_bytes())
}

/// How many statements and exits runs came to, of how many.
fn count_words(alloc: Global, counts: CoverageCounts) -> Result<String, AllocError>
    ensures { IfOk result (λ words. string_bytes words ≡ count_words counts) }
{
    let CoverageCounts {
        covered_statements,
        statements,
        covered_exits,
        exits,
        ..
    } = counts;
    format!(in alloc;
        "{covered_statements} of {statements} statements, {covered_exits} of {exits} exits"
    )
}

/// Appends how many runs have no amounts.
fn write_open_runs(
    alloc: Global,
    out: &mut Vec<u8>,
    without: u64,
    runs: u64,
) -> Result<(), AllocError>
    ensures { OnOk result (out.new.items ≡ out.old.items ++ open_runs_line without runs) }
{
    let line = format!(in alloc; "runs without amounts {without} of {runs}\n")?;
    out.extend_from_slice(line.as_bytes())
}

/// Appends the counts of each method.
fn write_methods(
    alloc: Global,
    out: &mut Vec<u8>,
    methods: &[MethodItems],
) -> Result<(), AllocError>
    ensures { OnOk result (out.new.items ≡ out.old.items ++ flat_map method_line methods.now) }
{
    for method in methods {
        write_method(alloc, out, method)?;
    }
    Ok(())
}

/// Appends the counts of a method.
fn write_method(alloc: Global, out: &mut Vec<u8>, method: &MethodItems) -> Result<(), AllocError>
    ensures { OnOk result (out.new.items ≡ out.old.items ++ method_line method.now) }
{
    let name = method.name;
    let words = count_words(alloc, CoverageCounts::of(&method.items))?;
    let line = format!(in alloc; "method {name}  {words}\n")?;
    out.extend_from_slice(line.as_bytes())
}

/// Appends a line for each item that is missed.
fn write_missed(out: &mut Vec<u8>, methods: &[MethodItems]) -> Result<(), AllocError>
    ensures { OnOk result (out.new.items ≡ out.old.items ++ flat_map missed_lines methods.now) }
{
    for method in methods {
        write_items(out, &method.items)?;
    }
    Ok(())
}

/// Appends a line for each of some items that is missed.
fn write_items(out: &mut Vec<u8>, items: &[Item]) -> Result<(), AllocError>
    ensures { OnOk result (out.new.items ≡ out.old.items ++ flat_map missed_line items.now) }
{
    for item in items {
        write_item(out, item)?;
    }
    Ok(())
}

/// Appends the line of an item, where it is missed.
fn write_item(out: &mut Vec<u8>, item: &Item) -> Result<(), AllocError>
    ensures { OnOk result (out.new.items ≡ out.old.items ++ missed_line item.now) }
{
    if !item.is_reachable {
        out.extend_from_slice(b"unreachable ")?;
    } else if item.runs == 0 {
        out.extend_from_slice(b"never ")?;
    } else {
        return Ok(());
    }
    out.extend_from_slice(&item.words)?;
    out.extend_from_slice(b"\n")
}
