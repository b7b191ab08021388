//! What is told of a search.
ghost use Rattle.std.specs.Prelude.{◌≡◌, ◌++◌, ◌≤◌, length, map, string_bytes, IfOk, OnOk};
ghost use Rattle.std.specs.List.{flat_map};
ghost use Rattle.pap_tree.specs.Declarations.{declaration_of};
ghost use Rattle.pap_tree.specs.Flowchart.{flowchart_of};
ghost use Rattle.failing_input.specs.Searches.{IsSearchAnswer};
ghost use Rattle.failing_input.specs.SearchTexts.{search_text, fails_text, failure_line, failure_word, input_word, input_words};
ghost use Rattle.failing_input.specs.SearchTexts.{parts_text, parts_word, part_line, part_words, range_word, is_same_range};

use crate::failure::Failure;
use crate::search::Search;
use checked_run::FailureCause;
use limits_file::{InputLimit, Limits};
use pap_tree::{Declared, Name};
use pap_types::Typed;
use scaled_decimal::Dec;
use std::alloc::{AllocError, Global};
use std::cmp::Ordering;

/// The text of what was found of a plan with its limits: `fails NAME=VALUE ..` with the inputs in declared order, and below it
/// `at PLACE CAUSE` or `output NAME`; `safe in N parts` and a line `part NAME=LOW..HIGH ..` for each part, with those ranges that are
/// not whole there; or `not found in N parts`.
pub fn search_text(
    alloc: Global,
    t: &Typed,
    limits: &Limits,
    found: &Search,
) -> Result<Vec<u8>, AllocError>
    requires { IsSearchAnswer (flowchart_of t.now) limits.now found.now }
    ensures { IfOk result (λ text.
        text.items ≡ search_text (flowchart_of t.now) limits.now found.now) }
{
    match found {
        Search::Fails { inputs, failure } => {
            fails_text(
                alloc,
                t.plan().inputs.as_slice(),
                inputs.as_slice(),
                failure,
            )
        }
        Search::Safe(parts) => parts_text(alloc, limits, parts.as_slice()),
        Search::NotFound(parts) => {
            let parts = parts_word(alloc, *parts as usize)?;
            Ok(format!(in alloc; "not found in {parts}\n")?.into_bytes())
        }
    }
}

/// The inputs on which a run fails, and what goes wrong.
fn fails_text(
    alloc: Global,
    declared: &[Declared],
    inputs: &[Dec],
    failure: &Failure,
) -> Result<Vec<u8>, AllocError>
    requires { length declared.now ≤ length inputs.now }
    ensures { IfOk result (λ text.
        text.items ≡ fails_text (map declaration_of declared.now) inputs.now failure.now) }
{
    let mut out = Vec::from_slice(alloc, b"fails")?;
    write_values(alloc, &mut out, declared, inputs)?;
    out.push(b'\n')?;
    let line = failure_line(alloc, failure)?;
    out.extend_from_slice(line.as_bytes())?;
    Ok(out)
}

/// What goes wrong in a run, as a line.
fn failure_line(alloc: Global, failure: &Failure) -> Result<String, AllocError>
    ensures { IfOk result (λ line. string_bytes line ≡ failure_line failure.now) }
{
    match failure {
        Failure::Node { place, cause } => {
            let word = failure_word(*cause);
            format!(in alloc; "at {place} {word}\n")
        }
        Failure::Output { name } => format!(in alloc; "output {name}\n"),
    }
}

/// The word for why a node fails.
fn failure_word(cause: FailureCause) -> &'static str
    ensures { result.now ≡ failure_word cause }
{
    match cause {
        FailureCause::Wide => "Wide",
        FailureCause::Scale => "Scale",
        FailureCause::Divisor => "Divisor",
        FailureCause::Index => "Index",
    }
}

/// Appends the inputs with their values.
fn write_values(
    alloc: Global,
    out: &mut Vec<u8>,
    declared: &[Declared],
    inputs: &[Dec],
) -> Result<(), AllocError>
    requires { length declared.now ≤ length inputs.now }
    ensures { OnOk result (out.new.items
        ≡ out.old.items ++ input_words (map declaration_of declared.now) inputs.now) }
{
    for (at, input) in declared.iter().enumerate() {
        write_value(alloc, out, &input.name, inputs[at])?;
    }
    Ok(())
}

/// Appends an input with its value.
fn write_value(alloc: Global, out: &mut Vec<u8>, name: &Name, value: Dec) -> Result<(), AllocError>
    ensures { OnOk result (out.new.items ≡ out.old.items ++ input_word name.now value) }
{
    let word = format!(in alloc; " {name}={value}")?;
    out.extend_from_slice(word.as_bytes())
}

/// The parts that the walk passes.
fn parts_text(alloc: Global, limits: &Limits, parts: &[Limits]) -> Result<Vec<u8>, AllocError>
    ensures { IfOk result (λ text. text.items ≡ parts_text limits.now parts.now) }
{
    let count = parts_word(alloc, parts.len())?;
    let mut out = format!(in alloc; "safe in {count}\n")?.into_bytes();
    write_parts(alloc, &mut out, limits, parts)?;
    Ok(out)
}

/// So many parts.
fn parts_word(alloc: Global, count: usize) -> Result<String, AllocError>
    ensures { IfOk result (λ word. string_bytes word ≡ parts_word count) }
{
    if count == 1 {
        format!(in alloc; "{count} part")
    } else {
        format!(in alloc; "{count} parts")
    }
}

/// Appends a line for each part.
fn write_parts(
    alloc: Global,
    out: &mut Vec<u8>,
    limits: &Limits,
    parts: &[Limits],
) -> Result<(), AllocError>
    ensures { OnOk result
        (out.new.items ≡ out.old.items ++ flat_map (part_line limits.now) parts.now) }
{
    for part in parts {
        write_part(alloc, out, limits, part)?;
    }
    Ok(())
}

/// Appends the line of a part.
fn write_part(
    alloc: Global,
    out: &mut Vec<u8>,
    limits: &Limits,
    part: &Limits,
) -> Result<(), AllocError>
    ensures { OnOk result (out.new.items ≡ out.old.items ++ part_line limits.now part.now) }
{
    out.extend_from_slice(b"part")?;
    write_ranges(alloc, out, limits.inputs.as_slice(), part.inputs.as_slice())?;
    out.extend_from_slice(b"\n")
}

/// Appends the ranges that are not whole.
fn write_ranges(
    alloc: Global,
    out: &mut Vec<u8>,
    wholes: &[InputLimit],
    ranges: &[InputLimit],
) -> Result<(), AllocError>
    ensures { OnOk result (out.new.items ≡ out.old.items ++ part_words wholes.now ranges.now) }
{
    for (at, range) in ranges.iter().enumerate() {
        if at >= wholes.len() || !is_same_range(&wholes[at], range) {
            write_range(alloc, out, range)?;
        }
    }
    Ok(())
}

/// Whether two ranges have the same ends.
fn is_same_range(whole: &InputLimit, range: &InputLimit) -> bool
    ensures { result ≡ is_same_range whole.now range.now }
{
    whole.low.compare(range.low) == Ordering::Equal
        && whole.high.compare(range.high) == Ordering::Equal
}

/// Appends the range of an input.
fn write_range(alloc: Global, out: &mut Vec<u8>, range: &InputLimit) -> Result<(), AllocError>
    ensures { OnOk result (out.new.items ≡ out.old.items ++ range_word range.now) }
{
    let name = range.name;
    let low = range.low;
    let high = range.high;
    let word = format!(in alloc; " {name}={low}..{high}")?;
    out.extend_from_slice(word.as_bytes())
}
