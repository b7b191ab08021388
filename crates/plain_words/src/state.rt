//! Why a run has no inputs.
ghost use Rattle.std.specs.Prelude.{◌≡◌, ◌++◌, IfOk, OnOk};
ghost use Rattle.std.specs.String.{string_bytes};
ghost use Rattle.plain_words.specs.Lines.{IsOneLine};
ghost use Rattle.plain_words.specs.Places.{files_of};
ghost use Rattle.plain_words.specs.States.{digits_noun, outside_text, input_value_text, state_text, state_help, IsPlaceOfState, SaysState};
ghost use Rattle.plain_words.specs.private.FoundViews.{place_of};

use crate::entry_lines::entry_byte;
use crate::found::Found;
use crate::place::TextFile;
use crate::reason::reason_line;
use crate::section::Section;
use crate::sites::{Outline, named_byte};
use limits_file::InputLimit;
use pap_tree::Name;
use payroll_records::Day;
use scaled_decimal::Dec;
use std::alloc::{AllocError, Global};

/// Why a run has no inputs, with all that is told of it.
#[derive(Clone, Copy)]
pub enum RunReason {
    /// An input carries, and the earlier run of this day isn't ok.
    Waits(Day),
    /// A value of this name is given, and there is no such input.
    Unknown(Name),
    /// A value of this name is given, and its input carries.
    Carried(Name),
    /// The input of this name has no value.
    Missing(Name),
    /// The value of this input doesn't fit its range.
    Outside {
        /// The input.
        name: Name,
        /// Its value.
        value: Dec,
        /// Its range.
        limit: InputLimit,
    },
}

/// Why a run of a plan with its range file has no inputs, in one line of plain words that begins with the file and the place
/// in it, and ends with what helps. Fails only for lack of memory.
pub fn state_words(
    alloc: Global,
    plan: TextFile<'_>,
    limits: TextFile<'_>,
    reason: &RunReason,
) -> Result<String, AllocError>
    ensures line { IfOk result (λ words. IsOneLine (string_bytes words)) }
    ensures place { IfOk result (λ words.
        SaysState (files_of plan.entry limits.entry) reason.now (string_bytes words)) }
{
    let mut wrong = String::new(alloc);
    write_reason(&mut wrong, reason)?;
    let found = find_reason(alloc, plan, limits, reason)?.with_help(state_help(reason));
    reason_line(alloc, plan, limits, found, &wrong)
}

/// Appends why a run has no inputs.
fn write_reason(out: &mut String, reason: &RunReason) -> Result<(), AllocError>
    ensures { OnOk result (string_bytes out.new ≡ string_bytes out.old ++ state_text reason.now) }
{
    match reason {
        RunReason::Waits(day) => write!(
            out,
            "the run waits, since an input carries over from the employee's earlier runs of the year and the run of {day} isn't ok"
        ),
        RunReason::Unknown(name) => write!(
            out,
            "a value is given for {name}, and the plan has no such input"
        ),
        RunReason::Carried(name) => write!(
            out,
            "a value is given for {name}, an input that the entry [bind.{name}] fills from earlier runs"
        ),
        RunReason::Missing(name) => write!(out, "the input {name} has no value"),
        RunReason::Outside { name, value, limit } => {
            write_value(out, *name, *value)?;
            write_outside(out, *value, *limit)
        }
    }
}

/// Appends the value of an input.
fn write_value(out: &mut String, name: Name, value: Dec) -> Result<(), AllocError>
    ensures { OnOk result
        (string_bytes out.new ≡ string_bytes out.old ++ input_value_text name value) }
{
    write!(out, "the value {value} of the input {name}")
}

/// Appends what a value that doesn't fit a range breaks of it: its places, else its low, else its high.
fn write_outside(out: &mut String, value: Dec, limit: InputLimit) -> Result<(), AllocError>
    ensures { OnOk result
        (string_bytes out.new ≡ string_bytes out.old ++ outside_text value limit) }
{
    let digits = value.scale();
    let InputLimit {
        low,
        high,
        places,
        ..
    } = limit;
    if digits > places {
        let noun = digits_noun(digits);
        return write!(
            out,
            " has {digits} {noun} after its point, and its entry takes at most {places}"
        );
    }
    if low.compare(value).is_gt() {
        return write!(out, " is below its low {low}");
    }
    write!(out, " is above its high {high}")
}

/// The noun behind so many.
fn digits_noun(count: u8) -> &'static str
    ensures { result.now ≡ digits_noun count }
{
    if count == 1 { "digit" } else { "digits" }
}

/// Where a run that has no inputs is refused.
fn find_reason(
    alloc: Global,
    plan: TextFile<'_>,
    limits: TextFile<'_>,
    reason: &RunReason,
) -> Result<Found, AllocError>
    ensures { IfOk result (λ found. IsPlaceOfState reason.now (place_of found)) }
{
    match reason {
        RunReason::Waits(_) | RunReason::Unknown(_) => Ok(Found::in_plan(None)),
        RunReason::Carried(name) => {
            let at = entry_byte(limits.bytes, Section::Bind, name.as_str());
            Ok(Found::in_ranges(at))
        }
        RunReason::Missing(name) => Ok(Found::in_plan(input_byte(alloc, plan, name)?)),
        RunReason::Outside { name, .. } => {
            let at = entry_byte(limits.bytes, Section::Input, name.as_str());
            Ok(Found::in_ranges(at))
        }
    }
}

/// What helps where a run has no inputs.
fn state_help(reason: &RunReason) -> &'static str
    ensures { result.now ≡ state_help reason.now }
{
    match reason {
        RunReason::Waits(_) => "mend that run first",
        RunReason::Unknown(_) => "leave the value out, or correct its name",
        RunReason::Carried(_) => "leave the value out",
        RunReason::Missing(_) => {
            "give one as NAME=VALUE or in the table, or write a default at its INPUT"
        }
        RunReason::Outside { .. } => {
            "correct the value, or widen the input's entry and check the plan again"
        }
    }
}

/// The byte at which an input is declared.
fn input_byte(alloc: Global, plan: TextFile<'_>, name: &Name) -> Result<Option<usize>, AllocError> {
    match Outline::read(alloc, plan)? {
        Some(outline) => Ok(named_byte(outline.source(plan), name)),
        None => Ok(None),
    }
}
