//! Writing a saved book, part by part, behind what stands in a list of bytes.
ghost use Rattle.std.specs.Prelude.{◌≡◌, ◌++◌, [], ◌∷◌, OnOk, codes};
ghost use Rattle.std.specs.List.{join_with_byte};
ghost use Rattle.scaled_decimal.specs.PlainTexts.{plain_text, whole_text};
ghost use Rattle.saved_items.specs.SavedBooks.{day_word, end_text, head_text, line_of_words, saved_plan_text};
ghost use Rattle.saved_items.specs.SavedBooks.{run_count_text, saved_run_text, run_words, saved_plan};
ghost use Rattle.saved_items.specs.SavedBooks.{plan_words, work_text};
ghost use Rattle.saved_items.specs.private.SavedBooks.{values_text};

use pap_tree::Name;
use payroll_records::{Day, Record, Values};
use scaled_decimal::{Dec, write_dec};
use std::alloc::AllocError;
use std::io::Write;

/// The lines before the plans: the title, the last work, and how many plans there are.
pub fn push_head(out: &mut Vec<u8>, runs: u64, steps: u64, plans: u64) -> Result<(), AllocError>
    ensures { OnOk result (out.new.items ≡ out.old.items ++ head_text runs steps plans) }
{
    push(out, b"papbook 1\n")?;
    push_work(out, runs, steps)?;
    push_count(out, b"plans ", plans)
}

/// A plan with its day.
pub fn push_plan(out: &mut Vec<u8>, day: Day, plan: &[u8], limits: &[u8]) -> Result<(), AllocError>
    ensures { OnOk result
        (out.new.items ≡ out.old.items ++ saved_plan_text (saved_plan day plan.now limits.now)) }
{
    push_plan_line(out, day, plan.len() as u64, limits.len() as u64)?;
    push(out, plan)?;
    push(out, limits)?;
    push(out, b"\n")
}

/// The line before the runs: how many there are.
pub fn push_run_count(out: &mut Vec<u8>, runs: u64) -> Result<(), AllocError>
    ensures { OnOk result (out.new.items ≡ out.old.items ++ run_count_text runs) }
{
    push_count(out, b"runs ", runs)
}

/// A run.
pub fn push_run(out: &mut Vec<u8>, run: &Record) -> Result<(), AllocError>
    ensures { OnOk result (out.new.items ≡ out.old.items ++ saved_run_text run.now) }
{
    push_run_words(out, run)?;
    push(out, b"\n")
}

/// The last line.
pub fn push_end(out: &mut Vec<u8>) -> Result<(), AllocError>
    ensures { OnOk result (out.new.items ≡ out.old.items ++ end_text) }
{
    push(out, b"end\n")
}

/// The line of the last work.
fn push_work(out: &mut Vec<u8>, runs: u64, steps: u64) -> Result<(), AllocError>
    ensures { OnOk result (out.new.items ≡ out.old.items ++ work_text runs steps) }
{
    push(out, b"work ")?;
    push_number(out, runs)?;
    push_count(out, b" ", steps)
}

/// The line of a plan: its day, and the lengths of its texts.
fn push_plan_line(out: &mut Vec<u8>, day: Day, plan: u64, limits: u64) -> Result<(), AllocError>
    ensures { OnOk result (out.new.items ≡ out.old.items ++ line_of_words (plan_words day plan limits)) }
{
    push(out, b"plan ")?;
    push_day(out, day)?;
    push(out, b" ")?;
    push_number(out, plan)?;
    push_count(out, b" ", limits)
}

/// A number behind some text, and the line's end.
fn push_count(out: &mut Vec<u8>, front: &[u8], count: u64) -> Result<(), AllocError>
    ensures { OnOk result
        (out.new.items ≡ out.old.items ++ (front.now ++ (whole_text count ++ (10 ∷ [])))) }
{
    push(out, front)?;
    push_number(out, count)?;
    push(out, b"\n")
}

/// The words of a run, with a space between each two.
pub(crate) fn push_run_words(out: &mut Vec<u8>, run: &Record) -> Result<(), AllocError>
    ensures { OnOk result
        (out.new.items ≡ out.old.items ++ join_with_byte 32 (run_words run.now)) }
{
    push(out, b"run ")?;
    push(out, run.employee.bytes())?;
    push(out, b" ")?;
    push_day(out, run.day)?;
    push_values(out, &run.values)
}

/// The value words of a run, each with a space before it.
fn push_values(out: &mut Vec<u8>, values: &Values) -> Result<(), AllocError>
    ensures { OnOk result (out.new.items ≡ out.old.items ++ values_text values.now) }
{
    let numbers = values.numbers();
    for (at, name) in values.names().iter().enumerate() {
        push_value(out, name, numbers[at])?;
    }
    Ok(())
}

/// A value word, with a space before it.
fn push_value(out: &mut Vec<u8>, name: &Name, number: Dec) -> Result<(), AllocError>
    ensures { OnOk result (out.new.items
        ≡ out.old.items ++ (codes " " ++ (name.now ++ (codes "=" ++ plain_text number)))) }
{
    push(out, b" ")?;
    push(out, name.bytes())?;
    push(out, b"=")?;
    write_dec(*out.allocator(), number, out)
}

/// A day, as `YYYY-MM-DD`.
fn push_day(out: &mut Vec<u8>, day: Day) -> Result<(), AllocError>
    ensures { OnOk result (out.new.items ≡ out.old.items ++ day_word day) }
{
    match write!(out, "{day}") {
        Ok(()) => Ok(()),
        Err(_) => Err(AllocError),
    }
}

/// A whole number in digits.
#[tactic(auto, using(crate::proofs::NumberLemmas::whole_plain))]
pub(crate) fn push_number(out: &mut Vec<u8>, number: u64) -> Result<(), AllocError>
    ensures { OnOk result (out.new.items ≡ out.old.items ++ whole_text number) }
{
    write_dec(*out.allocator(), Dec::new(number as i128, 0), out)
}

/// A text as it is.
fn push(out: &mut Vec<u8>, text: &[u8]) -> Result<(), AllocError>
    ensures { OnOk result (out.new.items ≡ out.old.items ++ text.now) }
{
    out.extend_from_slice(text)
}
