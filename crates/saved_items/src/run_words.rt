//! The words of a run.
ghost use Rattle.std.specs.Prelude.{◌≡◌, ◌≢◌, List, Some, IfOk, MatchBool, MatchOption, map};
ghost use Rattle.std.specs.List.{AllByRecursion, join_with_byte};
ghost use Rattle.payroll_records.specs.NamedValues.{AreValues};
ghost use Rattle.payroll_records.specs.declared.record.Record.{Record as Run};
ghost use Rattle.payroll_records.specs.declared.values.NamedValue.{NamedValue as Value};
ghost use Rattle.saved_items.specs.private.LineViews.{AreWordsOf, texts};
ghost use Rattle.saved_items.specs.SavedBooks.{IsRun, IsValue, run_words, value_word};

use crate::lines::behind;
use crate::writing::push_run_words;
use payroll_records::{Day, Employee, InsertFault, NamedValue, Record, Values};
use std::alloc::{AllocError, Global};

/// The run that a line is, of which these are the words.
pub(crate) fn read_run(
    alloc: Global,
    text: &[u8],
    words: &[&[u8]],
) -> Result<Option<Record>, AllocError>
    requires { AreWordsOf text.now words.now }
    ensures { IfOk result (λ run. MatchOption run
        ((r : Run) → IsRun r → text.now ≢ join_with_byte 32 (run_words r))
        (λ r. IsRun r × (text.now ≡ join_with_byte 32 (run_words r)))) }
{
    let Some(run) = run_of(alloc, words)? else {
        return Ok(None);
    };
    if !is_written(alloc, text, &run)? {
        return Ok(None);
    }
    Ok(Some(run))
}

/// Whether a text is what the words of a run are written as.
fn is_written(alloc: Global, text: &[u8], run: &Record) -> Result<bool, AllocError>
    ensures run { IsRun run.now }
    ensures text { IfOk result (λ same. MatchBool same
        (text.now ≡ join_with_byte 32 (run_words run.now))
        (text.now ≢ join_with_byte 32 (run_words run.now))) }
{
    run_law(run);
    let mut written = Vec::with_capacity(alloc, text.len())?;
    push_run_words(&mut written, run)?;
    Ok(written.as_slice() == text)
}

/// A law: it looks at each value and changes nothing. Each record has a text.
pub fn run_law(run: &Record)
    ensures { IsRun run.now }
{
    let _ = run.employee.bytes();
    are_values(&run.values);
}

/// The values of a record are as they can be written.
fn are_values(values: &Values)
    ensures few { AreValues values.now }
    ensures each { AllByRecursion IsValue values.now }
{
    let numbers = values.numbers();
    for (at, name) in values.names().iter().enumerate() {
        let number = numbers[at];
        let _ = name.bytes();
        let _ = number.numerator();
        let _ = number.scale();
    }
}

/// The run that words give, perhaps not in the way in which it is written.
fn run_of(alloc: Global, words: &[&[u8]]) -> Result<Option<Record>, AllocError>
    ensures { (r : Run) → IsRun r → texts words.now ≡ run_words r
        → IfOk result (λ run. run ≡ Some r) }
{
    let Some(rest) = behind(b"run", words) else {
        return Ok(None);
    };
    let [employee, day, values @ ..] = rest else {
        return Ok(None);
    };
    let Some(employee) = Employee::read(employee) else {
        return Ok(None);
    };
    let Some(day) = Day::read(day) else {
        return Ok(None);
    };
    let Some(values) = values_of(alloc, values)? else {
        return Ok(None);
    };
    Ok(Some(Record {
        employee,
        day,
        values,
    }))
}

/// The values that words give, perhaps not in their order.
fn values_of(alloc: Global, words: &[&[u8]]) -> Result<Option<Values>, AllocError>
    ensures { (vs : List Value) → AreValues vs → AllByRecursion IsValue vs
        → texts words.now ≡ map value_word vs → IfOk result (λ values. values ≡ Some vs) }
{
    let mut values = Values::with_room(alloc, words.len())?;
    for word in words {
        let Some(value) = NamedValue::read(word) else {
            return Ok(None);
        };
        match values.insert(value) {
            Ok(()) => {}
            Err(InsertFault::Twice) => return Ok(None),
            Err(InsertFault::Full) => return Ok(None),
            Err(InsertFault::Memory(error)) => return Err(error),
        }
    }
    Ok(Some(values))
}
