//! The words of a pay run: an employee, a month and a day, and values.
ghost use Rattle.std.specs.Prelude.{◌≡◌, ◌≤◌, [], ◌∷◌, IfErr, IfOk, IfSome, IsTrue, MatchResult, length};
ghost use Rattle.payroll_records.specs.Days.{IsMonthText};
ghost use Rattle.payroll_records.specs.Employees.{is_employee};
ghost use Rattle.payroll_records.specs.Limits.{most_values};
ghost use Rattle.payroll_records.specs.Tables.{Text};
ghost use Rattle.payroll_records.specs.ValueWords.{AreValueWords};
ghost use Rattle.payroll_records.specs.Whens.{IsWhenText};
ghost use Rattle.script_lang.specs.Fields as field;
ghost use Rattle.script_lang.specs.Fields.{time_field, value_fields};
ghost use Rattle.script_lang.specs.Lines as lines;
ghost use Rattle.script_lang.specs.Lines.{IsDayWord, IsOfRecord};
ghost use Rattle.script_lang.specs.private.Views.{Breaks, BreaksIn, IsFaultOf, texts};

use crate::LineFault;
use payroll_records::{
    Day, Employee, InsertFault, MOST_VALUES, Month, NameOrder, NamedValue, Record, Values, When,
};
use std::alloc::{AllocError, Global};

/// The number of a line's first value word.
const FIRST_VALUE: u32 = 5;

/// The words behind `add` and `change`: `EMP MONTH DAY NAME=VALUE ..`. `order` is that of the names of an earlier line, and then of
/// this one.
pub(crate) fn read_record(
    alloc: Global,
    rest: &[&[u8]],
    order: &mut Option<NameOrder>,
) -> Result<Record, LineFault>
    ensures ok { (command : Text) → IfOk result (IsOfRecord command (command ∷ texts rest.now)) }
    ensures err { IfErr result (IsFaultOf lines.add (texts rest.now)) }
{
    let [employee, month, day, values @ ..] = rest else {
        return Err(LineFault::Words);
    };
    if values.len() > MOST_VALUES {
        return Err(LineFault::Words);
    }
    let employee = read_employee(employee)?;
    let day = read_day_in(month, day)?;
    let values = read_values(alloc, values, order)?;
    Ok(Record {
        employee,
        day,
        values,
    })
}

/// The employee of a word.
pub(crate) fn read_employee(word: &[u8]) -> Result<Employee, LineFault>
    ensures { MatchResult result (λ e. (e ≡ word.now) × IsTrue (is_employee word.now))
        (Breaks (field.employee word.now)) }
{
    Employee::read(word).ok_or(LineFault::Employee)
}

/// The day of a word.
pub(crate) fn read_day(word: &[u8]) -> Result<Day, LineFault>
    ensures { MatchResult result (IsDayWord word.now) (Breaks (field.day word.now)) }
{
    Day::read(word).ok_or(LineFault::Day)
}

/// The month of a word.
pub(crate) fn read_month(word: &[u8]) -> Result<Month, LineFault>
    ensures { MatchResult result (λ m. IsMonthText word.now m.year m.month)
        (Breaks (field.month word.now)) }
{
    Month::read(word).ok_or(LineFault::Month)
}

/// A month, or a day: a word of 7 bytes is to be a month.
pub(crate) fn read_when(word: &[u8]) -> Result<When, LineFault>
    ensures { MatchResult result (IsWhenText word.now) (Breaks (time_field word.now)) }
{
    if word.len() == 7 {
        return read_month(word).map(When::Month);
    }
    read_day(word).map(When::Day)
}

/// The day of a word, in the month of the word before it.
fn read_day_in(month: &[u8], day: &[u8]) -> Result<Day, LineFault>
    ensures { MatchResult result
        (λ d. IsMonthText month.now d.year d.month × IsDayWord day.now d)
        (BreaksIn (field.month month.now ∷ field.day_in month.now day.now ∷ [])) }
{
    let month = read_month(month)?;
    let day = read_day(day)?;
    if Month::of_day(day) != month {
        return Err(LineFault::Day);
    }
    Ok(day)
}

/// The values of value words, by the order of names of an earlier line where they have these names. Else it becomes their order.
fn read_values(
    alloc: Global,
    words: &[&[u8]],
    order: &mut Option<NameOrder>,
) -> Result<Values, LineFault>
    requires { length words.now ≤ most_values }
    ensures ok { IfOk result (AreValueWords (texts words.now)) }
    ensures err { IfErr result (BreaksIn (value_fields [] (texts words.now))) }
{
    if let Some(values) = read_by_order(alloc, words, order.as_ref())? {
        return Ok(values);
    }
    let values = read_word_by_word(alloc, words)?;
    let (values, of_words) = NameOrder::of_words(alloc, words, values)?;
    *order = Some(of_words);
    Ok(values)
}

/// The values of value words whose names have this order. `None` where they haven't, or a word is not readable.
fn read_by_order(
    alloc: Global,
    words: &[&[u8]],
    order: Option<&NameOrder>,
) -> Result<Option<Values>, AllocError>
    ensures { IfOk result (λ found. IfSome found (AreValueWords (texts words.now))) }
{
    match order {
        Some(order) => order.read(alloc, words),
        None => Ok(None),
    }
}

/// The values of value words, whatever their names.
fn read_word_by_word(alloc: Global, words: &[&[u8]]) -> Result<Values, LineFault>
    requires { length words.now ≤ most_values }
    ensures ok { IfOk result (AreValueWords (texts words.now)) }
    ensures err { IfErr result (BreaksIn (value_fields [] (texts words.now))) }
{
    let mut values = Values::with_room(alloc, words.len())?;
    let mut number = FIRST_VALUE;
    for word in words {
        let Some(value) = NamedValue::read(word) else {
            return Err(LineFault::Value { word: number });
        };
        let name = value.name;
        match values.insert(value) {
            Ok(()) => number += 1,
            Err(InsertFault::Twice) => return Err(LineFault::Twice { name }),
            // There are no more words than a run may have values.
            Err(InsertFault::Full) => unreachable!(),
            Err(InsertFault::Memory(error)) => return Err(LineFault::Memory(error)),
        }
    }
    Ok(values)
}
