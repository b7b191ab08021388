//! The ranges of internals over the whole run.
ghost use Rattle.std.specs.Prelude.{◌≡◌, IfOk, OnOk, All, map, option_copied};
ghost use Rattle.pap_tree.specs.Declarations.{declaration_of};
ghost use Rattle.pap_tree.specs.Flowchart.{flowchart_of};
ghost use Rattle.pap_types.specs.Typing.{HasItsType};
ghost use Rattle.interval_walk.specs.Ranges.{single};
ghost use Rattle.interval_analysis.specs.Surveys.{value_range};
ghost use Rattle.statement_list.specs.Statements.{listed_methods};
ghost use Rattle.range_marks.specs.RangeTexts.{ends_text};
ghost use Rattle.range_marks.specs.RangeMarks.{findings_in};
ghost use Rattle.range_marks.specs.InternalRanges.{begun_range, AssignsIn, IsAssigned, AreInternalRanges};
ghost use Rattle.range_marks.specs.private.InternalViews.{IsInternal, Joins, PutsFound, PutsHere};

use crate::marks::method_name_at;
use crate::place::place_of;
use crate::text::ends_text;
use interval_analysis::{Survey, ValueRange};
use pap_tree::{Declared, Name};
use pap_types::{Typed, first_value};
use scaled_decimal::Dec;
use statement_list::{Form, ListedMethod, ListedStatement, list_statements};
use std::alloc::{AllocError, Global};

/// The ranges of a flowchart's internals over the whole run, as texts in declared order: each is the least range around what the
/// internal begins with and all that the walk found that EVALs put into it. Takes time linear in the flowchart, with a factor
/// logarithmic in its statements and in its names at each of them. Fails only for lack of memory.
pub fn internal_ranges(
    alloc: Global,
    plan: &Typed,
    survey: &Survey,
) -> Result<Vec<Vec<u8>>, AllocError>
    ensures { IfOk result (λ texts. AreInternalRanges (flowchart_of plan.now)
        (findings_in survey.now) (map (λ t. t.items) texts.items)) }
{
    let text = plan.plan();
    let mut ranges = begun_ranges(alloc, text.internals.as_slice())?;
    let methods = list_statements(alloc, text)?;
    join_methods(&mut ranges, plan, survey, &methods)?;
    range_texts(alloc, &ranges)
}

/// The ranges of what variables begin with.
fn begun_ranges(alloc: Global, variables: &[Declared]) -> Result<Vec<ValueRange>, AllocError>
    requires { All HasItsType (map declaration_of variables.now) }
    ensures { IfOk result (λ ranges. ranges.items
        ≡ map begun_range (map declaration_of variables.now)) }
{
    let mut ranges = Vec::with_capacity(alloc, variables.len())?;
    for variable in variables {
        ranges.push(single(first_value(variable)))?;
    }
    Ok(ranges)
}

/// The range of a single value.
fn single(value: Dec) -> ValueRange
    ensures { result ≡ value_range (single value) }
{
    ValueRange {
        least: value,
        greatest: value,
        fewest_places: value.scale(),
        most_places: value.scale(),
    }
}

/// Joins the ranges of a plan's internals with what the statements of its methods put.
fn join_methods(
    ranges: &mut [ValueRange],
    plan: &Typed,
    survey: &Survey,
    methods: &[ListedMethod],
) -> Result<(), AllocError>
    requires { methods.now ≡ listed_methods (flowchart_of plan.now) }
    ensures { OnOk result (Joins (flowchart_of plan.now).internals
        (IsAssigned (flowchart_of plan.now) (findings_in survey.now)) ranges.old ranges.new) }
{
    for (number, method) in methods.iter().enumerate() {
        let name = method_name_at(plan.plan(), number);
        join_statements(ranges, plan, survey, &name, method.statements())?;
    }
    Ok(())
}

/// Joins them with what the statements of a method of this name put.
fn join_statements(
    ranges: &mut [ValueRange],
    plan: &Typed,
    survey: &Survey,
    name: &Name,
    statements: &[ListedStatement],
) -> Result<(), AllocError>
    ensures { OnOk result (Joins (flowchart_of plan.now).internals
        (AssignsIn (findings_in survey.now) name.now statements.now) ranges.old ranges.new) }
{
    for (at, statement) in statements.iter().enumerate() {
        let place = place_of(name, at)?;
        join_statement(ranges, plan, survey, &place, statement.form());
    }
    Ok(())
}

/// Joins them with what the statement of a place puts.
fn join_statement(
    ranges: &mut [ValueRange],
    plan: &Typed,
    survey: &Survey,
    place: &(Name, u32),
    form: Form,
)
    ensures { Joins (flowchart_of plan.now).internals
        (PutsHere (findings_in survey.now) place.now form) ranges.old ranges.new }
{
    match form {
        Form::Set(target) => join_found(ranges, plan, &target, survey.values.get(place)),
        Form::Test | Form::Enter(_) => {}
    }
}

/// Joins the range of the internal of a name with what is put into it, where the name is an internal's and a range is known.
fn join_found(ranges: &mut [ValueRange], plan: &Typed, target: &Name, found: Option<&ValueRange>)
    ensures { Joins (flowchart_of plan.now).internals
        (PutsFound target.now (option_copied found.entry)) ranges.old ranges.new }
{
    let Some(range) = found else {
        return;
    };
    let Some(number) = internal_number(plan, target) else {
        return;
    };
    if number < ranges.len() {
        ranges[number] = ranges[number].joined(range);
    }
}

/// The number of the internal of a name among the internals, from 0.
fn internal_number(plan: &Typed, name: &Name) -> Option<usize>
    ensures { IsInternal (flowchart_of plan.now) name.now result }
{
    let text = plan.plan();
    let number = plan.variable(name)?;
    let behind_inputs = number.checked_sub(text.inputs.len())?;
    behind_inputs.checked_sub(text.outputs.len())
}

/// The texts of ranges.
fn range_texts(alloc: Global, ranges: &[ValueRange]) -> Result<Vec<Vec<u8>>, AllocError>
    ensures { IfOk result (λ texts. map (λ t. t.items) texts.items ≡ map ends_text ranges.now) }
{
    let mut texts = Vec::with_capacity(alloc, ranges.len())?;
    for range in ranges {
        texts.push(ends_text(alloc, range)?)?;
    }
    Ok(texts)
}
