//! What is told above a run's steps.
ghost use Rattle.std.specs.Prelude.{◌≡◌, ◌++◌, ◌≤◌, length, map, OnOk};
ghost use Rattle.std.specs.List.{flat_map};
ghost use Rattle.pap_tree.specs.Declarations.{declaration_of};
ghost use Rattle.run_trace.specs.RunTexts.{input_line, input_lines, output_line, given_word};

use pap_tree::{Declared, Name};
use payroll_records::{NamedValue, Values};
use scaled_decimal::Dec;
use std::alloc::{AllocError, Global};

/// Appends a line for each input.
pub(crate) fn write_inputs(
    alloc: Global,
    out: &mut Vec<u8>,
    given: &Values,
    declared: &[Declared],
    inputs: &[Dec],
) -> Result<(), AllocError>
    requires { length declared.now ≤ length inputs.now }
    ensures { OnOk result (out.new.items ≡ out.old.items
        ++ input_lines given.now (map declaration_of declared.now) inputs.now) }
{
    for (at, input) in declared.iter().enumerate() {
        write_input(alloc, out, given, &input.name, inputs[at])?;
    }
    Ok(())
}

/// Appends the line of an input.
fn write_input(
    alloc: Global,
    out: &mut Vec<u8>,
    given: &Values,
    name: &Name,
    value: Dec,
) -> Result<(), AllocError>
    ensures { OnOk result (out.new.items ≡ out.old.items
        ++ input_line given.now name.now value) }
{
    let word = given_word(given, name);
    let line = format!(in alloc; "input {name} = {value}  {word}\n")?;
    out.extend_from_slice(line.as_bytes())
}

/// Whether a value is given, in words.
pub(crate) fn given_word(given: &Values, name: &Name) -> &'static str
    ensures { result.now ≡ given_word given.now name.now }
{
    match given.find(name) {
        Some(_) => "given",
        None => "not given",
    }
}

/// Appends a line for each output.
pub(crate) fn write_outputs(
    alloc: Global,
    out: &mut Vec<u8>,
    outputs: &[NamedValue],
) -> Result<(), AllocError>
    ensures { OnOk result (out.new.items
        ≡ out.old.items ++ flat_map output_line outputs.now) }
{
    for output in outputs {
        write_output(alloc, out, output)?;
    }
    Ok(())
}

/// Appends the line of an output.
fn write_output(alloc: Global, out: &mut Vec<u8>, output: &NamedValue) -> Result<(), AllocError>
    ensures { OnOk result (out.new.items ≡ out.old.items ++ output_line output.now) }
{
    let name = output.name;
    let value = output.value;
    let line = format!(in alloc; "output {name} = {value}\n")?;
    out.extend_from_slice(line.as_bytes())
}
