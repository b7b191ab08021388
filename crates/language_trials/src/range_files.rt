//! Range files: how many inputs and bindings one has.
use limits_file::read_limits;
use std::test::Fail;
use trial_rows::all_rows;

/// Texts, and how many inputs and bindings they have, or their first fault.
const TEXTS: &str = r#" => 0 inputs, 0 bindings
# no ranges\n => 0 inputs, 0 bindings
[input]\n[bind]\n => 0 inputs, 0 bindings
[input.RE4]\nlow = 0\nhigh = "10000000000"\nplaces = 0\n[input.SUMV]\nlow = 0\nhigh = 100000000\nplaces = 0\n[bind.SUMV]\nkind = "sum"\noutput = "LST"\n => 2 inputs, 1 bindings
input.A = { low = "-0.50", high = "1.5", places = 2 } => 1 inputs, 0 bindings
input.A = { low = 0x10, high = 1_000, places = +3 } => 1 inputs, 0 bindings
[bind.N]\nkind = "count"\n => 0 inputs, 1 bindings
[bind.N]\nkind = "last"\noutput = "LST"\n => 0 inputs, 1 bindings
256 x [input.A{n}]\nlow = 0\nhigh = 1\nplaces = 0\n => 256 inputs, 0 bindings
257 x [input.A{n}]\nlow = 0\nhigh = 1\nplaces = 0\n => Bound { name: "A256" }
[input.RE4 => Toml
[other] => Key { name: "other" }
4096 x ################################################################ => 0 inputs, 0 bindings
4096 x ################################################################ ~ # => LimitsLong"#;

/// Writes how many inputs and bindings a text has, or its fault.
fn read(asked: &str, text: &mut String) -> Result<(), Fail> {
    match read_limits(*text.allocator(), asked.as_bytes()) {
        Ok(limits) => {
            let inputs = limits.inputs.as_slice().len();
            let bindings = limits.bindings.as_slice().len();
            write!(text, "{inputs} inputs, {bindings} bindings")?;
        }
        Err(fault) => write!(text, "{fault:?}")?,
    }
    Ok(())
}

#[test]
fn each_text_has_its_answer(rt: HostRuntime) -> Result<(), Fail> {
    all_rows(rt.alloc(), TEXTS, read)
}
