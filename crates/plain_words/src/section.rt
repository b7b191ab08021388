//! The tables of entries of a range file, and what is wrong with their entries.
use pap_tree::Name;
pub(crate) use range_faults::Section;
use std::alloc::AllocError;
use toml::{Table, Value};

/// What the entries of a table have.
fn rule(section: Section) -> &'static str {
    match section {
        Section::Bind => {
            "an entry of bind has kind, \"sum\", \"last\" or \"count\", and, but for \"count\", output, the name of an output"
        }
        Section::Input => {
            "an entry of input has low and high, whole numbers or decimals in quotation marks, and places, a whole number"
        }
    }
}

/// How an entry is written, where a value stands in its place.
fn form(section: Section) -> &'static str {
    match section {
        Section::Bind => {
            "write an entry: the line [bind.NAME] with the name of the input, and below it the lines kind = \"sum\" and output = \"NAME\""
        }
        Section::Input => {
            "write an entry: the line [input.NAME] with the name of the input, and below it a line each for low, high and places, as low = 0"
        }
    }
}

/// Appends, behind the name of an entry, why it fails by its own key, and gives what helps: its value is no table, its name isn't that of
/// an input, or it lacks keys.
pub(crate) fn write_entry_fault(
    told: &mut String,
    section: Section,
    name: &str,
    value: Option<&Value>,
) -> Result<&'static str, AllocError> {
    match value {
        Some(Value::Table(_)) if Name::read(name.as_bytes()).is_none() => {
            told.push_str("doesn't have the name of an input")?;
            Ok("an entry has the name of an input: a letter or _, and then letters, digits and _")
        }
        Some(Value::Table(entry)) => {
            write_lacking(told, section, entry)?;
            Ok(rule(section))
        }
        Some(Value::Array(_)) => {
            told.push_str("is a list, as a heading in double brackets begins one")?;
            Ok("write the heading of an entry in single brackets, as [input.NAME]")
        }
        _ => {
            told.push_str("has a value in place of keys of its own")?;
            Ok(form(section))
        }
    }
}

/// Appends, behind the name of a key of an entry, that it isn't one of its keys, or that its value isn't of its form, and gives what helps.
pub(crate) fn write_key_fault(
    told: &mut String,
    section: Section,
    key: &str,
    entry: &Table,
) -> Result<&'static str, AllocError> {
    if !has_key(section, key) {
        told.push_str("isn't one of its keys")?;
        return Ok(rule(section));
    }
    if key == "output" && counts(entry) {
        told.push_str("stands beside kind = \"count\", which has no output")?;
        return Ok("take output out");
    }
    if (key == "low" || key == "high") && is_unquoted(entry, key) {
        told.push_str("has a decimal without quotation marks")?;
        return Ok("write it in quotation marks, as high = \"9.5\"");
    }
    told.push_str("has a value that isn't of its form")?;
    Ok(rule(section))
}

/// The keys that an entry needs.
fn needed_keys(section: Section, entry: &Table) -> &'static [&'static str] {
    match section {
        Section::Bind if counts(entry) => &["kind"],
        Section::Bind => &["kind", "output"],
        Section::Input => &["low", "high", "places"],
    }
}

/// Appends which keys an entry lacks: `lacks the key high`, `lacks the keys low, high and places`.
fn write_lacking(told: &mut String, section: Section, entry: &Table) -> Result<(), AllocError> {
    let count = count_lacking(section, entry);
    let noun = if count == 1 { "key" } else { "keys" };
    write!(told, "lacks the {noun}")?;
    let mut before = 0usize;
    for key in needed_keys(section, entry) {
        if entry.get(*key).is_none() {
            let comma = separator(before, count);
            write!(told, "{comma} {key}")?;
            before = before.saturating_add(1);
        }
    }
    Ok(())
}

/// How many keys an entry lacks.
fn count_lacking(section: Section, entry: &Table) -> usize {
    needed_keys(section, entry)
        .iter()
        .filter(|key| entry.get(**key).is_none())
        .count()
}

/// What stands in a list before the blank and the next of so many parts, where some stand before it.
fn separator(before: usize, count: usize) -> &'static str {
    if before == 0 {
        ""
    } else if before.saturating_add(1) == count {
        " and"
    } else {
        ","
    }
}

/// Whether an entry of a table may have this key.
fn has_key(section: Section, key: &str) -> bool {
    match section {
        Section::Bind => key == "kind" || key == "output",
        Section::Input => is_input_key(key),
    }
}

/// Whether an entry of an input may have this key.
fn is_input_key(key: &str) -> bool {
    key == "low" || key == "high" || key == "places"
}

/// Whether a key is one that entries have.
pub(crate) fn is_entry_key(key: &str) -> bool {
    has_key(Section::Bind, key) || has_key(Section::Input, key)
}

/// Whether the kind of an entry is `count`.
fn counts(entry: &Table) -> bool {
    match entry.get("kind") {
        Some(Value::String(kind)) => kind.as_str() == "count",
        _ => false,
    }
}

/// Whether the value of a key is a decimal without quotation marks.
fn is_unquoted(entry: &Table, key: &str) -> bool {
    matches!(entry.get(key), Some(Value::Float(_)))
}
