//! Which keys entries have, and with which values.
ghost use Rattle.std.specs.Prelude.{◌≡◌, ◌∷◌, [], codes, option_map};
ghost use Rattle.std.specs.List.{list_all};
ghost use Rattle.toml.specs.Data.{get_member};
ghost use Rattle.toml.specs.View.{table_view, view};
ghost use Rattle.limits_file.specs.Bindings.{binding_form, is_binding_kind, is_count, suits_binding};
ghost use Rattle.limits_file.specs.Entries.{has_key, has_needed_keys, text_at};
ghost use Rattle.limits_file.specs.Inputs.{input_form, is_bound_key, suits_input};
ghost use Rattle.pap_tree.specs.Names.{is_name};
ghost use Rattle.range_faults.specs.EntryFaults.{entry_form};
ghost use Rattle.range_faults.specs.private.FaultViews.{named_entry};

use crate::Section;
use pap_tree::Name;
use toml::{Table, Value};

/// The entry of a key that is the name of an input.
pub(crate) fn named_entry<'a>(name: &str, value: &'a Value) -> Option<&'a Table>
    ensures { option_map (λ entry. table_view entry.now) result
        ≡ named_entry name.now (view value.now) }
{
    if is_name(name) {
        value.as_table()
    } else {
        None
    }
}

/// Whether a text is a name.
fn is_name(text: &str) -> bool
    ensures { result ≡ is_name text.now }
{
    Name::read(text.as_bytes()).is_some()
}

/// Whether an entry of a section may have this key with this value.
pub(crate) fn suits(section: Section, entry: &Table, key: &str, value: &Value) -> bool
    ensures { result
        ≡ (entry_form section).suits (table_view entry.now) key.now (view value.now) }
{
    match section {
        Section::Bind => suits_binding(is_count(entry), key, value),
        Section::Input => suits_input(key, value),
    }
}

/// Whether an entry of a section has each key that it needs.
pub(crate) fn has_needed_keys(section: Section, entry: &Table) -> bool
    ensures { result ≡ has_needed_keys (entry_form section) (table_view entry.now) }
{
    match section {
        Section::Bind => has_binding_keys(entry),
        Section::Input => has_input_keys(entry),
    }
}

/// Whether a binding's entry has each key that it needs.
fn has_binding_keys(entry: &Table) -> bool
    ensures { result ≡ has_needed_keys binding_form (table_view entry.now) }
{
    if is_count(entry) {
        return has_key(entry, "kind");
    }
    has_both(entry)
}

/// Whether an entry has a kind and an output.
fn has_both(entry: &Table) -> bool
    ensures { result
        ≡ list_all (has_key (table_view entry.now)) (codes "kind" ∷ codes "output" ∷ []) }
{
    has_key(entry, "kind") && has_key(entry, "output")
}

/// Whether an input's entry has its three keys.
fn has_input_keys(entry: &Table) -> bool
    ensures { result ≡ has_needed_keys input_form (table_view entry.now) }
{
    has_key(entry, "low") && has_key(entry, "high") && has_key(entry, "places")
}

/// The value at a key.
fn value_at<'a>(table: &'a Table, key: &str) -> Option<&'a Value>
    ensures { option_map (λ value. view value.now) result
        ≡ get_member key.now (table_view table.now) }
{
    table.get(key)
}

/// Whether a key is there.
fn has_key(table: &Table, key: &str) -> bool
    ensures { result ≡ has_key (table_view table.now) key.now }
{
    value_at(table, key).is_some()
}

/// The text at a key of an entry.
fn text_at<'a>(entry: &'a Table, key: &str) -> Option<&'a str>
    ensures { option_map (λ text. text.now) result ≡ text_at key.now (table_view entry.now) }
{
    match value_at(entry, key) {
        Some(Value::String(text)) => Some(text.as_str()),
        _ => None,
    }
}

/// Whether the entry's kind is `count`.
fn is_count(entry: &Table) -> bool
    ensures { result ≡ is_count (table_view entry.now) }
{
    match text_at(entry, "kind") {
        Some(kind) => kind == "count",
        None => false,
    }
}

/// Whether a binding's entry, whose kind is `count` or isn't, may have this key with this value.
fn suits_binding(counts: bool, key: &str, value: &Value) -> bool
    ensures { result ≡ suits_binding counts key.now (view value.now) }
{
    let Value::String(text) = value else {
        return false;
    };
    (key == "kind" && is_kind(text))
        || (key == "output" && Name::read(text.as_bytes()).is_some() && !counts)
}

fn is_kind(text: &str) -> bool
    ensures { result ≡ is_binding_kind text.now }
{
    text == "sum" || text == "last" || text == "count"
}

/// Whether an input's entry may have this key with this value.
fn suits_input(key: &str, value: &Value) -> bool
    ensures { result ≡ suits_input key.now (view value.now) }
{
    match value {
        Value::Integer(_) => is_bound_key(key) || key == "places",
        Value::String(_) => is_bound_key(key),
        _ => false,
    }
}

fn is_bound_key(key: &str) -> bool
    ensures { result ≡ is_bound_key key.now }
{
    key == "low" || key == "high"
}
