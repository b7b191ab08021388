//! `[bind]`: what inputs carry over from earlier runs.
ghost use Rattle.std.specs.Prelude.{◌≡◌, ℕ, MatchOption, IfOk, map, None, false, option_map};
ghost use Rattle.toml.specs.View.{view, table_view};
ghost use Rattle.limits_file.specs.private.AnswerViews.{Tells};
ghost use Rattle.limits_file.specs.Entries.{first_unsuited, text_at};
ghost use Rattle.limits_file.specs.private.BindingViews.{is_whole, GivesCarry};
ghost use Rattle.limits_file.specs.RangeFiles.{NamesAscend};
ghost use Rattle.limits_file.specs.Walks.{AllOrFirstFault};
ghost use Rattle.limits_file.specs.Bindings.{is_count, is_binding_kind, suits_binding, binding_form, BindingSays};

use crate::entries::value_at;
use crate::{Binding, Carry, Items, LimitsFault};
use pap_tree::Name;
use std::alloc::Global;
use toml::{Table, Value};

/// The bindings of `[bind]`.
pub(crate) fn read_bindings(alloc: Global, entries: &Table) -> Result<Items<Binding>, LimitsFault>
    ensures says { Tells (AllOrFirstFault BindingSays 0 (table_view entries.now)) result }
    ensures in_order { IfOk result
        (λ bindings. NamesAscend (map (λ binding. binding.input) bindings)) }
{
    let mut bindings = Vec::new(alloc);
    for (key, value) in entries {
        let Binding { input, carry } = read_binding(key, value)?;
        bindings.push(Binding { input, carry })?;
    }
    Ok(Items::from_vec(bindings))
}

/// What the entry of a binding says.
fn read_binding(key: &str, value: &Value) -> Result<Binding, LimitsFault>
    ensures { (n : ℕ) → Tells (BindingSays n key.now (view value.now)) result }
{
    let Value::Table(entry) = value else {
        return Err(LimitsFault::key(key));
    };
    let Some(input) = Name::read(key.as_bytes()) else {
        return Err(LimitsFault::key(key));
    };
    if let Some(unsuited) = unsuited_binding_key(entry) {
        return Err(LimitsFault::key(unsuited));
    }
    match carry_of(entry) {
        Some(carry) => Ok(Binding { input, carry }),
        None => Err(LimitsFault::key(key)),
    }
}

/// The first key that has no place in a binding's entry, or whose value doesn't suit it.
pub fn unsuited_binding_key(entry: &Table) -> Option<&str>
    ensures { option_map (λ key. key.now) result
        ≡ first_unsuited (binding_form.suits (table_view entry.now)) (table_view entry.now) }
{
    let counts = is_count(entry);
    for (key, value) in entry {
        if !suits(counts, key, value) {
            return Some(key.as_str());
        }
    }
    None
}

/// Whether the entry's kind is `count`.
fn is_count(entry: &Table) -> bool
    ensures { result ≡ is_count (table_view entry.now) }
{
    match text_at(entry, "kind") {
        Some(kind) => kind == "count",
        None => false,
    }
}

/// The text at a key of an entry.
fn text_at<'a>(entry: &'a Table, key: &str) -> Option<&'a str>
    ensures { option_map (λ text. text.now) result ≡ text_at key.now (table_view entry.now) }
{
    match value_at(entry, key) {
        Some(Value::String(text)) => Some(text.as_str()),
        _ => None,
    }
}

fn is_kind(text: &str) -> bool
    ensures { result ≡ is_binding_kind text.now }
{
    text == "sum" || text == "last" || text == "count"
}

/// Whether a binding's entry, whose kind is `count` or isn't, may have this key with this value.
fn suits(counts: bool, key: &str, value: &Value) -> bool
    ensures { result ≡ suits_binding counts key.now (view value.now) }
{
    let Value::String(text) = value else {
        return false;
    };
    (key == "kind" && is_kind(text))
        || (key == "output" && Name::read(text.as_bytes()).is_some() && !counts)
}

/// What the kind and the output say together. `None` where one is missing.
fn carry_of(entry: &Table) -> Option<Carry>
    requires { first_unsuited (binding_form.suits (table_view entry.now)) (table_view entry.now)
        ≡ None }
    ensures { MatchOption result (is_whole (table_view entry.now) ≡ false)
        (GivesCarry (table_view entry.now)) }
{
    let kind = text_at(entry, "kind")?;
    if kind == "count" {
        return Some(Carry::Count);
    }
    let output = Name::read(text_at(entry, "output")?.as_bytes())?;
    if kind == "sum" {
        Some(Carry::Sum(output))
    } else {
        Some(Carry::Last(output))
    }
}
