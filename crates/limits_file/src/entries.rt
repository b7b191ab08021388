//! The tables of a range file.
ghost use Rattle.std.specs.Prelude.{◌≡◌, option_map};
ghost use Rattle.toml.specs.Data.{get_member};
ghost use Rattle.toml.specs.View.{table_view, view};
ghost use Rattle.limits_file.specs.Entries.{has_key};

use toml::{Table, Value};

/// The value at a key.
pub(crate) fn value_at<'a>(table: &'a Table, key: &str) -> Option<&'a Value>
    ensures { option_map (λ value. view value.now) result
        ≡ get_member key.now (table_view table.now) }
{
    table.get(key)
}

/// Whether a key is there.
pub(crate) fn has_key(table: &Table, key: &str) -> bool
    ensures { result ≡ has_key (table_view table.now) key.now }
{
    value_at(table, key).is_some()
}
