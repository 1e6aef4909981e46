//! Whether a tree has a value: each number in it has one.

ghost use Rattle.std.specs.Prelude.{◌≡◌, is_some};
ghost use Rattle.json.specs.Value.{items_view, members_view, value_view};
ghost use Rattle.serde_json.specs.Data.{no_members};
ghost use Rattle.serde_json.specs.Read.{of_items, of_json, of_members};

use crate::numbers;
use json::Value;

/// Whether the tree has a value.
#[cycle(values)]
pub(crate) fn has_value(tree: &Value<'_>) -> bool
    ensures { result ≡ is_some (of_json (value_view tree.now)) }
{
    match tree {
        Value::Null | Value::Bool(_) | Value::String(_) => true,
        Value::Number(text) => numbers::has_value(text),
        Value::Array(items) => items_have_values(items),
        Value::Object(members) => members_have_values(members),
    }
}

#[cycle(values)]
fn items_have_values(items: &[Value<'_>]) -> bool
    ensures { result ≡ is_some (of_items (items_view items.now)) }
{
    for item in items {
        if !has_value(item) {
            return false;
        }
    }
    true
}

#[cycle(values)]
fn members_have_values(members: &[(&str, Value<'_>)]) -> bool
    ensures { result ≡ is_some (of_members (members_view members.now) no_members) }
{
    for member in members {
        if !has_value(&member.1) {
            return false;
        }
    }
    true
}
