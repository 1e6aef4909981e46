//! A value in a text that was read.

ghost use Rattle.std.specs.Prelude.{◌≡◌, is_some, option_and_then, option_map, true};
ghost use Rattle.json.specs.Find as tree;
ghost use Rattle.json.specs.Value.{items_view as trees_view, value_view};
ghost use Rattle.serde_json.specs.Find.{as_array, as_bool, as_null, as_number, as_object, as_str, as_u64, get};
ghost use Rattle.serde_json.specs.Read.{of_json};

use crate::list::Nodes;
use crate::numbers;
use json::Value;

/// A value of a document that is lent for `'v`, in a text that is lent for `'a`. A contract sees the
/// data that `serde_json` reads there.
#[derive(Clone, Copy)]
pub struct Node<'v, 'a> {
    pub(crate) value: &'v Value<'a>,
    ghost has_data: { is_some (of_json (value_view value.now)) ≡ true },
}

impl<'v, 'a> Node<'v, 'a> {
    ghost use Rattle.sn_json.specs.Views.{items_view, view};

    /// The last member of this name, where this is an object.
    pub fn get(self, name: &str) -> Option<Node<'v, 'a>>
        ensures { option_map view result ≡ get name.now (view self.entry) }
    {
        match self.value.get(name) {
            Some(value) => Some(Node { value }),
            None => None,
        }
    }

    pub fn as_str(self) -> Option<&'a str>
        ensures { option_map (λ s. s.now) result ≡ as_str (view self.entry) }
    {
        self.value.as_str()
    }

    pub fn as_bool(self) -> Option<bool>
        ensures { result ≡ as_bool (view self.entry) }
    {
        self.value.as_bool()
    }

    /// The whole number, without sign, fraction or exponent.
    pub fn as_u64(self) -> Option<u64>
        ensures { result ≡ option_and_then as_u64 (as_number (view self.entry)) }
    {
        numbers::unsigned(self.value.as_number()?)
    }

    pub fn is_null(self) -> bool
        ensures { result ≡ is_some (as_null (view self.entry)) }
    {
        self.value.is_null()
    }

    pub fn is_object(self) -> bool
        ensures { result ≡ is_some (as_object (view self.entry)) }
    {
        is_object(self.value)
    }

    /// The values of a list.
    pub fn as_array(self) -> Option<Nodes<'v, 'a>>
        ensures { option_map items_view result ≡ as_array (view self.entry) }
    {
        match items_in(self.value) {
            Some(values) => Some(Nodes { values }),
            None => None,
        }
    }
}

fn is_object(value: &Value<'_>) -> bool
    ensures { result ≡ is_some (tree.as_object (value_view value.now)) }
{
    matches!(value, Value::Object(_))
}

fn items_in<'v, 'a>(value: &'v Value<'a>) -> Option<&'v [Value<'a>]>
    ensures { option_map (λ values. trees_view values.now) result
        ≡ tree.as_array (value_view value.now) }
{
    if let Value::Array(values) = value {
        Some(values.as_slice())
    } else {
        None
    }
}
