//! The values of a list in a text that was read.

ghost use Rattle.std.specs.Prelude.{◌≡◌, is_some, true, MatchOption};
ghost use Rattle.json.specs.Value.{items_view as trees_view};
ghost use Rattle.serde_json.specs.Data.{item, no_items};
ghost use Rattle.serde_json.specs.Read.{of_items};

use crate::node::Node;
use json::Value;

/// The values of a list, in order, which are lent. A contract sees the data of each.
#[derive(Clone, Copy)]
pub struct Nodes<'v, 'a> {
    pub(crate) values: &'v [Value<'a>],
    ghost have_data: { is_some (of_items (trees_view values.now)) ≡ true },
}

impl<'v, 'a> Nodes<'v, 'a> {
    ghost use Rattle.sn_json.specs.Views.{items_view, view};

    /// The first value and the rest.
    pub fn split_first(self) -> Option<(Node<'v, 'a>, Nodes<'v, 'a>)>
        ensures { MatchOption result (items_view self.entry ≡ no_items)
            (λ parts. items_view self.entry ≡ item (view parts.0) (items_view parts.1)) }
    {
        match self.values.split_first() {
            Some((value, values)) => Some((Node { value }, Nodes { values })),
            None => None,
        }
    }
}
